// The analysis, the join and its preview, and hiding a port, as programs in C and Rust call them (bindings/); `vundayre_c` exports them.
// It repeats each with its clauses, since the C interface wants a crate of its own.
#![tactic(auto)]

ghost use Rattle.std.specs.Prelude.{length};
ghost use Rattle.specification.specs.Analysed.{Analysed};
ghost use Rattle.specification.specs.Demanded.{Demanded};
ghost use Rattle.specification.specs.Joining.{join_into, JoinReturned, JoinDemanded};
ghost use Rattle.specification.specs.Previewing.{Previewed, PreviewDemanded};
ghost use Rattle.specification.specs.Hiding.{HideReturned};
ghost use Rattle.specification.specs.HiddenTimes.{HideDemanded};

use specification::{JoinOutcome, Outcome};

pub fn vundayre_analyse(table: &[u8], answer: &mut [u8]) -> Outcome
    ensures analysed { Analysed table.now answer.old answer.new result }
    ensures demands { Demanded table.now answer.old answer.new result }
{
    analysis::analyse(table, answer)
}

pub fn vundayre_join(first: &[u8], second: &[u8], added: &[u8], out: &mut [u8]) -> JoinOutcome
    ensures join_returned { JoinReturned (join_into first.now second.now added.now (length out.old)) out.old out.new result }
    ensures demands { JoinDemanded first.now second.now added.now out.old out.new result }
{
    joins::join(first, second, added, out)
}

pub fn vundayre_preview(first: &[u8], second: &[u8], added: &[u8], answer: &mut [u8]) -> JoinOutcome
    ensures previewed { Previewed first.now second.now added.now answer.old answer.new result }
    ensures demands { PreviewDemanded first.now second.now added.now answer.old answer.new result }
{
    previews::preview(first, second, added, answer)
}

pub fn vundayre_hide(table: &[u8], port: u64, out: &mut [u8]) -> Outcome
    ensures hide_returned { HideReturned table.now port out.old out.new result }
    ensures demands { HideDemanded table.now port out.old out.new result }
{
    hiding::hide(table, port as usize, out)
}
