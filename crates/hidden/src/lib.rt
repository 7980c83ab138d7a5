// A table without one of its ports, as bytes: 18, 19, 7 and 16, or the records of the hidden table.
#![tactic(auto)]

ghost use Rattle.std.specs.Prelude.{◌≡◌};
ghost use Rattle.specification.specs.Hiding.{cannot_hide};
ghost use Rattle.table.specs.Held.{table_in};
ghost use Rattle.hidden.specs.HiddenIn.{HiddenIn, outcome};

use crate::sides::Sides;
use refusals::Refusal;
use specification::Outcome;
use table::Table;

mod after;
mod gather;
mod rate;
mod sides;
mod via;

// Hides port p of a consistent model into the buffer.
pub fn hide_in(table: &Table, p: usize, out: &mut [u8]) -> Outcome
    ensures { HiddenIn (table_in table.now) p out.old out.new result }
{
    match write_hidden(table, p, out) {
        Ok(written) => Outcome {
            number: 0,
            place: 0,
            written,
        },
        Err(refusal) => refusal.into(),
    }
}

// How many bytes it took.
fn write_hidden(table: &Table, p: usize, out: &mut [u8]) -> Result<usize, Refusal>
    ensures { HiddenIn (table_in table.now) p out.old out.new (outcome result) }
{
    if gather::cannot_hide(table, p) {
        return Err(Refusal::Held);
    }
    let mut into = [0u8; 256];
    let mut from = [0u8; 256];
    let mut apart = [0u8; 256];
    let sides = Sides {
        table,
        port: p,
        into: gather::numbers_of(table, |l| l.to == p, &mut into),
        from: gather::numbers_of(table, |l| l.from == p, &mut from),
        apart: gather::numbers_of(table, |l| !gather::touches_port(l, p), &mut apart),
    };
    sides.write(out)
}
