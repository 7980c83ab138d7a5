// The preview of a join: the inputs are read as the join reads them, and the table in the slices is analysed; no joined table is made as bytes.
#![tactic(auto)]

ghost use Rattle.std.specs.Prelude.{◌+◌, length};
ghost use Rattle.specification.specs.Reading.{start};
ghost use Rattle.specification.specs.Encoding.{encode_table};
ghost use Rattle.specification.specs.Analysed.{Analysed};
ghost use Rattle.specification.specs.Previewing.{Previewed};
ghost use Rattle.table.specs.Filled.{Room};
ghost use Rattle.table.specs.Slices.{table_of};
ghost use Rattle.encoding.specs.ReadBack.{Writable};

use joins::inputs;
use refusals::Refusal;
use specification::{JoinOutcome, Outcome, limits};
use table::{Table, links, ports};

pub fn preview(first: &[u8], second: &[u8], added: &[u8], answer: &mut [u8]) -> JoinOutcome
    ensures { Previewed first.now second.now added.now answer.old answer.new result }
{
    // Their sum may be too large for a number.
    let bytes = first
        .len()
        .saturating_add(second.len())
        .saturating_add(added.len());
    // A port has 8 bytes, a link at least 16.
    if bytes <= 128 {
        preview_in(first, second, added, &mut [0; 32], &mut [0; 80], answer)
    } else if bytes <= 512 {
        preview_in(first, second, added, &mut [0; 128], &mut [0; 320], answer)
    } else {
        preview_in(
            first,
            second,
            added,
            &mut [0; 128],
            &mut links::room(),
            answer,
        )
    }
}

// The same with slices for the table.
fn preview_in(
    first: &[u8],
    second: &[u8],
    added: &[u8],
    ports: &mut [u32],
    links: &mut [u32],
    answer: &mut [u8],
) -> JoinOutcome
    requires { Room (length first.now + length second.now + length added.now) start (length ports.old) (length links.old) }
    ensures { Previewed first.now second.now added.now answer.old answer.new result }
{
    match inputs::read_inputs(first, second, added, ports, links) {
        Ok(read) => {
            let (ports, links) = read.cut(ports, links);
            let r = analyse_table(ports, links, answer);
            JoinOutcome {
                number: r.number,
                place: r.place,
                input: 0,
                written: r.written,
            }
        }
        Err(fault) => fault.into(),
    }
}

// 1, 12, or what the table comes to: the analysis of its bytes, without them.
fn analyse_table(ports: &[u32], links: &[u32], answer: &mut [u8]) -> Outcome
    requires { Writable start (table_of ports.now links.now) }
    ensures { Analysed (encode_table (table_of ports.now links.now)) answer.old answer.new result }
{
    if answer.len() < limits::LEAST_ROOM {
        return Refusal::ShortAnswer.into();
    }
    if ports::count(ports) == 0 {
        return Refusal::NoPort.into();
    }
    analysis::decide(&Table { ports, links }, answer)
}
