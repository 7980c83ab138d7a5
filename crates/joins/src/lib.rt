// Joins two tables and added connections and buffers to one table.
#![tactic(auto)]

ghost use Rattle.std.specs.Prelude.{◌≤◌, length};
ghost use Rattle.specification.specs.Encoding.{encode_table};
ghost use Rattle.specification.specs.Joining.{joined, fitted, join_into, JoinReturned};
ghost use Rattle.table.specs.Slices.{ports_of, links_of, table_of};
ghost use Rattle.encoding.specs.Bounded.{LinksFit};

use refusals::Refusal;
use specification::JoinOutcome;
use table::links;

pub mod inputs;

pub fn join(first: &[u8], second: &[u8], added: &[u8], out: &mut [u8]) -> JoinOutcome
    ensures { JoinReturned (join_into first.now second.now added.now (length out.old)) out.old out.new result }
{
    let mut ports = [0u32; 128];
    let mut links = links::room();
    match inputs::read_inputs(first, second, added, &mut ports, &mut links) {
        Ok(read) => {
            let (ports, links) = read.cut(&ports, &links);
            write_joined(ports, links, out)
        }
        Err(fault) => fault.into(),
    }
}

// 16, or the table.
fn write_joined(ports: &[u32], links: &[u32], out: &mut [u8]) -> JoinOutcome
    requires ports_len_bound { length (ports_of ports.now) ≤ 64 }
    requires links_fit { LinksFit (links_of links.now) }
    ensures { JoinReturned (fitted (joined (encode_table (table_of ports.now links.now))) (length out.old)) out.old out.new result }
{
    if out.len() < encoding::table_size(ports, links) {
        return JoinOutcome {
            number: Refusal::ShortTable.number(),
            place: 0,
            input: 0,
            written: 0,
        };
    }
    let written = encoding::write_table(ports, links, out);
    JoinOutcome {
        number: 0,
        place: 0,
        input: 0,
        written,
    }
}
