// Reads the inputs of a join in turn, each behind those before it.
ghost use Rattle.std.specs.Prelude.{◌≡◌, ◌+◌, length};
ghost use Rattle.specification.specs.Reading.{start};
ghost use Rattle.table.specs.Filled.{Room};
ghost use Rattle.joins.specs.Refusals.{refusal_of};
ghost use Rattle.joins.specs.InputsRead.{InputRead, TablesRead, InputsRead};

use refusals::Fault;
use specification::{Before, JoinOutcome};
use table::reading;
use table::reading::Counts;

// Each with the number that `JoinOutcome` has for it.
#[derive(Clone, Copy)]
pub enum Input {
    First = 1,
    Second = 2,
    Added = 3,
}

// A fault, its place within the input that has it, and how many ports and links of all inputs were read before it.
#[derive(Clone, Copy)]
pub struct InputFault {
    pub fault: Fault,
    pub input: Input,
    pub counts: Counts,
}

// What a join and a preview return of it.
impl From<InputFault> for JoinOutcome {
    ghost from_gives = { λ f o. o ≡ refusal_of f };

    fn from(fault: InputFault) -> JoinOutcome {
        JoinOutcome {
            number: fault.fault.refusal.number(),
            place: fault.fault.place,
            input: fault.input as u64,
            written: 0,
        }
    }
}

// Reads one input behind what was read before it.
fn read_input(
    s: &[u8],
    input: Input,
    before: Before,
    ports: &mut [u32],
    links: &mut [u32],
) -> Result<Counts, InputFault>
    requires { Room (length s.now) before (length ports.old) (length links.old) }
    ensures { InputRead s.now input before ports.old links.old ports.new links.new result }
{
    reading::read_on(s, before, ports, links).map_err(|read| InputFault {
        fault: read.fault,
        input,
        counts: read.counts,
    })
}

// The two tables.
fn read_tables(
    first: &[u8],
    second: &[u8],
    ports: &mut [u32],
    links: &mut [u32],
) -> Result<Counts, InputFault>
    requires { Room (length first.now + length second.now) start (length ports.old) (length links.old) }
    ensures { TablesRead first.now second.now ports.old links.old ports.new links.new result }
{
    let one = read_input(first, Input::First, Before::START, ports, links)?;
    let before_second = Before {
        ports: one.ports,
        links: one.links,
        ..Before::START
    };
    read_input(second, Input::Second, before_second, ports, links)
}

pub fn read_inputs(
    first: &[u8],
    second: &[u8],
    added: &[u8],
    ports: &mut [u32],
    links: &mut [u32],
) -> Result<Counts, InputFault>
    requires { Room (length first.now + length second.now + length added.now) start (length ports.old) (length links.old) }
    ensures { InputsRead first.now second.now added.now ports.new links.new result }
{
    let both = read_tables(first, second, ports, links)?;
    let before_added = Before {
        ports: both.ports,
        links: both.links,
        named: both.ports,
        port_may_come: false,
    };
    read_input(added, Input::Added, before_added, ports, links)
}
