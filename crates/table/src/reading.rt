// Reads a whole table into two slices of numbers.
ghost use Rattle.std.specs.Prelude.{◌≡◌, ◌+◌, ◌*◌, ◌≤◌, ◌<◌, length, take};
ghost use Rattle.specification.specs.Reading.{with_port, with_link, read_on, start, read_table};
ghost use Rattle.specification.specs.Joining.{moved};
ghost use Rattle.refusals.specs.Faults.{outcome_of};
ghost use Rattle.table.specs.Filled.{Room, counts_before, Filled, front_of};
ghost use Rattle.table.specs.WellFormed.{WellFormed};
ghost use Rattle.table.specs.Held.{table_in};

use crate::record::Record;
use crate::{Table, links, ports, record};
use refusals::{Fault, Refusal};
use specification::{Before, Link, Outcome};

// How many ports and links the slices hold: a join goes on behind them, so the slices are not cut as they are read.
#[derive(Clone, Copy)]
pub struct Counts {
    pub ports: usize,
    pub links: usize,
}

impl Counts {
    // As many numbers as the ports and the links have.
    pub fn cut<'a>(self, ports: &'a [u32], links: &'a [u32]) -> (&'a [u32], &'a [u32])
        requires ports_in_bounds { 2 * self.ports ≤ length ports.now }
        requires links_in_bounds { 10 * self.links ≤ length links.now }
        ensures ports { result.0.now ≡ take (2 * self.ports) ports.now }
        ensures links { result.1.now ≡ take (10 * self.links) links.now }
    {
        (
            &ports[..ports::WIDTH * self.ports],
            &links[..links::WIDTH * self.links],
        )
    }

    // They are a table's.
    pub fn table<'a>(self, ports: &'a [u32], links: &'a [u32]) -> Table<'a>
        requires ports_in_bounds { 2 * self.ports ≤ length ports.now }
        requires links_in_bounds { 10 * self.links ≤ length links.now }
        requires well_formed { WellFormed (front_of self ports.now links.now) }
        ensures { table_in result ≡ front_of self ports.now links.now }
    {
        let (ports, links) = self.cut(ports, links);
        Table { ports, links }
    }
}

// What stands before a record is what the slices hold.
impl From<Before> for Counts {
    ghost from_gives = { λ b c. c ≡ counts_before b };

    fn from(b: Before) -> Counts {
        Counts {
            ports: b.ports,
            links: b.links,
        }
    }
}

// A fault, and how many ports and links the slices hold, all of them read before it.
#[derive(Clone, Copy)]
pub struct ReadFault {
    pub fault: Fault,
    pub counts: Counts,
}

impl From<ReadFault> for Outcome {
    ghost from_gives = { λ f o. o ≡ outcome_of f.fault };

    fn from(fault: ReadFault) -> Outcome {
        fault.fault.into()
    }
}

fn with_port(b: Before) -> Before
    requires ports_bound { b.ports < 64 }
    requires named_bound { b.named < 64 }
    ensures { result ≡ with_port b }
{
    Before {
        ports: b.ports + 1,
        named: b.named + 1,
        ..b
    }
}

fn with_link(b: Before) -> Before
    requires { b.links < 256 }
    ensures { result ≡ with_link b }
{
    Before {
        links: b.links + 1,
        port_may_come: false,
        ..b
    }
}

// The link between the ports so many numbers higher.
fn move_up(l: Link, by: usize) -> Link
    requires from_bound { by + l.from < 64 }
    requires to_bound { by + l.to < 64 }
    ensures { result ≡ moved by l }
{
    Link {
        from: by + l.from,
        to: by + l.to,
        ..l
    }
}

// Reads the records of an input behind what was read before it. Its own ports are numbered from 0; they and the ends of its links move up
// behind the ports before them.
pub fn read_on(
    s: &[u8],
    before: Before,
    ports: &mut [u32],
    links: &mut [u32],
) -> Result<Counts, ReadFault>
    requires { Room (length s.now) before (length ports.old) (length links.old) }
    ensures { Filled before (read_on s.now before) ports.old links.old ports.new links.new result }
{
    let by = before.ports - before.named;
    let mut b = before;
    let mut at: usize = 0;
    // One match for a record, the end and a fault: a fault gets the counts of what stands before it.
    loop {
        match record::read_record(s, at, b) {
            Ok(Some((read, next))) => {
                match read {
                    Record::Port(p) => {
                        ports::store(ports, b.ports, p);
                        b = with_port(b);
                    }
                    Record::Link(l) => {
                        links::store(links, b.links, move_up(l, by));
                        b = with_link(b);
                    }
                }
                at = next;
            }
            Ok(None) => return Ok(b.into()),
            Err(fault) => {
                return Err(ReadFault {
                    fault,
                    counts: b.into(),
                });
            }
        }
    }
}

// Reads a table: the case with nothing before it, and 12 where it has no port.
pub fn read_table(s: &[u8], ports: &mut [u32], links: &mut [u32]) -> Result<Counts, ReadFault>
    requires { Room (length s.now) start (length ports.old) (length links.old) }
    ensures { Filled start (read_table s.now) ports.old links.old ports.new links.new result }
{
    let read = read_on(s, Before::START, ports, links)?;
    if read.ports == 0 {
        return Err(ReadFault {
            fault: Refusal::NoPort.into(),
            counts: read,
        });
    }
    Ok(read)
}
