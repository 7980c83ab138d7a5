// Hiding a port: the table's own answer, whose refusal comes first, then the table without the port, as bytes.
#![tactic(auto)]

ghost use Rattle.std.specs.Prelude.{◌*◌, ◌^◌, ◌<◌, length};
ghost use Rattle.specification.specs.Reading.{start};
ghost use Rattle.specification.specs.Hiding.{HideReturned};
ghost use Rattle.table.specs.Filled.{Room};
ghost use Rattle.table.specs.Held.{table_in};
ghost use Rattle.hidden.specs.HiddenIn.{HiddenIn};
ghost use Rattle.hiding.specs.Hides.{OwnNumber, OwnRead};

use specification::Outcome;
use table::reading::Counts;
use table::{Table, reading};

pub fn hide(s: &[u8], p: usize, out: &mut [u8]) -> Outcome
    ensures { HideReturned s.now p out.old out.new result }
{
    // A port has 8 bytes, a link at least 16.
    if s.len() <= 512 {
        hide_within::<320>(s, p, out)
    } else {
        hide_within::<2560>(s, p, out)
    }
}

// The same with room for so many numbers of the table's links.
fn hide_within<const LINKS: usize>(s: &[u8], p: usize, out: &mut [u8]) -> Outcome
    requires fits { 4 * LINKS < 2 ^ 63 }
    requires room { Room (length s.now) start 128 LINKS }
    ensures { HideReturned s.now p out.old out.new result }
{
    let mut ports = [0u32; 128];
    let mut links = [0u32; LINKS];
    match read_own(s, &mut ports, &mut links) {
        Ok(counts) => hide_own(&counts.table(&ports, &links), p, out),
        Err(refused) => refused,
    }
}

// Reads the table into the slices, or returns the table's own refusal. The analysis says by its outcome's number, as C has it, whether there
// is one.
fn read_own(s: &[u8], ports: &mut [u32], links: &mut [u32]) -> Result<Counts, Outcome>
    requires { Room (length s.now) start (length ports.old) (length links.old) }
    ensures { OwnRead s.now ports.new links.new result }
{
    let counts = reading::read_table(s, ports, links)?;
    let number = own_number(&counts.table(ports, links));
    if number != 0 {
        return Err(Outcome {
            number,
            place: 0,
            written: 0,
        });
    }
    Ok(counts)
}

// 13 to 15, 17 or 0. The answer's records are not wanted, so they get no room.
fn own_number(table: &Table) -> u64
    ensures { OwnNumber (table_in table.now) result }
{
    analysis::decide(table, &mut []).number
}

// What hiding comes to. The analysis, which needs most of the stack, is over before the port is hidden, so this has a frame of its own.
#[inline(never)]
fn hide_own(table: &Table, p: usize, out: &mut [u8]) -> Outcome
    ensures { HiddenIn (table_in table.now) p out.old out.new result }
{
    hidden::hide_in(table, p, out)
}
