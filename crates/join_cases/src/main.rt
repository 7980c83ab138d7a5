// Prints what each of the joins and previews on standard input comes to. A case is five numbers of four bytes: the call, 0 a join and 1 a
// preview, the room for the table or the answer, and the lengths of the three inputs; then the inputs. The room is filled with one byte before
// each call. Printed are what is returned and how many bytes behind the written ones changed, then the written ones.
#![tactic(auto)]

ghost use Rattle.std.specs.Prelude.{◌≤◌, length};

use marked::{cases, print_number};
use records::read::number_at;
use specification::JoinOutcome;
use std::io::Read;

fn main(rt: HostRuntime) {
    let mut space = io::large_buffer();
    let mut room = io::large_buffer();
    let mut reader = rt.stdin();
    cases::for_each(|| next(&rt, &mut reader, &mut space, &mut room));
}

#[derive(Clone, Copy)]
enum Call {
    Join,
    Preview,
}

impl From<u64> for Call {
    fn from(number: u64) -> Call {
        match number {
            0 => Call::Join,
            _ => Call::Preview,
        }
    }
}

// The numbers at the front of a case; the second input and the added records begin at these places behind them.
#[derive(Clone, Copy)]
struct Case {
    call: Call,
    room: usize,
    second: usize,
    added: usize,
    end: usize,
}

fn numbers_of(head: &[u8]) -> Case
    requires { 20 ≤ length head.now }
    ensures second_le_added { result.second ≤ result.added }
    ensures added_le_end { result.added ≤ result.end }
{
    let second = number_at(head, 8, 4) as usize;
    let added = second + number_at(head, 12, 4) as usize;
    Case {
        call: Call::from(number_at(head, 0, 4)),
        room: number_at(head, 4, 4) as usize,
        second,
        added,
        end: added + number_at(head, 16, 4) as usize,
    }
}

// Reads one case and prints what it comes to, if there is one.
fn next<R: Read>(
    out: &impl Print,
    reader: &mut R,
    space: &mut [u8; 65536],
    room: &mut [u8; 65536],
) -> Option<()> {
    if input::fill(reader, &mut space[..20]).count < 20 {
        return None;
    }
    let case = numbers_of(space);
    let room = room.get_mut(..case.room)?;
    let inputs = space.get_mut(..case.end)?;
    if input::fill(reader, inputs).count < case.end {
        return None;
    }
    print_case(out, case, inputs, room).ok()
}

fn print_case(out: &impl Print, case: Case, s: &[u8], room: &mut [u8]) -> std::io::Result<()>
    requires second_le_added { case.second ≤ case.added }
    requires added_in_bounds { case.added ≤ length s.now }
{
    marked::mark(room);
    let r = outcome(
        case.call,
        &s[..case.second],
        &s[case.second..case.added],
        &s[case.added..],
        room,
    );
    print_number(out, r.number, b" ");
    print_number(out, r.place as u64, b" ");
    print_number(out, r.input, b" ");
    marked::print_written(out, room, r.written)
}

fn outcome(call: Call, first: &[u8], second: &[u8], added: &[u8], room: &mut [u8]) -> JoinOutcome
    ensures { result.written ≤ length room.new }
{
    match call {
        Call::Join => joins::join(first, second, added, room),
        Call::Preview => previews::preview(first, second, added, room),
    }
}
