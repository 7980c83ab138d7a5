// Prints what each of the hidings on standard input comes to. A case is the port in eight bytes, the room for the table and the length of the
// given one in four bytes each, then that table. The room is filled with one byte before each call. Printed are what is returned and how many
// bytes behind the written ones changed, then the written ones.
#![tactic(auto)]

use marked::{cases, print_number};
use records::read::number_at;
use std::io::Read;

fn main(rt: HostRuntime) {
    let mut space = io::large_buffer();
    let mut room = io::large_buffer();
    let mut reader = rt.stdin();
    cases::for_each(|| next(&rt, &mut reader, &mut space, &mut room));
}

// Reads one case and prints what it comes to, if there is one.
fn next<R: Read>(
    out: &impl Print,
    reader: &mut R,
    space: &mut [u8; 65536],
    room: &mut [u8; 65536],
) -> Option<()> {
    if input::fill(reader, &mut space[..16]).count < 16 {
        return None;
    }
    let port = number_at(space, 0, 8) as usize;
    let size = number_at(space, 8, 4) as usize;
    let end = number_at(space, 12, 4) as usize;
    let room = room.get_mut(..size)?;
    let table = space.get_mut(..end)?;
    if input::fill(reader, table).count < end {
        return None;
    }
    print_case(out, port, table, room).ok()
}

fn print_case(out: &impl Print, port: usize, s: &[u8], room: &mut [u8]) -> std::io::Result<()> {
    marked::mark(room);
    let r = hiding::hide(s, port, room);
    print_number(out, r.number, b" ");
    print_number(out, r.place as u64, b" ");
    marked::print_written(out, room, r.written)
}
