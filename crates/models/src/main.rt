// Prints the text of each table on standard input: four bytes with a table's length, then the table.
#![tactic(auto)]

use input::Filled;
use marked::cases;
use std::io::Read;

fn main(rt: HostRuntime) {
    let mut space = input::room();
    let mut text = io::large_buffer();
    let mut reader = rt.stdin();
    cases::for_each(|| next(&rt, &mut reader, &mut space, &mut text));
}

// Reads one table and prints its text, if there is one.
fn next<R: Read>(
    out: &impl Print,
    reader: &mut R,
    space: &mut [u8; 65537],
    text: &mut [u8; 65536],
) -> Option<()> {
    let mut head = [0; 4];
    if input::fill(reader, &mut head).count < 4 {
        return None;
    }
    let size = u32::from_le_bytes(head) as usize;
    let read = input::fill(reader, space.get_mut(..size)?);
    if read.count < size {
        return None;
    }
    let n = report::report(&Filled { space, read }, text);
    out.write_all(&text[..n]).ok()
}
