// A room for what a call writes. Each byte of it is one and the same before the call, so that a byte that was not to change shows.
#![tactic(auto)]

ghost use Rattle.std.specs.Prelude.{◌≤◌, ◌≡◌, length};
ghost use Rattle.marked.specs.Changed.{changed_bytes};

use std::io;

pub mod cases;

// No record has this byte everywhere.
const MARK: u8 = 165;

pub fn mark(room: &mut [u8])
    ensures { changed_bytes room.new ≡ 0 }
{
    room.fill(MARK);
}

// How many bytes are no longer marked.
pub fn changed(rest: &[u8]) -> usize
    ensures { result ≡ changed_bytes rest.now }
{
    rest.iter().filter(|byte| **byte != MARK).count()
}

// A write that fails is not told.
pub fn print_number(out: &impl Print, n: u64, behind: &[u8]) {
    let _ = out.print(n);
    let _ = out.write_all(behind);
}

// Prints how many bytes were written and how many behind them changed, then the written ones. Fails where these are not printed.
pub fn print_written(out: &impl Print, room: &[u8], written: usize) -> io::Result<()>
    requires { written ≤ length room.now }
{
    print_number(out, written as u64, b" ");
    print_number(out, changed(&room[written..]) as u64, b"\n");
    out.write_all(&room[..written])
}
