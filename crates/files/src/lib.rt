// The three files of a join, read in turn: how much of each is given, how the first that was not read whole ended, and the line of it.
#![tactic(auto)]

ghost use Rattle.std.specs.Prelude.{◌≡◌, cond, ◌≤◌, length};
ghost use Rattle.specification.specs.Bytes.{Written};
ghost use Rattle.files.specs.Files.{all_whole, is_unread, in_turn, GivenAtMost, line_of, line_room};

use input::{Input, Stop};
use text::print;

// How many bytes of each file are given, and why the first that was not read whole was not.
#[derive(Clone, Copy)]
pub struct InTurn {
    pub first: usize,
    pub second: usize,
    pub added: usize,
    pub stopped: Option<Stop>,
}

// How many of so many bytes are given: all where the files were read whole, else none.
pub fn given(stopped: Option<Stop>, count: usize) -> usize
    ensures value { result ≡ cond (all_whole stopped) count 0 }
    ensures within { result ≤ count }
{
    match stopped {
        None => count,
        Some(_) => 0,
    }
}

// A file that was not read whole stops those behind it.
pub fn in_turn(first: Input, second: Input, added: Input) -> InTurn
    ensures value { result ≡ in_turn first second added }
    ensures within { GivenAtMost first second added result }
{
    let first_whole = first.whole();
    let second_whole = first_whole.and(second.whole());
    let added_whole = second_whole.and(added.whole());
    InTurn {
        first: first_whole.unwrap_or(0),
        second: second_whole.unwrap_or(0),
        added: added_whole.unwrap_or(0),
        stopped: added_whole.err(),
    }
}

// How many bytes at the front of a program's two buffers are the table and the line that it writes. The buffers are the program's own.
#[derive(Clone, Copy)]
pub struct Lengths {
    pub written: usize,
    pub line: usize,
}

// The line of a fault, else of the first file that was not read whole; none where all were. The number is that of an outcome, as C has it. The
// room for it is a clause, here and in the crates above: an array would ask for one length.
#[tactic(auto, unfolding(crate::specs::Files::line_of, text::specs::Printed::printed, text::specs::Printed::record_lines))]
pub fn print_line(number: u64, place: usize, stopped: Option<Stop>, text: &mut [u8]) -> usize
    requires { line_room ≤ length text.old }
    ensures { Written (line_of number place (all_whole stopped) (is_unread stopped)) text.old text.new result }
{
    if number != 0 {
        return print::print(number, place, b"", text);
    }
    match stopped {
        None => 0,
        Some(stop) => print::print_not_whole(stop, text),
    }
}
