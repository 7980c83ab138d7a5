// The text that the check program prints: the analysis of an input and the printed form of its answer, over slices.
#![tactic(auto)]

ghost use Rattle.std.specs.Prelude.{◌≤◌, ◌≡◌, length, take};
ghost use Rattle.specification.specs.Answers.{least_room};
ghost use Rattle.input.specs.Input.{has_failed};
ghost use Rattle.report.specs.Report.{text_room, PrintedText, Reported};

use input::Filled;
use specification::limits;
use text::print;

// The text of an input.
pub fn report(input: &Filled, text: &mut [u8]) -> usize
    requires { text_room ≤ length text.old }
    ensures { Reported (take input.now.read.count input.now.space.now) (has_failed input.now.read.end) text.old text.new result }
{
    match input.bytes() {
        Ok(s) => print_answer(s, text),
        Err(stop) => print::print_not_whole(stop, text),
    }
}

fn print_answer(s: &[u8], text: &mut [u8]) -> usize
    requires { text_room ≤ length text.old }
    ensures { PrintedText s.now text.old text.new result }
{
    let mut answer = answer_room();
    let r = analysis::analyse(s, &mut answer);
    print::print(r.number, r.place, &answer[..r.written], text)
}

// The least answer buffer.
pub fn answer_room() -> [u8; limits::LEAST_ROOM]
    ensures { least_room ≡ length result }
{
    [0; limits::LEAST_ROOM]
}
