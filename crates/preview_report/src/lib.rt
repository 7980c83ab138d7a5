// The text that the preview program prints: the preview of three files, printed as the check program prints an answer, over slices.
#![tactic(auto)]

ghost use Rattle.std.specs.Prelude.{◌≤◌, length};
ghost use Rattle.files.specs.Files.{all_whole, file_in, is_unread};
ghost use Rattle.report.specs.Report.{text_room};
ghost use Rattle.preview_report.specs.PreviewReport.{GivenPrinted, PreviewReported};

use input::{Filled, Stop};
use text::print;

// The text of what is given of the files. Where not all were read whole, only a fault of what is given is told.
fn print_preview(
    first: &[u8],
    second: &[u8],
    added: &[u8],
    stopped: Option<Stop>,
    text: &mut [u8],
) -> usize
    requires { text_room ≤ length text.old }
    ensures { GivenPrinted first.now second.now added.now (all_whole stopped) (is_unread stopped) text.old text.new result }
{
    let mut answer = report::answer_room();
    let r = previews::preview(first, second, added, &mut answer);
    // Input 0 is no input, as C has it.
    match stopped {
        Some(stop) if r.input == 0 => print::print_not_whole(stop, text),
        _ => print::print(r.number, r.place, &answer[..r.written], text),
    }
}

pub fn report(first: &Filled, second: &Filled, added: &Filled, text: &mut [u8]) -> usize
    requires { text_room ≤ length text.old }
    ensures { PreviewReported (file_in first.now) (file_in second.now) (file_in added.now) text.old text.new result }
{
    let turn = files::in_turn(first.read, second.read, added.read);
    print_preview(
        &first.space[..turn.first],
        &second.space[..turn.second],
        &added.space[..turn.added],
        turn.stopped,
        text,
    )
}
