// What the join program writes: the joined table, or the line that says why there is none, over slices.
#![tactic(auto)]

ghost use Rattle.std.specs.Prelude.{◌≤◌, length};
ghost use Rattle.specification.specs.Encoding.{most_table_bytes};
ghost use Rattle.files.specs.Files.{file_in, line_room};
ghost use Rattle.join_report.specs.JoinReport.{JoinReported};

use files::Lengths;
use input::Filled;

pub fn report(
    first: &Filled,
    second: &Filled,
    added: &Filled,
    out: &mut [u8],
    text: &mut [u8],
) -> Lengths
    requires most_table_bytes_in_bounds { most_table_bytes ≤ length out.old }
    requires line_room_in_bounds { line_room ≤ length text.old }
    ensures { JoinReported (file_in first.now) (file_in second.now) (file_in added.now) out.new text.new result }
{
    let turn = files::in_turn(first.read, second.read, added.read);
    let joined = joins::join(
        &first.space[..turn.first],
        &second.space[..turn.second],
        &added.space[..turn.added],
        out,
    );
    let line = files::print_line(joined.number, joined.place, turn.stopped, text);
    Lengths {
        written: files::given(turn.stopped, joined.written),
        line,
    }
}
