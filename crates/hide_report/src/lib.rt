// What the hide program writes: the table without the port, or the line that says why there is none, over slices.
#![tactic(auto)]

ghost use Rattle.std.specs.Prelude.{◌≤◌, length};
ghost use Rattle.specification.specs.Encoding.{most_table_bytes};
ghost use Rattle.files.specs.Files.{file_in, line_room};
ghost use Rattle.hide_report.specs.HideReport.{TableReported, HideReported};

use files::Lengths;
use input::Filled;
use text::print;

mod argument;

// Of a table that was read whole.
fn report_table(s: &[u8], p: usize, out: &mut [u8], text: &mut [u8]) -> Lengths
    requires most_table_bytes_in_bounds { most_table_bytes ≤ length out.old }
    requires line_room_in_bounds { line_room ≤ length text.old }
    ensures { TableReported s.now p out.new text.new result }
{
    let hidden = hiding::hide(s, p, out);
    let line = files::print_line(hidden.number, hidden.place, None, text);
    Lengths {
        written: hidden.written,
        line,
    }
}

pub fn report(argument: &[u8], input: &Filled, out: &mut [u8], text: &mut [u8]) -> Lengths
    requires most_table_bytes_in_bounds { most_table_bytes ≤ length out.old }
    requires line_room_in_bounds { line_room ≤ length text.old }
    ensures { HideReported argument.now (file_in input.now) out.new text.new result }
{
    let Some(port) = argument::port_number(argument) else {
        let line = print::print_line(b"answer no port number\n", text);
        return Lengths { written: 0, line };
    };
    match input.bytes() {
        Ok(s) => report_table(s, port, out, text),
        Err(stop) => {
            let line = print::print_not_whole(stop, text);
            Lengths { written: 0, line }
        }
    }
}
