// Prints an answer: its number and place, and a line for each of its records.
ghost use Rattle.std.specs.Prelude.{◌≤◌, length};
ghost use Rattle.specification.specs.Bytes.{Written};
ghost use Rattle.input.specs.Input.{read_failed};
ghost use Rattle.text.specs.Lines.{place_text, not_whole_line};
ghost use Rattle.text.specs.Printed.{record_lines, printed, printed_room};
ghost use Rattle.text.specs.Writer.{HasRoom, Wrote};

use crate::record::Records;
use crate::writer::Writer;
use input::Stop;

fn write_records(records: &[u8], out: &mut Writer)
    requires { HasRoom (record_lines records.now (length records.now) 0 0) out.old }
    ensures { Wrote (record_lines records.now (length records.now) 0 0) out.old out.new }
{
    for (number, record) in (Records { rest: records }).enumerate() {
        record.write(number as u64, out);
    }
}

// The place of a number, that of an outcome, as C has it; 0 is printed without one.
#[tactic(auto, using(crate::specs::Writer::wrote_nothing), unfolding(crate::specs::Lines::place_text))]
fn write_place(number: u64, place: usize, out: &mut Writer)
    requires { HasRoom (place_text number place) out.old }
    ensures { Wrote (place_text number place) out.old out.new }
{
    if number != 0 {
        out.field(b" at ", place as u64);
    }
}

#[tactic(auto, unfolding(crate::specs::Printed::printed, crate::specs::Lines::answer_line))]
fn write_answer(number: u64, place: usize, records: &[u8], out: &mut Writer)
    requires { HasRoom (printed number place records.now) out.old }
    ensures { Wrote (printed number place records.now) out.old out.new }
{
    out.field(b"answer ", number);
    write_place(number, place, out);
    out.word(b"\n");
    write_records(records, out);
}

// The printed form of an answer: its number, its place and its records' lines. Returns how many bytes of the text it wrote.
pub fn print(number: u64, place: usize, records: &[u8], text: &mut [u8]) -> usize
    requires { printed_room records.now ≤ length text.old }
    ensures written { Written (printed number place records.now) text.old text.new result }
    ensures upper_bound { result ≤ length text.new }
{
    let mut out = Writer::new(text);
    write_answer(number, place, records, &mut out);
    out.at
}

// A line as it stands, at the front of the text.
pub fn print_line(line: &[u8], text: &mut [u8]) -> usize
    requires { length line.now ≤ length text.old }
    ensures written { Written line.now text.old text.new result }
    ensures upper_bound { result ≤ length text.new }
{
    let mut out = Writer::new(text);
    out.word(line);
    out.at
}

// The line of an input that was not read whole, at the front of the text.
#[tactic(auto, unfolding(crate::specs::Lines::not_whole_line))]
pub fn print_not_whole(stop: Stop, text: &mut [u8]) -> usize
    requires { 14 ≤ length text.old }
    ensures written { Written (not_whole_line (read_failed stop)) text.old text.new result }
    ensures upper_bound { result ≤ length text.new }
{
    match stop {
        Stop::Unread => print_line(b"answer unread\n", text),
        Stop::Long => print_line(b"answer long\n", text),
    }
}
