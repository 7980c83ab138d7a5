// Writes the line of a record.
ghost use Rattle.std.specs.Prelude.{◌≡◌, not, nat_eq};
ghost use Rattle.text.specs.Lines.{sign_word};
ghost use Rattle.text.specs.Printed.{cycle_word};
ghost use Rattle.text.specs.Record.{line_of, steps_text, connections_text};
ghost use Rattle.text.specs.Writer.{HasRoom, Wrote};

use crate::record::Record;
use crate::writer::Writer;
use records::read::number_at;
use specification::limits;

// Against where the direction, a number of the record, is not 0, and else along.
#[tactic(auto, unfolding(crate::specs::Lines::sign_word))]
fn sign(direction: u64) -> &'static [u8]
    ensures { result.now ≡ sign_word (not (nat_eq direction 0)) }
{
    if direction == 0 { b" +" } else { b" -" }
}

fn write_steps(steps: &[u8], out: &mut Writer)
    requires { HasRoom (steps_text steps.now) out.old }
    ensures { Wrote (steps_text steps.now) out.old out.new }
{
    for step in steps.chunks_exact(4) {
        out.word(sign(number_at(step, 2, 2)));
        out.number(number_at(step, 0, 2));
    }
}

fn write_connections(connections: &[u8], out: &mut Writer)
    requires { HasRoom (connections_text connections.now) out.old }
    ensures { Wrote (connections_text connections.now) out.old out.new }
{
    for connection in connections.chunks_exact(2) {
        out.field(b" ", number_at(connection, 0, 2));
    }
}

// The floor, where it is the first record, and else a block.
#[tactic(auto, unfolding(crate::specs::Printed::cycle_word))]
fn cycle_word(number: u64) -> &'static [u8]
    ensures { result.now ≡ cycle_word number }
{
    if number == 0 {
        b"floor cycle"
    } else {
        b"block"
    }
}

impl Record<'_> {
    #[tactic(auto, unfolding(crate::specs::Record::line_of, crate::specs::Lines::port_text, crate::specs::Lines::buffer_line, crate::specs::Lines::items_line, crate::specs::Lines::floor_line, crate::specs::Lines::floor_port_line))]
    pub fn write(self, number: u64, out: &mut Writer)
        requires { HasRoom (line_of self number) out.old }
        ensures { Wrote (line_of self.entry number) out.old out.new }
    {
        match self {
            Record::Port {
                component,
                weight,
                period,
                start,
            } => {
                out.field(b"port ", number);
                out.field(b" component ", component);
                out.field(b" weight ", weight);
                out.fraction_field(b" period ", period);
                out.fraction_field(b" start ", start);
                out.word(b"\n");
            }
            Record::Buffer { number, size } => {
                out.field(b"buffer ", number);
                out.field(b" size ", size);
                out.word(b"\n");
            }
            Record::Loop { steps } => {
                out.word(b"loop");
                write_steps(steps, out);
                out.word(b"\n");
            }
            Record::Cycle { connections } => {
                out.word(cycle_word(number));
                write_connections(connections, out);
                out.word(b"\n");
            }
            Record::Floor {
                port: limits::ZERO_FLOOR_PORT,
            } => out.word(b"floor zero\n"),
            Record::Floor { port } => {
                out.field(b"floor port ", port);
                out.word(b"\n");
            }
        }
    }
}
