// The records of number 0: one for each port, then one for each buffer.
ghost use Rattle.std.specs.Prelude.{◌≤◌, ◌*◌, length};
ghost use Rattle.table.specs.Held.{table_in};
ghost use Rattle.specification.specs.Bytes.{Written};
ghost use Rattle.specification.specs.Answers.{least_room, consistent, port_records, buffer_records, records};
ghost use Rattle.specification.specs.Table.{port_count, link_count};
ghost use Rattle.results.specs.Held.{timing_in};

use crate::timings::Timings;
use records::write;

impl<'a> Timings<'a> {
    pub fn write(&self, answer: &mut [u8]) -> usize
        requires { least_room ≤ length answer.old }
        ensures { Written (records (table_in self.now.table.now) (consistent (timing_in self.now))) answer.old answer.new result }
    {
        let at = self.write_ports(answer);
        at + self.write_buffers(&mut answer[at..])
    }

    // This loop and that of the buffers stay two: each port has a record, and of the links a buffer alone.
    fn write_ports(&self, answer: &mut [u8]) -> usize
        requires { 24 * port_count (table_in self.now.table.now) ≤ length answer.old }
        ensures { Written (port_records (timing_in self.now) (port_count (table_in self.now.table.now))) answer.old answer.new result }
    {
        let mut at = 0;
        for p in 0..self.table.port_count() {
            let kept = self.kept[p];
            at += write::write_port(
                &mut answer[at..],
                kept.component,
                self.weights[p],
                kept.period.num,
                kept.period.den,
                kept.start,
            );
        }
        at
    }

    fn write_buffers(&self, answer: &mut [u8]) -> usize
        requires { 14 * link_count (table_in self.now.table.now) ≤ length answer.old }
        ensures { Written (buffer_records (table_in self.now.table.now) (timing_in self.now) (link_count (table_in self.now.table.now))) answer.old answer.new result }
    {
        let mut at = 0;
        for k in 0..self.table.link_count() {
            let link = self.table.link(k);
            if link.is_buffer() {
                let size = self.size_of(link);
                at += write::write_buffer(&mut answer[at..], k as u64, size);
            }
        }
        at
    }
}
