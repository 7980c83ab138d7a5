// The records of an answer, in an answer buffer that has room for every answer. A shorter one receives none: so a caller that wants only the
// number of a table needs no buffer.
ghost use Rattle.std.specs.Prelude.{◌≤◌, ◌≡◌, ◌++◌, leb, length};
ghost use Rattle.specification.specs.Bytes.{Written, loop_answer, cycle_answer};
ghost use Rattle.specification.specs.Answers.{least_room, consistent, floor_record, records};
ghost use Rattle.table.specs.Held.{table_in};
ghost use Rattle.graph.specs.Searched.{connections_of, floor_of};
ghost use Rattle.results.specs.Held.{timing_in};
ghost use Rattle.results.specs.Named.{NamedCycle, NamedFloor};
ghost use Rattle.analysis.specs.Decided.{shown_in};

use period::cycle::Cycle;
use period::search::Floor;
use records::write;
use results::blocked;
use results::timings::Timings;
use specification::limits;

// Whether every answer has room. A closure for what is written would need the test once; one over `Timings` loses its clauses (tried).
fn has_room(answer: &[u8]) -> bool
    ensures { result ≡ leb least_room (length answer.now) }
{
    answer.len() >= limits::LEAST_ROOM
}

// Number 13. A loop has at most 64 steps, two numbers each.
pub fn show_loop(steps: &[u64], answer: &mut [u8]) -> usize
    requires { length steps.now ≤ 128 }
    ensures { Written (shown_in (length answer.old) (loop_answer steps.now)) answer.old answer.new result }
{
    if has_room(answer) {
        write::write_loop(answer, steps)
    } else {
        0
    }
}

// Number 15.
pub fn show_blocked(numbers: &[u64], floor: &Floor, block: &Cycle, answer: &mut [u8]) -> usize
    requires named_floor { NamedFloor numbers.now floor.now }
    requires named_block { NamedCycle numbers.now block.now }
    ensures { Written (shown_in (length answer.old) (floor_record (floor_of numbers.now floor.now) ++ cycle_answer (connections_of numbers.now block.now))) answer.old answer.new result }
{
    if has_room(answer) {
        blocked::write_blocked(numbers, floor, block, answer)
    } else {
        0
    }
}

// Number 0.
pub fn show_consistent(timings: &Timings, answer: &mut [u8]) -> usize
    ensures { Written (shown_in (length answer.old) (records (table_in timings.now.table.now) (consistent (timing_in timings.now)))) answer.old answer.new result }
{
    if has_room(answer) {
        timings.write(answer)
    } else {
        0
    }
}
