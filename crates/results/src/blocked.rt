// The records of number 15: the floor, and the cycle that blocks. That their numbers name connections is a clause: it ties them to a slice.
ghost use Rattle.std.specs.Prelude.{◌≤◌, ◌++◌, length};
ghost use Rattle.specification.specs.Bytes.{Written, cycle_answer};
ghost use Rattle.specification.specs.Answers.{floor_record};
ghost use Rattle.graph.specs.Searched.{connections_of, floor_of};
ghost use Rattle.results.specs.Named.{NamedCycle, NamedFloor};

use period::cycle::Cycle;
use period::search::Floor;
use records::write;
use specification::limits;

// The record of a cycle: the numbers of its connections.
fn write_connections(numbers: &[u64], cycle: &Cycle, tail: &mut [u8]) -> usize
    requires named_cycle { NamedCycle numbers.now cycle.now }
    requires in_bounds { 132 ≤ length tail.old }
    ensures { Written (cycle_answer (connections_of numbers.now cycle.now)) tail.old tail.new result }
{
    let steps = cycle.edges();
    let mut named = [0u64; 64];
    for (i, &step) in steps.iter().enumerate() {
        named[i] = numbers[step as usize];
    }
    write::write_cycle(tail, &named[..steps.len()])
}

fn write_floor(numbers: &[u64], floor: &Floor, tail: &mut [u8]) -> usize
    requires named_floor { NamedFloor numbers.now floor.now }
    requires in_bounds { 132 ≤ length tail.old }
    ensures { Written (floor_record (floor_of numbers.now floor.now)) tail.old tail.new result }
{
    match floor {
        Floor::Rate(port) => write::write_floor(tail, *port),
        Floor::Lower(cycle) => write_connections(numbers, cycle, tail),
        Floor::Zero => write::write_floor(tail, limits::ZERO_FLOOR_PORT),
    }
}

pub fn write_blocked(numbers: &[u64], floor: &Floor, block: &Cycle, answer: &mut [u8]) -> usize
    requires named_floor { NamedFloor numbers.now floor.now }
    requires named_block { NamedCycle numbers.now block.now }
    requires in_bounds { 264 ≤ length answer.old }
    ensures { Written (floor_record (floor_of numbers.now floor.now) ++ cycle_answer (connections_of numbers.now block.now)) answer.old answer.new result }
{
    let at = write_floor(numbers, floor, answer);
    at + write_connections(numbers, block, &mut answer[at..])
}
