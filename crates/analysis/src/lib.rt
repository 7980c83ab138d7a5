// The analysis: a table's bytes and an answer buffer to a number, its place and the bytes written.
#![tactic(auto)]

ghost use Rattle.std.specs.Prelude.{◌+◌, ◌*◌, ◌^◌, ◌<◌, ◌≤◌, length};
ghost use Rattle.specification.specs.Answers.{least_room};
ghost use Rattle.table.specs.Filled.{Room};
ghost use Rattle.specification.specs.Reading.{start};
ghost use Rattle.specification.specs.Table.{link_count};
ghost use Rattle.table.specs.Held.{table_in};
ghost use Rattle.graph.specs.Arranged.{Labelled, most_members};
ghost use Rattle.analysis.specs.Ordered.{MembersOrdered};
ghost use Rattle.analysis.specs.Decided.{Decided};
ghost use Rattle.specification.specs.Analysed.{Analysed};

use arranged::Arranged;
use graph::connections;
use refusals::Refusal;
use specification::{Outcome, limits};
use table::{Table, reading};
use weights::ratios;
use weights::ratios::{Discord, Weighted};

mod arranged;
mod periods;
mod show;

pub fn analyse(s: &[u8], answer: &mut [u8]) -> Outcome
    ensures analysed { Analysed s.now answer.old answer.new result }
    ensures written_le_least_room { result.written ≤ least_room }
{
    if answer.len() < limits::LEAST_ROOM {
        return Refusal::ShortAnswer.into();
    }
    // A port has 8 bytes, a link at least 16.
    if s.len() <= 128 {
        read_in::<32, 80>(s, answer)
    } else if s.len() <= 512 {
        read_in::<128, 320>(s, answer)
    } else {
        read_in::<128, 2560>(s, answer)
    }
}

// The same with room for so many numbers of the table's ports and links.
fn read_in<const PORTS: usize, const LINKS: usize>(s: &[u8], answer: &mut [u8]) -> Outcome
    requires fits { 4 * PORTS + 4 * LINKS < 2 ^ 63 }
    requires room { Room (length s.now) start PORTS LINKS }
    requires least_room_in_bounds { least_room ≤ length answer.old }
    ensures analysed { Analysed s.now answer.old answer.new result }
    ensures written_le_least_room { result.written ≤ least_room }
{
    let mut ports = [0u32; PORTS];
    let mut links = [0u32; LINKS];
    match reading::read_table(s, &mut ports, &mut links) {
        Ok(counts) => decide(&counts.table(&ports, &links), answer),
        Err(fault) => fault.into(),
    }
}

// A table in slices: 13, 14, or what the periods come to. An answer buffer shorter than `LEAST_ROOM` receives nothing.
pub fn decide(table: &Table, answer: &mut [u8]) -> Outcome
    ensures { Decided (table_in table.now) answer.old answer.new result }
{
    let mut loop_numbers = [0u64; 128];
    let ratios = ratios::ratios_of(table, &mut loop_numbers);
    // By reference, so that the weights are not copied.
    match &ratios {
        Ok(weighted) => time(table, weighted, answer),
        Err(unweighted) => {
            let written = match unweighted.discord {
                Discord::Loop(steps) => show::show_loop(&loop_numbers[..2 * steps], answer),
                Discord::OverLimit => 0,
            };
            Outcome {
                number: unweighted.number(),
                place: 0,
                written,
            }
        }
    }
}

// 15, 17, or 0 with the periods, starts and sizes. The room for the work is cleared before use, which takes longer than the work on a small
// table; so it has three sizes.
fn time(table: &Table, weighted: &Weighted, answer: &mut [u8]) -> Outcome
    requires { Labelled (table_in table.now) weighted.now.labels weighted.now.weights }
    ensures { Decided (table_in table.now) answer.old answer.new result }
{
    let total = table.port_count();
    let count = table.link_count();
    let mut members = [0u64; 64];
    let mut ends = [0usize; 65];
    let most = order::sort(&weighted.labels[..total], total, &mut ends, &mut members);
    if count <= 8 && most <= 3 {
        time_in::<8, 288>(table, weighted, &members, &ends, answer)
    } else if count <= 32 && most <= 15 {
        time_in::<32, 1152>(table, weighted, &members, &ends, answer)
    } else {
        time_in::<256, 5184>(table, weighted, &members, &ends, answer)
    }
}

// The same with the ports in the order of their labels, and room for so many links and so many numbers of work: a row of 64 starts for the
// zeros and for each round, and four numbers for each edge. The largest takes 49 KB of stack, which are not there while the ratios are
// worked out.
#[inline(never)]
fn time_in<const LINKS: usize, const ROOM: usize>(
    table: &Table,
    weighted: &Weighted,
    members: &[u64],
    member_ends: &[usize; 65],
    answer: &mut [u8],
) -> Outcome
    requires labelled { Labelled (table_in table.now) weighted.now.labels weighted.now.weights }
    requires members_ordered { MembersOrdered (table_in table.now) weighted.now.labels member_ends.now members.now }
    requires fits { 8 * ROOM < 2 ^ 63 }
    requires links_bound { link_count (table_in table.now) ≤ LINKS }
    requires room { 64 * most_members (table_in table.now) weighted.now.labels + 64 + 4 * LINKS ≤ ROOM }
    ensures { Decided (table_in table.now) answer.old answer.new result }
{
    let mut owners = [0usize; LINKS];
    let mut numbers = [0u64; LINKS];
    let mut number_ends = [0usize; 65];
    let mut work = [0u64; ROOM];
    connections::sort_connections(
        table,
        &weighted.labels,
        &mut owners,
        &mut number_ends,
        &mut numbers,
    );
    let arranged = Arranged {
        table,
        weighted,
        members,
        member_ends,
        numbers: &numbers,
        number_ends: &number_ends,
    };
    periods::time_all(&arranged, &mut work, answer)
}
