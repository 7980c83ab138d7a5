// Prints the number and the place that each of the tables on standard input gives: two bytes with a table's length, then the table.
#![tactic(auto)]

ghost use Rattle.std.specs.Prelude.{◌<◌, ◌≡◌, length, IfSome};
ghost use Rattle.specification.specs.Reading.{read_table};

use table::{links, reading};

fn main(rt: HostRuntime) {
    let mut buffer = io::large_buffer();
    let n = input::fill(&mut rt.stdin(), &mut buffer).count;
    run(&rt, &buffer[..n]);
}

fn run(out: &impl Print, mut s: &[u8]) {
    while let Some((table, rest)) = next_table(s) {
        print_line(out, table);
        s = rest;
    }
}

// The first table, and what stands behind it.
fn next_table(s: &[u8]) -> Option<(&[u8], &[u8])>
    ensures { IfSome result (λ (table, rest). length rest.now < length s.now) }
{
    let (size, rest) = s.split_first_chunk::<2>()?;
    rest.split_at_checked(usize::from(u16::from_le_bytes(*size)))
}

fn print_line(out: &impl Print, s: &[u8]) {
    let (number, place) = read(s);
    let _ = println!(out; "{} {}", number, place);
}

// The number and the place.
fn read(s: &[u8]) -> (u64, usize)
    ensures number_value { result.0 ≡ (read_table s.now).number }
    ensures place_value { result.1 ≡ (read_table s.now).place }
{
    let mut ports = [0u32; 128];
    let mut links = links::room();
    match reading::read_table(s, &mut ports, &mut links) {
        Ok(_) => (0, 0),
        Err(read) => (read.fault.refusal.number(), read.fault.place),
    }
}
