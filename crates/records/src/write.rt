// Writes numbers as bytes, and answer records, each into the part of the answer buffer that begins at its place. Lengths and kinds are the
// numbers that the definitions of the records have.
ghost use Rattle.std.specs.Prelude.{◌≡◌, ◌+◌, ◌*◌, ◌≤◌, length};
ghost use Rattle.std.proofs.lemmas.List.Edits.{sets};
ghost use Rattle.specification.specs.Bytes.{bytes, words, Written, encode, port_answer, buffer_answer, loop_answer, cycle_answer, floor_answer};

// The n lowest bytes of v at a place, the lowest first.
pub fn put_number(tail: &mut [u8], at: usize, n: usize, v: u64)
    requires { at + n ≤ length tail.old }
    ensures { tail.new ≡ sets tail.old at (bytes n v) }
{
    let mut x = v;
    for byte in &mut tail[at..at + n] {
        *byte = (x % 256) as u8;
        x /= 256;
    }
}

// The numbers at a place, two bytes each.
fn put_words(tail: &mut [u8], at: usize, numbers: &[u64])
    requires { at + 2 * length numbers.now ≤ length tail.old }
    ensures { tail.new ≡ sets tail.old at (words numbers.now) }
{
    for (i, &number) in numbers.iter().enumerate() {
        put_number(tail, at + 2 * i, 2, number);
    }
}

// The record of a kind whose body is these numbers.
fn write_numbers(tail: &mut [u8], kind: u64, numbers: &[u64]) -> usize
    requires { 4 + 2 * length numbers.now ≤ length tail.old }
    ensures { Written (encode kind (words numbers.now)) tail.old tail.new result }
{
    let length = 2 * numbers.len();
    put_number(tail, 0, 2, (2 + length) as u64);
    put_number(tail, 2, 2, kind);
    put_words(tail, 4, numbers);
    4 + length
}

pub fn write_port(tail: &mut [u8], component: u64, weight: u64, a: u64, b: u64, start: u64) -> usize
    requires { 24 ≤ length tail.old }
    ensures { Written (port_answer component weight a b start) tail.old tail.new result }
{
    put_number(tail, 0, 2, 22);
    put_number(tail, 2, 2, 16);
    put_number(tail, 4, 2, component);
    put_number(tail, 6, 2, weight);
    put_number(tail, 8, 4, a);
    put_number(tail, 12, 4, b);
    put_number(tail, 16, 8, start);
    24
}

pub fn write_buffer(tail: &mut [u8], number: u64, size: u64) -> usize
    requires { 14 ≤ length tail.old }
    ensures { Written (buffer_answer number size) tail.old tail.new result }
{
    put_number(tail, 0, 2, 12);
    put_number(tail, 2, 2, 17);
    put_number(tail, 4, 2, number);
    put_number(tail, 6, 8, size);
    14
}

// The numbers are, of each step, the connection's number and its direction.
pub fn write_loop(tail: &mut [u8], steps: &[u64]) -> usize
    requires { 4 + 2 * length steps.now ≤ length tail.old }
    ensures { Written (loop_answer steps.now) tail.old tail.new result }
{
    write_numbers(tail, 18, steps)
}

pub fn write_cycle(tail: &mut [u8], numbers: &[u64]) -> usize
    requires { 4 + 2 * length numbers.now ≤ length tail.old }
    ensures { Written (cycle_answer numbers.now) tail.old tail.new result }
{
    write_numbers(tail, 19, numbers)
}

pub fn write_floor(tail: &mut [u8], port: u64) -> usize
    requires { 6 ≤ length tail.old }
    ensures { Written (floor_answer port) tail.old tail.new result }
{
    put_number(tail, 0, 2, 4);
    put_number(tail, 2, 2, 20);
    put_number(tail, 4, 2, port);
    6
}
