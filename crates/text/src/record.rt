// The records that have a line, read from an answer's bytes.
ghost use Rattle.std.specs.Prelude.{◌+◌, ◌≤◌, length};
ghost use Rattle.std.specs.Iterator.{at_most};
ghost use Rattle.text.specs.Record.{IsNext, IsPort, IsRead, IsSize};

use fraction::Fraction;
use records::read::number_at;

// A loop has four bytes for each step, a connection's or buffer's number and the direction; a cycle two for each connection.
#[derive(Clone, Copy)]
pub enum Record<'a> {
    Port {
        component: u64,
        weight: u64,
        period: Fraction,
        start: Fraction,
    },
    Buffer {
        number: u64,
        size: u64,
    },
    Loop {
        steps: &'a [u8],
    },
    Cycle {
        connections: &'a [u8],
    },
    Floor {
        port: u64,
    },
}

// A port, whose b is above 0.
fn port(bytes: &[u8]) -> Option<Record<'_>>
    requires { 24 ≤ length bytes.now }
    ensures { IsPort bytes.now result }
{
    let weight = number_at(bytes, 6, 2);
    let a = number_at(bytes, 8, 4);
    let b = number_at(bytes, 12, 4);
    if b == 0 {
        return None;
    }
    Some(Record::Port {
        component: number_at(bytes, 4, 2),
        weight,
        period: Fraction::reduced(a, b).times(weight),
        start: Fraction::reduced(number_at(bytes, 16, 8), b),
    })
}

// The record of this size at the front of the bytes, by the number of its kind; None where it has no line.
fn read(bytes: &[u8], size: usize) -> Option<Record<'_>>
    requires { IsSize bytes.now size }
    ensures { IsRead bytes.now result }
{
    match (number_at(bytes, 2, 2), size) {
        (16, 22) => port(bytes),
        (17, 12) => Some(Record::Buffer {
            number: number_at(bytes, 4, 2),
            size: number_at(bytes, 6, 8),
        }),
        (18, _) => Some(Record::Loop {
            steps: &bytes[4..2 + size],
        }),
        (19, _) => Some(Record::Cycle {
            connections: &bytes[4..2 + size],
        }),
        (20, 4) => Some(Record::Floor {
            port: number_at(bytes, 4, 2),
        }),
        _ => None,
    }
}

// The records one behind another; they end where the bytes begin with no record that has a line.
#[derive(Drop)]
pub struct Records<'a> {
    pub rest: &'a [u8],
}

impl<'a> Iterator for Records<'a> {
    type Item = Record<'a>;

    ghost next_gives = { λ s r t. IsNext s.rest.now r t.rest.now };

    ghost remaining = { λ s. at_most (length s.rest.now) };

    fn next(&mut self) -> Option<Record<'a>> {
        let bytes = self.rest;
        if bytes.len() < 4 {
            return None;
        }
        let size = number_at(bytes, 0, 2) as usize;
        if size < 2 || bytes.len() < 2 + size {
            return None;
        }
        let record = read(bytes, size)?;
        self.rest = &bytes[2 + size..];
        Some(record)
    }
}
