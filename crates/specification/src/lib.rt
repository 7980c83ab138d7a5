// What document 01 says, as definitions (specs/), and the types that they and the code share. No function stands here.
#![tactic(auto)]

mod buffers;
pub mod limits;

// A span of time in ticks: an amount forward and an amount back. A type of its own beside `Events`, so that the definitions keep them apart.
#[derive(Clone, Copy)]
pub struct Ticks(pub u64, pub u64);

// A number of events: an amount forward and an amount back.
#[derive(Clone, Copy)]
pub struct Events(pub u64, pub u64);

// A port; its maximum rate is num / den events per tick, or 0 / 0 where it has none of its own.
// That is no Option: the definitions read both parts as they stand in the record.
#[derive(Clone, Copy)]
pub struct Port {
    pub num: u64,
    pub den: u64,
}

// A connection or a buffer. Its ratio is num / den, its number of events `events` divided by `over`. The kind is that of its record: 2 a
// connection, over 1; 3 a buffer, which has no events, over 1; 4 a connection whose number of events is a fraction.
// The kind stays that number, and no enum: the definitions read it so (`is_buffer`, `encode_link`).
#[derive(Clone, Copy)]
pub struct Link {
    pub from: usize,
    pub to: usize,
    pub num: u64,
    pub den: u64,
    pub ticks: Ticks,
    pub events: Events,
    pub over: u32,
    pub kind: u32,
}

// What the delay that a buffer needs comes to, in events of its sender.
#[derive(Clone, Copy)]
pub enum Needed {
    // The delay is zero or less.
    Nothing,
    // It is above zero, and exactly so many events.
    Exact(Events),
    // It is above zero: so many whole events, and a part of one over.
    PartOver(Events),
}

// What stands in the input before a record.
#[derive(Clone, Copy)]
pub struct Before {
    // The ports and links so far: for the limits.
    pub ports: usize,
    pub links: usize,
    // From and to name the ports below this number.
    pub named: usize,
    pub port_may_come: bool,
}

impl Before {
    // Nothing was read before.
    pub const START: Before = Before {
        ports: 0,
        links: 0,
        named: 0,
        port_may_come: true,
    };
}

// The record at a place, with the place behind it; a refusal with its number and the place where the record begins.
// No Result: it is what the definition `record_at` gives. The code returns a Result, and `read_of` of `table` maps that to this.
#[derive(Clone, Copy)]
pub enum Read {
    PortRecord(Port, usize),
    LinkRecord(Link, usize),
    Refused(u64, usize),
    End,
}

// What a call of the analysis, or of hiding a port, returns: the number, the byte at which the faulty record begins, 0 where the number
// concerns no record, and how many bytes of the buffer were written. This and the next are the C interface, so their numbers are no enums.
#[repr(C)]
#[derive(Clone, Copy)]
pub struct Outcome {
    pub number: u64,
    pub place: usize,
    pub written: usize,
}

// What a call of the join or of its preview returns: the number; the byte at which the faulty record begins within its input; that input, 1
// the first, 2 the second, 3 the added records; place and input are 0 where the number concerns no record; and how many bytes of the buffer
// were written.
#[repr(C)]
#[derive(Clone, Copy)]
pub struct JoinOutcome {
    pub number: u64,
    pub place: usize,
    pub input: u64,
    pub written: usize,
}
