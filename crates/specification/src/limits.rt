// The limits of a table and the sizes of an answer. The definitions of `specs/Table.antt` and `specs/Answers.antt` have the same numbers.
pub const PORTS: usize = 64;

pub const LINKS: usize = 256;

pub const PART: u64 = 1000;

pub const TICKS: u64 = 10000000;

pub const EVENTS: u64 = 1000;

pub const OVER: u64 = 10000;

pub const WEIGHT: u64 = 10000;

// The bytes of a port answer and of a buffer answer.
pub const PORT_BYTES: usize = 24;

pub const BUFFER_BYTES: usize = 14;

// The least answer buffer.
pub const LEAST_ROOM: usize = PORTS * PORT_BYTES + LINKS * BUFFER_BYTES;

// The port in the record of the floor zero.
pub const ZERO_FLOOR_PORT: u64 = 65535;
