// Why there is no answer: the numbers above 0 by name, and what a call returns of each.
#![tactic(auto)]

ghost use Rattle.std.specs.Prelude.{◌≡◌};
ghost use Rattle.refusals.specs.Numbers.{number_of};
ghost use Rattle.refusals.specs.Faults.{outcome_of};
ghost use Rattle.refusals.specs.declared.Fault.{Fault};

use specification::Outcome;

// Each with the number that document 01 gives it.
#[derive(Clone, Copy)]
pub enum Refusal {
    // The answer buffer is too short.
    ShortAnswer = 1,
    // A record's length is missing, below 2 or past the end.
    Length = 2,
    // No record has this kind.
    Kind = 3,
    // The length is not the kind's.
    KindLength = 4,
    // A port behind a connection or buffer.
    LatePort = 5,
    // The 65th port.
    Ports = 6,
    // The 257th connection or buffer.
    Links = 7,
    // A part of a rate is outside its range.
    Rate = 8,
    // From or to names no port.
    Ends = 9,
    // A part of a ratio is outside its range.
    Ratio = 10,
    // ε or δ is outside its range.
    Delays = 11,
    // There is no port.
    NoPort = 12,
    // The ratios of a loop disagree.
    Ratios = 13,
    // A weight passes 10,000.
    Weight = 14,
    // A cycle blocks every period.
    Blocked = 15,
    // The buffer is shorter than the table.
    ShortTable = 16,
    // There are periods, but no least.
    NoLeast = 17,
    // The port cannot be hidden.
    Held = 18,
    // What hiding makes leaves its range.
    Range = 19,
}

impl Refusal {
    pub fn number(self) -> u64
        ensures { result ≡ number_of self }
    {
        self as u64
    }
}

// A refusal, and the byte at which the faulty record begins; 0 where it concerns no record.
#[derive(Clone, Copy)]
pub struct Fault {
    pub refusal: Refusal,
    pub place: usize,
}

// Of no record.
impl From<Refusal> for Fault {
    ghost from_gives = { λ r f. f ≡ record { refusal = r; place = 0 } };

    fn from(refusal: Refusal) -> Fault {
        Fault { refusal, place: 0 }
    }
}

impl From<Fault> for Outcome {
    ghost from_gives = { λ f o. o ≡ outcome_of f };

    fn from(fault: Fault) -> Outcome {
        Outcome {
            number: fault.refusal.number(),
            place: fault.place,
            written: 0,
        }
    }
}

// Of no record.
impl From<Refusal> for Outcome {
    ghost from_gives = { λ r o. o ≡ outcome_of (record { refusal = r; place = 0 }) };

    fn from(refusal: Refusal) -> Outcome {
        Fault::from(refusal).into()
    }
}
