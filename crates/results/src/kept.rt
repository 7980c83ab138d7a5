// What is kept of a port.
use fraction::Fraction;

// Its component, its period, and its start times the period's denominator.
#[derive(Clone, Copy)]
pub struct Kept {
    pub component: u64,
    pub period: Fraction,
    pub start: u64,
}
