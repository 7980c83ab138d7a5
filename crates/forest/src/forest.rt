// A spanning forest of a table's links.
use table::Table;

// For each port the lowest port of its component, its place in the order in which the ports were reached, from 1 on, and the link over
// which it was, if it is not that lowest port. Two arrays, as the definitions of a forest have them.
// That this is a spanning forest is no ghost field: tried, and refused, since that fact holds each port's parent as data.
#[derive(Clone, Copy)]
pub struct Forest<'a> {
    pub table: &'a Table<'a>,
    pub labels: &'a [usize; 64],
    pub reach: [usize; 64],
    pub via: [usize; 64],
}
