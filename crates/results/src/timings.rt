// A table with the components, periods and starts of its ports.
ghost use Rattle.table.specs.Held.{table_in};
ghost use Rattle.results.specs.Kept.{TableNumbers};

use crate::kept::Kept;
use table::Table;

#[derive(Clone, Copy)]
pub struct Timings<'a> {
    pub table: &'a Table<'a>,
    pub weights: &'a [u64; 64],
    pub kept: &'a [Kept; 64],
    pub ghost numbers: { TableNumbers (table_in table.now) weights.now kept.now },
}
