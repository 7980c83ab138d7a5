// Document 01's weights of a table's ports, from rows that fit its links.
ghost use Rattle.std.specs.Prelude.{◌≤◌, MatchResult};
ghost use Rattle.specification.specs.Table.{port_count};
ghost use Rattle.table.specs.Held.{table_in};
ghost use Rattle.forest.specs.PortRows.{RowsUpTo};
ghost use Rattle.weights.specs.LeastRows.{LabelledRows, LeastRows};
ghost use Rattle.weights.specs.Weighed.{Weighing, Ones, HasBaseWeights, BaseOverweight};

use crate::OverLimit;
use exponents::row::Row;
use exponents::{primes, product, row};
use table::Table;

// No prime above `most` has an exponent in the rows, which stand for exponent zero by 1,000.
pub fn weigh(
    table: &Table,
    labels: &[usize; 64],
    rows: &[Row; 64],
    most: u64,
) -> Result<[u64; 64], OverLimit>
    requires weighing { Weighing (table_in table.now) labels.now rows.now }
    requires rows_up_to { RowsUpTo rows.now most }
    ensures { MatchResult result (HasBaseWeights (table_in table.now)) (λ _. BaseOverweight (table_in table.now)) }
{
    let least = least_rows(table, labels, rows);
    let all = primes::all();
    let mut weights = [0; 64];
    for p in 0..table.port_count() {
        let base = &least[labels[p]];
        let w = product::quotient_within(&rows[p], base, most, &all).ok_or(OverLimit)?;
        weights[p] = w;
    }
    Ok(weights)
}

// The weights where every ratio is 1: 1 for each port.
pub fn ones(ports: usize) -> [u64; 64]
    requires { ports ≤ 64 }
    ensures { Ones ports result }
{
    let mut weights = [0; 64];
    weights[..ports].fill(1);
    weights
}

// For each component, at its lowest port, the least exponent of each prime among its ports' rows.
fn least_rows(table: &Table, labels: &[usize; 64], rows: &[Row; 64]) -> [Row; 64]
    requires { LabelledRows (table_in table.now) labels.now rows.now }
    ensures { LeastRows (table_in table.now) labels.now rows.now (port_count (table_in table.now)) result }
{
    let mut least = *rows;
    for p in 0..table.port_count() {
        row::take_lesser(&mut least[labels[p]], &rows[p]);
    }
    least
}
