// Rows of exponents, one for each prime.
ghost use Rattle.exponents.specs.Row.{RoomToMultiply, RoomToDivide, Scaled, Same, TakenLesser};

use crate::tables::FactorTables;

pub type Row = [u16; 168];

// The row of the product with `times`, divided by `by`. Two loops, of which one adds and one takes away: over a closure they are no plainer.
pub fn scaled(mut row: Row, times: u64, by: u64, tables: &FactorTables) -> Row
    requires room_to_multiply { RoomToMultiply row times }
    requires room_to_divide { RoomToDivide row by }
    ensures { Scaled row times by result }
{
    let mut left = times;
    while 1 < left {
        let f = tables.prime_factor(left);
        row[f.place] += 1;
        left /= f.prime;
    }
    let mut rest = by;
    while 1 < rest {
        let f = tables.prime_factor(rest);
        row[f.place] -= 1;
        rest /= f.prime;
    }
    row
}

// Whether two rows are equal.
pub fn same(a: &Row, b: &Row) -> bool
    ensures { Same a.now b.now result }
{
    a == b
}

// A row takes, place by place, the smaller exponent of itself and of another.
pub fn take_lesser(least: &mut Row, row: &Row)
    ensures { TakenLesser least.old row.now least.new }
{
    for (i, x) in least.iter_mut().enumerate() {
        *x = row[i].min(*x);
    }
}
