// A spanning forest over the links of a table, with a row of prime exponents for each port.
ghost use Rattle.std.specs.Prelude.{◌≡◌, ◌≤◌, ◌<◌, replicate};
ghost use Rattle.specification.specs.Table.{link_count};
ghost use Rattle.table.specs.Held.{table_in};
ghost use Rattle.ways.specs.Labels.{Components};
ghost use Rattle.forest.specs.PortRows.{zero_row, Spanned};
ghost use Rattle.forest.specs.Spreading.{entered, Rooted, Spreading, Spreadable, RowMade, Followable, Followed, Passed};

use crate::forest::Forest;
use exponents::row;
use exponents::row::Row;
use exponents::tables::FactorTables;
use table::Table;

// A link from its end `from` to its end `to`: the row of `to` is that of `from` times `times`, divided by `by`.
#[derive(Clone, Copy)]
struct Crossing {
    link: usize,
    from: usize,
    to: usize,
    times: u64,
    by: u64,
}

// A forest while it spreads: the order in which the ports were reached, from 1 on (0: not yet, as the definition of a forest has it), the link over which each was, and how many
// are.
#[derive(Clone, Copy)]
struct Growing {
    reach: [usize; 64],
    via: [usize; 64],
    count: usize,
}

impl<'a> Forest<'a> {
    // From the lowest port of each component every other port is reached over one link; its row follows from that of the link's other end.
    // At first each row is that of exponent zero.
    pub fn spanning(
        table: &'a Table<'a>,
        labels: &'a [usize; 64],
        rows: &mut [Row; 64],
        tables: &FactorTables,
    ) -> Forest<'a>
        requires components { Components (table_in table.now) labels.now }
        requires rows_value { rows.old ≡ replicate 64 zero_row }
        ensures table { result.table.now ≡ table.now }
        ensures labels { result.labels.now ≡ labels.now }
        ensures spanned { Spanned (table_in table.now) labels.now result.reach result.via rows.new }
    {
        let mut growing = Growing::roots(table.port_count(), labels);
        loop {
            let before = growing.count;
            growing.pass(table, rows, tables);
            if growing.count == before {
                return Forest {
                    table,
                    labels,
                    reach: growing.reach,
                    via: growing.via,
                };
            }
        }
    }
}

impl Growing {
    // The lowest port of each component, reached over no link.
    fn roots(ports: usize, labels: &[usize; 64]) -> Growing
        requires { ports ≤ 64 }
        ensures { Rooted ports labels.now result }
    {
        let mut roots = Growing {
            reach: [0; 64],
            via: [0; 64],
            count: 0,
        };
        for p in 0..ports {
            if labels[p] == p {
                roots.enter(p, 0);
            }
        }
        roots
    }

    // Port p is reached next, over a link.
    fn enter(&mut self, p: usize, link: usize)
        requires p_in_bounds { p < 64 }
        requires few { self.old.count ≤ 64 }
        ensures { self.new ≡ entered self.old p link }
    {
        self.count += 1;
        self.reach[p] = self.count;
        self.via[p] = link;
    }

    // One pass over the links: each with one end reached reaches the other.
    fn pass(&mut self, table: &Table, rows: &mut [Row; 64], tables: &FactorTables)
        requires { Spreading (table_in table.now) self.old rows.old }
        ensures { Passed (table_in table.now) (link_count (table_in table.now)) self.old self.new rows.new }
    {
        for k in 0..table.link_count() {
            let l = table.link(k);
            let along = Crossing {
                link: k,
                from: l.from,
                to: l.to,
                times: l.den,
                by: l.num,
            };
            self.follow(rows, along, tables);
            let against = Crossing {
                link: k,
                from: l.to,
                to: l.from,
                times: l.num,
                by: l.den,
            };
            self.follow(rows, against, tables);
        }
    }

    // Where only the end `from` is reached, the end `to` is, over the link.
    fn follow(&mut self, rows: &mut [Row; 64], crossing: Crossing, tables: &FactorTables)
        requires { Followable self.old rows.old crossing.from crossing.to crossing.times crossing.by }
        ensures { Followed self.old rows.old crossing.from crossing.to crossing.link crossing.times crossing.by self.new rows.new }
    {
        if self.reach[crossing.from] != 0 && self.reach[crossing.to] == 0 {
            crossing.spread(rows, tables);
            self.enter(crossing.to, crossing.link);
        }
    }
}

impl Crossing {
    // The row of `to`: that of `from` times `times`, divided by `by`.
    fn spread(self, rows: &mut [Row; 64], tables: &FactorTables)
        requires { Spreadable rows.old self.from self.to self.times self.by }
        ensures { RowMade rows.old self.from self.to self.times self.by rows.new }
    {
        rows[self.to] = if self.times == self.by {
            rows[self.from]
        } else {
            row::scaled(rows[self.from], self.times, self.by, tables)
        };
    }
}
