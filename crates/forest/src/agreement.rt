// Whether rows of exponents fit the ratios of the links. That they are rows of ports is a clause: they change while the forest spreads.
ghost use Rattle.std.specs.Prelude.{◌<◌, ◌≡◌, MatchOption, IfSome};
ghost use Rattle.specification.specs.Table.{link_count};
ghost use Rattle.table.specs.Held.{table_in};
ghost use Rattle.table.specs.WellFormed.{LinkFits};
ghost use Rattle.forest.specs.PortRows.{PortRows, OverForest};
ghost use Rattle.forest.specs.Agreement.{FitsRows, later_end, TreeLinked, tree_link, is_parallel, KnownToFit, FitBelow, FirstConflict};

use crate::forest::Forest;
use exponents::row;
use exponents::row::Row;
use exponents::tables::FactorTables;
use specification::Link;

// Whether the rows of a link's ends fit its ratio.
fn fits(l: Link, rows: &[Row; 64], tables: &FactorTables) -> bool
    requires link_fits { LinkFits 64 l }
    requires port_rows { PortRows rows.now }
    ensures { FitsRows l rows.now result }
{
    if l.num == l.den {
        row::same(&rows[l.to], &rows[l.from])
    } else {
        let row = row::scaled(rows[l.to], l.num, l.den, tables);
        row::same(&row, &rows[l.from])
    }
}

// Whether l joins the ports that m joins, at the same ratio: rows that fit m then fit l.
fn parallel(l: Link, m: Link) -> bool
    requires link_fits { LinkFits 64 l }
    requires link_fits_2 { LinkFits 64 m }
    ensures { result ≡ is_parallel l m }
{
    if l.from == m.from && l.to == m.to {
        l.num * m.den == l.den * m.num
    } else {
        l.from == m.to && l.to == m.from && l.num * m.num == l.den * m.den
    }
}

// Whether the rows fit link l. If a link is known that they fit, and l is parallel to it, they are not compared.
fn agrees(l: Link, known: Option<Link>, rows: &[Row; 64], tables: &FactorTables) -> bool
    requires link_fits { LinkFits 64 l }
    requires port_rows { PortRows rows.now }
    requires known_to_fit { IfSome known (KnownToFit rows.now) }
    ensures { FitsRows l rows.now result }
{
    match known {
        Some(m) if parallel(l, m) => true,
        _ => fits(l, rows, tables),
    }
}

impl<'a> Forest<'a> {
    // The end of a link that was reached later.
    fn later(&self, p: usize, q: usize) -> usize
        requires { (p < 64) × (q < 64) }
        ensures { result ≡ later_end self.now.reach p q }
    {
        if self.reach[p] < self.reach[q] { q } else { p }
    }

    // The link over which port p was reached, if it is not the lowest of its component.
    fn tree_link(&self, p: usize) -> Option<Link>
        requires { TreeLinked (table_in self.now.table.now) self.now.labels.now self.now.via p }
        ensures { result ≡ tree_link (table_in self.now.table.now) self.now.labels.now self.now.via p }
    {
        if self.labels[p] == p {
            None
        } else {
            Some(self.table.link(self.via[p]))
        }
    }

    // The first link that the rows do not fit. One that is parallel to the forest's link between its ends, as that link itself is, is not
    // compared.
    pub fn conflict(&self, rows: &[Row; 64], tables: &FactorTables) -> Option<usize>
        requires port_rows { PortRows rows.now }
        requires over_forest { OverForest (table_in self.now.table.now) self.now.labels.now self.now.via rows.now }
        ensures { MatchOption result (FitBelow (table_in self.now.table.now) rows.now (link_count (table_in self.now.table.now))) (FirstConflict (table_in self.now.table.now) rows.now) }
    {
        for k in 0..self.table.link_count() {
            let l = self.table.link(k);
            let known = self.tree_link(self.later(l.from, l.to));
            if !agrees(l, known, rows, tables) {
                return Some(k);
            }
        }
        None
    }
}
