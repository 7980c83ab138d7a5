// The components of a table.
ghost use Rattle.specification.specs.Table.{link_count};
ghost use Rattle.table.specs.Held.{table_in};
ghost use Rattle.ways.specs.Labels.{Components};
ghost use Rattle.ways.specs.Passes.{Own, Both, Levelled, Sound, Passed};

use table::Table;

// Gives two ports the smaller of their labels. Says whether the labels differed.
fn level(labels: &mut [usize; 64], p: usize, q: usize) -> bool
    requires { Both p q }
    ensures { Levelled labels.old p q labels.new result }
{
    let a = labels[p];
    let b = labels[q];
    let least = a.min(b);
    labels[p] = least;
    labels[q] = least;
    a != b
}

// One pass over the links: each gives both its ends the smaller label. Says whether a label changed.
fn pass(table: &Table, labels: &mut [usize; 64]) -> bool
    requires { Sound (table_in table.now) labels.old }
    ensures { Passed (table_in table.now) (link_count (table_in table.now)) labels.old labels.new result }
{
    let mut changed = false;
    for k in 0..table.link_count() {
        let l = table.link(k);
        changed |= level(labels, l.from, l.to);
    }
    changed
}

// For each port the lowest port that it is joined to; past the ports each number itself.
pub fn components(table: &Table) -> [usize; 64]
    ensures { Components (table_in table.now) result }
{
    let mut labels = own_labels();
    while pass(table, &mut labels) {}
    labels
}

// Each number itself.
fn own_labels() -> [usize; 64]
    ensures { Own 64 result }
{
    let mut labels = [0; 64];
    for (p, label) in labels.iter_mut().enumerate() {
        *label = p;
    }
    labels
}
