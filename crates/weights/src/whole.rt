// Weights scaled, component by component, until every δ times the weight that it leaves is whole.
ghost use Rattle.std.specs.Prelude.{◌≡◌, true, get_or, length, ◌*◌, MatchResult};
ghost use Rattle.specification.specs.Ratios.{Overweight};
ghost use Rattle.table.specs.Held.{table_in};
ghost use Rattle.ways.specs.Labels.{Components};
ghost use Rattle.ways.specs.Scaling.{lacking};
ghost use Rattle.weights.specs.Weighed.{HasBaseWeights, HasWeights};
ghost use Rattle.weights.specs.Scaled.{AllUnits, Multiplying, MultipliedTo, Passing, Scalable};

use crate::OverLimit;
use fraction::Fraction;
use specification::limits;
use table::Table;

// The weights are document 01's, and are multiplied as far as it takes. Where no δ has a denominator other than 1, nothing is to be done.
pub fn make_whole(
    table: &Table,
    labels: &[usize; 64],
    weights: &mut [u64; 64],
) -> Result<(), OverLimit>
    requires components { Components (table_in table.now) labels.now }
    requires has_base_weights { HasBaseWeights (table_in table.now) weights.old }
    ensures { MatchResult result (λ _. HasWeights (table_in table.now) weights.new) (λ _. Overweight (table_in table.now)) }
{
    if all_units(table) {
        return Ok(());
    }
    scale_all(table, labels, weights)
}

// Whether every denominator is 1.
fn all_units(table: &Table) -> bool
    ensures { result ≡ true → AllUnits (table_in table.now) }
{
    for k in 0..table.link_count() {
        if table.link(k).over != 1 {
            return false;
        }
    }
    true
}

// Two conditions for each link: its denominator divides the amount forward times the sender's weight, and the amount back. Each is made to
// hold in its turn. A weight that passes 10,000 on the way passes it in the end.
fn scale_all(table: &Table, labels: &[usize; 64], weights: &mut [u64; 64]) -> Result<(), OverLimit>
    requires components { Components (table_in table.now) labels.now }
    requires has_base_weights { HasBaseWeights (table_in table.now) weights.old }
    ensures { MatchResult result (λ _. HasWeights (table_in table.now) weights.new) (λ _. Overweight (table_in table.now)) }
{
    let labels = &labels[..table.port_count()];
    for k in 0..table.link_count() {
        let l = table.link(k);
        let from = l.from;
        let over = u64::from(l.over);
        scale(weights, labels, from, l.events.0, over)?;
        scale(weights, labels, from, l.events.1, over)?;
    }
    Ok(())
}

// The weights of the component of port `from` times the least factor for which `over` divides `amount` times the weight of that port.
fn scale(
    weights: &mut [u64; 64],
    labels: &[usize],
    from: usize,
    amount: u64,
    over: u64,
) -> Result<(), OverLimit>
    requires { Scalable weights.old labels.now from amount over }
    ensures { MatchResult result
        (λ _. MultipliedTo labels.now (length labels.now) (get_or labels.now from 0) (lacking over (amount * get_or weights.old from 0)) weights.old weights.new)
        (λ _. Passing labels.now (length labels.now) (get_or labels.now from 0) (lacking over (amount * get_or weights.old from 0)) weights.old) }
{
    let f = Fraction::reduced(amount * weights[from], over).den;
    multiply(weights, labels, labels[from], f)
}

// The weights labelled c times f.
fn multiply(weights: &mut [u64; 64], labels: &[usize], c: usize, f: u64) -> Result<(), OverLimit>
    requires { Multiplying weights.old labels.now f }
    ensures { MatchResult result (λ _. MultipliedTo labels.now (length labels.now) c f weights.old weights.new) (λ _. Passing labels.now (length labels.now) c f weights.old) }
{
    if f == 1 {
        return Ok(());
    }
    for (p, &label) in labels.iter().enumerate() {
        if label == c {
            let w = weights[p] * f;
            if limits::WEIGHT < w {
                return Err(OverLimit);
            }
            weights[p] = w;
        }
    }
    Ok(())
}
