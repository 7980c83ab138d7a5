// The components, ratios and weights of a table: numbers 13 and 14.
ghost use Rattle.std.specs.Prelude.{◌≤◌, ◌≡◌, length, Err, MatchResult};
ghost use Rattle.table.specs.Held.{table_in};
ghost use Rattle.ways.specs.Labels.{Components};
ghost use Rattle.forest.specs.PortRows.{PartsAtMost};
ghost use Rattle.weights.specs.Weighed.{HasBaseWeights, HasWeights};
ghost use Rattle.weights.specs.Ratios.{number_of, refusal_of, DiscordHolds, IsRatios};
ghost use Rattle.weights.specs.declared.ratios.Discord.TheVariants.{OverLimit};

use crate::{weights, whole};
use exponents::tables::FactorTables;
use forest::{Forest, parts};
use refusals::Refusal;
use table::Table;
use ways::components;

// Of each port the lowest port of its component, and its weight. Two arrays: the search is lent the weights alone.
#[derive(Clone, Copy)]
pub struct Weighted {
    pub labels: [usize; 64],
    pub weights: [u64; 64],
}

// Why there are no weights.
#[derive(Clone, Copy)]
pub enum Discord {
    // So many steps of a loop disagree: 13. The caller's buffer holds them.
    Loop(usize),
    // Some weight passes 10,000: 14.
    OverLimit,
}

// The components of a table that has no weights, and why it has none.
#[derive(Clone, Copy)]
pub struct Unweighted {
    pub labels: [usize; 64],
    pub discord: Discord,
}

impl Unweighted {
    // Document 01's number for it.
    pub fn number(&self) -> u64
        ensures { result ≡ number_of (Err self.now) }
    {
        Refusal::from(self.discord).number()
    }
}

impl From<crate::OverLimit> for Discord {
    ghost from_gives = { λ _ d. d ≡ OverLimit };

    fn from(_: crate::OverLimit) -> Discord {
        Discord::OverLimit
    }
}

impl From<Discord> for Refusal {
    ghost from_gives = { λ d r. r ≡ refusal_of d };

    fn from(discord: Discord) -> Refusal {
        match discord {
            Discord::Loop(_) => Refusal::Ratios,
            Discord::OverLimit => Refusal::Weight,
        }
    }
}

// The numbers receive the loop of 13, of each step the link's number and its direction.
pub fn ratios_of(table: &Table, numbers: &mut [u64]) -> Result<Weighted, Unweighted>
    requires { 128 ≤ length numbers.old }
    ensures { IsRatios (table_in table.now) numbers.old numbers.new result }
{
    let labels = components::components(table);
    let mut weights = [0; 64];
    match write_weights(table, &labels, &mut weights, numbers) {
        Ok(()) => Ok(Weighted { labels, weights }),
        Err(discord) => Err(Unweighted { labels, discord }),
    }
}

// The weights, or why there are none. They are lent: returned, they would be copied.
fn write_weights(
    table: &Table,
    labels: &[usize; 64],
    weights: &mut [u64; 64],
    numbers: &mut [u64],
) -> Result<(), Discord>
    requires components { Components (table_in table.now) labels.now }
    requires in_bounds { 128 ≤ length numbers.old }
    ensures { MatchResult result (λ _. HasWeights (table_in table.now) weights.new × (numbers.new ≡ numbers.old)) (DiscordHolds (table_in table.now) numbers.old numbers.new) }
{
    let most = parts::greatest_part(table);
    *weights = if most == 0 {
        weights::ones(table.port_count())
    } else {
        by_rows(table, labels, most, numbers)?
    };
    whole::make_whole(table, labels, weights)?;
    Ok(())
}

// Document 01's weights by rows of exponents, where some ratio is not 1. Its 56 KB of stack are not there while the periods are searched.
#[inline(never)]
fn by_rows(
    table: &Table,
    labels: &[usize; 64],
    most: u64,
    numbers: &mut [u64],
) -> Result<[u64; 64], Discord>
    requires components { Components (table_in table.now) labels.now }
    requires parts_at_most { PartsAtMost (table_in table.now) most }
    requires in_bounds { 128 ≤ length numbers.old }
    ensures { MatchResult result (λ weights. HasBaseWeights (table_in table.now) weights × (numbers.new ≡ numbers.old)) (DiscordHolds (table_in table.now) numbers.old numbers.new) }
{
    let tables = FactorTables::new();
    let mut rows = [[1000; 168]; 64];
    let forest = Forest::spanning(table, labels, &mut rows, &tables);
    if let Some(k) = forest.conflict(&rows, &tables) {
        let steps = forest.close(k, numbers);
        return Err(Discord::Loop(steps));
    }
    Ok(weights::weigh(table, labels, &rows, most)?)
}
