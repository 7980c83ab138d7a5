// Rounds of starts from zero over edges at one a/b.
ghost use Rattle.std.specs.Prelude.{◌≡◌, ◌+◌, ◌*◌, ◌≤◌, length};
ghost use Rattle.rounds.specs.Costs.{to_of};
ghost use Rattle.rounds.specs.Starts.{asked, raise, costs_in, Fitting, RoundsResult};
ghost use Rattle.rounds.specs.Relax.{Ready, CanRound, Grown, Round};
ghost use Rattle.rounds.specs.Advance.{Ahead, Advanced};

// The ports of a row.
const WIDTH: usize = 64;

// Each round that was allowed changed something; this is the lowest port that the last raised.
#[derive(Clone, Copy)]
pub struct Unsettled {
    pub port: usize,
}

// One edge: raises the start of its receiver to what it asks, from the starts before the round.
fn relax(old: &[u64; 64], new: &mut [u64; 64], edge: &[u64; 4])
    requires { Ready edge.now old.now new.old 0 }
    ensures { new.new ≡ raise new.old (to_of edge.now 0) (asked edge.now old.now 0) }
{
    let [from, to, gain, loss] = *edge;
    let reach = old[from as usize] + gain;
    let receiver = to as usize;
    // One comparison: what it asks for is greater than zero where it is greater than the start.
    if new[receiver] + loss < reach {
        new[receiver] = reach - loss;
    }
}

// The lowest port whose start is greater in new than in old. Looked for after a round: kept by each edge it would slow the round.
fn grown(old: &[u64; 64], new: &[u64; 64]) -> Option<usize>
    ensures { Grown old.now new.now result }
{
    old.iter().zip(new).position(|(a, b)| a < b)
}

// One round over every edge, each from the starts old, of which new is a copy. Returns the lowest port that it raised.
fn round(old: &[u64; 64], new: &mut [u64; 64], costs: &[u64]) -> Option<usize>
    requires can_round { CanRound costs.now old.now }
    requires value { new.old ≡ old.now }
    ensures { Round costs.now old.now new.new result }
{
    let (edges, _) = costs.as_chunks::<4>();
    for edge in edges {
        relax(old, new, edge);
    }
    grown(old, new)
}

// A round from row r into row r + 1. Rows and costs stand in one slice, so the new row is made apart and then copied; the round from a copy of
// the old row is faster code than one from within the slice.
fn advance(work: &mut [u64], r: usize, n: usize, edges: usize) -> Option<usize>
    requires { Ahead work.old r n edges }
    ensures advanced { Advanced (costs_in work.old n edges) r work.old work.new result }
    ensures edges_unchanged { costs_in work.new n edges ≡ costs_in work.old n edges }
{
    let at = WIDTH * r;
    let next = at + WIDTH;
    let last = next + WIDTH;
    let base = WIDTH * n + WIDTH;
    let end = base + 4 * edges;
    let mut old = [0u64; 64];
    old.copy_from_slice(&work[at..next]);
    let mut new = old;
    let grew = round(&old, &mut new, &work[base..end]);
    work[next..last].copy_from_slice(&new);
    grew
}

// Rounds from zero until one changes nothing, at most n. Row r of work holds the starts after r rounds; the costs stand behind row n.
// Returns how many rounds changed something.
pub fn settle(work: &mut [u64], n: usize, edges: usize) -> Result<usize, Unsettled>
    requires fitting { Fitting (costs_in work.old n edges) work.old n }
    requires edges_in_bounds { 64 * n + 64 + 4 * edges ≤ length work.old }
    ensures rounds_result { RoundsResult (costs_in work.old n edges) work.new n result }
    ensures edges_unchanged { costs_in work.new n edges ≡ costs_in work.old n edges }
    ensures work_len_unchanged { length work.new ≡ length work.old }
{
    work[..WIDTH].fill(0);
    let mut raised = 0;
    for r in 0..n {
        let Some(port) = advance(work, r, n, edges) else {
            return Ok(r);
        };
        raised = port;
    }
    Err(Unsettled { port: raised })
}
