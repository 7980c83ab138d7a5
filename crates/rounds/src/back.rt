// Walks back through the rows of starts to a cycle that gains more than it loses.
ghost use Rattle.std.specs.Prelude.{◌≡◌, length};
ghost use Rattle.rounds.specs.Tight.{TightEdge, SomeTight};
ghost use Rattle.rounds.specs.Back.{EveryRoundRaises, FoundCycle};

// The steps from first up to last, not last itself.
#[derive(Clone, Copy)]
pub struct Part {
    pub first: usize,
    pub last: usize,
}

// An edge that brought port p to its start in row r + 1, from its sender's start in row r.
fn tight(rows: &[u64], r: usize, costs: &[u64], p: usize) -> usize
    requires { SomeTight costs.now rows.now r p }
    ensures { TightEdge costs.now rows.now r p result }
{
    let below = 64 * r;
    let start = rows[below + 64 + p];
    let (edges, _) = costs.as_chunks::<4>();
    for (k, &[from, to, gain, loss]) in edges.iter().enumerate() {
        if to as usize == p && rows[below + from as usize] + gain == start + loss {
            return k;
        }
    }
    // Some edge is tight.
    unreachable!()
}

// From the port that round n raised, back along tight edges, to the first port that comes twice. Step r is the edge from row r to row r + 1.
pub fn cycle_back(rows: &[u64], n: usize, costs: &[u64], port: usize, steps: &mut [u64]) -> Part
    requires { EveryRoundRaises costs.now rows.now n port steps.old }
    ensures found_cycle { FoundCycle costs.now steps.new result }
    ensures steps_len_unchanged { length steps.new ≡ length steps.old }
{
    // The row where each port was met.
    let mut met = [None; 64];
    let mut p = port;
    met[p] = Some(n);
    for r in (0..n).rev() {
        let k = tight(rows, r, costs, p);
        steps[r] = k as u64;
        p = costs[4 * k] as usize;
        if let Some(last) = met[p] {
            return Part { first: r, last };
        }
        met[p] = Some(r);
    }
    // Else n + 1 ports would differ among n.
    unreachable!()
}
