// Reads numbers of some bytes, little-endian.
ghost use Rattle.std.specs.Prelude.{◌≡◌, ◌+◌, ◌*◌, ◌^◌, ◌≤◌, ◌<◌, length};
ghost use Rattle.specification.specs.Bytes.{number_at};

// The number that the n bytes from a place on stand for.
pub fn number_at(s: &[u8], at: usize, n: usize) -> u64
    requires n_in_bounds { at + n ≤ length s.now }
    requires n_bound { n ≤ 8 }
    ensures { (result ≡ number_at s.now at n) × (result < 2 ^ (8 * n)) }
{
    let mut v = 0;
    for &x in s[at..at + n].iter().rev() {
        v = u64::from(x) + 256 * v;
    }
    v
}
