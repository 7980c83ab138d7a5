// The links of a table as a slice of numbers, over which hot loops go, ten for each: from, to, the parts of its ratio, ticks forward and back, events forward and
// back and their denominator, and its kind.
ghost use Rattle.std.specs.Prelude.{◌≡◌, ◌+◌, ◌*◌, ◌≤◌, ◌<◌, [], ◌∷◌, length, get_or};
ghost use Rattle.std.proofs.lemmas.List.Edits.{sets};
ghost use Rattle.specification.specs.Table.{no_link};
ghost use Rattle.table.specs.WellFormed.{LinkFits};
ghost use Rattle.table.specs.Slices.{link_numbers, link_in, links_of, LinkFields, SameLink};

use specification::{Events, Link, Ticks};

pub const WIDTH: usize = 10;

// Room for the most links of a table.
pub fn room() -> [u32; 2560]
    ensures { 2560 ≡ length result }
{
    [0; 2560]
}

pub fn count(links: &[u32]) -> usize
    ensures { result ≡ length (links_of links.now) }
{
    links.len() / WIDTH
}

// The link whose numbers stand at 10 * k.
fn read(links: &[u32], k: usize) -> Link
    requires { 10 * k + 10 ≤ length links.now }
    ensures { LinkFields result (link_in links.now k) }
{
    let at = WIDTH * k;
    Link {
        from: links[at] as usize,
        to: links[at + 1] as usize,
        num: u64::from(links[at + 2]),
        den: u64::from(links[at + 3]),
        ticks: Ticks(u64::from(links[at + 4]), u64::from(links[at + 5])),
        events: Events(u64::from(links[at + 6]), u64::from(links[at + 7])),
        over: links[at + 8],
        kind: links[at + 9],
    }
}

// It is said of the whole and field by field, so that a caller that needs one field rewrites nothing.
pub fn link(links: &[u32], k: usize) -> Link
    requires { k < length (links_of links.now) }
    ensures { SameLink result (get_or (links_of links.now) k no_link) }
{
    read(links, k)
}

// Link k. Its numbers are stored one by one, as a port's are.
pub fn store(links: &mut [u32], k: usize, l: Link)
    requires k_in_bounds { 10 * k + 10 ≤ length links.old }
    requires link_fits { LinkFits 64 l }
    ensures { links.new ≡ sets links.old (10 * k) (link_numbers (l ∷ [])) }
{
    let at = WIDTH * k;
    let ticks = l.ticks;
    let events = l.events;
    links[at] = l.from as u32;
    links[at + 1] = l.to as u32;
    links[at + 2] = l.num as u32;
    links[at + 3] = l.den as u32;
    links[at + 4] = ticks.0 as u32;
    links[at + 5] = ticks.1 as u32;
    links[at + 6] = events.0 as u32;
    links[at + 7] = events.1 as u32;
    links[at + 8] = l.over;
    links[at + 9] = l.kind;
}
