// The ports and links of a table without one of its ports, and their records.
ghost use Rattle.std.specs.Prelude.{◌≡◌, ◌+◌, ◌≤◌, ◌<◌, length, get_or};
ghost use Rattle.specification.specs.Bytes.{Written};
ghost use Rattle.specification.specs.Table.{no_port, no_link, most_over, port_count};
ghost use Rattle.specification.specs.Encoding.{encode_ports, encode_links};
ghost use Rattle.specification.specs.Hiding.{new_number, old_number, renumbered, value_leaves};
ghost use Rattle.table.specs.Held.{table_in};
ghost use Rattle.hidden.specs.ViaParts.{made_of};
ghost use Rattle.hidden.specs.OfSides.{limit_in, table_after};
ghost use Rattle.hidden.specs.Without.{CanWrite};
ghost use Rattle.hidden.specs.HiddenIn.{HiddenIn, outcome};

use crate::rate::Limit;
use crate::sides::Sides;
use crate::via::Made;
use crate::{rate, via};
use encoding::record;
use refusals::Refusal;
use specification::{Events, Link, Port, limits};

#[tactic(auto, unfolding(specification::specs::Hiding::new_number))]
fn new_number(q: usize, p: usize) -> usize
    ensures { result ≡ new_number p q }
{
    if p < q { q - 1 } else { q }
}

fn renumber(l: Link, p: usize) -> Link
    ensures { result ≡ renumbered p l }
{
    Link {
        from: new_number(l.from, p),
        to: new_number(l.to, p),
        ..l
    }
}

// A new connection whose values are within their ranges. Its kind is the number that the definition `via` gives.
fn link_of(m: Made) -> Link
    requires { m.delta.over ≤ most_over }
    ensures { result ≡ made_of m }
{
    let delta = m.delta;
    Link {
        from: m.from,
        to: m.to,
        num: m.num,
        den: m.den,
        ticks: m.ticks,
        events: Events(delta.forward, delta.back),
        over: delta.over as u32,
        kind: 4,
    }
}

#[tactic(auto, unfolding(specification::specs::Hiding::old_number))]
fn old_number(q: usize, p: usize) -> usize
    requires { q < 64 }
    ensures { result ≡ old_number p q }
{
    if q < p { q } else { q + 1 }
}

impl<'a> Sides<'a> {
    // Link k of the table without the port: those apart from it, then the new connections.
    fn link_after(&self, k: usize) -> Link
        requires can { CanWrite (table_in self.now.table.now) self.now.port }
        requires k_in_bounds { k < length (table_after self.now).links }
        ensures { result ≡ get_or (table_after self.now).links k no_link }
    {
        let kept = self.apart.len();
        let l = if k < kept {
            self.link(self.apart[k])
        } else {
            link_of(via::made_at(self, k - kept))
        };
        renumber(l, self.port)
    }

    // This loop and that of the ports stay two: over a closure, one needs a clause on each front of what the closure gives, and is no plainer.
    fn write_links(&self, out: &mut [u8]) -> usize
        requires can { CanWrite (table_in self.now.table.now) self.now.port }
        requires room { length (encode_links (table_after self.now).links) ≤ length out.old }
        ensures { Written (encode_links (table_after self.now).links) out.old out.new result }
    {
        let mut at = 0;
        for k in 0..self.link_count() {
            at += record::write_link(&mut out[at..], self.link_after(k));
        }
        at
    }

    // Port q of the table without the port. The limit is worked out once and passed, so what it is is a clause.
    fn port_after(&self, limit: Limit, q: usize) -> Port
        requires limit_is { limit ≡ limit_in self.now }
        requires q_in_bounds { q + 1 < port_count (table_in self.now.table.now) }
        ensures { result ≡ get_or (table_after self.now).ports q no_port }
    {
        let old = old_number(q, self.port);
        match limit.rate {
            Some(rate) if limit.sender == old => rate,
            _ => self.table.port(old),
        }
    }

    fn write_ports(&self, limit: Limit, out: &mut [u8]) -> usize
        requires limit_is { limit ≡ limit_in self.now }
        requires room { length (encode_ports (table_after self.now).ports) ≤ length out.old }
        ensures { Written (encode_ports (table_after self.now).ports) out.old out.new result }
    {
        let mut at = 0;
        for q in 0..self.table.port_count() - 1 {
            at += record::write_port(&mut out[at..], self.port_after(limit, q));
        }
        at
    }

    // 19: the lowered rate or a new connection leaves its range.
    fn value_leaves(&self, limit: Limit) -> bool
        requires { limit ≡ limit_in self.now }
        ensures { result ≡ value_leaves (table_in self.now.table.now) self.now.port }
    {
        limit.rate.is_some_and(rate::leaves_range) || via::any_leaves(self)
    }

    // 19, 7 and 16, or how many bytes the table took.
    pub fn write(&self, out: &mut [u8]) -> Result<usize, Refusal>
        ensures { HiddenIn (table_in self.now.table.now) self.now.port out.old out.new (outcome result) }
    {
        let limit = rate::limit_of(self);
        if self.value_leaves(limit) {
            return Err(Refusal::Range);
        }
        if limits::LINKS < self.link_count() {
            return Err(Refusal::Links);
        }
        if out.len() < self.size() {
            return Err(Refusal::ShortTable);
        }
        let at = self.write_ports(limit, out);
        Ok(at + self.write_links(&mut out[at..]))
    }
}
