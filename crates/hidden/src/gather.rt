// The links at a port, whether it can be hidden, and the numbers of the links that pass a test.
ghost use Rattle.std.specs.Prelude.{◌≡◌, Bool};
ghost use Rattle.specification.specs.Hiding.{touches, bars, cannot_hide};
ghost use Rattle.specification.specs.declared.Link.{Link};
ghost use Rattle.table.specs.Held.{table_in};
ghost use Rattle.hidden.specs.Picked.{NumbersOf, Decides};

use specification::Link;
use table::Table;

pub fn touches_port(l: Link, p: usize) -> bool
    ensures { result ≡ touches p l }
{
    l.to == p || l.from == p
}

// A buffer at the port, or a link from it to itself.
fn bars_port(l: Link, p: usize) -> bool
    ensures { result ≡ bars p l }
{
    touches_port(l, p) && (l.is_buffer() || l.from == l.to)
}

// The numbers of the links that pass, in their order, at the front of the room.
pub fn numbers_of<'a, F: Fn(Link) -> bool>(
    table: &Table,
    passes: F,
    room: &'a mut [u8; 256],
) -> &'a [u8]
    requires { F.IsAlwaysCallable passes }
    ensures { (test : Link → Bool) → Decides (F.post passes) test (table_in table.now).links → NumbersOf test (table_in table.now).links result.now }
{
    let mut count = 0;
    for k in 0..table.link_count() {
        if passes(table.link(k)) {
            room[count] = k as u8;
            count += 1;
        }
    }
    &room[..count]
}

// 18: no such port, a link that bars, or none into it or out of it.
pub fn cannot_hide(table: &Table, p: usize) -> bool
    ensures { result ≡ cannot_hide (table_in table.now) p }
{
    let count = table.link_count();
    let bars = (0..count).any(|k| bars_port(table.link(k), p));
    let sends = (0..count).any(|k| table.link(k).to == p);
    let receives = (0..count).any(|k| table.link(k).from == p);
    table.port_count() <= p || bars || !sends || !receives
}
