// A table in slices as bytes: how many there are, and the records, one behind the other. The slices stand alone, and not in a `Table`: a joined
// table may have no port, and so need not be well-formed (`join`).
#![tactic(auto)]

ghost use Rattle.std.specs.Prelude.{◌≡◌, ◌≤◌, ◌<◌, length, get_or};
ghost use Rattle.specification.specs.Bytes.{Written};
ghost use Rattle.specification.specs.Table.{no_link};
ghost use Rattle.specification.specs.Encoding.{encode_link, encode_ports, encode_links, encode_table};
ghost use Rattle.table.specs.Slices.{ports_of, links_of, table_of};
ghost use Rattle.encoding.specs.Bounded.{LinksFit};

use table::{links, ports};

pub mod record;

// By the number of the kind, as the definition `encode_link` goes.
#[tactic(auto, using(crate::specs::EncodingLaws::link_length))]
pub fn link_size(links: &[u32], k: usize) -> usize
    requires { k < length (links_of links.now) }
    ensures { result ≡ length (encode_link (get_or (links_of links.now) k no_link)) }
{
    match links::link(links, k).kind {
        3 => 16,
        4 => 24,
        _ => 20,
    }
}

fn links_size(links: &[u32]) -> usize
    requires { LinksFit (links_of links.now) }
    ensures { result ≡ length (encode_links (links_of links.now)) }
{
    (0..links::count(links)).map(|k| link_size(links, k)).sum()
}

pub fn table_size(ports: &[u32], links: &[u32]) -> usize
    requires ports_len_bound { length (ports_of ports.now) ≤ 64 }
    requires links_fit { LinksFit (links_of links.now) }
    ensures { result ≡ length (encode_table (table_of ports.now links.now)) }
{
    8 * ports::count(ports) + links_size(links)
}

// This loop and that of the links stay two: over a closure, one needs a clause on each front of what the closure gives, and is no plainer.
fn write_ports(ports: &[u32], out: &mut [u8]) -> usize
    requires { length (encode_ports (ports_of ports.now)) ≤ length out.old }
    ensures { Written (encode_ports (ports_of ports.now)) out.old out.new result }
{
    let mut at: usize = 0;
    for p in 0..ports::count(ports) {
        at += record::write_port(&mut out[at..], ports::port(ports, p));
    }
    at
}

fn write_links(links: &[u32], out: &mut [u8]) -> usize
    requires links_fit { LinksFit (links_of links.now) }
    requires links_in_bounds { length (encode_links (links_of links.now)) ≤ length out.old }
    ensures { Written (encode_links (links_of links.now)) out.old out.new result }
{
    let mut at: usize = 0;
    for k in 0..links::count(links) {
        at += record::write_link(&mut out[at..], links::link(links, k));
    }
    at
}

pub fn write_table(ports: &[u32], links: &[u32], out: &mut [u8]) -> usize
    requires links_fit { LinksFit (links_of links.now) }
    requires links_in_bounds { length (encode_table (table_of ports.now links.now)) ≤ length out.old }
    ensures { Written (encode_table (table_of ports.now links.now)) out.old out.new result }
{
    let at = write_ports(ports, out);
    at + write_links(links, &mut out[at..])
}
