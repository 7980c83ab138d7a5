// Writes one record of a table into the part of a buffer that begins at its place. Lengths and kinds are the numbers that the definitions have
// (`encode_port`, `encode_link`). That a link fits its ranges is a clause, and no type: `Link` is also what lies outside them.
ghost use Rattle.std.specs.Prelude.{◌≡◌, ◌≤◌, length, ◌++◌};
ghost use Rattle.std.proofs.lemmas.List.Edits.{sets};
ghost use Rattle.specification.specs.Bytes.{bytes, encode, Written};
ghost use Rattle.specification.specs.Encoding.{signed_word, encode_port, link_fields, connection_fields, encode_link};
ghost use Rattle.table.specs.WellFormed.{LinkFits};

use records::write::put_number;
use specification::{Link, Port};

#[tactic(auto, unfolding(specification::specs::Encoding::signed_word))]
fn signed_word(forward: u64, back: u64) -> u64
    requires { back ≤ 4294967296 }
    ensures { result ≡ signed_word forward back }
{
    if back == 0 {
        forward
    } else {
        4294967296 - back
    }
}

pub fn write_port(tail: &mut [u8], p: Port) -> usize
    requires { 8 ≤ length tail.old }
    ensures { Written (encode_port p) tail.old tail.new result }
{
    put_number(tail, 0, 2, 6);
    put_number(tail, 2, 2, 1);
    put_number(tail, 4, 2, p.num);
    put_number(tail, 6, 2, p.den);
    8
}

// What a connection and a buffer have in common, behind the length and kind.
fn put_fields(tail: &mut [u8], l: Link)
    requires in_bounds { 16 ≤ length tail.old }
    requires link_fits { LinkFits 64 l }
    ensures { tail.new ≡ sets tail.old 4 (link_fields l) }
{
    let ticks = l.ticks;
    put_number(tail, 4, 2, l.from as u64);
    put_number(tail, 6, 2, l.to as u64);
    put_number(tail, 8, 2, l.num);
    put_number(tail, 10, 2, l.den);
    put_number(tail, 12, 4, signed_word(ticks.0, ticks.1));
}

// What the two kinds of connection have in common, behind the length and kind.
fn put_connection(tail: &mut [u8], l: Link)
    requires in_bounds { 20 ≤ length tail.old }
    requires link_fits { LinkFits 64 l }
    ensures { tail.new ≡ sets tail.old 4 (connection_fields l) }
{
    let events = l.events;
    put_fields(tail, l);
    put_number(tail, 16, 4, signed_word(events.0, events.1));
}

fn write_buffer(tail: &mut [u8], l: Link) -> usize
    requires in_bounds { 16 ≤ length tail.old }
    requires link_fits { LinkFits 64 l }
    ensures { Written (encode 3 (link_fields l)) tail.old tail.new result }
{
    put_number(tail, 0, 2, 14);
    put_number(tail, 2, 2, 3);
    put_fields(tail, l);
    16
}

fn write_connection(tail: &mut [u8], l: Link) -> usize
    requires in_bounds { 20 ≤ length tail.old }
    requires link_fits { LinkFits 64 l }
    ensures { Written (encode 2 (connection_fields l)) tail.old tail.new result }
{
    put_number(tail, 0, 2, 18);
    put_number(tail, 2, 2, 2);
    put_connection(tail, l);
    20
}

// A connection whose number of events is a fraction.
fn write_fraction(tail: &mut [u8], l: Link) -> usize
    requires in_bounds { 24 ≤ length tail.old }
    requires link_fits { LinkFits 64 l }
    ensures { Written (encode 4 (connection_fields l ++ bytes 4 l.over)) tail.old tail.new result }
{
    put_number(tail, 0, 2, 22);
    put_number(tail, 2, 2, 4);
    put_connection(tail, l);
    put_number(tail, 20, 4, u64::from(l.over));
    24
}

#[tactic(auto, using(crate::specs::EncodingLaws::link_length, crate::specs::EncodingLaws::buffer_is, crate::specs::EncodingLaws::fraction_is, crate::specs::EncodingLaws::connection_is))]
pub fn write_link(tail: &mut [u8], l: Link) -> usize
    requires l_in_bounds { length (encode_link l) ≤ length tail.old }
    requires link_fits { LinkFits 64 l }
    ensures { Written (encode_link l) tail.old tail.new result }
{
    match l.kind {
        3 => write_buffer(tail, l),
        4 => write_fraction(tail, l),
        _ => write_connection(tail, l),
    }
}
