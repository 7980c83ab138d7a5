// Reads one record of a table. The bytes and a place in them go together, as in the definitions, which the clauses equal.
ghost use Rattle.std.specs.Prelude.{◌≡◌, ◌+◌, ◌≤◌, ◌<◌, length};
ghost use Rattle.specification.specs.Bytes.{number_at};
ghost use Rattle.specification.specs.Reading.{forward, back, length_faulty, part_faulty, parts_faulty, rate_faulty, ends_faulty, events_at, amount_faulty, events_faulty, delays_faulty, port_of, link_of, port_at, link_at, kind_at, record_at};
ghost use Rattle.table.specs.Found.{found_at, read_of};

use crate::four_bytes;
use records::read::number_at;
use refusals::{Fault, Refusal};
use specification::{Before, Events, Link, Port, Ticks, limits};

// What a record holds.
#[derive(Clone, Copy)]
pub enum Record {
    Port(Port),
    Link(Link),
}

#[tactic(auto, unfolding(specification::specs::Reading::length_faulty))]
fn length_faulty(s: &[u8], at: usize) -> bool
    requires { at < length s.now }
    ensures { result ≡ length_faulty s.now at }
{
    let left = s.len() - at;
    if left < 2 {
        return true;
    }
    let n = number_at(s, at, 2) as usize;
    n < 2 || left - 2 < n
}

#[tactic(auto, unfolding(specification::specs::Reading::part_faulty))]
fn part_faulty(x: u64) -> bool
    ensures { result ≡ part_faulty x }
{
    x == 0 || limits::PART < x
}

// The two parts of a rate or ratio.
#[tactic(auto, unfolding(specification::specs::Reading::parts_faulty))]
fn parts_faulty(s: &[u8], at: usize) -> bool
    requires { at + 4 ≤ length s.now }
    ensures { result ≡ parts_faulty s.now at }
{
    part_faulty(number_at(s, at, 2)) || part_faulty(number_at(s, at + 2, 2))
}

// A rate: no rate is 0/0.
#[tactic(auto, unfolding(specification::specs::Reading::rate_faulty))]
fn rate_faulty(s: &[u8], at: usize) -> bool
    requires { at + 4 ≤ length s.now }
    ensures { result ≡ rate_faulty s.now at }
{
    if number_at(s, at, 2) == 0 {
        number_at(s, at + 2, 2) != 0
    } else {
        parts_faulty(s, at)
    }
}

// From and to.
#[tactic(auto, unfolding(specification::specs::Reading::ends_faulty))]
fn ends_faulty(s: &[u8], at: usize, named: usize) -> bool
    requires { at + 4 ≤ length s.now }
    ensures { result ≡ ends_faulty s.now at named }
{
    named as u64 <= number_at(s, at, 2) || named as u64 <= number_at(s, at + 2, 2)
}

// An amount with a sign is above most, or below its negation.
#[tactic(auto, unfolding(specification::specs::Reading::amount_faulty))]
fn amount_faulty(most: u64, forward: u64, back: u64) -> bool
    ensures { result ≡ amount_faulty most forward back }
{
    most < forward || most < back
}

// A number of events divided by `over`.
#[tactic(auto, unfolding(specification::specs::Reading::events_faulty))]
fn events_faulty(events: Events, over: u64) -> bool
    ensures { result ≡ events_faulty events over }
{
    over == 0 || limits::OVER < over || amount_faulty(limits::EVENTS * over, events.0, events.1)
}

#[tactic(auto, unfolding(specification::specs::Reading::delays_faulty))]
fn delays_faulty(ticks: Ticks, events: Events, over: u64) -> bool
    ensures { result ≡ delays_faulty ticks events over }
{
    amount_faulty(limits::TICKS, ticks.0, ticks.1) || events_faulty(events, over)
}

// An amount with a sign: what it is forward, and what it is back.
fn amounts_at(s: &[u8], at: usize) -> (u64, u64)
    requires { at + 4 ≤ length s.now }
    ensures { result ≡ (forward (number_at s.now at 4), back (number_at s.now at 4)) }
{
    four_bytes::amounts_of(number_at(s, at, 4))
}

#[tactic(auto, unfolding(specification::specs::Reading::events_at))]
fn events_at(s: &[u8], at: usize) -> Events
    requires { at + 4 ≤ length s.now }
    ensures { result ≡ events_at s.now at }
{
    let (forward, back) = amounts_at(s, at);
    Events(forward, back)
}

#[tactic(auto, unfolding(specification::specs::Reading::port_of))]
fn port_of(s: &[u8], at: usize) -> Port
    requires { at + 4 ≤ length s.now }
    ensures { result ≡ port_of s.now at }
{
    let num = number_at(s, at, 2);
    let den = number_at(s, at + 2, 2);
    Port { num, den }
}

#[tactic(auto, unfolding(specification::specs::Reading::link_of))]
fn link_of(s: &[u8], at: usize, ticks: Ticks, events: Events, over: u32, kind: u32) -> Link
    requires { at + 8 ≤ length s.now }
    ensures { result ≡ link_of s.now at ticks events over kind }
{
    let from = number_at(s, at, 2) as usize;
    let to = number_at(s, at + 2, 2) as usize;
    let num = number_at(s, at + 4, 2);
    let den = number_at(s, at + 6, 2);
    Link {
        from,
        to,
        num,
        den,
        ticks,
        events,
        over,
        kind,
    }
}

// A port record of the right length, at its place, and the place behind it.
#[tactic(auto, unfolding(specification::specs::Reading::port_at))]
fn read_port(s: &[u8], at: usize, before: Before) -> Result<(Record, usize), Refusal>
    requires { at + 8 ≤ length s.now }
    ensures { found_at at result ≡ port_at s.now at 6 before }
{
    if !before.port_may_come {
        return Err(Refusal::LatePort);
    }
    if limits::PORTS <= before.ports {
        return Err(Refusal::Ports);
    }
    if rate_faulty(s, at + 4) {
        return Err(Refusal::Rate);
    }
    Ok((Record::Port(port_of(s, at + 4)), at + 8))
}

// A connection or buffer with these events and their denominator, at its place; next is the place behind it. The denominator becomes a number
// of 32 bits only here: given as one, the compiler would keep the record in memory.
#[tactic(auto, using(crate::specs::RecordLaws::delays_over), unfolding(specification::specs::Reading::link_at, specification::specs::Reading::ticks_at))]
fn read_link(
    s: &[u8],
    at: usize,
    before: Before,
    events: Events,
    over: u64,
    kind: u32,
    next: usize,
) -> Result<(Record, usize), Refusal>
    requires { at + 16 ≤ length s.now }
    ensures { found_at at result ≡ link_at s.now at before events over kind next }
{
    if limits::LINKS <= before.links {
        return Err(Refusal::Links);
    }
    if ends_faulty(s, at + 4, before.named) {
        return Err(Refusal::Ends);
    }
    if parts_faulty(s, at + 8) {
        return Err(Refusal::Ratio);
    }
    let (forward, back) = amounts_at(s, at + 12);
    let ticks = Ticks(forward, back);
    if delays_faulty(ticks, events, over) {
        return Err(Refusal::Delays);
    }
    let link = link_of(s, at + 4, ticks, events, over as u32, kind);
    Ok((Record::Link(link), next))
}

// The record of a kind, whose length n does not pass the end of the table. The length is looked at first: comparing four kinds in a row
// becomes a jump through a table, which takes longer.
// A link keeps the number of its kind, as the definition `kind_at` has it.
#[tactic(auto, unfolding(specification::specs::Reading::kind_at, specification::specs::Reading::port_at, specification::specs::Reading::connection_at, specification::specs::Reading::buffer_at, specification::specs::Reading::fraction_at))]
fn read_kind(
    s: &[u8],
    at: usize,
    n: usize,
    kind: u64,
    before: Before,
) -> Result<(Record, usize), Refusal>
    requires { at + 2 + n ≤ length s.now }
    ensures { found_at at result ≡ kind_at s.now at n kind before }
{
    match (n, kind) {
        (6, 1) => read_port(s, at, before),
        (18, 2) => read_link(s, at, before, events_at(s, at + 16), 1, 2, at + 20),
        (14, 3) => read_link(s, at, before, Events(0, 0), 1, 3, at + 16),
        (22, 4) => {
            let over = number_at(s, at + 20, 4);
            read_link(s, at, before, events_at(s, at + 16), over, 4, at + 24)
        }
        (_, 1..=4) => Err(Refusal::KindLength),
        _ => Err(Refusal::Kind),
    }
}

// The record at a place where there is one.
#[tactic(auto, using(crate::specs::RecordLaws::whole), unfolding(specification::specs::Reading::record_at))]
fn read_some(s: &[u8], at: usize, before: Before) -> Result<(Record, usize), Refusal>
    requires { at < length s.now }
    ensures { found_at at result ≡ record_at s.now at before }
{
    if length_faulty(s, at) {
        return Err(Refusal::Length);
    }
    let n = number_at(s, at, 2) as usize;
    let kind = number_at(s, at + 2, 2);
    read_kind(s, at, n, kind, before)
}

// The record at a place, tried for 2 to 11 in order, and the place behind it; none where the table ends.
#[tactic(auto, unfolding(specification::specs::Reading::record_at))]
pub fn read_record(s: &[u8], at: usize, before: Before) -> Result<Option<(Record, usize)>, Fault>
    ensures { read_of result ≡ record_at s.now at before }
{
    if s.len() <= at {
        return Ok(None);
    }
    read_some(s, at, before)
        .map(Some)
        .map_err(|refusal| Fault { refusal, place: at })
}
