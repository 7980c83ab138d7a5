// A well-formed table in two lent slices of numbers.
ghost use Rattle.table.specs.WellFormed.{WellFormed};
ghost use Rattle.table.specs.Slices.{table_of};

use crate::{links, ports};
use specification::{Link, Port};

// What is known of a table that was read without a fault goes with it, so that no function over it asks for that.
#[derive(Clone, Copy)]
pub struct Table<'a> {
    pub ports: &'a [u32],
    pub links: &'a [u32],
    pub ghost well_formed: { WellFormed (table_of ports.now links.now) },
}

impl<'a> Table<'a> {
    ghost use Rattle.std.specs.Prelude.{◌≡◌, ◌<◌};
    ghost use Rattle.specification.specs.Table.{port_count, link_count, port, link};
    ghost use Rattle.table.specs.Slices.{SameLink};
    ghost use Rattle.table.specs.Held.{table_in};

    pub fn port_count(&self) -> usize
        ensures { result ≡ port_count (table_in self.now) }
    {
        ports::count(self.ports)
    }

    pub fn link_count(&self) -> usize
        ensures { result ≡ link_count (table_in self.now) }
    {
        links::count(self.links)
    }

    pub fn port(&self, p: usize) -> Port
        requires { p < port_count (table_in self.now) }
        ensures { result ≡ port (table_in self.now) p }
    {
        ports::port(self.ports, p)
    }

    pub fn link(&self, k: usize) -> Link
        requires { k < link_count (table_in self.now) }
        ensures { SameLink result (link (table_in self.now) k) }
    {
        links::link(self.links, k)
    }
}
