// The links of a table by the side of a port on which they are.
ghost use Rattle.table.specs.Held.{table_in};
ghost use Rattle.hidden.specs.Parted.{Parted};

use specification::Link;
use table::Table;

// A port that can be hidden, and the numbers of the links into it, out of it and apart from it.
#[derive(Clone, Copy)]
pub struct Sides<'a> {
    pub table: &'a Table<'a>,
    pub port: usize,
    pub into: &'a [u8],
    pub from: &'a [u8],
    pub apart: &'a [u8],
    pub ghost parted: { Parted (table_in table.now) port into.now from.now apart.now },
}

impl<'a> Sides<'a> {
    ghost use Rattle.std.specs.Prelude.{◌≡◌, ◌<◌, length};
    ghost use Rattle.specification.specs.Table.{link_count, link};
    ghost use Rattle.specification.specs.Hiding.{links_apart};
    ghost use Rattle.specification.specs.Encoding.{encode_links, encode_table};
    ghost use Rattle.table.specs.Slices.{SameLink};
    ghost use Rattle.hidden.specs.OfSides.{made_in, table_after};

    // The link with that number.
    pub fn link(&self, number: u8) -> Link
        requires { number < link_count (table_in self.now.table.now) }
        ensures { SameLink result (link (table_in self.now.table.now) number) }
    {
        self.table.link(usize::from(number))
    }

    // How many connections are new.
    pub fn made_count(&self) -> usize
        ensures { result ≡ length (made_in self.now) }
    {
        self.into.len() * self.from.len()
    }

    // How many links the table has without the port.
    pub fn link_count(&self) -> usize
        ensures { result ≡ length (table_after self.now).links }
    {
        self.apart.len() + self.made_count()
    }

    // No `sum`: tried, and its goal stays open, since the closure may be called at numbers of links alone.
    fn apart_size(&self) -> usize
        ensures { result ≡ length (encode_links (links_apart (table_in self.now.table.now) self.now.port)) }
    {
        let mut size = 0;
        for k in self.apart {
            size += encoding::link_size(self.table.links, usize::from(*k));
        }
        size
    }

    // How many bytes the table has without the port.
    pub fn size(&self) -> usize
        ensures { result ≡ length (encode_table (table_after self.now)) }
    {
        8 * (self.table.port_count() - 1) + self.apart_size() + 24 * self.made_count()
    }
}
