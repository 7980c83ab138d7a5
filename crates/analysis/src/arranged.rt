// The ports and connections of a table in the order of their components.
ghost use Rattle.std.specs.Prelude.{◌≡◌, ◌<◌, get_or};
ghost use Rattle.table.specs.Held.{table_in};
ghost use Rattle.analysis.specs.Ordered.{MembersOrdered, NumbersOrdered, begin_of, part, Inside};

use table::Table;
use weights::ratios::Weighted;

// Of each component the ports stand together, and the connections by their numbers; the ends, which the sort gives, say where. That the labels are right is no field:
// it names a path for each port, and a field holds what is true in one way alone.
#[derive(Clone, Copy)]
pub struct Arranged<'a> {
    pub table: &'a Table<'a>,
    pub weighted: &'a Weighted,
    pub members: &'a [u64],
    pub member_ends: &'a [usize; 65],
    pub numbers: &'a [u64],
    pub number_ends: &'a [usize; 65],
    pub ghost members_ordered: { MembersOrdered (table_in table.now) weighted.now.labels member_ends.now members.now },
    pub ghost numbers_ordered: { NumbersOrdered (table_in table.now) weighted.now.labels number_ends.now numbers.now },
}

impl<'a> Arranged<'a> {
    ghost use Rattle.specification.specs.Table.{port_count};
    ghost use Rattle.analysis.specs.Ordered.{IsMembers, IsNumbers};

    // The ports of the component that port c names; none where it names none.
    pub fn members_of(&self, c: usize) -> &'a [u64]
        requires { c < port_count (table_in self.now.table.now) }
        ensures { IsMembers (table_in self.now.table.now) self.now.weighted.now.labels c result.now }
    {
        part(self.members, self.member_ends, c)
    }

    // Its connections.
    pub fn numbers_of(&self, c: usize) -> &'a [u64]
        requires { c < port_count (table_in self.now.table.now) }
        ensures { IsNumbers (table_in self.now.table.now) self.now.weighted.now.labels c result.now }
    {
        part(self.numbers, self.number_ends, c)
    }
}

// What stands from where the part of the port before ends to where that of port c ends.
fn part<'a>(order: &'a [u64], ends: &[usize; 65], c: usize) -> &'a [u64]
    requires low { c < 65 }
    requires inside { Inside (begin_of ends.now c) (get_or ends.now c 0) order.now }
    ensures { result.now ≡ part order.now (begin_of ends.now c) (get_or ends.now c 0) }
{
    let begin = if c == 0 { 0 } else { ends[c - 1] };
    &order[begin..ends[c]]
}
