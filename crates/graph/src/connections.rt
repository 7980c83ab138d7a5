// The connections of a table in the order of their components.
ghost use Rattle.std.specs.Prelude.{◌+◌, ◌≤◌, ◌≡◌, length, replicate};
ghost use Rattle.table.specs.Held.{table_in};
ghost use Rattle.ways.specs.Labels.{Components};
ghost use Rattle.order.specs.Order.{Sorted};
ghost use Rattle.specification.specs.Table.{port_count, link_count};
ghost use Rattle.graph.specs.Owners.{owner_of, owners_of};

use table::Table;

// For each link the component that it is a connection of: its sender's label. A buffer has the number of ports, which is no label.
// No Option: the owners are keys, and sorting goes by numbers.
fn write_owners(table: &Table, labels: &[usize; 64], owners: &mut [usize])
    requires { length owners.old ≡ link_count (table_in table.now) }
    ensures { owners.new ≡ owners_of (table_in table.now) labels.now (link_count (table_in table.now)) }
{
    let none = table.port_count();
    for (k, owner) in owners.iter_mut().enumerate() {
        let link = table.link(k);
        *owner = owner_of(none, labels[link.from], link.is_buffer());
    }
}

fn owner_of(none: usize, label: usize, buffer: bool) -> usize
    ensures { result ≡ owner_of none label buffer }
{
    if buffer { none } else { label }
}

// The numbers of the connections of the lowest component go to the front; those of the buffers stand behind all connections. The ends
// receive for each component where its connections end. The owners are room for the keys. Returns the most links of one owner.
pub fn sort_connections(
    table: &Table,
    labels: &[usize; 64],
    owners: &mut [usize],
    ends: &mut [usize; 65],
    numbers: &mut [u64],
) -> usize
    requires components { Components (table_in table.now) labels.now }
    requires links_in_bounds { link_count (table_in table.now) ≤ length owners.old }
    requires links_in_bounds_2 { link_count (table_in table.now) ≤ length numbers.old }
    requires ends_value { ends.old ≡ replicate 65 0 }
    ensures { Sorted (owners_of (table_in table.now) labels.now (link_count (table_in table.now))) (port_count (table_in table.now) + 1) ends.new numbers.old numbers.new result }
{
    let owners = &mut owners[..table.link_count()];
    write_owners(table, labels, owners);
    order::sort(owners, table.port_count() + 1, ends, numbers)
}
