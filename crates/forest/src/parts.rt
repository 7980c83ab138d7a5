// The parts of a table's ratios.
ghost use Rattle.std.specs.Prelude.{◌≡◌};
ghost use Rattle.table.specs.Held.{table_in};
ghost use Rattle.forest.specs.Parts.{greatest_part};

use table::Table;

// The greatest part of a ratio, ratios of 1 aside; 0 where every ratio is 1, as its definition has it.
pub fn greatest_part(table: &Table) -> u64
    ensures { result ≡ greatest_part (table_in table.now) }
{
    let mut most: u64 = 0;
    for k in 0..table.link_count() {
        let l = table.link(k);
        if l.num != l.den {
            most = most.max(l.num.max(l.den));
        }
    }
    most
}
