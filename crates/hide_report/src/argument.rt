// The port that an argument names.
ghost use Rattle.std.specs.Prelude.{◌≡◌, cond, Some, None, ◌≤◌, min};
ghost use Rattle.specification.specs.Table.{most_ports};
ghost use Rattle.hide_report.specs.PortArgument.{is_number, port_of};

use specification::limits;

// The number that an argument spells, 64 in place of a larger one: no table has such a port, so it is as far from hiding as that one. A number
// has a digit or more, and nothing else.
pub fn port_number(argument: &[u8]) -> Option<usize>
    ensures { result ≡ cond (is_number argument.now) (Some (min (port_of argument.now) most_ports)) None }
{
    if argument.is_empty() {
        return None;
    }
    let mut number: usize = 0;
    for c in argument {
        if !c.is_ascii_digit() {
            return None;
        }
        number = (number * 10 + usize::from(*c - b'0')).min(limits::PORTS);
    }
    Some(number)
}
