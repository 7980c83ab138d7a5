// The ports of a table as a slice of numbers, two for each: the numerator and the denominator of its rate.
// Hot loops go over these numbers. It stays beside `links`, and no type parameter covers both: they share the shape, but no field, so that would be no plainer.
ghost use Rattle.std.specs.Prelude.{◌≡◌, ◌+◌, ◌*◌, ◌≤◌, ◌<◌, [], ◌∷◌, length, get_or};
ghost use Rattle.std.proofs.lemmas.List.Edits.{sets};
ghost use Rattle.specification.specs.Table.{no_port};
ghost use Rattle.table.specs.WellFormed.{PortFits};
ghost use Rattle.table.specs.Slices.{port_numbers, port_in, ports_of};

use specification::Port;

pub const WIDTH: usize = 2;

pub fn count(ports: &[u32]) -> usize
    ensures { result ≡ length (ports_of ports.now) }
{
    ports.len() / WIDTH
}

// The port whose numbers stand at 2 * p.
fn read(ports: &[u32], p: usize) -> Port
    requires { 2 * p + 2 ≤ length ports.now }
    ensures { result ≡ port_in ports.now p }
{
    let at = WIDTH * p;
    Port {
        num: u64::from(ports[at]),
        den: u64::from(ports[at + 1]),
    }
}

pub fn port(ports: &[u32], p: usize) -> Port
    requires { p < length (ports_of ports.now) }
    ensures { result ≡ get_or (ports_of ports.now) p no_port }
{
    read(ports, p)
}

// Port p. Its two numbers are stored one by one: copied from an array, they would be waited for.
pub fn store(ports: &mut [u32], p: usize, port: Port)
    requires p_in_bounds { 2 * p + 2 ≤ length ports.old }
    requires port_fits { PortFits port }
    ensures { ports.new ≡ sets ports.old (2 * p) (port_numbers (port ∷ [])) }
{
    let at = WIDTH * p;
    ports[at] = port.num as u32;
    ports[at + 1] = port.den as u32;
}
