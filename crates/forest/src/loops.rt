// The loop that a link closes in the forest.
ghost use Rattle.table.specs.Held.{table_in};
ghost use Rattle.forest.specs.Loop.{Closing, Closed};
ghost use Rattle.forest.specs.StepNumbers.{direction, StepRoom, Put};
ghost use Rattle.forest.specs.Climb.{Climbable, Parent, Met};

use crate::forest::Forest;

// The step from a port to its parent.
#[derive(Clone, Copy)]
struct Up {
    link: usize,
    against: bool,
    parent: usize,
}

// The places behind the steps up, and of the first step down: two buffers, of which one is filled from its end.
#[derive(Clone, Copy)]
struct Places {
    next: usize,
    first: usize,
}

// One step's numbers at a place: its link, and 1 where it goes against that, else 0.
fn put_step(numbers: &mut [u64], at: usize, link: usize, against: bool)
    requires { StepRoom numbers.old at }
    ensures { Put numbers.old numbers.new at link (direction against) }
{
    numbers[at] = link as u64;
    numbers[at + 1] = u64::from(against);
}

impl<'a> Forest<'a> {
    // From port p over the link over which it was reached.
    fn parent(&self, p: usize) -> Up
        requires { Climbable (table_in self.now.table.now) self.now.labels.now self.now.reach self.now.via p }
        ensures { Parent (table_in self.now.table.now) self.now.labels.now self.now.reach self.now.via p result.link (direction result.against) result.parent }
    {
        let link = self.via[p];
        let l = self.table.link(link);
        if l.from == p {
            Up {
                link,
                against: false,
                parent: l.to,
            }
        } else {
            Up {
                link,
                against: true,
                parent: l.from,
            }
        }
    }

    // From both ends of k the climb goes over the forest, always from the end that was reached later, until both are one port.
    // The steps up stand in numbers behind k; the steps down to the sender are filled from the end.
    fn climb(&self, k: usize, numbers: &mut [u64], down: &mut [u64; 128]) -> Places
        requires { Closing (table_in self.now.table.now) self.now.labels.now self.now.reach self.now.via k numbers.old }
        ensures { Met (table_in self.now.table.now) self.now.labels.now self.now.reach self.now.via k numbers.new down.new result.next result.first }
    {
        put_step(numbers, 0, k, false);
        let mut next = 2;
        let mut first = 128;
        let l = self.table.link(k);
        let mut a = l.to;
        let mut b = l.from;
        while a != b {
            if self.reach[b] < self.reach[a] {
                let up = self.parent(a);
                put_step(numbers, next, up.link, up.against);
                next += 2;
                a = up.parent;
            } else {
                let up = self.parent(b);
                first -= 2;
                put_step(down, first, up.link, !up.against);
                b = up.parent;
            }
        }
        Places { next, first }
    }

    // Writes the loop of link k: k itself from its sender to its receiver, then over the forest back to the sender. Returns its steps.
    pub fn close(&self, k: usize, numbers: &mut [u64]) -> usize
        requires { Closing (table_in self.now.table.now) self.now.labels.now self.now.reach self.now.via k numbers.old }
        ensures { Closed (table_in self.now.table.now) self.now.labels.now self.now.via k numbers.new result }
    {
        let mut down = [0; 128];
        let places = self.climb(k, numbers, &mut down);
        let end = places.next + (128 - places.first);
        numbers[places.next..end].copy_from_slice(&down[places.first..]);
        end / 2
    }
}
