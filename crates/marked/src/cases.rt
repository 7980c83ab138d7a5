// The cases on an input, one behind the other.
ghost use Rattle.marked.specs.Cases.{CalledToEnd};

// More cases than this are not read.
const MOST: usize = 100000;

// Calls `next` once for each case, until it finds none.
pub fn for_each<F: FnMut() -> Option<()>>(mut next: F)
    requires { F.IsAlwaysCallable next }
    ensures { CalledToEnd F.step next }
{
    for _ in 0..MOST {
        if next().is_none() {
            return;
        }
    }
}
