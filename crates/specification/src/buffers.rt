// Which links are buffers: the one function of this crate. Apart from the types, since the definitions that it cites import them.
ghost use Rattle.std.specs.Prelude.{◌≡◌};
ghost use Rattle.specification.specs.Table.{is_buffer};

use crate::Link;

impl Link {
    pub fn is_buffer(self) -> bool
        ensures { result ≡ is_buffer self }
    {
        self.kind == 3
    }
}
