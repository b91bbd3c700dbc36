// The location counter: relocation and moves, which drop any carry out of 16 bits.
ghost use Rattle.std.specs.Prelude.{◌≡◌, ◌≤◌};
ghost use Rattle.modules.specs.Definition.Counter.{value_of, relocated, landing};

use super::Counter;

impl Counter {
    // The address of the counter.
    fn value(self) -> u16
        requires { self.page ≤ 3 }
        ensures { result ≡ value_of self }
    {
        (16384 * u16::from(self.page)).wrapping_add(self.offset)
    }

    // "relocation adds the location counter and drops any carry out of 16 bits"
    pub(crate) fn relocate(self, word: u16) -> u16
        requires { self.page ≤ 3 }
        ensures { result ≡ relocated self word }
    {
        word.wrapping_add(self.value())
    }

    // "A move adds 16 bits likewise": the address where it lands.
    pub(crate) fn land(self, x: u16) -> u16
        requires { self.page ≤ 3 }
        ensures { result ≡ landing self x }
    {
        self.value().wrapping_add(x)
    }
}
