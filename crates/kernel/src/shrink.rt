// How the chain gives segments up.
ghost use Rattle.std.specs.Prelude.{◌≡◌, ◌<◌};
ghost use Rattle.kernel.specs.Definition.Line.{one_less, shrunk};
ghost use Rattle.kernel.specs.Within.{Fit};

use super::Tables;
use rows::segments::{FREE, SHARED, USER};

impl Tables {
    // The chain's last segment given up.
    fn one_less(self) -> Tables
        requires { Fit self }
        ensures { result ≡ one_less self }
    {
        let held = self.held - 1;
        let row = self.last_row();
        let mut next = self;
        next.held = held;
        next.chain[usize::from(held)] = 0;
        if self.classes[row] == SHARED {
            next.classes[row] = USER;
            next.user = 0;
        } else {
            next.classes[row] = FREE;
        }
        next
    }

    // The chain's last `k` segments given up.
    pub fn shrink(self, k: usize) -> Tables
        requires { Fit self × (k < self.held) }
        ensures { result ≡ shrunk k self }
    {
        let mut t = self;
        for _ in 0..k {
            t = t.one_less();
        }
        t
    }
}
