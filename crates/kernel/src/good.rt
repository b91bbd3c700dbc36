// Good tables: the test that a public call runs first.
ghost use Rattle.std.specs.Prelude.{◌≡◌, true, ◌&&◌, leb};
ghost use Rattle.rows.specs.Definition.Lists.{at};
ghost use Rattle.kernel.specs.Definition.Good.{Sized, Good, good_test};
ghost use Rattle.kernel.specs.Definition.Step.{ready_test};

use super::Tables;
use rows::channels::channel_test;
use rows::devices::{default_test, device_test};
use rows::segments::{chain_test, class_test, list_test, room_test, user_test};
use rows::sizes::{boundary_at, chain_length};

// The class of a row, 0 beyond the table.
fn class_at(classes: &[u8; 32], row: usize) -> u8
    ensures { result ≡ at classes.now row }
{
    classes.get(row).copied().unwrap_or(0)
}

impl Tables {
    // The counts are within the arrays: asked first, so that the other tests can run.
    fn sizes_test(&self) -> bool
        ensures { result ≡ leb 1 self.now.segments && leb self.now.segments 32 && leb 1 self.now.held && leb self.now.held 32 && leb self.now.opened 32 }
    {
        1 <= self.segments
            && self.segments <= 32
            && 1 <= self.held
            && self.held <= 32
            && self.opened <= 32
    }

    pub fn is_good(self) -> bool
        ensures { result ≡ good_test self }
    {
        if !self.sizes_test() {
            return false;
        }
        let segments = usize::from(self.segments);
        let held = usize::from(self.held);
        let known = usize::from(self.known);
        let class = class_at(&self.classes, self.last_row());
        let total = self.total();
        // with `&&` the proof would part at each test
        list_test(&self.list, segments)
            & class_test(&self.classes, segments)
            & room_test(self.room, self.cold)
            & chain_test(&self.classes, &self.chain, held, segments)
            & channel_test(&self.channels, usize::from(self.opened), known)
            & (held == chain_length(self.room, total))
            & user_test(class, self.user, boundary_at(self.room, total))
            & device_test(&self.devices, known)
            & default_test(&self.name, self.length, self.unit)
    }

    // Good tables, and a RAM of their length. The arrays of any tables have the sizes that the theorems ask.
    pub fn is_ready(self, ram: usize) -> bool
        ensures { (result ≡ ready_test self ram) × (result ≡ true → Good self) × Sized self }
    {
        self.is_good() && ram == 16384 * usize::from(self.segments)
    }
}
