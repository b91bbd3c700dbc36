// Reset: channels, devices and segments given back, as the flags say.
ghost use Rattle.std.specs.Prelude.{◌≡◌, cond, List, ℕ, ◌-◌, length, replicate};
ghost use Rattle.line.specs.Definition.Line.{put_line};
ghost use Rattle.kernel.specs.Definition.Tables.{ram_size};
ghost use Rattle.kernel.specs.Definition.Good.{Good};
ghost use Rattle.kernel.specs.Definition.Line.{total_of};
ghost use Rattle.kernel.specs.Definition.Reset.{other_bits, closes_all, bit5, bit6, emptying, restoring, releasing, resetting};
ghost use Rattle.kernel.specs.Definition.Calls.{on_reset};
ghost use Rattle.kernel.specs.Definition.Calls as calls;
ghost use Rattle.kernel.specs.Definition.Bytes.{ram_reset};
ghost use Rattle.kernel.specs.Definition.Step.{step, completed, result_of};

use super::{Answer, Outcome, Tables};
use rows::channels::empty_rows;
use rows::devices::built_in;
use rows::segments::release;

impl Tables {
    // No channel stays open, where the flags ask for it.
    fn empty(&mut self, flags: u8)
        requires { Good self.old }
        ensures { self.new ≡ cond (closes_all flags) (emptying self.old) self.old }
    {
        if !closes_all(flags) {
            return;
        }
        let gone = usize::from(self.held) - 1;
        empty_rows(&mut self.channels, usize::from(self.opened));
        self.opened = 0;
        *self = self.shrink(gone);
    }

    // The devices that are built in and the cold R, where the flags ask for them.
    fn restore(&mut self, flags: u8)
        ensures { self.new ≡ cond (bit5 flags) (restoring self.old) self.old }
    {
        if !restores(flags) {
            return;
        }
        self.room = self.cold;
        self.known = 3;
        self.devices = built_in();
    }

    // No user segment stays and no shared one, where the flags ask for it.
    fn release(&mut self, flags: u8)
        ensures { self.new ≡ cond (bit6 flags) (releasing self.old) self.old }
    {
        if !releases(flags) {
            return;
        }
        release(&mut self.classes);
        self.user = 0;
    }

    // The tables after a reset. One copy of them is changed in place.
    fn reset_tables(self, flags: u8) -> Tables
        requires { Good self }
        ensures { result ≡ resetting self flags }
    {
        let mut next = self;
        next.empty(flags);
        next.restore(flags);
        next.release(flags);
        next
    }

    // Every position of the line becomes zero.
    fn clear_line(&self, ram: &mut [u8])
        requires { Good self.now × (length ram.old ≡ ram_size self.now) }
        ensures { ram.new ≡ put_line self.now.chain self.now.room ram.old 0 (replicate (total_of self.now) 0) }
    {
        self.line().clear(ram, 0, self.total());
    }

    // The RAM that the cold R gains becomes zero.
    fn clear_gained(&self, ram: &mut [u8])
        requires { Good self.now × (length ram.old ≡ ram_size self.now) }
        ensures { ram.new ≡ put_line self.now.chain self.now.cold ram.old 0 (replicate (self.now.cold - self.now.room) 0) }
    {
        let mut line = self.line();
        line.room = usize::from(self.cold);
        line.clear(ram, 0, usize::from(self.cold - self.room));
    }

    // The RAM after a reset.
    fn reset_ram(&self, ram: &mut [u8], flags: u8)
        requires { Good self.now × (length ram.old ≡ ram_size self.now) }
        ensures { ram.new ≡ ram_reset self.now ram.old flags }
    {
        if closes_all(flags) {
            self.clear_line(ram);
        }
        if restores(flags) {
            self.clear_gained(ram);
        }
    }

    pub fn reset(self, ram: &mut [u8], flags: u8) -> Outcome
        ensures { (out : List ℕ) → result_of result ram.new out ≡ step self ram.old (calls.reset flags) out }
    {
        if !self.is_ready(ram.len()) {
            return self.refuse(Answer::BadTables);
        }
        self.reset_good(ram, flags)
    }

    pub fn reset_good(self, ram: &mut [u8], flags: u8) -> Outcome
        requires { Good self × (length ram.old ≡ ram_size self) }
        ensures { (out : List ℕ) → result_of result ram.new out ≡ completed self (on_reset self flags) ram.old out }
    {
        if other_bits(flags) {
            return self.refuse(Answer::BadFlags);
        }
        self.reset_ram(ram, flags);
        self.reset_tables(flags).done(0, 0)
    }
}

// A bit other than 4, 5 and 6.
fn other_bits(flags: u8) -> bool
    ensures { result ≡ other_bits flags }
{
    0 < flags % 16 || 128 <= flags
}

// Bit 5 closes all channels too.
fn closes_all(flags: u8) -> bool
    ensures { result ≡ closes_all flags }
{
    flags / 16 % 2 == 1 || restores(flags)
}

fn restores(flags: u8) -> bool
    ensures { result ≡ bit5 flags }
{
    flags / 32 % 2 == 1
}

fn releases(flags: u8) -> bool
    ensures { result ≡ bit6 flags }
{
    flags / 64 % 2 == 1
}
