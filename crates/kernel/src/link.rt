// Link: a further device, with RAM of its own.
ghost use Rattle.std.specs.Prelude.{◌≡◌, List, ℕ, ◌≤◌, length};
ghost use Rattle.kernel.specs.Definition.Tables.{ram_size};
ghost use Rattle.kernel.specs.Definition.Good.{Good};
ghost use Rattle.kernel.specs.Definition.Line.{total_of};
ghost use Rattle.kernel.specs.Definition.Devices.{linking, device_named};
ghost use Rattle.kernel.specs.Definition.Calls.{on_link};
ghost use Rattle.kernel.specs.Definition.Calls as calls;
ghost use Rattle.kernel.specs.Definition.Step.{step, completed, result_of};
ghost use Rattle.kernel.specs.Within.{Links, room_to_link};

use super::{Answer, Outcome, Tables};
use names::{link_name, word};
use rows::Device;
use rows::devices::{disable, new_device};
use rows::sizes::chain_length;

// The device that a link of this name adds.
fn device_named(name: &[u8]) -> Device
    requires { length name.now ≤ 28 }
    ensures { result ≡ device_named name.now }
{
    new_device(word(name, name.len()), name.len() as u8)
}

impl Tables {
    // The tables with one device more, an older one of its name disabled, and the chain as long as the line takes; `total` is T.
    fn add_device(self, m: u16, d: Device, total: usize) -> Tables
        requires { Good self × Links self m d × (total ≡ total_of self) }
        ensures { result ≡ linking self m d }
    {
        let room = self.room - m;
        let more = chain_length(room, total).saturating_sub(usize::from(self.held));
        let mut next = self;
        next.room = room;
        next.known = self.known + 1;
        disable(&mut next.devices, &d.name, d.length);
        next.devices[usize::from(self.known)] = d;
        // most often the chain stays: the tables are not copied for a call
        if more == 0 {
            return next;
        }
        next.grow(more)
    }

    // The room rule, for a device with `m` bytes; `total` is T.
    fn room_to_link(&self, m: u16, total: usize) -> bool
        requires { Good self.now × (total ≡ total_of self.now) }
        ensures { result ≡ room_to_link self.now m }
    {
        256 + usize::from(m) <= usize::from(self.room) && self.room_for(self.room - m, total)
    }

    pub fn link(self, ram: &mut [u8], m: u16, name: &[u8]) -> Outcome
        ensures { (out : List ℕ) → result_of result ram.new out ≡ step self ram.old (calls.link m name.now) out }
    {
        if !self.is_ready(ram.len()) {
            return self.refuse(Answer::BadTables);
        }
        self.link_good(ram, m, name)
    }

    pub fn link_good(self, ram: &mut [u8], m: u16, name: &[u8]) -> Outcome
        requires { Good self × (length ram.old ≡ ram_size self) }
        ensures { (out : List ℕ) → result_of result ram.new out ≡ completed self (on_link self m name.now) ram.old out }
    {
        if !link_name(name) {
            return self.refuse(Answer::BadName);
        }
        if 16 <= self.known {
            return self.refuse(Answer::Full);
        }
        let total = self.total();
        if !self.room_to_link(m, total) {
            return self.refuse(Answer::NoRoom);
        }
        let next = self.add_device(m, device_named(name), total);
        // the line as it lies before it moves: R has not fallen
        let mut line = next.line();
        line.room = usize::from(self.room);
        let moved = line.link_line(ram, usize::from(m), total);
        Outcome {
            answer: Answer::Done(self.known, next.room),
            tables: next,
            moved: moved as u32,
        }
    }
}
