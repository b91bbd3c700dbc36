// Open: a channel to the device that a string means.
ghost use Rattle.std.specs.Prelude.{◌≡◌, List, ℕ, ◌≤◌, ◌<◌, ltb, length, take};
ghost use Rattle.rows.specs.Definition.Channels.{found_at};
ghost use Rattle.names.specs.Definition.Read.{reading};
ghost use Rattle.kernel.specs.Definition.Tables.{ram_size, channel_at};
ghost use Rattle.kernel.specs.Definition.Good.{Good};
ghost use Rattle.kernel.specs.Definition.Line.{total_of, opening};
ghost use Rattle.kernel.specs.Definition.Names.{wanted_by, device_for};
ghost use Rattle.kernel.specs.Definition.Calls.{on_open, on_open_named, on_open_to};
ghost use Rattle.kernel.specs.Definition.Calls as calls;
ghost use Rattle.kernel.specs.Definition.Step.{step, completed, result_of};
ghost use Rattle.kernel.specs.Within.{New, HasRoom, on_open_row};

use super::{Answer, Outcome, Tables, Wanted};
use names::{Parts, parse, word};
use rows::Channel;
use rows::devices::device_row;
use rows::sizes::chain_length;

impl Tables {
    // The device and the unit that a string of these parts means.
    fn wanted(&self, name: &[u8], parts: Parts) -> Wanted
        requires { (parts.letters ≤ 28) × (parts.letters ≤ length name.now) }
        ensures { result ≡ wanted_by self.now (take parts.letters name.now) parts.unit }
    {
        if parts.letters == 0 {
            return Wanted {
                name: self.name,
                length: self.length,
                unit: parts.unit.unwrap_or(self.unit),
            };
        }
        Wanted {
            name: word(name, parts.letters),
            length: parts.letters as u8,
            unit: parts.unit.unwrap_or(0),
        }
    }

    // The row of the enabled device that is wanted.
    fn device_row(&self, w: &Wanted) -> Option<usize>
        requires { self.now.known ≤ 16 }
        ensures { result ≡ found_at (device_for self.now w.now) self.now.known }
    {
        device_row(&self.devices[..usize::from(self.known)], &w.name, w.length)
    }

    // The tables with one row more, and the chain as long as the line takes; `total` is T, where the record starts.
    fn append(self, c: Channel, total: usize) -> Tables
        requires { Good self × New self c × HasRoom self c × (total ≡ total_of self) }
        ensures { result ≡ opening self c }
    {
        let size = total + (16 + usize::from(c.n));
        let more = chain_length(self.room, size).saturating_sub(usize::from(self.held));
        let mut next = self;
        next.opened = self.opened + 1;
        next.channels[usize::from(self.opened)] = c;
        // most often the chain stays: the tables are not copied for a call
        if more == 0 {
            return next;
        }
        next.grow(more)
    }

    // Open, once the row is known.
    fn open_row(self, ram: &mut [u8], c: Channel) -> Outcome
        requires { Good self × (length ram.old ≡ ram_size self) × New self c }
        ensures { (out : List ℕ) → result_of result ram.new out ≡ completed self (on_open_row self c) ram.old out }
    {
        if 32 <= self.opened {
            return self.refuse(Answer::Full);
        }
        let total = self.total();
        if !self.room_for(self.room, total + (16 + usize::from(c.n))) {
            return self.refuse(Answer::NoRoom);
        }
        let next = self.append(c, total);
        next.line()
            .open_record(ram, total, c.number, c.device, c.unit, c.n);
        next.done(c.device, u16::from(c.unit))
    }

    // Open, once the string is read.
    fn open_to(self, ram: &mut [u8], channel: u8, driver: u8, n: u16, w: Wanted) -> Outcome
        requires { Good self × (length ram.old ≡ ram_size self) × (channel < 255) × (self.opened ≤ channel_at self channel) }
        ensures { (out : List ℕ) → result_of result ram.new out ≡ completed self (on_open_to self channel driver n w) ram.old out }
    {
        let Some(row) = self.device_row(&w) else {
            return self.refuse(Answer::NoDevice);
        };
        if driver != 0 {
            return self.refuse(Answer::Driver(driver));
        }
        let c = Channel {
            number: channel,
            device: row as u8,
            unit: w.unit,
            n,
        };
        self.open_row(ram, c)
    }

    // Open, once the channel is known to be a new one.
    fn open_named(self, ram: &mut [u8], channel: u8, driver: u8, n: u16, name: &[u8]) -> Outcome
        requires { Good self × (length ram.old ≡ ram_size self) × (channel < 255) × (self.opened ≤ channel_at self channel) }
        ensures { (out : List ℕ) → result_of result ram.new out ≡ completed self (on_open_named self channel driver n (reading name.now)) ram.old out }
    {
        let Some(parts) = parse(name) else {
            return self.refuse(Answer::BadName);
        };
        let w = self.wanted(name, parts);
        self.open_to(ram, channel, driver, n, w)
    }

    pub fn open(self, ram: &mut [u8], channel: u8, driver: u8, n: u16, name: &[u8]) -> Outcome
        ensures { (out : List ℕ) → result_of result ram.new out ≡ step self ram.old (calls.«open» channel driver n name.now) out }
    {
        if !self.is_ready(ram.len()) {
            return self.refuse(Answer::BadTables);
        }
        self.open_good(ram, channel, driver, n, name)
    }

    pub fn open_good(self, ram: &mut [u8], channel: u8, driver: u8, n: u16, name: &[u8]) -> Outcome
        requires { Good self × (length ram.old ≡ ram_size self) }
        ensures { (out : List ℕ) → result_of result ram.new out ≡ completed self (on_open self channel driver n name.now) ram.old out }
    {
        if channel == 255 {
            return self.refuse(Answer::NoChannel);
        }
        if self.channel_row(channel).is_some() {
            return self.refuse(Answer::Exists);
        }
        self.open_named(ram, channel, driver, n, name)
    }
}
