// Close: a channel's record leaves the line.
ghost use Rattle.std.specs.Prelude.{◌≡◌, List, ℕ, ◌<◌, length};
ghost use Rattle.kernel.specs.Definition.Tables.{ram_size};
ghost use Rattle.kernel.specs.Definition.Good.{Good};
ghost use Rattle.kernel.specs.Definition.Line.{closing};
ghost use Rattle.kernel.specs.Definition.Calls.{on_close};
ghost use Rattle.kernel.specs.Definition.Calls as calls;
ghost use Rattle.kernel.specs.Definition.Bytes.{ram_closed, moves_closed};
ghost use Rattle.kernel.specs.Definition.Step.{step, completed, result_of};

use super::{Answer, Outcome, Tables};
use rows::channels::remove_row;
use rows::sizes::chain_length;

impl Tables {
    // The tables without the channel in row `i`.
    fn closed(self, i: usize) -> Tables
        requires { Good self × (i < self.opened) }
        ensures { result ≡ closing self i }
    {
        let mut next = self;
        next.opened = self.opened - 1;
        remove_row(&mut next.channels, i);
        let keep = chain_length(self.room, next.total());
        let gone = usize::from(self.held).saturating_sub(keep);
        // most often the chain stays: the tables are not copied for a call
        if gone == 0 {
            return next;
        }
        next.shrink(gone)
    }

    // The RAM without the record of the channel in row `i`. How many bytes it moved.
    fn close_record(&self, ram: &mut [u8], i: usize) -> u32
        requires { Good self.now × (i < self.now.opened) × (length ram.old ≡ ram_size self.now) }
        ensures bytes { ram.new ≡ ram_closed self.now ram.old i }
        ensures moved { result ≡ length (moves_closed self.now i) }
    {
        let start = self.record_at(i);
        let gap = 16 + self.size_at(i);
        self.line().close_record(ram, start, gap, self.total()) as u32
    }

    pub fn close(self, ram: &mut [u8], channel: u8) -> Outcome
        ensures { (out : List ℕ) → result_of result ram.new out ≡ step self ram.old (calls.close channel) out }
    {
        if !self.is_ready(ram.len()) {
            return self.refuse(Answer::BadTables);
        }
        self.close_good(ram, channel)
    }

    pub fn close_good(self, ram: &mut [u8], channel: u8) -> Outcome
        requires { Good self × (length ram.old ≡ ram_size self) }
        ensures { (out : List ℕ) → result_of result ram.new out ≡ completed self (on_close self channel) ram.old out }
    {
        let Some(i) = self.channel_row(channel) else {
            return self.refuse(Answer::NoChannel);
        };
        let moved = self.close_record(ram, i);
        Outcome {
            answer: Answer::Done(0, 0),
            tables: self.closed(i),
            moved,
        }
    }
}
