// Bytes in buffers and segments: read, write, store, load, and a buffer lent on.
ghost use Rattle.std.specs.Prelude.{◌≡◌, IfSome, List, ℕ, ◌+◌, ◌≤◌, ◌<◌, ltb, length};
ghost use Rattle.kernel.specs.Definition.Tables.{ram_size};
ghost use Rattle.kernel.specs.Definition.Good.{Good};
ghost use Rattle.kernel.specs.Definition.Segments.{may_reach, reach_of};
ghost use Rattle.kernel.specs.Definition.Calls.{on_read, on_write, on_store, on_load};
ghost use Rattle.kernel.specs.Definition.Calls as calls;
ghost use Rattle.kernel.specs.Definition.Step.{step, completed, result_of};
ghost use Rattle.kernel.specs.Within.{buffer_of, reached_at};
ghost use Rattle.kernel.specs.Definition.Lend.{lent_on_good, part_on_good, lent_on, part_on};

use super::{Answer, Outcome, Tables};
use line::given;
use line::guard::guards;
use line::ram::{load, store};
use rows::segments::{SHARED, USER};

// The buffer of an open channel: the position on the line where it starts, and its size.
#[derive(Clone, Copy)]
struct Buffer {
    start: usize,
    size: usize,
}

impl Tables {
    fn buffer(&self, channel: u8) -> Option<Buffer>
        requires { self.now.opened ≤ 32 }
        ensures found { result ≡ buffer_of self.now channel }
        ensures small { IfSome result (λ buffer. (buffer.start ≤ 2097648) × (buffer.size < 65536)) }
    {
        let Some(i) = self.channel_row(channel) else {
            return None;
        };
        Some(Buffer {
            start: self.record_at(i) + 16,
            size: self.size_at(i),
        })
    }

    pub fn read(self, ram: &[u8], channel: u8, offset: u16, asked: u16, out: &mut [u8]) -> Outcome
        ensures { result_of result ram.now out.new ≡ step self ram.now (calls.read channel offset asked) out.old }
    {
        if !self.is_ready(ram.len()) {
            return self.refuse(Answer::BadTables);
        }
        self.read_good(ram, channel, offset, asked, out)
    }

    pub fn read_good(
        self,
        ram: &[u8],
        channel: u8,
        offset: u16,
        asked: u16,
        out: &mut [u8],
    ) -> Outcome
        requires { Good self × (length ram.now ≡ ram_size self) }
        ensures { result_of result ram.now out.new ≡ completed self (on_read self (length out.old) channel offset asked) ram.now out.old }
    {
        let Some(buffer) = self.buffer(channel) else {
            return self.refuse(Answer::NoChannel);
        };
        let from = usize::from(offset);
        let count = given(buffer.size, from, usize::from(asked));
        if out.len() < count {
            return self.refuse(Answer::BadRange);
        }
        self.line().get(ram, buffer.start + from, out, count);
        self.done(0, count as u16)
    }

    pub fn write(self, ram: &mut [u8], channel: u8, offset: u16, bytes: &[u8]) -> Outcome
        ensures { (out : List ℕ) → result_of result ram.new out ≡ step self ram.old (calls.write channel offset bytes.now) out }
    {
        if !self.is_ready(ram.len()) {
            return self.refuse(Answer::BadTables);
        }
        self.write_good(ram, channel, offset, bytes)
    }

    pub fn write_good(self, ram: &mut [u8], channel: u8, offset: u16, bytes: &[u8]) -> Outcome
        requires { Good self × (length ram.old ≡ ram_size self) }
        ensures { (out : List ℕ) → result_of result ram.new out ≡ completed self (on_write self channel offset bytes.now) ram.old out }
    {
        let Some(buffer) = self.buffer(channel) else {
            return self.refuse(Answer::NoChannel);
        };
        let from = usize::from(offset);
        let count = bytes.len();
        if beyond(buffer.size, from, count) {
            return self.refuse(Answer::BadRange);
        }
        self.line().put(ram, buffer.start + from, bytes);
        self.done(0, count as u16)
    }

    // The user may store to and load from the segment of this row.
    pub fn may_reach(self, row: usize) -> bool
        requires { self.segments ≤ 32 }
        ensures { result ≡ may_reach self row }
    {
        row < usize::from(self.segments)
            && (row == 0 || self.classes[row] == USER || self.classes[row] == SHARED)
    }

    // Up to which offset.
    pub fn reach_of(self, row: usize) -> usize
        requires { row < 32 }
        ensures { result ≡ reach_of self row }
    {
        if self.classes[row] == SHARED {
            usize::from(self.user)
        } else {
            16384
        }
    }

    // The row of a segment that the user may store to and load from.
    pub(crate) fn reached_row(&self, segment: u8) -> Option<usize>
        requires { self.now.segments ≤ 32 }
        ensures { result ≡ reached_at self.now segment }
    {
        let row = self.segment_row(segment)?;
        if self.may_reach(row) { Some(row) } else { None }
    }

    pub fn store(self, ram: &mut [u8], segment: u8, offset: u16, bytes: &[u8]) -> Outcome
        ensures { (out : List ℕ) → result_of result ram.new out ≡ step self ram.old (calls.store segment offset bytes.now) out }
    {
        if !self.is_ready(ram.len()) {
            return self.refuse(Answer::BadTables);
        }
        self.store_good(ram, segment, offset, bytes)
    }

    pub fn store_good(self, ram: &mut [u8], segment: u8, offset: u16, bytes: &[u8]) -> Outcome
        requires { Good self × (length ram.old ≡ ram_size self) }
        ensures { (out : List ℕ) → result_of result ram.new out ≡ completed self (on_store self segment offset bytes.now) ram.old out }
    {
        let Some(row) = self.reached_row(segment) else {
            return self.refuse(Answer::NotOwner);
        };
        let from = usize::from(offset);
        let count = bytes.len();
        if beyond(self.reach_of(row), from, count) {
            return self.refuse(Answer::BadRange);
        }
        if guards(row, from, count) {
            return self.refuse(Answer::Guarded);
        }
        store(ram, 16384 * row + from, bytes);
        self.done(0, count as u16)
    }

    pub fn load(self, ram: &[u8], segment: u8, offset: u16, size: u16, out: &mut [u8]) -> Outcome
        ensures { result_of result ram.now out.new ≡ step self ram.now (calls.load segment offset size) out.old }
    {
        if !self.is_ready(ram.len()) {
            return self.refuse(Answer::BadTables);
        }
        self.load_good(ram, segment, offset, size, out)
    }

    pub fn load_good(
        self,
        ram: &[u8],
        segment: u8,
        offset: u16,
        size: u16,
        out: &mut [u8],
    ) -> Outcome
        requires { Good self × (length ram.now ≡ ram_size self) }
        ensures { result_of result ram.now out.new ≡ completed self (on_load self (length out.old) segment offset size) ram.now out.old }
    {
        let Some(row) = self.reached_row(segment) else {
            return self.refuse(Answer::NotOwner);
        };
        let from = usize::from(offset);
        let count = usize::from(size);
        if beyond(self.reach_of(row), from, count) || out.len() < count {
            return self.refuse(Answer::BadRange);
        }
        load(ram, 16384 * row + from, out, count);
        self.done(0, size)
    }

    // Where the buffer that is lent on starts in the RAM.
    pub fn lent(self, ram: &[u8], channel: u8) -> Option<usize>
        ensures { result ≡ lent_on self (length ram.now) channel }
    {
        if !self.is_ready(ram.len()) {
            return None;
        }
        self.lent_good(channel)
    }

    pub fn lent_good(self, channel: u8) -> Option<usize>
        requires { Good self }
        ensures { result ≡ lent_on_good self channel }
    {
        let Some(buffer) = self.buffer(channel) else {
            return None;
        };
        self.line().lent_at(buffer.start, buffer.size)
    }

    // The buffer lent on; an empty part where nothing is lent.
    pub fn lend<'a>(self, ram: &'a [u8], channel: u8) -> &'a [u8]
        ensures { result.now ≡ part_on self ram.now channel }
    {
        if !self.is_ready(ram.len()) {
            return &ram[0..0];
        }
        self.lend_good(ram, channel)
    }

    pub fn lend_good<'a>(self, ram: &'a [u8], channel: u8) -> &'a [u8]
        requires { Good self × (length ram.now ≡ ram_size self) }
        ensures { result.now ≡ part_on_good self ram.now channel }
    {
        let Some(buffer) = self.buffer(channel) else {
            return &ram[0..0];
        };
        self.line().lend(ram, buffer.start, buffer.size)
    }
}

// `count` bytes from offset `from` on end beyond `n`.
fn beyond(n: usize, from: usize, count: usize) -> bool
    ensures { result ≡ ltb n (from + count) }
{
    n < from || n - from < count
}
