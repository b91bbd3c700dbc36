// Where things stand: a channel and a segment in their rows, a record on the line.
ghost use Rattle.std.specs.Prelude.{◌≡◌, ◌≤◌, ◌<◌};
ghost use Rattle.kernel.specs.Definition.Tables.{last_row, sharing};
ghost use Rattle.kernel.specs.Definition.Line.{record_at, total_of, size_at};
ghost use Rattle.kernel.specs.Within.{opened_at, listed_at, class_row, line_of};

use super::Tables;
use line::Line;
use rows::channels::{channel_row, total};
use rows::segments::{SHARED, first_of};

impl Tables {
    // The row of an open channel.
    pub(crate) fn channel_row(&self, channel: u8) -> Option<usize>
        requires { self.now.opened ≤ 32 }
        ensures { result ≡ opened_at self.now channel }
    {
        channel_row(&self.channels[..usize::from(self.opened)], channel)
    }

    // The row of a segment of the list.
    pub(crate) fn segment_row(&self, segment: u8) -> Option<usize>
        requires { self.now.segments ≤ 32 }
        ensures { result ≡ listed_at self.now segment }
    {
        first_of(&self.list[..usize::from(self.segments)], segment)
    }

    // The lowest row with a segment of this class.
    pub(crate) fn class_row(&self, class: u8) -> Option<usize>
        requires { self.now.segments ≤ 32 }
        ensures { result ≡ class_row self.now class }
    {
        first_of(&self.classes[..usize::from(self.segments)], class)
    }

    pub(crate) fn shares(&self) -> bool
        requires { self.now.segments ≤ 32 }
        ensures { result ≡ sharing self.now }
    {
        self.class_row(SHARED).is_some()
    }

    // The row of the chain's last segment.
    pub(crate) fn last_row(&self) -> usize
        requires { (1 ≤ self.now.held) × (self.now.held ≤ 32) }
        ensures { (result ≡ last_row self.now) × (result < 256) }
    {
        usize::from(self.chain[usize::from(self.held) - 1])
    }

    pub(crate) fn line(&self) -> Line
        ensures { result ≡ line_of self.now }
    {
        Line {
            chain: self.chain,
            room: usize::from(self.room),
        }
    }

    // The position where the record of row `i` starts.
    pub(crate) fn record_at(&self, i: usize) -> usize
        requires { i ≤ 32 }
        ensures { (result ≡ record_at self.now i) × (result ≤ 2097632) }
    {
        total(&self.channels[..i])
    }

    // T, the length of the line.
    pub(crate) fn total(&self) -> usize
        requires { self.now.opened ≤ 32 }
        ensures { (result ≡ total_of self.now) × (result ≤ 2097632) }
    {
        self.record_at(usize::from(self.opened))
    }

    // The size of the buffer of row `i`.
    pub(crate) fn size_at(&self, i: usize) -> usize
        requires { i < 32 }
        ensures { (result ≡ size_at self.now i) × (result < 65536) }
    {
        usize::from(self.channels[i].n)
    }
}
