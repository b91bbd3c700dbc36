// How the chain grows, the EXOS boundary, and the room rule.
ghost use Rattle.std.specs.Prelude.{◌≡◌, ◌+◌, ◌≤◌, ◌<◌};
ghost use Rattle.kernel.specs.Definition.Tables.{count_of};
ghost use Rattle.kernel.specs.Definition.Good.{Good};
ghost use Rattle.kernel.specs.Definition.Line.{total_of, one_more, grown, boundary_of, room_for};
ghost use Rattle.kernel.specs.Within.{spare};

use super::Tables;
use rows::segments::{FREE, SYSTEM, count_of, last_of};
use rows::sizes::boundary_at;

impl Tables {
    // How many segments have this class.
    pub(crate) fn count(&self, class: u8) -> u8
        requires { self.now.segments ≤ 32 }
        ensures { (result ≡ count_of class self.now) × (result ≤ 32) }
    {
        count_of(&self.classes[..usize::from(self.segments)], class) as u8
    }

    // How many segments the line may still take: the free ones, or none where one is shared.
    fn spare(&self) -> usize
        requires { self.now.segments ≤ 32 }
        ensures { (result ≡ spare self.now) × (result ≤ 32) }
    {
        if self.shares() {
            return 0;
        }
        usize::from(self.count(FREE))
    }

    // One further segment for the chain: the highest numbered free one.
    fn one_more(self) -> Tables
        requires { self.held < 32 }
        ensures { result ≡ one_more self }
    {
        let Some(row) = last_of(&self.classes, FREE) else {
            return self;
        };
        let mut next = self;
        next.classes[row] = SYSTEM;
        next.chain[usize::from(self.held)] = row as u8;
        next.held = self.held + 1;
        next
    }

    // `k` further segments for the chain.
    pub fn grow(self, k: usize) -> Tables
        requires { self.held + k ≤ 32 }
        ensures { result ≡ grown k self }
    {
        let mut t = self;
        for _ in 0..k {
            t = t.one_more();
        }
        t
    }

    // The EXOS boundary.
    pub fn exos_boundary(self) -> u16
        requires { self.opened ≤ 32 }
        ensures { result ≡ boundary_of self }
    {
        boundary_at(self.room, self.total())
    }

    // The room rule, for a line of length `n` at the room `room`, no shorter than the present one: in bytes alone. The user boundary is 0 where nothing is shared.
    pub fn room_for(self, room: u16, n: usize) -> bool
        requires { Good self × (room ≤ self.room) × (total_of self ≤ n) × (n ≤ 4194304) }
        ensures { result ≡ room_for self room n }
    {
        let held = usize::from(self.held);
        n + usize::from(self.user) <= usize::from(room) + 16384 * (held - 1 + self.spare())
    }
}
