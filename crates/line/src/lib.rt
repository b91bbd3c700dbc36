// The line of channel RAM: what lies at which place, and the moves that an open, a close and a link ask, a run at a time.
#![tactic(auto)]

ghost use Rattle.std.specs.Prelude.{◌≡◌, ◌+◌, ◌-◌, ◌*◌, ◌<◌, ◌≤◌, length, replicate};
ghost use Rattle.line.specs.Definition.Ram.{filled};
ghost use Rattle.line.specs.Within.Chains.{Chain};
ghost use Rattle.line.specs.Definition.Line.{place_of, line_from, put_line, heading_of, after_close, after_link, after_open};
ghost use Rattle.line.specs.Definition.Moves.{moves_down, close_moves, link_moves};
ghost use Rattle.line.specs.Definition.Given.{given_of};
ghost use Rattle.line.specs.Within.Runs.{run_up_to};
ghost use Rattle.line.specs.Definition.Lent.{lent_at, part_of};

pub mod guard;
pub mod ram;
mod runs;

// A line: the rows of its chain's segments in the RAM, that of segment 255 first, and the room R in segment 255.
#[derive(Clone, Copy)]
pub struct Line {
    pub chain: [u8; 32],
    pub room: usize,
}

// The heading of a record with a buffer of n bytes.
#[tactic(auto, unfolding(crate::specs::Definition::Line::heading_of))]
fn heading(channel: u8, device: u8, unit: u8, n: u16) -> [u8; 16]
    ensures { result ≡ heading_of (16 + n) channel device unit }
{
    let mut head = [0; 16];
    head[..4].copy_from_slice(&(16 + u32::from(n)).to_le_bytes());
    head[4] = 1;
    head[6] = channel;
    head[7] = device;
    head[8] = unit;
    head
}

// How many bytes a read gives of a buffer of `n`, where it asks for `asked` bytes from `offset` on.
#[tactic(auto, unfolding(crate::specs::Definition::Given::given_of))]
pub fn given(n: usize, offset: usize, asked: usize) -> usize
    ensures { (result ≡ given_of n offset asked) × (result ≤ asked) }
{
    asked.min(n.saturating_sub(offset))
}

// The walks are `while` loops: they go by runs, which no range or iterator gives, since the lengths differ.
impl Line {
    // The place of position p of the line.
    #[tactic(auto, unfolding(crate::specs::Definition::Line::place_of, crate::specs::Definition::Line::chain_index_of, crate::specs::Definition::Line::offset_of))]
    fn place(&self, p: usize) -> usize
        requires { (self.now.room ≤ 16384) × (p < self.now.room + 16384 * 31) }
        ensures { result ≡ place_of self.now.chain self.now.room p }
    {
        if p < self.room {
            usize::from(self.chain[0]) * 16384 + (self.room - 1 - p)
        } else {
            let q = p - self.room;
            usize::from(self.chain[1 + q / 16384]) * 16384 + (16383 - q % 16384)
        }
    }

    // How many positions up to p lie in its segment.
    #[tactic(auto, unfolding(crate::specs::Within::Runs::run_up_to))]
    fn reach(&self, p: usize) -> usize
        ensures { result ≡ run_up_to self.now.room p }
    {
        if p < self.room {
            p + 1
        } else {
            (p - self.room) % 16384 + 1
        }
    }

    // The bytes xs go to positions start, start + 1, ..
    #[tactic(auto, using(crate::proofs::Steps::walks))]
    pub fn put(&self, ram: &mut [u8], start: usize, xs: &[u8])
        requires { Chain self.now.chain self.now.room (start + length xs.now) (length ram.old) }
        ensures { ram.new ≡ put_line self.now.chain self.now.room ram.old start xs.now }
    {
        let end = xs.len();
        let mut k = 0;
        while k < end {
            let d = self.place(start + k);
            let n = (d % 16384 + 1).min(end - k);
            runs::put_fall(ram, d, &xs[k..k + n]);
            k += n;
        }
    }

    // The count bytes on positions start, start + 1, .. come to the front of the output, whose rest stays; where count is 0, start need not lie on the line.
    pub fn get(&self, ram: &[u8], start: usize, out: &mut [u8], count: usize)
        requires { (count ≤ length out.old) × (0 < count → Chain self.now.chain self.now.room (start + count) (length ram.now)) }
        ensures { out.new ≡ filled count (line_from self.now.chain self.now.room ram.now start count) out.old }
    {
        let mut k = 0;
        while k < count {
            let s = self.place(start + k);
            let m = (s % 16384 + 1).min(count - k);
            runs::get_fall(ram, s, &mut out[k..k + m]);
            k += m;
        }
    }

    // Positions start to end - 1 become zero.
    #[tactic(auto, using(crate::proofs::Steps::walks))]
    pub fn clear(&self, ram: &mut [u8], start: usize, end: usize)
        requires { (start ≤ end) × Chain self.now.chain self.now.room end (length ram.old) }
        ensures { ram.new ≡ put_line self.now.chain self.now.room ram.old start (replicate (end - start) 0) }
    {
        let mut p = start;
        while p < end {
            let d = self.place(p);
            let n = (d % 16384 + 1).min(end - p);
            runs::clear_fall(ram, d, n);
            p += n;
        }
    }

    // The bytes from position start + gap to the end of the line move up by gap, the first of them first. How many they are.
    fn move_up(&self, ram: &mut [u8], start: usize, gap: usize, total: usize) -> usize
        requires { (start + gap ≤ total) × Chain self.now.chain self.now.room total (length ram.old) }
        ensures bytes { ram.new ≡ put_line self.now.chain self.now.room ram.old start (line_from self.now.chain self.now.room ram.old (start + gap) (total - gap - start)) }
        ensures moved { result ≡ length (close_moves self.now.chain self.now.room start gap total) }
    {
        let end = total - gap;
        let mut p = start;
        let mut moved = 0;
        while p < end {
            let s = self.place(p + gap);
            let d = self.place(p);
            let n = (s % 16384 + 1).min(d % 16384 + 1).min(end - p);
            runs::copy_fall(ram, d, s, n);
            moved += n;
            p += n;
        }
        moved
    }

    // The whole line moves down by m, the last of it first. How many bytes it has.
    fn move_down(&self, ram: &mut [u8], m: usize, total: usize) -> usize
        requires { Chain self.now.chain self.now.room (total + m) (length ram.old) }
        ensures bytes { ram.new ≡ put_line self.now.chain self.now.room ram.old m (line_from self.now.chain self.now.room ram.old 0 total) }
        ensures moved { result ≡ length (moves_down self.now.chain self.now.room m total) }
    {
        let mut p = total;
        let mut moved = 0;
        while 0 < p {
            let q = p - 1;
            let s = self.place(q);
            let d = self.place(q + m);
            let n = self.reach(q).min(self.reach(q + m)).min(p);
            runs::copy_rise(ram, d, s, n);
            moved += n;
            p -= n;
        }
        moved
    }

    // A record of a heading and a buffer of n zero bytes comes to the end of a line of total bytes.
    #[tactic(auto, using(crate::specs::Laws::Makes::opened_of))]
    pub fn open_record(
        &self,
        ram: &mut [u8],
        total: usize,
        channel: u8,
        device: u8,
        unit: u8,
        n: u16,
    )
        requires { Chain self.now.chain self.now.room (total + 16 + n) (length ram.old) }
        ensures { ram.new ≡ after_open self.now.chain self.now.room ram.old total channel device unit n }
    {
        let head = heading(channel, device, unit, n);
        self.put(ram, total, &head);
        let at = total + 16;
        self.clear(ram, at, at + usize::from(n));
    }

    // The gap bytes from position start leave a line of total bytes. How many bytes are moved: no more than total.
    #[tactic(auto, using(crate::specs::Laws::Makes::closed_of, crate::proofs::Steps::counts))]
    pub fn close_record(&self, ram: &mut [u8], start: usize, gap: usize, total: usize) -> usize
        requires { (start + gap ≤ total) × Chain self.now.chain self.now.room total (length ram.old) }
        ensures bytes { ram.new ≡ after_close self.now.chain self.now.room ram.old start gap total }
        ensures moved { (result ≡ length (close_moves self.now.chain self.now.room start gap total)) × (result ≤ total) }
    {
        let moved = self.move_up(ram, start, gap, total);
        self.clear(ram, total - gap, total);
        moved
    }

    // The room falls by m under a line of total bytes. How many bytes are moved: no more than total.
    #[tactic(auto, using(crate::specs::Laws::Makes::linked_of, crate::proofs::Steps::counts))]
    pub fn link_line(&self, ram: &mut [u8], m: usize, total: usize) -> usize
        requires { (m ≤ self.now.room) × Chain self.now.chain self.now.room (total + m) (length ram.old) }
        ensures bytes { ram.new ≡ after_link self.now.chain self.now.room m ram.old total }
        ensures moved { (result ≡ length (link_moves self.now.chain self.now.room m total)) × (result ≤ total) }
    {
        // R does not fall
        if m == 0 {
            return 0;
        }
        let moved = self.move_down(ram, m, total);
        self.clear(ram, 0, m);
        moved
    }

    // Where the n bytes on positions start, start + 1, .. are lent on.
    #[tactic(auto, unfolding(crate::specs::Definition::Lent::lent_at, crate::specs::Definition::Line::place_of, crate::specs::Definition::Line::chain_index_of, crate::specs::Definition::Line::offset_of))]
    pub fn lent_at(&self, start: usize, n: usize) -> Option<usize>
        requires { (self.now.room ≤ 16384) × (start + n ≤ self.now.room + 16384 * 31) }
        ensures { result ≡ lent_at self.now.chain self.now.room start n }
    {
        if n == 0 {
            return None;
        }
        let d = self.place(start);
        if n <= d % 16384 + 1 {
            Some(d - (n - 1))
        } else {
            None
        }
    }

    // The part of the RAM that the n bytes on positions start, start + 1, .. are, the last of them first; an empty part where they lie in more segments than one.
    #[tactic(auto, unfolding(crate::specs::Definition::Lent::part_of), using(crate::proofs::Steps::lending))]
    pub fn lend<'r>(&self, ram: &'r [u8], start: usize, n: usize) -> &'r [u8]
        requires { Chain self.now.chain self.now.room (start + n) (length ram.now) }
        ensures { result.now ≡ part_of ram.now n (lent_at self.now.chain self.now.room start n) }
    {
        match self.lent_at(start, n) {
            Some(at) => &ram[at..at + n],
            None => &[],
        }
    }
}
