// Start: new tables over a RAM of zeros.
ghost use Rattle.std.specs.Prelude.{◌≡◌, List, ℕ, ◌≤◌, length};
ghost use Rattle.kernel.specs.Definition.Start.{start_test, started, no_tables};
ghost use Rattle.kernel.specs.Definition.Calls as calls;
ghost use Rattle.kernel.specs.Definition.Step.{step, result_of};

use super::{Answer, Outcome, Tables};
use rows::channels::NO_CHANNEL;
use rows::devices::{NO_DEVICE, built_in};
use rows::segments::{fresh_classes, lay, list_test};

// The list, R and the length of the RAM are right.
fn start_test(ram: usize, room: u16, list: &[u8]) -> bool
    ensures { result ≡ start_test ram room list.now }
{
    let segments = list.len();
    if 32 < segments {
        return false;
    }
    // with `&&` the proof would part at each test
    list_test(&lay(list), segments) & (256 <= room) & (room <= 16128) & (ram == 16384 * segments)
}

// The tables after a start.
fn fresh_tables(room: u16, list: &[u8]) -> Tables
    requires { (2 ≤ length list.now) × (length list.now ≤ 32) }
    ensures { result ≡ started room list.now }
{
    let segments = list.len();
    let mut next = Tables::none();
    next.segments = segments as u8;
    next.list = lay(list);
    next.classes = fresh_classes(segments);
    next.held = 1;
    next.chain[0] = (segments - 1) as u8;
    next.room = room;
    next.cold = room;
    next.known = 3;
    next.devices = built_in();
    next
}

impl Tables {
    // The tables before any start, which no call but start takes.
    pub fn none() -> Tables
        ensures { result ≡ no_tables }
    {
        Tables {
            segments: 0,
            list: [0u8; 32],
            classes: [0u8; 32],
            held: 0,
            chain: [0u8; 32],
            user: 0,
            room: 0,
            cold: 0,
            opened: 0,
            channels: [NO_CHANNEL; 32],
            known: 0,
            devices: [NO_DEVICE; 16],
            name: [0u8; 28],
            length: 0,
            unit: 0,
        }
    }

    pub fn start(self, ram: &mut [u8], room: u16, list: &[u8]) -> Outcome
        ensures { (out : List ℕ) → result_of result ram.new out ≡ step self ram.old (calls.start room list.now) out }
    {
        if !start_test(ram.len(), room, list) {
            return self.refuse(Answer::BadStart);
        }
        ram.fill(0);
        let next = fresh_tables(room, list);
        next.done(next.segments, room)
    }
}
