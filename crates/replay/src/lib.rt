// A buffer of event records, replayed: every whole record at its front, one after the other.
#![tactic(auto)]

ghost use Rattle.std.specs.Prelude.{◌≡◌, true, length};
ghost use Rattle.kernel.specs.Definition.Good.{Good};
ghost use Rattle.kernel.specs.Definition.Step.{result_of};
ghost use Rattle.kernel.specs.Definition.Tables.{ram_size};
ghost use Rattle.events.specs.Definition.Records.{step_of};
ghost use Rattle.replay.specs.Definition.Replay.{records, bytes_of, replayed, before};

use events::records::front;
use events::{call, call_good};
use kernel::{Answer, Outcome, Tables};

#[derive(Clone, Copy)]
pub struct Replayed {
    // The last record's answer, the tables it left and the bytes it moved. Where there is no record: done, 0, 0, the tables that were given, and none.
    pub last: Outcome,
    // The bytes of the records.
    pub taken: usize,
}

// What a record left, and whether the tables are known to be good, with RAM of their size: a flag, since that speaks of RAM too, which no type here holds.
#[derive(Clone, Copy)]
struct Turned {
    last: Outcome,
    good: bool,
}

// Whether tables are known to be good from here on: never, where they are not to be held.
fn known(t: Tables, size: usize, hold: bool) -> bool
    ensures { (result ≡ true → Good t × (size ≡ ram_size t)) }
{
    hold && t.is_ready(size)
}

// One record. Good tables stay good by theorem, so that only others are tested.
fn turn(
    so_far: Turned,
    ram: &mut [u8],
    kind: u16,
    body: &[u8],
    out: &mut [u8],
    hold: bool,
) -> Turned
    requires { so_far.good ≡ true → Good so_far.last.tables × (length ram.old ≡ ram_size so_far.last.tables) }
    ensures { (result_of result.last ram.new out.new ≡ step_of so_far.last.tables ram.old kind body.now out.old) × (result.good ≡ true → Good result.last.tables × (length ram.new ≡ ram_size result.last.tables)) }
{
    let tables = so_far.last.tables;
    if so_far.good {
        let last = call_good(tables, ram, kind, body, out);
        return Turned { last, good: true };
    }
    let last = call(tables, ram, kind, body, out);
    Turned {
        last,
        good: known(last.tables, ram.len(), hold),
    }
}

// Every whole record at the front of the input, up to its end, a cut record or a bad length. Good tables are tested once for all of them where
// they are to be held, and else once a record.
// `hold` stays a flag: a closure in its place would owe the same fact of good tables as `known` ensures.
#[tactic(auto, using(events::proofs::Walks::record_fits))]
pub fn replay(t: Tables, ram: &mut [u8], out: &mut [u8], input: &[u8], hold: bool) -> Replayed
    ensures { (result_of result.last ram.new out.new ≡ replayed (before t ram.old out.old) (records input.now)) × (result.taken ≡ bytes_of (records input.now)) }
{
    let mut so_far = Turned {
        last: Outcome {
            answer: Answer::Done(0, 0),
            tables: t,
            moved: 0,
        },
        good: known(t, ram.len(), hold),
    };
    let mut left = input;
    while let Ok(r) = front(left) {
        let end = 4 + r.size;
        so_far = turn(so_far, ram, r.kind, &left[4..end], out, hold);
        left = &left[end..];
    }
    Replayed {
        last: so_far.last,
        taken: input.len() - left.len(),
    }
}
