// One record: its call, and its line.
ghost use Rattle.std.specs.Prelude.{◌≡◌, ◌+◌, ◌≤◌, ◌<◌, min, length};
ghost use Rattle.kernel.specs.Definition.Step.{result_of};
ghost use Rattle.events.specs.Definition.Records.{step_of};
ghost use Rattle.text.specs.Definition.Put.{Room};
ghost use Rattle.listing.specs.Definition.Log.{lent_to, log_step};
ghost use Rattle.listing.specs.Definition.NoneOrGood.{NoneOrGood};
ghost use Rattle.listing.specs.Definition.Pieces.{longest, Stepped};

use super::lines::put_line;
use events::call_good;
use events::system::start_event;
use kernel::{Answer, Outcome, Tables};
use text::Cursor;

// How many bytes of RAM a record's call is lent. Here and in `call` a start is told by its number, as the definition tells it.
#[tactic(auto, unfolding(crate::specs::Definition::Log::lent_to))]
fn lent(segments: u8, kind: u16, size: usize) -> usize
    ensures { (result ≡ lent_to segments kind size) × (result ≤ 65536) }
{
    let held = if kind == 256 {
        size.saturating_sub(2)
    } else {
        usize::from(segments)
    };
    16384 * held.min(4)
}

// A record's call. After an accepted start the tables are good by theorem, and before it there are none: they are not tested.
fn call(t: Tables, ram: &mut [u8], kind: u16, body: &[u8], out: &mut [u8]) -> Outcome
    requires { NoneOrGood t × (length ram.old ≡ lent_to t.segments kind (length body.now)) }
    ensures { result_of result ram.new out.new ≡ step_of t ram.old kind body.now out.old }
{
    if kind == 256 {
        return start_event(t, ram, body);
    }
    if t.segments == 0 {
        return t.refuse(Answer::BadTables);
    }
    call_good(t, ram, kind, body, out)
}

// A record's call on the four segments, of which it is lent its part.
pub fn step(t: Tables, ram: &mut [u8], kind: u16, body: &[u8], out: &mut [u8]) -> Outcome
    requires { NoneOrGood t × (length ram.old ≡ 65536) }
    ensures { (result_of result ram.new out.new ≡ log_step t ram.old out.old kind body.now) × NoneOrGood result.tables }
{
    let n = lent(t.segments, kind, body.len());
    call(t, &mut ram[..n], kind, body, out)
}

// A record's call, and its line.
pub fn record(
    t: Tables,
    ram: &mut [u8],
    out: &mut [u8; 4096],
    kind: u16,
    body: &[u8],
    to: &mut Cursor,
) -> Tables
    requires { NoneOrGood t × (length ram.old ≡ 65536) × Room to.old longest }
    ensures { Stepped t ram.old out.old kind body.now to.old result ram.new out.new to.new × NoneOrGood result }
{
    let o = step(t, ram, kind, body, out);
    let answer = o.answer;
    put_line(
        kind,
        u16::from(answer.number()),
        u16::from(answer.a()),
        answer.b(),
        out,
        to,
    );
    o.tables
}
