// The static library: the kernel and the writer of modules over bytes, for other languages. c/exos.h tells a C program what each argument is.
#![tactic(auto)]

ghost use Rattle.std.specs.Prelude.{◌≡◌, length};
ghost use Rattle.kernel.specs.Definition.Answers as answers;
ghost use Rattle.image.specs.Definition.Offsets.{SIZE};
ghost use Rattle.image.specs.Definition.Image.{outcome_bytes};
ghost use Rattle.exos.specs.Definition.Call.{image_after, Called};
ghost use Rattle.exos.specs.Definition.Replays.{Replays};
ghost use Rattle.exos.specs.Definition.Modules.{written_bytes, WritesModule};
ghost use Rattle.writer.specs.Definition.Writing.{answer_number};

use events::call;
use events::fields::u16_at;
use image::fields::Field;
use image::offsets::SIZE;
use image::put_outcome;
use image::tables::{decode, encode};
use kernel::{Answer, Outcome, Tables};
use replay::replay;
use text::Cursor;
use writer::Refusal;
use writer::write::write_module;

// "0 is done. 17 SHARED is a grant".
fn granted(answer: Answer) -> bool
    ensures { result ≡ answers.granted answer }
{
    matches!(answer, Answer::Done(_, _) | Answer::Shared(_, _))
}

// The image of the next tables where the call was done; a refused call leaves every byte.
fn write_back(o: &Outcome, image: &mut [u8])
    requires { length image.old ≡ SIZE }
    ensures { image.new ≡ image_after o.now.answer o.now.tables image.old }
{
    if granted(o.answer) {
        encode(&o.tables, image);
    }
}

// An outcome as ten bytes.
#[tactic(auto, using(text::specs::Laws::Text::handed, image::specs::Laws::Bytes::whole))]
fn put_reply(answer: Answer, moved: u32, reply: &mut [u8])
    requires { length reply.old ≡ 10 }
    ensures { reply.new ≡ outcome_bytes answer moved }
{
    let mut to = Cursor { text: reply, at: 0 };
    put_outcome(answer, moved, &mut to);
}

// One call, on the image of the tables. False, and nothing changed, where a length is wrong.
#[tactic(auto, using(image::specs::Laws::Bytes::body_is), unfolding(crate::specs::Definition::Call::fits))]
#[unsafe(no_mangle)]
pub extern "C" fn exos_call(
    image: &mut [u8],
    ram: &mut [u8],
    record: &[u8],
    out: &mut [u8],
    reply: &mut [u8],
) -> bool
    ensures { Called image.old ram.old «record».now out.old reply.old image.new ram.new out.new reply.new result }
{
    if image.len() != SIZE || record.len() < 2 || 4096 < record.len() || reply.len() != 10 {
        return false;
    }
    let o = call(decode(image), ram, u16_at(record, 0), &record[2..], out);
    write_back(&o, image);
    put_reply(o.answer, o.moved, reply);
    true
}

// Every whole record at the front of a log, from no tables. The reply is the last one's: its answer, and how many bytes its call moved. The bytes that
// the records take; zero, and nothing changed, where the reply's length is wrong.
fn replay_log(ram: &mut [u8], out: &mut [u8], log: &[u8], reply: &mut [u8], hold: bool) -> usize
    ensures { Replays ram.old out.old log.now reply.old ram.new out.new reply.new result }
{
    if reply.len() != 10 {
        return 0;
    }
    let r = replay(Tables::none(), ram, out, log, hold);
    put_reply(r.last.answer, r.last.moved, reply);
    r.taken
}

// The tables are tested until they are good, and then held.
#[unsafe(no_mangle)]
pub extern "C" fn exos_replay(ram: &mut [u8], out: &mut [u8], log: &[u8], reply: &mut [u8]) -> usize
    ensures { Replays ram.old out.old log.now reply.old ram.new out.new reply.new result }
{
    replay_log(ram, out, log, reply, true)
}

// The same, by public calls: the tables are tested for each record.
#[unsafe(no_mangle)]
pub extern "C" fn exos_replay_tested(
    ram: &mut [u8],
    out: &mut [u8],
    log: &[u8],
    reply: &mut [u8],
) -> usize
    ensures { Replays ram.old out.old log.now reply.old ram.new out.new reply.new result }
{
    replay_log(ram, out, log, reply, false)
}

// The number of an answer of the writer.
fn number_of(written: Result<usize, Refusal>) -> u16
    ensures { result ≡ answer_number written }
{
    match written {
        Ok(_) => 0,
        Err(Refusal::Page) => 20,
        Err(Refusal::Range) => 13,
        // answered with false before: nothing asks for it
        Err(Refusal::NoStart | Refusal::NoList(_)) => 2,
    }
}

// The answer as ten bytes.
#[tactic(auto, using(text::specs::Laws::Text::puts_then, text::specs::Laws::Text::handed, image::specs::Laws::Bytes::whole))]
fn put_written(written: Result<usize, Refusal>, reply: &mut [u8])
    requires { length reply.old ≡ 10 }
    ensures { reply.new ≡ written_bytes written }
{
    let mut to = Cursor { text: reply, at: 0 };
    number_of(written).put(&mut to);
    (written.unwrap_or(0) as u64).put(&mut to);
}

// The module of a list of items, from a start page and offset, into a buffer of any length. False, and nothing changed, where the bytes are no list of items or the reply's
// length is wrong.
#[tactic(auto, unfolding(writer::specs::Definition::Writing::answer_to))]
#[unsafe(no_mangle)]
pub extern "C" fn exos_write_module(
    page: u8,
    offset: u16,
    items: &[u8],
    buffer: &mut [u8],
    reply: &mut [u8],
) -> bool
    ensures { WritesModule page offset items.now buffer.old reply.old buffer.new reply.new result }
{
    if reply.len() != 10 {
        return false;
    }
    match write_module(page, offset, items, buffer) {
        Err(Refusal::NoStart | Refusal::NoList(_)) => false,
        written => {
            put_written(written, reply);
            true
        }
    }
}
