// What comes of a request's record: the call of an event, or the answer of the writer of modules.
ghost use Rattle.std.specs.Prelude.{◌≡◌, ◌≤◌, ◌<◌, length};
ghost use Rattle.kernel.specs.Definition.Step.{result_of};
ghost use Rattle.writer.specs.Definition.Writing.{reply_from, buffer_from};
ghost use Rattle.stream.specs.Definition.Asked.{reply_answer, asked_of};

use events::call;
use events::fields::u16_at;
use kernel::{Answer, Outcome, Tables};
use writer::Refusal;
use writer::write::write_from;

// Asks the writer, whose buffer is the output.
fn write(record: &[u8], out: &mut [u8]) -> Answer
    requires { length out.old < 65536 }
    ensures { (result ≡ reply_answer (reply_from «record».now (length out.old))) × (out.new ≡ buffer_from «record».now out.old) }
{
    match write_from(record, out) {
        Ok(n) => Answer::Done(0, n as u16),
        Err(Refusal::Page) => Answer::BadPage,
        Err(Refusal::Range) => Answer::BadRange,
        Err(Refusal::NoStart | Refusal::NoList(_)) => Answer::BadCall,
    }
}

// By the first byte of a request, a number as in the definition: an enum would be made for one test.
#[tactic(auto, using(image::specs::Laws::Bytes::body_is), unfolding(crate::specs::Definition::Asked::asked_of))]
pub fn ask(first: u8, t: Tables, ram: &mut [u8], record: &[u8], out: &mut [u8]) -> Outcome
    requires { (2 ≤ length «record».now) × (length out.old < 65536) }
    ensures { result_of result ram.new out.new ≡ asked_of first t ram.old «record».now out.old }
{
    if first == 2 {
        return Outcome {
            answer: write(record, out),
            tables: t,
            moved: 0,
        };
    }
    call(t, ram, u16_at(record, 0), &record[2..], out)
}
