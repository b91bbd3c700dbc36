// One reply record against the definition's reply.
ghost use Rattle.std.specs.Prelude.{◌≡◌, ◌+◌, ◌≤◌, length};
ghost use Rattle.audit.specs.Definition.Replies.{printed, reply_of};
ghost use Rattle.audit.specs.Definition.Verdict.{judged};

use super::Word;
use events::fields::u16_at;
use kernel::Answer;
use listing::lines::shows;

// How many output bytes a reply with these fields has.
fn printed_by(kind: u16, answer: u8, b: u16) -> usize
    ensures { result ≡ printed kind answer b }
{
    if shows(kind, u16::from(answer), b) {
        usize::from(b)
    } else {
        0
    }
}

// What the body of a reply record is found to be, where the definition gives an event of this kind this answer and this output.
#[tactic(auto, unfolding(crate::specs::Definition::Verdict::judged))]
pub fn reply(kind: u16, answer: Answer, body: &[u8], out: &[u8]) -> Result<(), Word>
    requires { length body.now ≤ 4 + length out.now }
    ensures { result ≡ judged kind body.now (reply_of kind answer out.now) }
{
    if body.len() < 4 {
        return Err(Word::Cut);
    }
    let number = body[0];
    let a = body[1];
    let b = u16_at(body, 2);
    let size = printed_by(kind, number, b);
    if body.len() - 4 != size {
        return Err(Word::Cut);
    }
    if number != answer.number() {
        return Err(Word::Answer);
    }
    if a != answer.a() {
        return Err(Word::A);
    }
    if b != answer.b() {
        return Err(Word::B);
    }
    if body[4..] != out[..size] {
        return Err(Word::Bytes);
    }
    Ok(())
}
