// One record of a maker's log, where it stands. A start, 256, and a reply, 512, are told by number, as the definition tells them: a reply is no kind of event.
ghost use Rattle.std.specs.Prelude.{◌≡◌, ◌≤◌, length};
ghost use Rattle.listing.specs.Definition.NoneOrGood.{NoneOrGood};
ghost use Rattle.audit.specs.Definition.Verdict.{started, next};
ghost use Rattle.audit.specs.Definition.Pieces.{state_of, leaves};

use super::replies::reply;
use super::{After, Due, Word};
use kernel::{Answer, Tables};
use listing::records::step;

// What the first record is found to be, by its kind and the definition's answer.
fn first(kind: u16, answer: Answer) -> Result<(), Word>
    ensures { result ≡ started kind answer }
{
    if kind == 256 && answer.number() == 0 {
        Ok(())
    } else {
        Err(Word::Start)
    }
}

// What a record is found to be, where this is due, and what it leaves.
#[tactic(auto, unfolding(crate::specs::Definition::Verdict::next))]
pub fn record(
    t: Tables,
    due: Due,
    ram: &mut [u8; 65536],
    out: &mut [u8; 4090],
    kind: u16,
    body: &[u8],
) -> After
    requires { NoneOrGood t × (length body.now ≤ 4094) }
    ensures { (leaves result ram.new out.new ≡ next (state_of due t ram.old out.old) kind body.now) × NoneOrGood result.tables }
{
    match due {
        Due::Start => {
            let o = step(t, ram, kind, body, out);
            After {
                tables: o.tables,
                due: Due::Reply(kind, o.answer),
                found: first(kind, o.answer),
            }
        }
        Due::Event => {
            if kind == 512 {
                return After {
                    tables: t,
                    due,
                    found: Err(Word::Cut),
                };
            }
            let o = step(t, ram, kind, body, out);
            After {
                tables: o.tables,
                due: Due::Reply(kind, o.answer),
                found: Ok(()),
            }
        }
        Due::Reply(asked, answer) => {
            if kind != 512 {
                return After {
                    tables: t,
                    due,
                    found: Err(Word::Cut),
                };
            }
            After {
                tables: t,
                due: Due::Event,
                found: reply(asked, answer, body, out),
            }
        }
    }
}
