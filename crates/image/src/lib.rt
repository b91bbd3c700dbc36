// The tables and an outcome as bytes.
#![tactic(auto)]

ghost use Rattle.std.specs.Prelude.{◌≡◌, ◌+◌};
ghost use Rattle.text.specs.Definition.Put.{Puts, Room};
ghost use Rattle.image.specs.Definition.Image.{answer_bytes, outcome_bytes};

use fields::Field;
use kernel::Answer;
use text::Cursor;

pub mod offsets; // where each field stands
pub mod fields; // numbers, rows, and runs of bytes
pub mod channels; // a row of channels
pub mod devices; // a row of devices
pub mod tables; // encode and decode

// An answer's number and values, two bytes each.
fn put_answer(answer: Answer, to: &mut Cursor)
    requires { Room to.old 6 }
    ensures { Puts to.old to.new (answer_bytes answer) }
{
    u16::from(answer.number()).put(to);
    u16::from(answer.a()).put(to);
    answer.b().put(to);
}

// An answer, and in four bytes how many bytes the call moved.
pub fn put_outcome(answer: Answer, moved: u32, to: &mut Cursor)
    requires { Room to.old 10 }
    ensures { Puts to.old to.new (outcome_bytes answer moved) × (to.new.at ≡ to.old.at + 10) }
{
    put_answer(answer, to);
    moved.put(to);
}
