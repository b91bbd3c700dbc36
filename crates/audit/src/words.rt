// A verdict as a line of text.
ghost use Rattle.std.specs.Prelude.{◌+◌, ◌≤◌, length};
ghost use Rattle.text.specs.Definition.Put.{Puts, Room};
ghost use Rattle.audit.specs.Definition.Words.{letters_of, fault_line, line_of};

use super::{Fault, Verdict, Word};
use text::Cursor;

// A word.
fn put_word(word: Word, to: &mut Cursor)
    requires { Room to.old 6 }
    ensures { Puts to.old to.new (letters_of word) × (to.new.at ≤ to.old.at + 6) }
{
    match word {
        Word::Start => to.put_run(b"start"),
        Word::Cut => to.put_run(b"cut"),
        Word::Answer => to.put_run(b"answer"),
        Word::A => to.put_run(b"a"),
        Word::B => to.put_run(b"b"),
        Word::Bytes => to.put_run(b"bytes"),
    }
}

// The line of a fault: at most twenty digits, a space, six letters and a newline.
#[tactic(auto, using(text::proofs::Numerals::long))]
fn put_fault(fault: Fault, to: &mut Cursor)
    requires { Room to.old 28 }
    ensures { Puts to.old to.new (fault_line fault.number fault.word) × (to.new.at ≤ length to.new.text.now) }
{
    to.decimal(fault.number);
    to.put(b' ');
    put_word(fault.word, to);
    to.put(b'\n');
}

// The line of a verdict.
pub fn put_verdict(verdict: Verdict, to: &mut Cursor)
    requires { Room to.old 28 }
    ensures { Puts to.old to.new (line_of verdict) × (to.new.at ≤ length to.new.text.now) }
{
    match verdict {
        Ok(()) => to.put_run(b"ok\n"),
        Err(fault) => put_fault(fault, to),
    }
}
