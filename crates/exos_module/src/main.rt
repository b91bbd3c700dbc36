// The writing program: reads a start and a list of items from standard input, writes the module of them, and tells on descriptor 3 how it ended.
#![tactic(auto)]

ghost use Rattle.std.specs.Prelude.{◌≡◌, ◌∷◌, ◌≤◌, length, Result};
ghost use Rattle.files.specs.declared.Unwritten.{Unwritten};
ghost use Rattle.text.specs.Definition.Put.{Puts, Room};
ghost use Rattle.text.specs.Definition.Text.{decimal_of};
ghost use Rattle.writer.specs.Definition.Writing.{reply_from};
ghost use Rattle.exos_module.specs.declared.Failure.TheVariants.{Refused};
ghost use Rattle.exos_module.specs.Definition.Ends.{room, input_room, unread, unwritten, end_of, Ran};
ghost use Rattle.exos_module.specs.Definition.Handed.{module_from};
ghost use Rattle.exos_module.specs.Definition.Told.{letter_of, told_of};

#[cfg(test)]
mod tests; // the writer's sheet

use files::{TOLD, Unread, Unwritten, read_all, write_named, write_to};
use text::Cursor;
use writer::write::write_from;
use writer::{Refusal, Why};

// Why no module is written, or not all of it: a read failed, there are too many items, or the writer refuses the input; or the write failed, or the reader of
// the module has ended.
#[derive(Clone, Copy)]
pub enum Failure {
    ReadFailed,
    TooMany,
    Refused(Refusal),
    WriteFailed,
    ReaderEnded,
}

impl From<Unread> for Failure {
    ghost from_gives = { λ why failure. failure ≡ unread why };

    fn from(why: Unread) -> Failure {
        match why {
            Unread::Full => Failure::TooMany,
            Unread::Failed => Failure::ReadFailed,
        }
    }
}

impl From<Refusal> for Failure {
    ghost from_gives = { λ refusal failure. failure ≡ Refused refusal };

    fn from(refusal: Refusal) -> Failure {
        Failure::Refused(refusal)
    }
}

// exos_audit has the like: one type of the three ends is no plainer, since this program has more ends and would wrap it.
impl From<Unwritten> for Failure {
    ghost from_gives = { λ why failure. failure ≡ unwritten why };

    fn from(why: Unwritten) -> Failure {
        match why {
            Unwritten::Failed(_) => Failure::WriteFailed,
            Unwritten::Closed(_) => Failure::ReaderEnded,
        }
    }
}

// Writes the bytes that are the module of an input. The input is lent for the contract alone.
fn hand(rt: &HostRuntime, bytes: &[u8], input: &[u8]) -> Result<(), Unwritten>
    requires { bytes.now ≡ module_from input.now room }
{
    write_to(&mut rt.stdout(), bytes)
}

// Writes the module of an input, and hands back how that ended.
fn answer(rt: &HostRuntime, input: &[u8], buffer: &mut [u8]) -> Result<(), Failure>
    requires { length buffer.old ≡ room }
    ensures { (wrote : Result Unit Unwritten) × (result ≡ end_of (reply_from input.now room) wrote) }
{
    let size = write_from(input, buffer)?;
    hand(rt, &buffer[..size], input)?;
    Ok(())
}

// Reads the input and answers it. The last byte of `input` is there to see that there is more than the most items.
fn run(rt: &HostRuntime, input: &mut [u8], buffer: &mut [u8]) -> Result<(), Failure>
    requires { (length input.old ≡ input_room) × (length buffer.old ≡ room) }
    ensures { Ran input.new result }
{
    let n = read_all(&mut rt.stdin(), input)?;
    answer(rt, &input[..n], buffer)
}

// The letter that tells why an item is none.
fn letter_of(why: Why) -> u8
    ensures { result ≡ letter_of why }
{
    match why {
        Why::Cut => b'c',
        Why::Tag => b't',
        Why::AboveByte => b'b',
        Why::Valued => b'v',
    }
}

// Puts a letter and a number.
#[tactic(auto, using(text::proofs::Numerals::long))]
fn put_numbered(letter: u8, number: usize, to: &mut Cursor)
    requires { Room to.old 21 }
    ensures { Puts to.old to.new (letter ∷ decimal_of number) }
{
    to.put(letter);
    to.decimal(number);
}

// Puts the word that tells an end.
fn put_told(end: Result<(), Failure>, to: &mut Cursor)
    requires { Room to.old 21 }
    ensures { Puts to.old to.new (told_of end) }
{
    let letter = match end {
        Ok(()) => b'0',
        Err(Failure::WriteFailed) => b'w',
        Err(Failure::ReaderEnded) => b'p',
        Err(Failure::ReadFailed) => b'r',
        Err(Failure::Refused(Refusal::Page)) => b'o',
        Err(Failure::Refused(Refusal::Range)) => b's',
        Err(Failure::Refused(Refusal::NoStart)) => b'h',
        Err(Failure::TooMany) => b'm',
        Err(Failure::Refused(Refusal::NoList(flaw))) => {
            return put_numbered(letter_of(flaw.why), flaw.number, to);
        }
    };
    to.put(letter);
}

// Tells the word that is an end's. The end is given for the contract alone.
fn say(rt: &HostRuntime, word: &[u8], end: Result<(), Failure>)
    requires { word.now ≡ told_of end }
{
    let _ = write_named(rt, TOLD, word);
}

// Tells an end.
#[tactic(auto, using(text::specs::Laws::Text::handed, text::specs::Laws::Text::puts_within))]
fn tell(rt: &HostRuntime, end: Result<(), Failure>) {
    let mut text = [0u8; 21];
    let mut to = Cursor {
        text: &mut text,
        at: 0,
    };
    put_told(end, &mut to);
    let n = to.at;
    say(rt, &text[..n], end);
}

fn main(rt: HostRuntime) {
    let mut input = [0u8; 314575];
    let mut buffer = [0u8; 65536];
    tell(&rt, run(&rt, &mut input, &mut buffer));
}
