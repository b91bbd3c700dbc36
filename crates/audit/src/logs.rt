// Where the input ends, and a whole log.
ghost use Rattle.std.specs.Prelude.{◌≡◌};
ghost use Rattle.audit.specs.Definition.Log.{lacking_of};
ghost use Rattle.audit.specs.Definition.Verdict.{may_end, at_end, verdict_of};

use super::buffers::judge;
use super::{Due, Fault, Verdict, Word};
use kernel::Tables;

// The word where there is no whole record of a good length.
pub fn lacking(due: Due) -> Word
    ensures { result ≡ lacking_of due }
{
    match due {
        Due::Start => Word::Start,
        Due::Event | Due::Reply(_, _) => Word::Cut,
    }
}

// Whether the log may end here.
fn may_end(due: Due) -> bool
    ensures { result ≡ may_end due }
{
    matches!(due, Due::Event)
}

// The verdict where the input ends and so many bytes of it are left, less than a record.
pub fn end(number: usize, due: Due, left: usize) -> Verdict
    ensures { result ≡ at_end number due left }
{
    if may_end(due) && left == 0 {
        return Ok(());
    }
    Err(Fault {
        number,
        word: lacking(due),
    })
}

// The verdict on a whole log.
pub fn audit(log: &[u8]) -> Verdict
    ensures { result ≡ verdict_of log.now }
{
    let mut ram = [0u8; 65536];
    let mut out = [0u8; 4090];
    let j = judge(Tables::none(), Due::Start, 0, &mut ram, &mut out, log);
    match j.stop {
        Ok(()) => end(j.number, j.due, log.len() - j.taken),
        Err(word) => Err(Fault {
            number: j.number,
            word,
        }),
    }
}
