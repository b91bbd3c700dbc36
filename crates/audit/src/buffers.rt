// The records of a buffer.
ghost use Rattle.std.specs.Prelude.{◌+◌, ◌≤◌, ◌<◌, ◌^◌, length};
ghost use Rattle.listing.specs.Definition.NoneOrGood.{NoneOrGood};
ghost use Rattle.audit.specs.Definition.Pieces.{state_of, Stops};
ghost use Rattle.audit.specs.Definition.Log.{mark};

use super::logs::lacking;
use super::records::record;
use super::{Due, Judged};
use events::NoRecord;
use events::records::front;
use kernel::Tables;

// Judges as many whole records as the input has, up to the first at fault.
#[tactic(auto, using(events::proofs::Walks::record_fits, events::proofs::Walks::body_short))]
pub fn judge(
    t: Tables,
    due: Due,
    number: usize,
    ram: &mut [u8; 65536],
    out: &mut [u8; 4090],
    input: &[u8],
) -> Judged
    requires { NoneOrGood t × (number + length input.now < 2 ^ 64) }
    ensures { Stops (mark number (state_of due t ram.old out.old) input.now) result ram.new out.new input.now × NoneOrGood result.tables × (result.taken ≤ length input.now) × (result.number ≤ number + result.taken) }
{
    let mut tables = t;
    let mut due = due;
    let mut number = number;
    let mut left = input;
    let stop = loop {
        let r = match front(left) {
            Ok(r) => r,
            Err(NoRecord::Cut) => break Ok(()),
            Err(NoRecord::Bad) => break Err(lacking(due)),
        };
        let end = 4 + r.size;
        let after = record(tables, due, ram, out, r.kind, &left[4..end]);
        tables = after.tables;
        due = after.due;
        if let Err(word) = after.found {
            break Err(word);
        }
        number += 1;
        left = &left[end..];
    };
    Judged {
        tables,
        due,
        number,
        taken: input.len() - left.len(),
        stop,
    }
}
