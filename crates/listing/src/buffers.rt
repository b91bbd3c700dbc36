// The lines of a buffer.
ghost use Rattle.std.specs.Prelude.{◌≡◌, ◌≤◌, length, drop};
ghost use Rattle.listing.specs.Definition.NoneOrGood.{NoneOrGood};
ghost use Rattle.listing.specs.Definition.Pieces.{begin, reached, Drains};

use super::lines::put_bad;
use super::records::record;
use super::{Drained, LONGEST, Stop};
use events::NoRecord;
use events::records::front;
use kernel::Tables;
use text::Cursor;

// The lines of as many whole records as the input has and the text has room for.
#[tactic(auto, using(events::proofs::Walks::record_fits))]
pub fn drain(
    t: Tables,
    ram: &mut [u8; 65536],
    out: &mut [u8; 4096],
    input: &[u8],
    text: &mut [u8],
) -> Drained
    requires { NoneOrGood t }
    ensures { Drains (length text.new) (begin t ram.old out.old input.now) (reached result ram.new out.new input.now text.new) result.stop × NoneOrGood result.tables × (result.taken ≤ length input.now) × (result.used ≤ length text.new) × (drop result.used text.new ≡ drop result.used text.old) }
{
    let mut tables = t;
    let mut left = input;
    let mut to = Cursor { text, at: 0 };
    let stop = loop {
        if to.text.len() - to.at < LONGEST {
            break Stop::Full;
        }
        let r = match front(left) {
            Ok(r) => r,
            Err(NoRecord::Cut) => break Stop::More,
            Err(NoRecord::Bad) => {
                put_bad(&mut to);
                break Stop::Bad;
            }
        };
        let end = 4 + r.size;
        tables = record(tables, ram, out, r.kind, &left[4..end], &mut to);
        left = &left[end..];
    };
    Drained {
        tables,
        taken: input.len() - left.len(),
        used: to.at,
        stop,
    }
}
