// The reader of a module's stream: it judges the stream, or stores its items.
ghost use Rattle.std.specs.Prelude.{◌≡◌, ◌+◌, ◌*◌, ◌%◌, ◌<◌, ◌≤◌, length, drop, IfOk};
ghost use Rattle.modules.specs.Definition.Bits.{bits_in};
ghost use Rattle.modules.specs.Definition.Reading.{looked_at};
ghost use Rattle.modules.specs.Definition.Judging.{judged};
ghost use Rattle.modules.specs.Within.Codes.{item_of};
ghost use Rattle.modules.specs.Definition.Counter.{Counts};
ghost use Rattle.modules.specs.Within.Acts.{act_of, act_puts, put_where, settled};
ghost use Rattle.modules.specs.Within.Scan.{stored_before};

use super::bits::{bits_of, wanted, window};
use super::items::{item_of, judge_item, store_item};
use super::{Counter, Refusal, Stop, Target};

// What comes of an item once all its bits are there, and its bytes stored where the reading stores.
#[tactic(auto, using(crate::specs::Laws::Acts::item_paged), unfolding(crate::specs::Within::Acts::act_of))]
fn perform(
    code: usize,
    c: Counter,
    target: Target,
    storing: bool,
    ram: &mut [u8],
) -> Result<Counter, Stop>
    requires { Counts c × (target.page ≤ 3) × (16384 * target.row + 16384 ≤ length ram.old) }
    ensures acts { result ≡ act_of target c code }
    ensures counts { IfOk result (λ d. Counts d) }
    ensures stores { ram.new ≡ put_where storing (16384 * target.row) ram.old (act_puts result c (item_of code)) }
{
    match code {
        14 => return Err(Stop::End),
        15 => return Err(Stop::Illegal),
        _ => {}
    }
    let item = item_of(code);
    let next = judge_item(item, c, target)?;
    if storing {
        store_item(ram, 16384 * target.row, c, item);
    }
    Ok(next)
}

// The bytes of the stream that are looked at.
fn looked(stream: &[u8]) -> &[u8]
    ensures { (result.now ≡ looked_at stream.now) × (length result.now ≤ 65535) }
{
    &stream[..stream.len().min(65535)]
}

// What the stop that the reading yields is judged to be.
fn settle(seen: &[u8], at: usize, stop: Stop) -> Result<u16, Refusal>
    requires { (at ≤ 8 * length seen.now) × (length seen.now ≤ 65535) }
    ensures { result ≡ settled (length seen.now) stop (drop at (bits_in seen.now)) }
{
    match stop {
        Stop::End => {
            let end = at.next_multiple_of(8);
            if bits_of(window(seen, at / 8), 8 * (at / 8) + 32 - end, end - at) == 0 {
                Ok((end / 8) as u16)
            } else {
                Err(Refusal::Module)
            }
        }
        Stop::Illegal | Stop::Exhausted => Err(Refusal::Module),
        Stop::Refused(why) => Err(why),
    }
}

// Reads items "until the end item, an illegal item or the end of input breaks off the reading".
// `storing` is a flag and no closure: a closure would say in clauses of its own again what it leaves in the RAM.
pub fn read(
    stream: &[u8],
    start: Counter,
    target: Target,
    storing: bool,
    ram: &mut [u8],
) -> Result<u16, Refusal>
    requires { Counts start × (target.page ≤ 3) × (16384 * target.row + 16384 ≤ length ram.old) }
    ensures judges { result ≡ judged target start stream.now }
    ensures stores { ram.new ≡ put_where storing (16384 * target.row) ram.old (stored_before target start stream.now) }
{
    let seen = looked(stream);
    let end = 8 * seen.len();
    let mut at: usize = 0;
    let mut c = start;
    let stop = 'reader: loop {
        let first = at / 8;
        let held = window(seen, first);
        let mut code: usize = 1;
        let mut left: usize = 3;
        while 0 < left {
            let next = at + left;
            if end < next {
                break 'reader Stop::Exhausted;
            }
            code = (code << left) + bits_of(held, 8 * first + 32 - next, left);
            at = next;
            left = wanted(code);
        }
        match perform(code, c, target, storing, ram) {
            Ok(next) => c = next,
            Err(why) => break why,
        }
    };
    settle(seen, at, stop)
}
