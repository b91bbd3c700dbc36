// The record at the front of a log.
ghost use Rattle.std.specs.Prelude.{◌≡◌};
ghost use Rattle.events.specs.Definition.Records.{front_of};

use super::fields::u16_at;
use super::{NoRecord, Record};

// What stands at the front of the input.
#[tactic(auto, unfolding(crate::specs::Definition::Records::front_of))]
pub fn front(input: &[u8]) -> Result<Record, NoRecord>
    ensures { result ≡ front_of input.now }
{
    if input.len() < 2 {
        return Err(NoRecord::Cut);
    }
    let n = usize::from(u16_at(input, 0));
    if n < 2 || 4096 < n {
        return Err(NoRecord::Bad);
    }
    if input.len() < n + 2 {
        return Err(NoRecord::Cut);
    }
    Ok(Record {
        kind: u16_at(input, 2),
        size: n - 2,
    })
}
