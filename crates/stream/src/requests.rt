// Where a request ends.
ghost use Rattle.std.specs.Prelude.{◌≡◌, ◌≤◌};
ghost use Rattle.stream.specs.Definition.Requests.{CALL, call_at, request_in, CallLiesIn, LiesIn};

use super::bytes::u32_at;
use super::{NoRequest, Request};
use events::fields::u16_at;
use image::offsets::SIZE;

// Where the image, the RAM's length, the seed and the call stand.
pub const IMAGE: usize = 1;

pub const RAM: usize = IMAGE + SIZE;

pub const SEED: usize = RAM + 4;

pub const CALL: usize = SEED + 4;

// The output's length, the record's length and the record.
#[tactic(auto, unfolding(crate::specs::Definition::Requests::call_at))]
fn call_at(bytes: &[u8], at: usize) -> Result<Request, NoRequest>
    requires { at ≤ CALL }
    ensures { (result ≡ call_at bytes.now at) × CallLiesIn bytes.now result }
{
    let start = at + 4;
    if bytes.len() < start {
        return Err(NoRequest::Part);
    }
    let out = usize::from(u16_at(bytes, at));
    let end = start + usize::from(u16_at(bytes, at + 2));
    if end < start + 2 {
        return Err(NoRequest::Bad);
    }
    if bytes.len() < end {
        return Err(NoRequest::Part);
    }
    Ok(Request { out, start, end })
}

#[tactic(auto, unfolding(crate::specs::Definition::Requests::request_in))]
pub fn request(bytes: &[u8]) -> Result<Request, NoRequest>
    ensures { (result ≡ request_in bytes.now) × LiesIn bytes.now result }
{
    match bytes.first() {
        None => Err(NoRequest::Part),
        Some(0 | 2) => call_at(bytes, 1),
        Some(1) => {
            if bytes.len() < CALL {
                return Err(NoRequest::Part);
            }
            if 524288 < u32_at(bytes, RAM) {
                return Err(NoRequest::Bad);
            }
            call_at(bytes, CALL)
        }
        Some(_) => Err(NoRequest::Bad),
    }
}
