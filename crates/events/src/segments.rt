// The bodies of status, boundary, set user boundary, allocate, free, store, load and load module.
ghost use Rattle.std.specs.Prelude.{◌≡◌, List, ℕ, length};
ghost use Rattle.kernel.specs.Definition.Tables.{ram_size};
ghost use Rattle.kernel.specs.Definition.Good.{Good};
ghost use Rattle.kernel.specs.Definition.Step.{step, result_of};
ghost use Rattle.events.specs.Definition.Records.{status_in, boundary_in, set_user_boundary_in, allocate_in, free_in, store_in, load_in, load_module_in};

use kernel::{Answer, Outcome, Tables};

// No field.
#[tactic(auto, using(crate::proofs::Laws::refused), unfolding(crate::specs::Definition::Records::status_in))]
pub fn status_event(t: Tables, body: &[u8], out: &mut [u8]) -> Outcome
    requires { Good t }
    ensures { (ram : List ℕ) → length ram ≡ ram_size t → result_of result ram out.new ≡ step t ram (status_in body.now) out.old }
{
    if !body.is_empty() {
        return t.refuse(Answer::BadCall);
    }
    t.status_good(out)
}

// No field.
#[tactic(auto, using(crate::proofs::Laws::refused), unfolding(crate::specs::Definition::Records::boundary_in))]
pub fn boundary_event(t: Tables, body: &[u8]) -> Outcome
    requires { Good t }
    ensures { (ram out : List ℕ) → length ram ≡ ram_size t → result_of result ram out ≡ step t ram (boundary_in body.now) out }
{
    if !body.is_empty() {
        return t.refuse(Answer::BadCall);
    }
    t.boundary_good()
}

// The boundary.
#[tactic(auto, using(crate::proofs::Laws::refused), unfolding(crate::specs::Definition::Records::set_user_boundary_in))]
pub fn set_user_boundary_event(t: Tables, body: &[u8]) -> Outcome
    requires { Good t }
    ensures { (ram out : List ℕ) → length ram ≡ ram_size t → result_of result ram out ≡ step t ram (set_user_boundary_in body.now) out }
{
    let [low, high] = body else {
        return t.refuse(Answer::BadCall);
    };
    let value = u16::from_le_bytes([*low, *high]);
    t.set_user_boundary_good(value)
}

// Caller.
#[tactic(auto, using(crate::proofs::Laws::refused), unfolding(crate::specs::Definition::Records::allocate_in))]
pub fn allocate_event(t: Tables, body: &[u8]) -> Outcome
    requires { Good t }
    ensures { (ram out : List ℕ) → length ram ≡ ram_size t → result_of result ram out ≡ step t ram (allocate_in body.now) out }
{
    let [caller] = body else {
        return t.refuse(Answer::BadCall);
    };
    t.allocate_good(*caller)
}

// Caller, segment.
#[tactic(auto, using(crate::proofs::Laws::refused), unfolding(crate::specs::Definition::Records::free_in))]
pub fn free_event(t: Tables, body: &[u8]) -> Outcome
    requires { Good t }
    ensures { (ram out : List ℕ) → length ram ≡ ram_size t → result_of result ram out ≡ step t ram (free_in body.now) out }
{
    let [caller, segment] = body else {
        return t.refuse(Answer::BadCall);
    };
    t.free_good(*caller, *segment)
}

// Segment, offset, data.
#[tactic(auto, using(crate::proofs::Laws::refused), unfolding(crate::specs::Definition::Records::store_in))]
pub fn store_event(t: Tables, ram: &mut [u8], body: &[u8]) -> Outcome
    requires { Good t × (length ram.old ≡ ram_size t) }
    ensures { (out : List ℕ) → result_of result ram.new out ≡ step t ram.old (store_in body.now) out }
{
    let [segment, o0, o1, data @ ..] = body else {
        return t.refuse(Answer::BadCall);
    };
    let offset = u16::from_le_bytes([*o0, *o1]);
    t.store_good(ram, *segment, offset, data)
}

// Segment, offset, length.
#[tactic(auto, using(crate::proofs::Laws::refused), unfolding(crate::specs::Definition::Records::load_in))]
pub fn load_event(t: Tables, ram: &[u8], body: &[u8], out: &mut [u8]) -> Outcome
    requires { Good t × (length ram.now ≡ ram_size t) }
    ensures { result_of result ram.now out.new ≡ step t ram.now (load_in body.now) out.old }
{
    let [segment, o0, o1, s0, s1] = body else {
        return t.refuse(Answer::BadCall);
    };
    let offset = u16::from_le_bytes([*o0, *o1]);
    let size = u16::from_le_bytes([*s0, *s1]);
    t.load_good(ram, *segment, offset, size, out)
}

// Segment, start page, start offset, stream.
#[tactic(auto, using(crate::proofs::Laws::refused), unfolding(crate::specs::Definition::Records::load_module_in))]
pub fn load_module_event(t: Tables, ram: &mut [u8], body: &[u8]) -> Outcome
    requires { Good t × (length ram.old ≡ ram_size t) }
    ensures { (out : List ℕ) → result_of result ram.new out ≡ step t ram.old (load_module_in body.now) out }
{
    let [segment, page, o0, o1, stream @ ..] = body else {
        return t.refuse(Answer::BadCall);
    };
    let offset = u16::from_le_bytes([*o0, *o1]);
    t.load_module_good(ram, *segment, *page, offset, stream)
}
