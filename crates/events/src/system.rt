// The bodies of start, reset, default and link.
ghost use Rattle.std.specs.Prelude.{◌≡◌, List, ℕ, length};
ghost use Rattle.kernel.specs.Definition.Tables.{ram_size};
ghost use Rattle.kernel.specs.Definition.Good.{Good};
ghost use Rattle.kernel.specs.Definition.Step.{step, result_of};
ghost use Rattle.events.specs.Definition.Records.{start_in, reset_in, default_in, link_in};

use kernel::{Answer, Outcome, Tables};

// R, list. Nothing is asked of the tables.
#[tactic(auto, using(crate::proofs::Laws::no_start), unfolding(crate::specs::Definition::Records::start_in))]
pub fn start_event(t: Tables, ram: &mut [u8], body: &[u8]) -> Outcome
    ensures { (out : List ℕ) → result_of result ram.new out ≡ step t ram.old (start_in body.now) out }
{
    let [r0, r1, list @ ..] = body else {
        return t.refuse(Answer::BadCall);
    };
    let room = u16::from_le_bytes([*r0, *r1]);
    t.start(ram, room, list)
}

// Flags.
#[tactic(auto, using(crate::proofs::Laws::refused), unfolding(crate::specs::Definition::Records::reset_in))]
pub fn reset_event(t: Tables, ram: &mut [u8], body: &[u8]) -> Outcome
    requires { Good t × (length ram.old ≡ ram_size t) }
    ensures { (out : List ℕ) → result_of result ram.new out ≡ step t ram.old (reset_in body.now) out }
{
    let [flags] = body else {
        return t.refuse(Answer::BadCall);
    };
    t.reset_good(ram, *flags)
}

// Unit, name.
#[tactic(auto, using(crate::proofs::Laws::refused), unfolding(crate::specs::Definition::Records::default_in))]
pub fn default_event(t: Tables, body: &[u8]) -> Outcome
    requires { Good t }
    ensures { (ram out : List ℕ) → length ram ≡ ram_size t → result_of result ram out ≡ step t ram (default_in body.now) out }
{
    let [unit, name @ ..] = body else {
        return t.refuse(Answer::BadCall);
    };
    t.default_good(*unit, name)
}

// The bytes of RAM that the device takes, name.
#[tactic(auto, using(crate::proofs::Laws::refused), unfolding(crate::specs::Definition::Records::link_in))]
pub fn link_event(t: Tables, ram: &mut [u8], body: &[u8]) -> Outcome
    requires { Good t × (length ram.old ≡ ram_size t) }
    ensures { (out : List ℕ) → result_of result ram.new out ≡ step t ram.old (link_in body.now) out }
{
    let [m0, m1, name @ ..] = body else {
        return t.refuse(Answer::BadCall);
    };
    let m = u16::from_le_bytes([*m0, *m1]);
    t.link_good(ram, m, name)
}
