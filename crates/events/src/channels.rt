// The bodies of open, close, read and write.
ghost use Rattle.std.specs.Prelude.{◌≡◌, List, ℕ, length};
ghost use Rattle.kernel.specs.Definition.Tables.{ram_size};
ghost use Rattle.kernel.specs.Definition.Good.{Good};
ghost use Rattle.kernel.specs.Definition.Step.{step, result_of};
ghost use Rattle.events.specs.Definition.Records.{open_in, close_in, read_in, write_in};

use kernel::{Answer, Outcome, Tables};

// Channel, driver status, n, name.
#[tactic(auto, using(crate::proofs::Laws::refused), unfolding(crate::specs::Definition::Records::open_in))]
pub fn open_event(t: Tables, ram: &mut [u8], body: &[u8]) -> Outcome
    requires { Good t × (length ram.old ≡ ram_size t) }
    ensures { (out : List ℕ) → result_of result ram.new out ≡ step t ram.old (open_in body.now) out }
{
    let [channel, driver, n0, n1, name @ ..] = body else {
        return t.refuse(Answer::BadCall);
    };
    let n = u16::from_le_bytes([*n0, *n1]);
    t.open_good(ram, *channel, *driver, n, name)
}

// Channel.
#[tactic(auto, using(crate::proofs::Laws::refused), unfolding(crate::specs::Definition::Records::close_in))]
pub fn close_event(t: Tables, ram: &mut [u8], body: &[u8]) -> Outcome
    requires { Good t × (length ram.old ≡ ram_size t) }
    ensures { (out : List ℕ) → result_of result ram.new out ≡ step t ram.old (close_in body.now) out }
{
    let [channel] = body else {
        return t.refuse(Answer::BadCall);
    };
    t.close_good(ram, *channel)
}

// Channel, offset, length.
#[tactic(auto, using(crate::proofs::Laws::refused), unfolding(crate::specs::Definition::Records::read_in))]
pub fn read_event(t: Tables, ram: &[u8], body: &[u8], out: &mut [u8]) -> Outcome
    requires { Good t × (length ram.now ≡ ram_size t) }
    ensures { result_of result ram.now out.new ≡ step t ram.now (read_in body.now) out.old }
{
    let [channel, o0, o1, a0, a1] = body else {
        return t.refuse(Answer::BadCall);
    };
    let offset = u16::from_le_bytes([*o0, *o1]);
    let asked = u16::from_le_bytes([*a0, *a1]);
    t.read_good(ram, *channel, offset, asked, out)
}

// Channel, offset, data.
#[tactic(auto, using(crate::proofs::Laws::refused), unfolding(crate::specs::Definition::Records::write_in))]
pub fn write_event(t: Tables, ram: &mut [u8], body: &[u8]) -> Outcome
    requires { Good t × (length ram.old ≡ ram_size t) }
    ensures { (out : List ℕ) → result_of result ram.new out ≡ step t ram.old (write_in body.now) out }
{
    let [channel, o0, o1, data @ ..] = body else {
        return t.refuse(Answer::BadCall);
    };
    let offset = u16::from_le_bytes([*o0, *o1]);
    t.write_good(ram, *channel, offset, data)
}
