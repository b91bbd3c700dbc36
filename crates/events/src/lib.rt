// An event record's kind and body, to a call of the kernel.
#![tactic(auto)]

ghost use Rattle.std.specs.Prelude.{◌≡◌, length};
ghost use Rattle.kernel.specs.Definition.Tables.{ram_size};
ghost use Rattle.kernel.specs.Definition.Good.{Good};
ghost use Rattle.kernel.specs.Definition.Step.{result_of};
ghost use Rattle.events.specs.Definition.Records.{step_of};

use channels::{close_event, open_event, read_event, write_event};
use kernel::{Answer, Outcome, Tables};
use kinds::Kind;
use segments::{
    allocate_event, boundary_event, free_event, load_event, load_module_event,
    set_user_boundary_event, status_event, store_event,
};
use system::{default_event, link_event, reset_event, start_event};

pub mod fields; // the numbers in a body
pub mod kinds; // the kinds of events, and their numbers
pub mod records; // the record at the front of a log
pub mod channels; // open, close, read, write
pub mod segments; // status, boundary, set user boundary, allocate, free, store, load, load module
pub mod system; // start, reset, default, link

// The record at the front of a log: its kind, and how many bytes its body has.
#[derive(Clone, Copy)]
pub struct Record {
    pub kind: u16,
    pub size: usize,
}

// Why no record stands at the front of a log: less than a record is there, or its length is bad.
#[derive(Clone, Copy)]
pub enum NoRecord {
    Cut,
    Bad,
}

// One call on tables that are good by theorem: they are not tested.
pub fn call_good(t: Tables, ram: &mut [u8], kind: u16, body: &[u8], out: &mut [u8]) -> Outcome
    requires { Good t × (length ram.old ≡ ram_size t) }
    ensures { result_of result ram.new out.new ≡ step_of t ram.old kind body.now out.old }
{
    let Ok(kind) = Kind::try_from(kind) else {
        return t.refuse(Answer::BadCall);
    };
    match kind {
        Kind::Reset => reset_event(t, ram, body),
        Kind::Open => open_event(t, ram, body),
        Kind::Close => close_event(t, ram, body),
        Kind::Read => read_event(t, ram, body, out),
        Kind::Write => write_event(t, ram, body),
        Kind::Default => default_event(t, body),
        Kind::Status => status_event(t, body, out),
        Kind::Link => link_event(t, ram, body),
        Kind::Boundary => boundary_event(t, body),
        Kind::SetUserBoundary => set_user_boundary_event(t, body),
        Kind::Allocate => allocate_event(t, body),
        Kind::Free => free_event(t, body),
        Kind::LoadModule => load_module_event(t, ram, body),
        Kind::Start => start_event(t, ram, body),
        Kind::Store => store_event(t, ram, body),
        Kind::Load => load_event(t, ram, body, out),
    }
}

// One call, as an event record asks it. A start is told by its number, as the definition tells it: the kind made first would be matched twice.
pub fn call(t: Tables, ram: &mut [u8], kind: u16, body: &[u8], out: &mut [u8]) -> Outcome
    ensures { result_of result ram.new out.new ≡ step_of t ram.old kind body.now out.old }
{
    if kind == 256 {
        return start_event(t, ram, body);
    }
    if !t.is_ready(ram.len()) {
        return t.refuse(Answer::BadTables);
    }
    call_good(t, ram, kind, body, out)
}
