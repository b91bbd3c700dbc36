// Who may have a segment: boundary, set user boundary, allocate, free, status.
ghost use Rattle.std.specs.Prelude.{◌≡◌, List, ℕ, ◌≤◌, length};
ghost use Rattle.kernel.specs.Definition.Good.{Good};
ghost use Rattle.kernel.specs.Definition.Segments.{class_for};
ghost use Rattle.kernel.specs.Definition.Calls.{on_boundary, on_set_user_boundary, on_allocate, on_free, on_status};
ghost use Rattle.kernel.specs.Definition.Calls as calls;
ghost use Rattle.kernel.specs.Definition.Bytes.{counts_of};
ghost use Rattle.kernel.specs.Definition.Step.{step, completed, result_of};

use super::{Answer, Outcome, Tables};
use rows::segments::{DEVICE, FREE, SHARED, SYSTEM, USER};

impl Tables {
    // The chain's last segment and the EXOS boundary.
    pub fn boundary(self, ram: &[u8]) -> Outcome
        ensures { (out : List ℕ) → result_of result ram.now out ≡ step self ram.now calls.boundary out }
    {
        if !self.is_ready(ram.len()) {
            return self.refuse(Answer::BadTables);
        }
        self.boundary_good()
    }

    pub fn boundary_good(self) -> Outcome
        requires { Good self }
        ensures { (ram out : List ℕ) → result_of result ram out ≡ completed self (on_boundary self) ram out }
    {
        let number = self.list[self.last_row()];
        let edge = self.exos_boundary();
        self.done(number, edge)
    }

    // The user boundary set, in a shared segment, up to the EXOS boundary.
    pub fn set_user_boundary(self, ram: &[u8], value: u16) -> Outcome
        ensures { (out : List ℕ) → result_of result ram.now out ≡ step self ram.now (calls.set-user-boundary value) out }
    {
        if !self.is_ready(ram.len()) {
            return self.refuse(Answer::BadTables);
        }
        self.set_user_boundary_good(value)
    }

    pub fn set_user_boundary_good(self, value: u16) -> Outcome
        requires { Good self }
        ensures { (ram out : List ℕ) → result_of result ram out ≡ completed self (on_set_user_boundary self value) ram out }
    {
        if !self.shares() || self.exos_boundary() < value {
            return self.refuse(Answer::BadBoundary);
        }
        let mut next = self;
        next.user = value;
        next.done(0, 0)
    }

    // A segment for the user (0) or a device (1).
    pub fn allocate(self, ram: &[u8], caller: u8) -> Outcome
        ensures { (out : List ℕ) → result_of result ram.now out ≡ step self ram.now (calls.allocate caller) out }
    {
        if !self.is_ready(ram.len()) {
            return self.refuse(Answer::BadTables);
        }
        self.allocate_good(caller)
    }

    pub fn allocate_good(self, caller: u8) -> Outcome
        requires { Good self }
        ensures { (ram out : List ℕ) → result_of result ram out ≡ completed self (on_allocate self caller) ram out }
    {
        if 1 < caller {
            return self.refuse(Answer::BadCall);
        }
        if let Some(row) = self.class_row(FREE) {
            let mut next = self;
            next.classes[row] = class_for(caller);
            return next.done(self.list[row], 16384);
        }
        if caller == 1 || self.shares() {
            return self.refuse(Answer::NoSegment);
        }
        let edge = self.exos_boundary();
        if edge == 0 {
            return self.refuse(Answer::NoSegment);
        }
        let last = self.last_row();
        let mut next = self;
        next.classes[last] = SHARED;
        next.user = edge;
        Outcome {
            answer: Answer::Shared(self.list[last], edge),
            tables: next,
            moved: 0,
        }
    }

    // A segment given back by the user (0) or a device (1).
    pub fn free(self, ram: &[u8], caller: u8, segment: u8) -> Outcome
        ensures { (out : List ℕ) → result_of result ram.now out ≡ step self ram.now (calls.free caller segment) out }
    {
        if !self.is_ready(ram.len()) {
            return self.refuse(Answer::BadTables);
        }
        self.free_good(caller, segment)
    }

    pub fn free_good(self, caller: u8, segment: u8) -> Outcome
        requires { Good self }
        ensures { (ram out : List ℕ) → result_of result ram out ≡ completed self (on_free self caller segment) ram out }
    {
        if 1 < caller {
            return self.refuse(Answer::BadCall);
        }
        let Some(row) = self.segment_row(segment) else {
            return self.refuse(Answer::NotOwner);
        };
        let class = self.classes[row];
        let mut next = self;
        if class == class_for(caller) {
            next.classes[row] = FREE;
            return next.done(0, 0);
        }
        if caller == 0 && class == SHARED {
            next.classes[row] = SYSTEM;
            next.user = 0;
            return next.done(0, 0);
        }
        self.refuse(Answer::NotOwner)
    }

    // The counts of free, user, system, device and shared segments.
    fn counts(&self) -> [u8; 5]
        requires { self.now.segments ≤ 32 }
        ensures { result ≡ counts_of self.now }
    {
        [
            self.count(FREE),
            self.count(USER),
            self.count(SYSTEM),
            self.count(DEVICE),
            self.count(SHARED),
        ]
    }

    // The counts of the classes, to the output.
    pub fn status(self, ram: &[u8], out: &mut [u8]) -> Outcome
        ensures { result_of result ram.now out.new ≡ step self ram.now calls.status out.old }
    {
        if !self.is_ready(ram.len()) {
            return self.refuse(Answer::BadTables);
        }
        self.status_good(out)
    }

    pub fn status_good(self, out: &mut [u8]) -> Outcome
        requires { Good self }
        ensures { (ram : List ℕ) → result_of result ram out.new ≡ completed self (on_status self (length out.old)) ram out.old }
    {
        if out.len() < 5 {
            return self.refuse(Answer::BadRange);
        }
        out[..5].copy_from_slice(&self.counts());
        self.done(0, 5)
    }
}

// The class that a caller's segment has: user for 0, device for 1.
fn class_for(caller: u8) -> u8
    ensures { result ≡ class_for caller }
{
    if caller == 0 { USER } else { DEVICE }
}
