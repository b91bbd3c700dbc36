// The audit: a maker's log, event records each followed by a reply, to a verdict.
#![tactic(auto)]

use kernel::{Answer, Tables};

pub mod replies; // one reply record against the definition's reply
pub mod records; // one record, where it stands
pub mod buffers; // the records of a buffer
pub mod logs; // where the input ends, and a whole log
pub mod words; // a verdict as a line of text

// Why a record is at fault.
#[derive(Clone, Copy)]
pub enum Word {
    Start,
    Cut,
    Answer,
    A,
    B,
    Bytes,
}

// A record at fault: its number, events and replies counted together from 0, and why.
#[derive(Clone, Copy)]
pub struct Fault {
    pub number: usize,
    pub word: Word,
}

// A log is accepted, or this record is the first at fault.
pub type Verdict = Result<(), Fault>;

// What the next record must be: the start, an event, or the reply to an event of this kind that the definition gives this answer.
#[derive(Clone, Copy)]
pub enum Due {
    Start,
    Event,
    Reply(u16, Answer),
}

// What one record leaves: whether it is right, or why it is at fault, and, where it is right, the tables and what is due next.
#[derive(Clone, Copy)]
pub struct After {
    pub tables: Tables,
    pub due: Due,
    pub found: Result<(), Word>,
}

// What the records of a buffer leave: whether they stop for more input, or why one is at fault, the number of the record where they stop and, where more input
// is wanted, the tables, what is due and how much of the input is taken.
#[derive(Clone, Copy)]
pub struct Judged {
    pub tables: Tables,
    pub due: Due,
    pub number: usize,
    pub taken: usize,
    pub stop: Result<(), Word>,
}
