// The kernel of document 01, with the orders of document 02 that have landed: its tables, its answers and its calls.
#![tactic(auto)]

use rows::{Channel, Device};

pub mod answers; // the numbers and values of the answers, and a refusal
mod places; // where channels, segments and records stand
pub mod good; // the test for good tables
pub mod grow; // how the chain grows, the EXOS boundary, and the room rule
pub mod shrink; // how the chain gives segments up
pub mod start; // start
pub mod reset; // reset
pub mod open; // open
pub mod close; // close
pub mod bytes; // read, write, store, load, and a buffer lent on
pub mod loader; // load module
pub mod default; // default
pub mod link; // link
pub mod segments; // boundary, set user boundary, allocate, free, status

// Each call stands twice: one tests its tables, the other, `_good`, asks that they are good. That is a clause and no type: 01 wants
// the calls as methods of `Tables`, and docs/PROMISES.md names both kinds.

// What every call takes and hands back. Unused rows and bytes are zero. Arrays stand with their counts: a call tests any tables, and the image
// has every row.
#[derive(Clone, Copy)]
pub struct Tables {
    // The RAM list: how many segments, and their numbers.
    pub segments: u8,
    pub list: [u8; 32],
    // The class of the segment in each row of the list.
    pub classes: [u8; 32],
    // The system chain, as rows of the list: how many it holds, and which.
    pub held: u8,
    pub chain: [u8; 32],
    // The user boundary, in bytes.
    pub user: u16,
    // R and the cold R, in bytes.
    pub room: u16,
    pub cold: u16,
    // The open channels, in line order.
    pub opened: u8,
    pub channels: [Channel; 32],
    // The devices, in linking order.
    pub known: u8,
    pub devices: [Device; 16],
    // The default name with its length and its unit.
    pub name: [u8; 28],
    pub length: u8,
    pub unit: u8,
}

// The answers of documents 01 and 02, in the order of their numbers.
#[derive(Clone, Copy)]
pub enum Answer {
    Done(u8, u16), // 0
    BadTables, // 1 TABLES
    BadCall, // 2 CALL
    NoChannel, // 3 CHANNEL
    Exists, // 4 EXISTS
    BadName, // 5 NAME
    NoDevice, // 6 DEVICE
    Driver(u8), // 7 DRIVER
    Full, // 8 FULL
    NoRoom, // 9 ROOM
    NoSegment, // 10 SEGMENT
    NotOwner, // 11 OWNER
    BadBoundary, // 12 BOUNDARY
    BadRange, // 13 RANGE
    Guarded, // 14 GUARD
    BadFlags, // 15 FLAGS
    BadStart, // 16 START
    Shared(u8, u16), // 17 SHARED
    BadModule, // 19 MODULE
    BadPage, // 20 PAGE
}

// The answer with the next tables, and how many record bytes the call moved: of a close or a link, and else 0.
#[derive(Clone, Copy)]
pub struct Outcome {
    pub answer: Answer,
    pub tables: Tables,
    pub moved: u32,
}

// What a string of open means: a device's name in 28 bytes with its length, and a unit.
#[derive(Clone, Copy)]
pub struct Wanted {
    pub name: [u8; 28],
    pub length: u8,
    pub unit: u8,
}
