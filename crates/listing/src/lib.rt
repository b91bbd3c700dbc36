// The listing: a log of event records to text.
#![tactic(auto)]

use kernel::Tables;

pub mod lines; // one record's line, and `bad`
pub mod records; // one record: its call and its line
pub mod buffers; // the lines of a buffer
pub mod pieces; // a log read in pieces, and a whole log
pub mod ends; // how a listing ends, and the byte that tells it

// The most bytes of a line: four numbers of at most five digits, four spaces and a newline, and two digits for each of the 4,096 bytes of output.
const LONGEST: usize = 25 + 2 * 4096;

// Why the lines of a buffer stop: more input is wanted, the text is full, or the log is bad.
#[derive(Clone, Copy)]
pub enum Stop {
    More,
    Full,
    Bad,
}

// What the lines of a buffer leave: the tables, how much of the input is taken, how much of the text is used, and why they stop.
#[derive(Clone, Copy)]
pub struct Drained {
    pub tables: Tables,
    pub taken: usize,
    pub used: usize,
    pub stop: Stop,
}

// Why a listing ends before every record is listed: the log is bad, a read failed, a write failed, or the reader of the text has ended.
#[derive(Clone, Copy)]
pub enum Failure {
    BadLog,
    ReadFailed,
    WriteFailed,
    ReaderEnded,
}
