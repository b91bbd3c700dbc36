// A stream of requests and replies, to compare two implementations: a request has a call and may bring tables and RAM, or has a list of items for the writer of modules.
#![tactic(auto)]

use kernel::Tables;

pub mod bytes; // numbers of four bytes
pub mod digest; // the digest of bytes
pub mod fill; // bytes by a seed
pub mod requests; // where a request ends
pub mod asked; // what comes of a request's record
pub mod replies; // a request's call, and the reply to it

// The tables, and the length of their RAM.
#[derive(Clone, Copy)]
pub struct Machine {
    pub tables: Tables,
    pub size: usize,
}

// A whole request: the output's length, and where the record starts and ends.
#[derive(Clone, Copy)]
pub struct Request {
    pub out: usize,
    pub start: usize,
    pub end: usize,
}

// Why bytes begin with no whole request: some of it is still to come, or it is none.
#[derive(Clone, Copy)]
pub enum NoRequest {
    Part,
    Bad,
}
