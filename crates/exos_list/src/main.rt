// The listing program: reads event records from standard input, prints a line a record, and tells on descriptor 3 how it ended.
#![tactic(auto)]

ghost use Rattle.std.specs.Prelude.{◌≡◌, ◌+◌, ◌-◌, ◌≤◌, ◌<◌};
ghost use Rattle.files.specs.Definition.Outcomes.{Got, Wrote};
ghost use Rattle.exos_list.specs.Definition.Turns.{Held, in_hand, course_of, failure_of, Fetched, Turned, told};

use files::{ReadFailed, TOLD, Unwritten, read_on, write_named, write_to};
use kernel::Tables;
use listing::buffers::drain;
use listing::ends::{byte_of, end_of};
use listing::pieces::finish;
use listing::{Failure, Stop};
use text::Cursor;

// How the run goes on: with a turn, or the input is over, or it has ended.
#[derive(Clone, Copy)]
pub enum Course {
    Going,
    Over,
    Ended(Failure),
}

// What is carried from turn to turn: the tables, the part of the buffer that is not yet listed, and how the run goes on.
#[derive(Clone, Copy)]
pub struct State {
    pub tables: Tables,
    pub from: usize,
    pub filled: usize,
    pub course: Course,
}

// How the run goes on after a read.
fn course_of(got: Result<usize, ReadFailed>) -> Course
    ensures { result ≡ course_of got }
{
    match got {
        Ok(0) => Course::Over,
        Ok(_) => Course::Going,
        Err(_) => Course::Ended(Failure::ReadFailed),
    }
}

// What a write that is not done ends with.
fn failure_of(why: Unwritten) -> Failure
    ensures { result ≡ failure_of why }
{
    match why {
        Unwritten::Failed(_) => Failure::WriteFailed,
        Unwritten::Closed(_) => Failure::ReaderEnded,
    }
}

// Keeps what is left of the buffer, and reads on.
// exos_audit has its like: one for both is no plainer, since what they share is `read_on`, and the State and the Course are each program's own.
fn fetch(rt: &HostRuntime, s: State, buf: &mut [u8; 69634]) -> State
    requires { Held s 69634 × (s.filled < s.from + 69634) }
    ensures { ((got : Got) × Fetched (in_hand s buf.old) result buf.new got) × (result.tables ≡ s.tables) × Held result 69634 }
{
    let left = s.filled - s.from;
    let got = read_on(&mut rt.stdin(), buf, s.from, s.filled);
    State {
        from: 0,
        filled: left + got.unwrap_or(0),
        course: course_of(got),
        ..s
    }
}

// Writes the lines of what is in the buffer, and reads on where a record is not whole.
fn turn(
    rt: &HostRuntime,
    s: State,
    ram: &mut [u8; 65536],
    out: &mut [u8; 4096],
    buf: &mut [u8; 69634],
    text: &mut [u8; 73728],
) -> State
    requires { Held s 69634 }
    ensures { Turned s ram.old out.old buf.old result ram.new out.new buf.new text.new × Held result 69634 }
{
    let d = drain(s.tables, ram, out, &buf[s.from..s.filled], text);
    let start = s.from + d.taken;
    let next = State {
        tables: d.tables,
        from: start,
        ..s
    };
    if let Err(why) = write_to(&mut rt.stdout(), &text[..d.used]) {
        return State {
            course: Course::Ended(failure_of(why)),
            ..next
        };
    }
    match d.stop {
        Stop::More => fetch(rt, next, buf),
        Stop::Full => State {
            course: Course::Going,
            ..next
        },
        Stop::Bad => State {
            course: Course::Ended(Failure::BadLog),
            ..next
        },
    }
}

// How the run ends, with what is still to be written.
fn last(rt: &HostRuntime, s: State) -> Result<(), Failure>
    requires { s.from ≤ s.filled }
    ensures { (wrote : Wrote) × (result ≡ told s.course (s.filled - s.from) wrote) }
{
    match s.course {
        Course::Going => Err(Failure::ReadFailed),
        Course::Ended(failure) => Err(failure),
        Course::Over => {
            let left = s.filled - s.from;
            let mut text = [0u8; 4];
            let mut to = Cursor {
                text: &mut text,
                at: 0,
            };
            finish(left, &mut to);
            let n = to.at;
            write_to(&mut rt.stdout(), &text[..n]).map_err(failure_of)?;
            end_of(left)
        }
    }
}

// The turns are those of a `Session` of listing's specs/Laws/Reading.antt (specs/Laws/Session.antt). Its `any-pieces` says that what is written
// is the listing of what is read. Nothing says that the input ends, so the turns are counted: there are more than any input takes.
fn main(rt: HostRuntime) {
    let mut ram = [0u8; 65536];
    let mut out = [0u8; 4096];
    let mut buf = [0u8; 69634];
    let mut text = [0u8; 73728];
    let mut s = State {
        tables: Tables::none(),
        from: 0,
        filled: 0,
        course: Course::Going,
    };
    for _ in 0..u64::MAX {
        if !matches!(s.course, Course::Going) {
            break;
        }
        s = turn(&rt, s, &mut ram, &mut out, &mut buf, &mut text);
    }
    let byte = byte_of(last(&rt, s));
    let _ = write_named(&rt, TOLD, &[byte]);
}
