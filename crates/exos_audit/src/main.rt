// The auditing program: reads a maker's log from standard input, prints the verdict, and tells on descriptor 3 how it ended.
#![tactic(auto)]

ghost use Rattle.std.specs.Prelude.{◌≡◌, ◌+◌, ◌≤◌, ◌<◌, ◌^◌};
ghost use Rattle.files.specs.Definition.Outcomes.{Got, Wrote};
ghost use Rattle.audit.specs.Definition.Words.{line_of};
ghost use Rattle.exos_audit.specs.Definition.Turns.{Held, in_hand, course_of, is_going, Fetched, Turned};
ghost use Rattle.exos_audit.specs.Definition.Ends.{failure_of, end_of, told, byte_of};

use audit::buffers::judge;
use audit::logs::end;
use audit::words::put_verdict;
use audit::{Due, Fault, Verdict, Word};
use files::{ReadFailed, TOLD, Unwritten, read_on, write_named, write_to};
use kernel::Tables;
use text::Cursor;

// The most turns, 2^47: so few that the number of a record fits 64 bits (docs/DECISIONS.md, 76).
const TURNS: u64 = 1 << 47;

// How the run goes on: with a turn, or the input is over, or a read failed, or a record is at fault.
#[derive(Clone, Copy)]
pub enum Course {
    Going,
    Over,
    Broken,
    Faulted(Word),
}

// What is carried from turn to turn: the tables, what is due, the next record's number, the part of the buffer that is not yet judged, and how the run goes on.
#[derive(Clone, Copy)]
pub struct State {
    pub tables: Tables,
    pub due: Due,
    pub number: usize,
    pub from: usize,
    pub filled: usize,
    pub course: Course,
}

// Why no verdict is printed: a read or a write failed, or the reader of the verdict has ended.
#[derive(Clone, Copy)]
pub enum Failure {
    ReadFailed,
    WriteFailed,
    ReaderEnded,
}

// exos_answer and exos_module have the like: one type of these three ends is no plainer, since those programs have more ends and would wrap it.
impl From<Unwritten> for Failure {
    ghost from_gives = { λ why failure. failure ≡ failure_of why };

    fn from(why: Unwritten) -> Failure {
        match why {
            Unwritten::Failed(_) => Failure::WriteFailed,
            Unwritten::Closed(_) => Failure::ReaderEnded,
        }
    }
}

// How the run goes on after a read.
fn course_of(got: Result<usize, ReadFailed>) -> Course
    ensures { result ≡ course_of got }
{
    match got {
        Ok(0) => Course::Over,
        Ok(_) => Course::Going,
        Err(_) => Course::Broken,
    }
}

// Keeps what is left of the buffer, and reads on.
// exos_list has its like: one for both is no plainer, since what they share is `read_on`, and the State and the Course are each program's own.
fn fetch(rt: &HostRuntime, s: State, buf: &mut [u8; 69634]) -> State
    requires { Held s 69634 × (s.filled < s.from + 69634) }
    ensures { ((got : Got) × Fetched (in_hand s buf.old) result buf.new got) × (result.tables ≡ s.tables) × (result.due ≡ s.due) × (result.number ≡ s.number) × Held result 69634 }
{
    let left = s.filled - s.from;
    let got = read_on(&mut rt.stdin(), buf, s.from, s.filled);
    State {
        from: 0,
        filled: left + got.unwrap_or(0),
        course: course_of(got),
        ..s
    }
}

// Judges the records of what is in the buffer, which has room for 64 KiB behind the longest record, and reads on where one is not whole.
fn turn(
    rt: &HostRuntime,
    s: State,
    ram: &mut [u8; 65536],
    out: &mut [u8; 4090],
    buf: &mut [u8; 69634],
) -> State
    requires { Held s 69634 × (s.number + 69634 < 2 ^ 64) }
    ensures { Turned s ram.old out.old buf.old result ram.new out.new buf.new × Held result 69634 × (result.number ≤ s.number + 69634) }
{
    let j = judge(s.tables, s.due, s.number, ram, out, &buf[s.from..s.filled]);
    let start = s.from + j.taken;
    let next = State {
        tables: j.tables,
        due: j.due,
        number: j.number,
        from: start,
        ..s
    };
    match j.stop {
        Ok(()) => fetch(rt, next, buf),
        Err(word) => State {
            course: Course::Faulted(word),
            ..next
        },
    }
}

// Whether there is a turn to make.
fn is_going(s: State) -> bool
    ensures { result ≡ is_going s.course }
{
    matches!(s.course, Course::Going)
}

// Writes the line that is a verdict's, and hands back how that ended.
fn hand(rt: &HostRuntime, line: &[u8], verdict: Verdict) -> Result<Verdict, Failure>
    requires { line.now ≡ line_of verdict }
    ensures { (wrote : Wrote) × (result ≡ end_of verdict wrote) }
{
    write_to(&mut rt.stdout(), line)?;
    Ok(verdict)
}

// Prints a verdict.
#[tactic(auto, using(text::specs::Laws::Text::handed))]
fn print(rt: &HostRuntime, verdict: Verdict) -> Result<Verdict, Failure>
    ensures { (wrote : Wrote) × (result ≡ end_of verdict wrote) }
{
    let mut text = [0u8; 28];
    let mut to = Cursor {
        text: &mut text,
        at: 0,
    };
    put_verdict(verdict, &mut to);
    let n = to.at;
    hand(rt, &text[..n], verdict)
}

// How the run ends, once its verdict, if it has one, is printed.
fn last(rt: &HostRuntime, s: State) -> Result<Verdict, Failure>
    requires { s.from ≤ s.filled }
    ensures { (wrote : Wrote) × (result ≡ told s wrote) }
{
    match s.course {
        Course::Going | Course::Broken => Err(Failure::ReadFailed),
        Course::Over => print(rt, end(s.number, s.due, s.filled - s.from)),
        Course::Faulted(word) => print(
            rt,
            Err(Fault {
                number: s.number,
                word,
            }),
        ),
    }
}

// The byte that tells an end.
fn byte_of(end: Result<Verdict, Failure>) -> u8
    ensures { result ≡ byte_of end }
{
    match end {
        Ok(Ok(())) => b'0',
        Ok(Err(_)) => b'f',
        Err(Failure::ReadFailed) => b'r',
        Err(Failure::WriteFailed) => b'w',
        Err(Failure::ReaderEnded) => b'p',
    }
}

// Makes turns until one ends the run: such `Turns` have the verdict on what is read (`turns-verdict` in specs/Laws/Session.antt). Nothing says that the
// input ends, so they are counted.
fn main(rt: HostRuntime) {
    let mut ram = [0u8; 65536];
    let mut out = [0u8; 4090];
    let mut buf = [0u8; 69634];
    let mut s = State {
        tables: Tables::none(),
        due: Due::Start,
        number: 0,
        from: 0,
        filled: 0,
        course: Course::Going,
    };
    for _ in 0..TURNS {
        if !is_going(s) {
            break;
        }
        s = turn(&rt, s, &mut ram, &mut out, &mut buf);
    }
    let byte = byte_of(last(&rt, s));
    let _ = write_named(&rt, TOLD, &[byte]);
}
