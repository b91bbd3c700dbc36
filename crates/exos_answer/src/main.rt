// Answers a stream of calls and of lists for the writer of modules: requests on standard input, replies on standard output. What fails it says on standard error.
#![tactic(auto)]

ghost use Rattle.std.specs.Prelude.{◌≡◌, ◌+◌, ◌≤◌, length, IfOk, Ok};
ghost use Rattle.text.specs.Definition.Put.{Room};
ghost use Rattle.stream.specs.Definition.Requests.{Brings, LiesIn};
ghost use Rattle.exos_answer.specs.Within.{Ready};

use files::{ReadFailed, Unwritten, keep, read_from, write_to};
use kernel::Tables;
use stream::replies::{bring, reply};
use stream::requests::request;
use stream::{Machine, NoRequest, Request};
use text::Cursor;

// What is carried from turn to turn: the tables and the length of their RAM; where the bytes that are read and not yet answered start and end; how many
// bytes of replies wait.
#[derive(Clone, Copy)]
pub struct State {
    pub machine: Machine,
    pub from: usize,
    pub filled: usize,
    pub used: usize,
}

// Why a run ends: the input is over or has a bad request; or a read or a write failed, or the reader of the replies has ended.
#[derive(Clone, Copy)]
enum End {
    InputOver,
    BadRequest,
    ReadFailed,
    WriteFailed,
    ReaderEnded,
}

impl From<ReadFailed> for End {
    fn from(_failed: ReadFailed) -> End {
        End::ReadFailed
    }
}

// exos_audit has the like: one type of the three ends is no plainer, since this program has more ends and would wrap it.
impl From<Unwritten> for End {
    fn from(why: Unwritten) -> End {
        match why {
            Unwritten::Failed(_) => End::WriteFailed,
            Unwritten::Closed(_) => End::ReaderEnded,
        }
    }
}

// The tables and the RAM that a request goes on with.
fn renewed(h: Machine, ram: &mut [u8; 524288], bytes: &[u8]) -> Machine
    requires { (h.size ≤ 524288) × (1 ≤ length bytes.now) × Brings bytes.now }
    ensures { result.size ≤ 524288 }
{
    if bytes[0] != 1 {
        return h;
    }
    bring(ram, bytes)
}

// Answers a whole request: 50 bytes of reply.
fn answer(
    h: Machine,
    q: Request,
    ram: &mut [u8; 524288],
    bytes: &[u8],
    out: &mut [u8; 65535],
    to: &mut Cursor,
) -> Machine
    requires { (h.size ≤ 524288) × LiesIn bytes.now (Ok q) × Room to.old 50 }
    ensures { (result.size ≤ 524288) × (to.new.text.ghost_name ≡ to.old.text.ghost_name) × (to.new.at ≡ to.old.at + 50) }
{
    let h = renewed(h, ram, bytes);
    let tables = reply(
        bytes[0],
        h.tables,
        &mut ram[..h.size],
        &bytes[q.start..q.end],
        &mut out[..q.out],
        to,
    );
    Machine { tables, ..h }
}

// Writes the replies that wait.
fn flush(rt: &HostRuntime, s: State, text: &[u8; 65536]) -> Result<State, End>
    requires { Ready s }
    ensures { IfOk result Ready }
{
    write_to(&mut rt.stdout(), &text[..s.used])?;
    Ok(State { used: 0, ..s })
}

// Reads on, with the bytes that are left moved to the start.
fn refill(rt: &HostRuntime, s: State, buf: &mut [u8; 131072]) -> Result<State, End>
    requires { Ready s }
    ensures { IfOk result Ready }
{
    let left = s.filled - s.from;
    keep(buf, s.from, left);
    let got = read_from(&mut rt.stdin(), &mut buf[left..])?;
    if got == 0 {
        return Err(End::InputOver);
    }
    Ok(State {
        from: 0,
        filled: left + got,
        ..s
    })
}

// Answers the next request of the buffer, or writes the replies and reads on.
fn turn(
    rt: &HostRuntime,
    s: State,
    ram: &mut [u8; 524288],
    out: &mut [u8; 65535],
    buf: &mut [u8; 131072],
    text: &mut [u8; 65536],
) -> Result<State, End>
    requires { Ready s }
    ensures { IfOk result Ready }
{
    if 65536 < s.used + 50 {
        return flush(rt, s, text);
    }
    let bytes = &buf[s.from..s.filled];
    match request(bytes) {
        Ok(q) => {
            let mut to = Cursor { text, at: s.used };
            let machine = answer(s.machine, q, ram, bytes, out, &mut to);
            Ok(State {
                machine,
                from: s.from + q.end,
                used: to.at,
                ..s
            })
        }
        Err(NoRequest::Part) => refill(rt, flush(rt, s, text)?, buf),
        Err(NoRequest::Bad) => {
            flush(rt, s, text)?;
            Err(End::BadRequest)
        }
    }
}

// Makes turns until one ends the run. Nothing says that the input ends, so they are counted: there are more than any input takes.
fn run(rt: &HostRuntime) -> Result<(), End> {
    let mut ram = [0u8; 524288];
    let mut out = [0u8; 65535];
    let mut buf = [0u8; 131072];
    let mut text = [0u8; 65536];
    let mut s = State {
        machine: Machine {
            tables: Tables::none(),
            size: 0,
        },
        from: 0,
        filled: 0,
        used: 0,
    };
    for _ in 0..u64::MAX {
        s = turn(rt, s, &mut ram, &mut out, &mut buf, &mut text)?;
    }
    Ok(())
}

// Says what failed.
fn say(rt: &HostRuntime, end: End) {
    let text = match end {
        End::InputOver | End::BadRequest => return,
        End::ReadFailed => b"exos_answer: standard input could not be read\n".as_slice(),
        End::WriteFailed => b"exos_answer: standard output could not be written\n".as_slice(),
        End::ReaderEnded => b"exos_answer: the reader of standard output has ended\n".as_slice(),
    };
    let _ = write_to(&mut rt.stderr(), text);
}

fn main(rt: HostRuntime) {
    if let Err(end) = run(&rt) {
        say(&rt, end);
    }
}
