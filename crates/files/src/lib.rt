// Reads and writes that tell an end from a failure; a call that a signal interrupts is made again. And a buffer whose rest is kept while more is read.
#![tactic(auto)]

ghost use Rattle.std.specs.Prelude.{◌≡◌, ◌+◌, ◌-◌, ◌≤◌, ◌<◌, length, take, drop, IfSome};
ghost use Rattle.files.specs.declared.Unread.TheVariants.{Failed};
ghost use Rattle.files.specs.Definition.Outcomes.{Brings, Fills, ReadOn, Takes};

use std::fs::{Files, OpenOptions, metadata, symlink_metadata};
use std::io::{ErrorKind, Read, Write};
use std::os::unix::fs::FileTypeExt;

// The name of the descriptor on which a program tells how it ended (`write_named`).
pub const TOLD: &str = "/proc/self/fd/3";

// A read brought nothing, since it failed.
#[derive(Clone, Copy)]
pub struct ReadFailed;

// Why reads did not come to the end of the input: the buffer is full, or one failed.
#[derive(Clone, Copy)]
pub enum Unread {
    Full,
    Failed,
}

impl From<ReadFailed> for Unread {
    ghost from_gives = { λ _ why. why ≡ Failed };

    fn from(_failed: ReadFailed) -> Unread {
        Unread::Failed
    }
}

// Why a write took so many bytes and not all: it failed, or the reader has ended.
#[derive(Clone, Copy)]
pub enum Unwritten {
    Failed(usize),
    Closed(usize),
}

// Reads once, to the front of the buffer: so many bytes, or none where the input has ended.
pub fn read_from<R: Read>(from: &mut R, buf: &mut [u8]) -> Result<usize, ReadFailed>
    ensures { Brings (length buf.new) result }
{
    for _ in 0..u64::MAX {
        match from.read(buf) {
            Ok(n) => return Ok(n),
            Err(error) if error.kind() == ErrorKind::Interrupted => {}
            Err(_) => return Err(ReadFailed),
        }
    }
    Err(ReadFailed)
}

// Reads once, after the first `left` bytes of the buffer.
pub fn read_after<R: Read>(from: &mut R, buf: &mut [u8], left: usize) -> Result<usize, ReadFailed>
    requires { left < length buf.old }
    ensures { Brings (length buf.new - left) result × (take left buf.new ≡ take left buf.old) }
{
    read_from(from, &mut buf[left..])
}

// Moves the n bytes from index `from` to the front.
pub fn keep(buf: &mut [u8], from: usize, n: usize)
    requires { from + n ≤ length buf.old }
    ensures { (take n buf.new ≡ take n (drop from buf.old)) × (drop n buf.new ≡ drop n buf.old) }
{
    buf.copy_within(from..from + n, 0);
}

// Keeps the bytes from `start` up to `filled` at the front of the buffer, and reads once behind them.
pub fn read_on<R: Read>(
    from: &mut R,
    buf: &mut [u8],
    start: usize,
    filled: usize,
) -> Result<usize, ReadFailed>
    requires { (start ≤ filled) × (filled ≤ length buf.old) × (filled < start + length buf.old) }
    ensures { ReadOn (take (filled - start) (drop start buf.old)) (filled - start) buf.new result }
{
    let left = filled - start;
    keep(buf, start, left);
    read_after(from, buf, left)
}

// Reads until the input ends, each time behind what is there, which stays (`read_after`): how many bytes there are.
pub fn read_all<R: Read>(from: &mut R, buf: &mut [u8]) -> Result<usize, Unread>
    ensures { Fills (length buf.new) result }
{
    let mut filled: usize = 0;
    while filled < buf.len() {
        let got = read_after(from, buf, filled)?;
        if got == 0 {
            return Ok(filled);
        }
        filled += got;
    }
    Err(Unread::Full)
}

// Writes all bytes, as many at a time as a call takes.
pub fn write_to<W: Write>(to: &mut W, bytes: &[u8]) -> Result<(), Unwritten>
    ensures { Takes (length bytes.now) result }
{
    let mut done: usize = 0;
    for _ in 0..u64::MAX {
        if done == bytes.len() {
            break;
        }
        match to.write(&bytes[done..]) {
            Ok(0) => return Err(Unwritten::Failed(done)),
            Ok(n) => done += n,
            Err(error) => match error.kind() {
                ErrorKind::Interrupted => {}
                ErrorKind::BrokenPipe => return Err(Unwritten::Closed(done)),
                _ => return Err(Unwritten::Failed(done)),
            },
        }
    }
    if done < bytes.len() {
        return Err(Unwritten::Failed(done));
    }
    Ok(())
}

// Writes all bytes to what a descriptor other than the standard three has open, by its name in /proc/self/fd: that is opened anew, and a file is
// written at its end. None where nothing is written, since it is closed, can't be opened or was not opened for writing, as the name's permissions tell.
// A pipe is opened for reading too, since a named one whose reader has gone would have the program wait for another.
pub fn write_named<F: Files>(files: &F, name: &str, bytes: &[u8]) -> Option<Result<(), Unwritten>>
    ensures { IfSome result (Takes (length bytes.now)) }
{
    let link = symlink_metadata(files, name).ok()?;
    if link.permissions().readonly() {
        return None;
    }
    let is_pipe = metadata(files, name).ok()?.file_type().is_fifo();
    let mut file = OpenOptions::new()
        .read(is_pipe)
        .append(true)
        .open(files, name)
        .ok()?;
    Some(write_to(&mut file, bytes))
}
