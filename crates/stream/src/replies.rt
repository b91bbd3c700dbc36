// What a request brings, and the reply to it.
ghost use Rattle.std.specs.Prelude.{◌≡◌, ◌+◌, ◌≤◌, ◌<◌, length};
ghost use Rattle.kernel.specs.Definition.Step.{result_of};
ghost use Rattle.text.specs.Definition.Put.{Puts, Room};
ghost use Rattle.image.specs.Definition.Image.{image_of};
ghost use Rattle.stream.specs.Definition.Digest.{digest_of};
ghost use Rattle.stream.specs.Definition.Numbers.{u32_at};
ghost use Rattle.stream.specs.Definition.Requests.{RAM, CALL};
ghost use Rattle.stream.specs.Definition.Replies.{Replied, Brought, channel_in, lent_bytes, reply_bytes};

use super::Machine;
use super::asked::ask;
use super::bytes::u32_at;
use super::digest::digest;
use super::fill::fill;
use super::requests::{IMAGE, RAM, SEED};
use image::fields::Field;
use image::offsets::SIZE;
use image::put_outcome;
use image::tables::{decode, encode};
use kernel::{Outcome, Tables};
use text::Cursor;

fn image_digest(t: &Tables) -> u64
    ensures { result ≡ digest_of (image_of t.now) }
{
    let mut image = [0; SIZE];
    encode(t, &mut image);
    digest(&image)
}

// A record's third byte.
fn channel_in(record: &[u8]) -> u8
    ensures { result ≡ channel_in «record».now }
{
    record.get(2).copied().unwrap_or(0)
}

// Where a channel's buffer is lent on, and its digest.
fn put_lent(t: &Tables, ram: &[u8], channel: u8, to: &mut Cursor)
    requires { Room to.old 16 }
    ensures { Puts to.old to.new (lent_bytes t.now ram.now channel) × (to.new.at ≡ to.old.at + 16) }
{
    let start = t.lent(ram, channel).unwrap_or(0) as u64;
    start.put(to);
    digest(t.lend(ram, channel)).put(to);
}

// The answer and the bytes moved, the digests of the image, of the RAM and of the output, and a channel's buffer lent on.
fn put_reply(o: &Outcome, ram: &[u8], out: &[u8], channel: u8, to: &mut Cursor)
    requires { Room to.old 50 }
    ensures { Puts to.old to.new (reply_bytes (result_of o.now ram.now out.now) channel) × (to.new.at ≡ to.old.at + 50) }
{
    put_outcome(o.answer, o.moved, to);
    image_digest(&o.tables).put(to);
    digest(ram).put(to);
    digest(out).put(to);
    put_lent(&o.tables, ram, channel, to);
}

// What comes of a record on an output that is all 165: the next tables, and 50 bytes of reply.
pub fn reply(
    first: u8,
    t: Tables,
    ram: &mut [u8],
    record: &[u8],
    out: &mut [u8],
    to: &mut Cursor,
) -> Tables
    requires { (2 ≤ length «record».now) × (length out.old < 65536) × Room to.old 50 }
    ensures { Replied first t ram.old «record».now out.old to.old result ram.new out.new to.new }
{
    out.fill(165);
    let o = ask(first, t, ram, record, out);
    put_reply(&o, ram, out, channel_in(record), to);
    o.tables
}

// The tables of an image, and a RAM by its length and a seed.
pub fn bring(ram: &mut [u8], bytes: &[u8]) -> Machine
    requires { (CALL ≤ length bytes.now) × (u32_at bytes.now RAM ≤ length ram.old) }
    ensures { Brought ram.old bytes.now result ram.new }
{
    let size = u32_at(bytes, RAM) as usize;
    fill(&mut ram[..size], u32_at(bytes, SEED));
    Machine {
        tables: decode(&bytes[IMAGE..RAM]),
        size,
    }
}
