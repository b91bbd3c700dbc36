// The tables to their image and back.
ghost use Rattle.std.specs.Prelude.{◌≡◌, length};
ghost use Rattle.image.specs.Definition.Offsets.{SEGMENTS, USER, OPENED, NAME, SIZE};
ghost use Rattle.image.specs.Within.{Stands, Lays};
ghost use Rattle.image.specs.Definition.Image.{segment_bytes, boundary_bytes, row_bytes, default_bytes, image_of, tables_of};

use super::fields::{Field, put_all, read_all, run_at};
use super::offsets;
use events::fields::u16_at;
use kernel::Tables;
use rows::channels::NO_CHANNEL;
use rows::devices::NO_DEVICE;
use text::Cursor;

fn put_segments(t: &Tables, to: &mut Cursor)
    requires { Stands to.old SEGMENTS }
    ensures { Lays to.old to.new (segment_bytes t.now) USER }
{
    to.put(t.segments);
    to.put_run(&t.list);
    to.put_run(&t.classes);
    to.put(t.held);
    to.put_run(&t.chain);
}

fn put_boundaries(t: &Tables, to: &mut Cursor)
    requires { Stands to.old USER }
    ensures { Lays to.old to.new (boundary_bytes t.now) OPENED }
{
    t.user.put(to);
    t.room.put(to);
    t.cold.put(to);
}

fn put_rows(t: &Tables, to: &mut Cursor)
    requires { Stands to.old OPENED }
    ensures { Lays to.old to.new (row_bytes t.now) NAME }
{
    to.put(t.opened);
    put_all(&t.channels, to);
    to.put(t.known);
    put_all(&t.devices, to);
}

fn put_default(t: &Tables, to: &mut Cursor)
    requires { Stands to.old NAME }
    ensures { Lays to.old to.new (default_bytes t.now) SIZE }
{
    to.put_run(&t.name);
    to.put_run(&[t.length, t.unit]);
}

// The image of the tables.
pub fn encode(t: &Tables, image: &mut [u8])
    requires { length image.old ≡ SIZE }
    ensures { image.new ≡ image_of t.now }
{
    let mut to = Cursor {
        text: image,
        at: offsets::SEGMENTS,
    };
    put_segments(t, &mut to);
    put_boundaries(t, &mut to);
    put_rows(t, &mut to);
    put_default(t, &mut to);
}

// The tables that an image holds.
pub fn decode(image: &[u8]) -> Tables
    requires { length image.now ≡ SIZE }
    ensures { result ≡ tables_of image.now }
{
    let mut channels = [NO_CHANNEL; 32];
    read_all(image, offsets::CHANNELS, &mut channels);
    let mut devices = [NO_DEVICE; 16];
    read_all(image, offsets::DEVICES, &mut devices);
    Tables {
        segments: image[offsets::SEGMENTS],
        list: run_at(image, offsets::LIST),
        classes: run_at(image, offsets::CLASSES),
        held: image[offsets::HELD],
        chain: run_at(image, offsets::CHAIN),
        user: u16_at(image, offsets::USER),
        room: u16_at(image, offsets::ROOM),
        cold: u16_at(image, offsets::COLD),
        opened: image[offsets::OPENED],
        channels,
        known: image[offsets::KNOWN],
        devices,
        name: run_at(image, offsets::NAME),
        length: image[offsets::LENGTH],
        unit: image[offsets::UNIT],
    }
}
