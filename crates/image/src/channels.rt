// A row of channels.
ghost use Rattle.image.specs.Definition.Offsets.{CHANNEL};
ghost use Rattle.image.specs.Definition.Image.{channel_bytes, channel_from};
ghost use Rattle.image.specs.Laws.Rows.{channel_told};

use super::fields::{Field, Row};
use super::offsets;
use events::fields::u16_at;
use rows::Channel;
use text::Cursor;

impl Field for Channel {
    const SIZE: usize = offsets::CHANNEL;

    ghost SIZE = { CHANNEL };

    ghost bytes = { channel_bytes };

    fn put(self, to: &mut Cursor) {
        to.put_run(&[self.number, self.device, self.unit]);
        self.n.put(to);
    }
}

impl Row for Channel {
    ghost from = { channel_from };

    fn read(image: &[u8], at: usize) -> Channel {
        Channel {
            number: image[at],
            device: image[at + offsets::CHANNEL_DEVICE],
            unit: image[at + offsets::CHANNEL_UNIT],
            n: u16_at(image, at + offsets::CHANNEL_N),
        }
    }

    ghost told = { channel_told };
}
