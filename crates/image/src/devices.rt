// A row of devices.
ghost use Rattle.image.specs.Definition.Offsets.{DEVICE};
ghost use Rattle.image.specs.Definition.Image.{device_bytes, device_from};
ghost use Rattle.image.specs.Within.{Named};
ghost use Rattle.image.specs.Laws.Rows.{device_told};

use super::fields::{Field, Row, run_at};
use super::offsets;
use rows::Device;
use text::Cursor;

impl Field for Device {
    const SIZE: usize = offsets::DEVICE;

    ghost SIZE = { DEVICE };

    ghost bytes = { device_bytes };

    fn put(self, to: &mut Cursor) {
        to.put_run(&self.name);
        to.put_run(&[self.length, u8::from(self.enabled)]);
    }
}

impl Row for Device {
    ghost from = { device_from };

    ghost Full = { Named };

    fn read(image: &[u8], at: usize) -> Device {
        Device {
            name: run_at(image, at),
            length: image[at + offsets::DEVICE_LENGTH],
            enabled: image[at + offsets::DEVICE_ENABLED] != 0,
        }
    }

    ghost told = { device_told };
}
