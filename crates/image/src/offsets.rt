// Where each field stands in an image: behind the field before it, with that one's bytes.

// In a row of channels, behind the number; and the bytes of the row.
pub const CHANNEL_DEVICE: usize = 1;

pub const CHANNEL_UNIT: usize = CHANNEL_DEVICE + 1;

pub const CHANNEL_N: usize = CHANNEL_UNIT + 1;

pub const CHANNEL: usize = CHANNEL_N + 2;

// In a row of devices, behind the name; and the bytes of the row.
pub const DEVICE_LENGTH: usize = 28;

pub const DEVICE_ENABLED: usize = DEVICE_LENGTH + 1;

pub const DEVICE: usize = DEVICE_ENABLED + 1;

// The fields of the tables, in their order; and the bytes of the image.
pub const SEGMENTS: usize = 0;

pub const LIST: usize = SEGMENTS + 1;

pub const CLASSES: usize = LIST + 32;

pub const HELD: usize = CLASSES + 32;

pub const CHAIN: usize = HELD + 1;

pub const USER: usize = CHAIN + 32;

pub const ROOM: usize = USER + 2;

pub const COLD: usize = ROOM + 2;

pub const OPENED: usize = COLD + 2;

pub const CHANNELS: usize = OPENED + 1;

pub const KNOWN: usize = CHANNELS + 32 * CHANNEL;

pub const DEVICES: usize = KNOWN + 1;

pub const NAME: usize = DEVICES + 16 * DEVICE;

pub const LENGTH: usize = NAME + 28;

pub const UNIT: usize = LENGTH + 1;

pub const SIZE: usize = UNIT + 1;
