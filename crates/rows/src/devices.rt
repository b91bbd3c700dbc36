// The rows of devices, and names: 28 bytes, of which the first n count, as the tables hold them.
ghost use Rattle.std.specs.Prelude.{◌≡◌, map, ◌+◌, length, slice_range};
ghost use Rattle.std.specs.List.{list_all, enumerate_from};
ghost use Rattle.rows.specs.Definition.Lists.{up_to};
ghost use Rattle.rows.specs.Definition.Channels.{found_at};
ghost use Rattle.rows.specs.Definition.Devices.{new_device, built_in, same_bytes, same_name, disabled_by, has_name, device_in};
ghost use Rattle.rows.specs.Definition.Tests.{letter_row, name_test, default_test, empty_device, lacks_name, device_fits, built_test, device_test};

use super::Device;
use super::segments::zeros;

const VIDEO: [u8; 28] = *b"VIDEO\0\0\0\0\0\0\0\0\0\0\0\0\0\0\0\0\0\0\0\0\0\0\0";

const NET: [u8; 28] = *b"NET\0\0\0\0\0\0\0\0\0\0\0\0\0\0\0\0\0\0\0\0\0\0\0\0\0";

const KEYBOARD: [u8; 28] = *b"KEYBOARD\0\0\0\0\0\0\0\0\0\0\0\0\0\0\0\0\0\0\0\0";

// An unused row.
pub const NO_DEVICE: Device = Device {
    name: [0; 28],
    length: 0,
    enabled: false,
};

// An enabled device of this name.
pub fn new_device(name: [u8; 28], n: u8) -> Device
    ensures { result ≡ new_device name n }
{
    Device {
        name,
        length: n,
        enabled: true,
    }
}

// The devices that are built in, and unused rows behind them.
pub fn built_in() -> [Device; 16]
    ensures { result ≡ built_in }
{
    let mut rows = [NO_DEVICE; 16];
    rows[0] = new_device(VIDEO, 5);
    rows[1] = new_device(NET, 3);
    rows[2] = new_device(KEYBOARD, 8);
    rows
}

// Each byte is asked, with no way out before the last, so that many are asked at once.
fn same_bytes(a: &[u8; 28], b: &[u8; 28]) -> bool
    ensures { result ≡ up_to 28 (same_bytes a.now b.now) }
{
    let mut same = true;
    for k in 0..28 {
        same &= a[k] == b[k];
    }
    same
}

impl Device {
    fn is_named(&self, name: &[u8; 28], n: u8) -> bool
        ensures { result ≡ same_name self.now.name self.now.length name.now n }
    {
        self.length == n && same_bytes(&self.name, name)
    }

    // Enabled and so named. The empty name is no device's.
    fn answers_to(&self, name: &[u8; 28], n: u8) -> bool
        ensures { result ≡ has_name name.now n self.now }
    {
        0 < n && self.enabled && self.is_named(name, n)
    }

    fn is_empty(&self) -> bool
        ensures { result ≡ empty_device self.now }
    {
        *self == NO_DEVICE
    }

    // It has a name, and is enabled exactly if no later device has its name.
    fn fits(&self, later: &[Device]) -> bool
        ensures { result ≡ device_fits self.now later.now }
    {
        1 <= self.length
            && name_test(&self.name, self.length)
            && self.enabled == lacks_name(later, self)
    }
}

// Where the first enabled device of this name stands.
pub fn device_row(devices: &[Device], name: &[u8; 28], n: u8) -> Option<usize>
    ensures { result ≡ found_at (device_in devices.now name.now n) (length devices.now) }
{
    devices.iter().position(|d| d.answers_to(name, n))
}

// Each device of this name is disabled.
pub fn disable(devices: &mut [Device; 16], name: &[u8; 28], n: u8)
    ensures { devices.new ≡ map (disabled_by name.now n) devices.old }
{
    for d in devices {
        if d.is_named(name, n) {
            d.enabled = false;
        }
    }
}

// Each byte is asked, as in `same_bytes`.
fn letters(name: &[u8; 28], n: u8) -> bool
    ensures { result ≡ up_to 28 (letter_row name.now n) }
{
    let mut ok = true;
    for i in 0..28 {
        let c = name[usize::from(i)];
        ok &= ((n <= i) & (c == 0)) | ((i < n) & (65 <= c) & (c <= 90));
    }
    ok
}

// A capital below the length, zero from it on.
fn name_test(name: &[u8; 28], n: u8) -> bool
    ensures { result ≡ name_test name.now n }
{
    n <= 28 && letters(name, n)
}

pub fn default_test(name: &[u8; 28], n: u8, unit: u8) -> bool
    ensures { result ≡ default_test name.now n unit }
{
    name_test(name, n) && (0 < n || unit == 0)
}

fn unused(devices: &[Device]) -> bool
    ensures { result ≡ list_all empty_device devices.now }
{
    devices.iter().all(|d| d.is_empty())
}

fn lacks_name(devices: &[Device], d: &Device) -> bool
    ensures { result ≡ lacks_name devices.now d.now }
{
    devices.iter().all(|e| !e.is_named(&d.name, d.length))
}

// First come the devices that are built in.
fn built_test(devices: &[Device; 16]) -> bool
    ensures { result ≡ built_test devices.now }
{
    devices[0].is_named(&VIDEO, 5)
        && devices[1].is_named(&NET, 3)
        && devices[2].is_named(&KEYBOARD, 8)
}

fn devices_fine(devices: &[Device]) -> bool
    ensures { result ≡ list_all (λ x. device_fits x.1 (slice_range devices.now (x.0 + 1) (length devices.now))) (enumerate_from 0 devices.now) }
{
    devices
        .iter()
        .enumerate()
        .all(|(i, d)| d.fits(&devices[i + 1..]))
}

pub fn device_test(devices: &[Device; 16], known: usize) -> bool
    ensures { result ≡ device_test devices.now known }
{
    3 <= known
        && known <= 16
        && built_test(devices)
        && devices_fine(&devices[..known])
        && unused(&devices[known..])
}
