// The numbers in a body, little-endian.
ghost use Rattle.std.specs.Prelude.{◌≡◌, ◌+◌, ◌<◌, length};
ghost use Rattle.events.specs.Definition.Records.{u16_at};

pub fn u16_at(body: &[u8], i: usize) -> u16
    requires { i + 1 < length body.now }
    ensures { result ≡ u16_at body.now i }
{
    u16::from_le_bytes([body[i], body[i + 1]])
}
