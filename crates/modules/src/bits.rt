// What is held of the stream, bits of it, and how many an item wants.
ghost use Rattle.std.specs.Prelude.{◌≡◌, ◌/◌, ◌%◌, ◌^◌, ◌<◌, ◌≤◌, slice_index};
ghost use Rattle.modules.specs.Within.Codes.{wants};
ghost use Rattle.modules.specs.Within.Windows.{Window};

// The byte at an index, or zero behind the last.
fn byte_at(stream: &[u8], i: usize) -> u8
    ensures { result ≡ slice_index stream.now i }
{
    stream.get(i).copied().unwrap_or(0)
}

// Four bytes from an index on, as one number, zero behind the last.
pub fn window(stream: &[u8], i: usize) -> usize
    requires { i ≤ 65535 }
    ensures { Window stream.now i result × (result < 4294967296) }
{
    u32::from_be_bytes([
        byte_at(stream, i),
        byte_at(stream, i + 1),
        byte_at(stream, i + 2),
        byte_at(stream, i + 3),
    ]) as usize
}

// `count` bits of a window, with `low` behind them.
pub fn bits_of(window: usize, low: usize, count: usize) -> usize
    requires { (low ≤ 32) × (count ≤ 16) }
    ensures { (result ≡ window / 2 ^ low % 2 ^ count) × (result < 65536) }
{
    (window >> low) % (1 << count)
}

// How many bits an item wants, once its bits so far, three at least, are `code` behind a leading 1.
#[tactic(auto, unfolding(crate::specs::Within::Codes::wants))]
pub fn wanted(code: usize) -> usize
    ensures { result ≡ wants code 0 }
{
    // a byte's code goes first: one match of all codes is slower by a fifth
    if code < 12 {
        return 6;
    }
    match code {
        12 => 16,
        13 | 52 => 2,
        54 | 55 => 15,
        _ => 0,
    }
}
