// The rows of channels, in line order.
ghost use Rattle.std.specs.Prelude.{◌≡◌, ℕ, ◌≤◌, ◌<◌, ◌&&◌, drop, get_or, length, replicate};
ghost use Rattle.std.specs.List.{list_all, enumerate_from};
ghost use Rattle.rows.specs.Definition.Lists.{without};
ghost use Rattle.rows.specs.Definition.Channels.{zero_channel, sum_of, row_in, found_at};
ghost use Rattle.rows.specs.Definition.Tests.{empty_channel, channel_fits, channel_test};

use super::Channel;

// An unused row.
pub const NO_CHANNEL: Channel = Channel {
    number: 0,
    device: 0,
    unit: 0,
    n: 0,
};

// The length of the records.
pub fn total(channels: &[Channel]) -> usize
    requires { length channels.now ≤ 32 }
    ensures { (result ≡ sum_of channels.now) × (result ≤ 2097632) }
{
    channels.iter().map(|c| 16 + usize::from(c.n)).sum()
}

// Where a channel stands.
pub fn channel_row(channels: &[Channel], channel: u8) -> Option<usize>
    ensures { result ≡ found_at (row_in channels.now channel) (length channels.now) }
{
    channels.iter().position(|c| c.number == channel)
}

// Takes out the row at `i`: the later ones move up, and an empty row comes at the end.
pub fn remove_row(channels: &mut [Channel; 32], i: usize)
    requires { i < 32 }
    ensures { channels.new ≡ without i channels.old zero_channel }
{
    channels.copy_within(i + 1.., i);
    channels[31] = NO_CHANNEL;
}

// The first `opened` rows become empty, those behind them being empty already.
pub fn empty_rows(channels: &mut [Channel; 32], opened: usize)
    requires { (opened ≤ 32) × ((i : ℕ) → opened ≤ i → i < 32 → get_or channels.old i zero_channel ≡ zero_channel) }
    ensures { channels.new ≡ replicate 32 zero_channel }
{
    channels[..opened].fill(NO_CHANNEL);
}

fn empty(channels: &[Channel]) -> bool
    ensures { result ≡ list_all empty_channel channels.now }
{
    channels.iter().all(|c| *c == NO_CHANNEL)
}

// Each of these is a channel with a number of its own and a device in the table.
fn channels_fine(channels: &[Channel], known: usize) -> bool
    ensures { result ≡ list_all (λ x. channel_fits channels.now known x.0 x.1) (enumerate_from 0 channels.now) }
{
    let mut seen = [false; 256];
    for c in channels {
        let number = usize::from(c.number);
        let fits = (number < 255) & (usize::from(c.device) < known) & !seen[number];
        if !fits {
            return false;
        }
        seen[number] = true;
    }
    true
}

pub fn channel_test(channels: &[Channel; 32], opened: usize, known: usize) -> bool
    ensures { result ≡ channel_test channels.now opened known }
{
    opened <= 32 && channels_fine(&channels[..opened], known) && empty(&channels[opened..])
}
