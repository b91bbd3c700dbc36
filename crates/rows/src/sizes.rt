// The chain's length and the EXOS boundary, of a line of length `n`.
ghost use Rattle.std.specs.Prelude.{◌≡◌, ◌≤◌};
ghost use Rattle.rows.specs.Definition.Sizes.{chain_length, boundary_at};

// How many segments the line takes.
#[tactic(auto, unfolding(crate::specs::Definition::Sizes::chain_length))]
pub fn chain_length(room: u16, n: usize) -> usize
    requires { n ≤ 4194304 }
    ensures { result ≡ chain_length room n }
{
    1 + n.saturating_sub(usize::from(room)).div_ceil(16384)
}

// Where the line ends in the chain's last segment.
#[tactic(auto, unfolding(crate::specs::Definition::Sizes::boundary_at))]
pub fn boundary_at(room: u16, n: usize) -> u16
    ensures { result ≡ boundary_at room n }
{
    let r = usize::from(room);
    if n <= r {
        (r - n) as u16
    } else {
        (16383 - (n - r - 1) % 16384) as u16
    }
}
