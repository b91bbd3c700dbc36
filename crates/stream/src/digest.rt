// The digest of bytes.
ghost use Rattle.std.specs.Prelude.{◌≡◌};
ghost use Rattle.stream.specs.Definition.Digest.{digest_of};

#[tactic(auto, unfolding(crate::specs::Definition::Digest::mixed))]
pub fn digest(bytes: &[u8]) -> u64
    ensures { result ≡ digest_of bytes.now }
{
    let mut h = 0;
    for byte in bytes {
        h = (h * 8388593 + u64::from(*byte) + 1) % 1099511627776;
    }
    h
}
