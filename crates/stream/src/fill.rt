// Bytes by a seed.
ghost use Rattle.std.specs.Prelude.{◌≡◌, length};
ghost use Rattle.stream.specs.Definition.Seed.{seeded};

// Each byte by the seed's next number.
#[tactic(auto, unfolding(crate::specs::Definition::Seed::next))]
pub fn fill(ram: &mut [u8], seed: u32)
    ensures { ram.new ≡ seeded (length ram.old) seed }
{
    let mut x = seed;
    for byte in ram.iter_mut() {
        x = x.wrapping_mul(1664525).wrapping_add(1013904223);
        *byte = (x >> 24) as u8;
    }
}
