// One record's line, and the line `bad`.
ghost use Rattle.std.specs.Prelude.{◌≡◌, List, ℕ, ◌+◌, ◌*◌, ◌≤◌, length, take};
ghost use Rattle.text.specs.Definition.Put.{Puts, Room};
ghost use Rattle.listing.specs.Definition.Log.{shows_of, line_of, bad_text};

use text::Cursor;

// Whether there is a fifth field. The kinds stand by number, as in the definition: a `Kind` made for one test would be one match more.
#[tactic(auto, unfolding(crate::specs::Definition::Log::shows_of))]
pub fn shows(kind: u16, answer: u16, b: u16) -> bool
    ensures { result ≡ shows_of kind answer b }
{
    answer == 0 && 0 < b && matches!(kind, 6 | 20 | 258)
}

// A record's line.
pub fn put_line(kind: u16, answer: u16, a: u16, b: u16, out: &[u8], to: &mut Cursor)
    requires { Room to.old (25 + 2 * length out.now) }
    ensures { Puts to.old to.new (line_of kind answer a b out.now) × (to.new.at ≤ length to.new.text.now) }
{
    to.fields(kind, answer, a, b);
    if !shows(kind, answer, b) {
        to.put(b'\n');
        return;
    }
    to.put(b' ');
    let k = usize::from(b).min(out.len());
    to.hex(&out[..k]);
    to.put(b'\n');
}

// The line `bad`.
pub fn put_bad(to: &mut Cursor)
    requires { Room to.old 4 }
    ensures { Puts to.old to.new bad_text × (to.new.at ≤ length to.new.text.now) }
{
    to.put_run(b"bad\n");
}
