// What the end of the input leaves to write, and a whole log in one piece.
ghost use Rattle.std.specs.Prelude.{◌≤◌, length};
ghost use Rattle.text.specs.Definition.Put.{Puts, Room};
ghost use Rattle.listing.specs.Definition.Log.{ending};
ghost use Rattle.listing.specs.Definition.Pieces.{Lists};

use super::Stop;
use super::buffers::drain;
use super::lines::put_bad;
use kernel::Tables;
use text::Cursor;

// Where the input ends and so many bytes of it are left: `bad`, unless there are none.
pub fn finish(left: usize, to: &mut Cursor)
    requires { Room to.old 4 }
    ensures { Puts to.old to.new (ending left) × (to.new.at ≤ length to.new.text.now) }
{
    if left != 0 {
        put_bad(to);
    }
}

// The text of a whole log: so many bytes; or less than a longest line was left of the text.
pub fn list(log: &[u8], text: &mut [u8]) -> Option<usize>
    ensures { Lists log.now text.old text.new result }
{
    let mut ram = [0u8; 65536];
    let mut out = [0u8; 4096];
    let d = drain(Tables::none(), &mut ram, &mut out, log, text);
    match d.stop {
        Stop::Bad => Some(d.used),
        Stop::Full => None,
        Stop::More => {
            let mut to = Cursor { text, at: d.used };
            finish(log.len() - d.taken, &mut to);
            Some(to.at)
        }
    }
}
