// Load module: the whole stream is judged, then its items are stored.
ghost use Rattle.std.specs.Prelude.{◌≡◌, List, ℕ, length};
ghost use Rattle.modules.specs.Definition.Counter.{past_range};
ghost use Rattle.kernel.specs.Definition.Tables.{ram_size};
ghost use Rattle.kernel.specs.Definition.Good.{Good};
ghost use Rattle.kernel.specs.Definition.Calls.{on_load_module};
ghost use Rattle.kernel.specs.Definition.Calls as calls;
ghost use Rattle.kernel.specs.Definition.Step.{step, completed, result_of};

use super::{Answer, Outcome, Tables};
use modules::reader::read;
use modules::{Counter, Target};

impl Tables {
    pub fn load_module(
        self,
        ram: &mut [u8],
        segment: u8,
        page: u8,
        offset: u16,
        stream: &[u8],
    ) -> Outcome
        ensures { (out : List ℕ) → result_of result ram.new out ≡ step self ram.old (calls.load-module segment page offset stream.now) out }
    {
        if !self.is_ready(ram.len()) {
            return self.refuse(Answer::BadTables);
        }
        self.load_module_good(ram, segment, page, offset, stream)
    }

    pub fn load_module_good(
        self,
        ram: &mut [u8],
        segment: u8,
        page: u8,
        offset: u16,
        stream: &[u8],
    ) -> Outcome
        requires { Good self × (length ram.old ≡ ram_size self) }
        ensures { (out : List ℕ) → result_of result ram.new out ≡ completed self (on_load_module self segment page offset stream.now) ram.old out }
    {
        if past_range(page, offset) {
            return self.refuse(Answer::BadCall);
        }
        let Some(row) = self.reached_row(segment) else {
            return self.refuse(Answer::NotOwner);
        };
        let start = Counter { page, offset };
        let reach = self.reach_of(row);
        let target = Target { row, reach, page };
        match read(stream, start, target, false, ram) {
            Ok(used) => {
                let _ = read(stream, start, target, true, ram);
                self.done(0, used)
            }
            Err(refusal) => self.refuse(Answer::from(refusal)),
        }
    }
}

// The start page or the start offset is past its range.
fn past_range(page: u8, offset: u16) -> bool
    ensures { result ≡ past_range page offset }
{
    3 < page || 16384 < offset
}
