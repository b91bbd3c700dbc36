// Default: the name and the unit that a string without a device means.
ghost use Rattle.std.specs.Prelude.{◌≡◌, List, ℕ};
ghost use Rattle.kernel.specs.Definition.Good.{Good};
ghost use Rattle.kernel.specs.Definition.Calls.{on_default};
ghost use Rattle.kernel.specs.Definition.Calls as calls;
ghost use Rattle.kernel.specs.Definition.Step.{step, completed, result_of};

use super::{Answer, Outcome, Tables};
use names::{default_name, word};

impl Tables {
    pub fn default(self, ram: &[u8], unit: u8, name: &[u8]) -> Outcome
        ensures { (out : List ℕ) → result_of result ram.now out ≡ step self ram.now (calls.default unit name.now) out }
    {
        if !self.is_ready(ram.len()) {
            return self.refuse(Answer::BadTables);
        }
        self.default_good(unit, name)
    }

    pub fn default_good(self, unit: u8, name: &[u8]) -> Outcome
        requires { Good self }
        ensures { (ram out : List ℕ) → result_of result ram out ≡ completed self (on_default self unit name.now) ram out }
    {
        if !default_name(name) {
            return self.refuse(Answer::BadName);
        }
        let mut next = self;
        next.name = word(name, name.len());
        next.length = name.len() as u8;
        next.unit = unit;
        next.done(0, 0)
    }
}
