// Relocatable modules: a stream of bits that holds items, judged and stored by one reader.
#![tactic(auto)]

ghost use Rattle.std.specs.Prelude.{◌≡◌};

mod bits; // what is held of the stream, bits of it, and how many an item wants
mod location; // the location counter: relocation and moves
pub mod items; // an item of its bits, and what it does
pub mod reader; // the reader

// What a stream holds before its end item.
#[derive(Clone, Copy)]
pub enum Item {
    Byte(u8),
    Word(u16),
    SetPage(u16),
    Restore,
    Move(u16),
}

// The location counter: a page (0 to 3) and an offset (0 to 16,384, past the end).
// Its range is a `requires`, `Counts`, and no invariant of the type: the definitions judge any start, one past its range too.
#[derive(Clone, Copy)]
pub struct Counter {
    pub page: u8,
    pub offset: u16,
}

// Where a module goes: the row of its segment, the offset up to which the user may store there, and the start page.
#[derive(Clone, Copy)]
pub struct Target {
    pub row: usize,
    pub reach: usize,
    pub page: u8,
}

// What a stream is refused for: it is no module, or its first item is outside the page, above the user boundary or guarded.
#[derive(Clone, Copy)]
pub enum Refusal {
    Module,
    Page,
    Range,
    Guard,
}

// Why the reading broke off: the end item, an illegal item, the end of input, or what an item is refused for.
#[derive(Clone, Copy)]
pub enum Stop {
    End,
    Illegal,
    Exhausted,
    Refused(Refusal),
}

impl From<Refusal> for Stop {
    ghost use Rattle.modules.specs.declared.Stop.TheVariants.{Refused};

    ghost from_gives = { λ why stop. stop ≡ Refused why };

    fn from(why: Refusal) -> Stop {
        Stop::Refused(why)
    }
}
