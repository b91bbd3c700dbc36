// Writing relocatable modules: a list of items, judged by the loader's page rule, as the bits of a stream in a lent buffer.
#![tactic(auto)]

ghost use Rattle.std.specs.Prelude.{◌≡◌};

mod entries; // a list of items as bytes, three each
mod pages; // the loader's page rule over a list
mod sizes; // how many bytes a module has
mod packing; // bits put one behind the other, in whole bytes
pub mod write; // the writer

pub use packing::Sheet; // for a crate that puts bits or items and no whole module

// Why three bytes are no item: there are not three, or the tag is none; or a byte is above 255, or a restore has a value.
#[derive(Clone, Copy)]
pub enum Why {
    Cut,
    Tag,
    AboveByte,
    Valued,
}

// The first of a list that is no item: its number, from 1, and why.
#[derive(Clone, Copy)]
pub struct Flaw {
    pub number: usize,
    pub why: Why,
}

// What the writer refuses: bytes with no start, or with no list of items behind it; a page, or a buffer that is short.
#[derive(Clone, Copy)]
pub enum Refusal {
    NoStart,
    NoList(Flaw),
    Page,
    Range,
}

impl From<Flaw> for Refusal {
    ghost use Rattle.writer.specs.declared.Refusal.TheVariants.{NoList};

    ghost from_gives = { λ flaw why. why ≡ NoList flaw };

    fn from(flaw: Flaw) -> Refusal {
        Refusal::NoList(flaw)
    }
}

// Where the next byte goes, and the bits behind it that are no whole byte yet: the lowest `count` of `held`.
#[derive(Clone, Copy)]
pub struct Pen {
    pub at: usize,
    pub held: usize,
    pub count: usize,
}
