// A list of items as bytes: three an item, a tag and a value of two bytes, the low one first.
ghost use Rattle.std.specs.Prelude.{◌≡◌};
ghost use Rattle.writer.specs.Definition.Entries.{listed};
ghost use Rattle.writer.specs.Within.Entries.{entry_in, item_in, found_in};

use super::{Flaw, Why};
use modules::Item;

// What bytes are, which are three or what is left at the end of a list.
#[tactic(auto, unfolding(crate::specs::Definition::Entries::entry_of))]
fn entry_of(bytes: &[u8]) -> Result<Item, Why>
    ensures { result ≡ entry_in bytes.now }
{
    let [tag, low, high] = bytes else {
        return Err(Why::Cut);
    };
    let value = u16::from_le_bytes([*low, *high]);
    match (*tag, value) {
        (0, 0..=255) => Ok(Item::Byte(value as u8)),
        (0, _) => Err(Why::AboveByte),
        (1, _) => Ok(Item::Word(value)),
        (2, _) => Ok(Item::SetPage(value)),
        (3, 0) => Ok(Item::Restore),
        (3, _) => Err(Why::Valued),
        (4, _) => Ok(Item::Move(value)),
        _ => Err(Why::Tag),
    }
}

// The item that they are; a restore where they are none.
pub fn item_of(bytes: &[u8]) -> Item
    ensures { result ≡ item_in bytes.now }
{
    entry_of(bytes).unwrap_or(Item::Restore)
}

// Whether all bytes are items, or which is the first that is none.
pub fn list_in(bytes: &[u8]) -> Result<(), Flaw>
    ensures { result ≡ found_in (listed bytes.now) }
{
    for (i, entry) in bytes.chunks(3).enumerate() {
        if let Err(why) = entry_of(entry) {
            return Err(Flaw { number: i + 1, why });
        }
    }
    Ok(())
}
