// How many bytes a module has: its items' bits and the end item's three, rounded up to whole bytes.
ghost use Rattle.std.specs.Prelude.{◌≡◌, ◌≤◌, length};
ghost use Rattle.writer.specs.Definition.Bytes.{module_of};
ghost use Rattle.writer.specs.Within.Entries.{items_of};
ghost use Rattle.writer.specs.Within.Codes.{width_of};

use super::entries::item_of;
use modules::Item;

// How many bits an item has.
pub fn width_of(item: Item) -> usize
    ensures { (result ≡ width_of item) × (result ≤ 20) }
{
    match item {
        Item::Byte(_) => 9,
        Item::Word(_) => 19,
        Item::SetPage(_) => 7,
        Item::Restore => 5,
        Item::Move(_) => 20,
    }
}

// Whole bytes and the bits over are counted apart, so that no sum overflows.
pub fn size_of(items: &[u8]) -> usize
    ensures { result ≡ length (module_of (items_of items.now)) }
{
    let mut whole: usize = 0;
    let mut over: usize = 0;
    for entry in items.chunks_exact(3) {
        let bits = over + width_of(item_of(entry));
        whole += bits / 8;
        over = bits % 8;
    }
    whole + (over + 3).div_ceil(8)
}
