// Bits put one behind the other, in whole bytes.
ghost use Rattle.std.specs.Prelude.{◌≡◌, ◌*◌, ◌^◌, ◌≤◌, ◌<◌, length};
ghost use Rattle.modules.specs.Definition.Bits.{bits_of};
ghost use Rattle.modules.specs.Definition.Items.{item_bits, all_bits};
ghost use Rattle.writer.specs.Within.Entries.{items_of, items_and_left_over};
ghost use Rattle.writer.specs.Within.Codes.{code_of};
ghost use Rattle.writer.specs.Within.Packing.{Neat, RoomFor, Adds};

use super::Pen;
use super::entries::item_of;
use super::sizes::width_of;
use modules::Item;

// An item's bits as a number: `100`, `10100`, `10101` and `1011` stand before what they are of.
fn code_of(item: Item) -> usize
    ensures { result ≡ code_of item }
{
    match item {
        Item::Byte(x) => usize::from(x),
        Item::Word(x) => 262144 + usize::from(x),
        Item::SetPage(page) => 80 + usize::from(page) % 4,
        Item::Restore => 21,
        Item::Move(x) => 720896 + usize::from(x),
    }
}

// A lent buffer, and the pen that puts bits into it. Each call asks for a pen that holds fewer than 8 bits, in a number below 128.
// Buffer and place are no `text::Cursor`: tried, and the proof did not close, since a caller learns nothing of a reference in a struct of a struct.
#[derive(Drop)]
pub struct Sheet<'a> {
    pub text: &'a mut [u8],
    pub pen: Pen,
}

impl Sheet<'_> {
    // Puts the lowest `width` bits of a code.
    pub fn put_bits(&mut self, code: usize, width: usize)
        requires { Neat self.old.pen × (width ≤ 20) × (code < 2 ^ width) × RoomFor self.old width }
        ensures { Adds self.old self.new (bits_of width code) }
    {
        let held = (self.pen.held << width) + code;
        let mut count = self.pen.count + width;
        // no index is counted: what is left of the bits ends it
        while 8 <= count {
            count -= 8;
            self.text[self.pen.at] = ((held >> count) % 256) as u8;
            self.pen.at += 1;
        }
        self.pen.held = held % 128;
        self.pen.count = count;
    }

    // Puts an item.
    fn put_item(&mut self, item: Item)
        requires { Neat self.old.pen × RoomFor self.old (length (item_bits item)) }
        ensures { Adds self.old self.new (item_bits item) }
    {
        self.put_bits(code_of(item), width_of(item));
    }

    // Puts the items of a list, three bytes each: a restore for three that are no item, nothing for one byte or two that are left over.
    pub fn put_list(&mut self, items: &[u8])
        requires { Neat self.old.pen × RoomFor self.old (length (all_bits (items_of items.now))) }
        ensures { Adds self.old self.new (all_bits (items_of items.now)) }
    {
        for entry in items.chunks_exact(3) {
            self.put_item(item_of(entry));
        }
    }

    // The same, with a restore for one byte or two that are left over.
    pub fn put_items(&mut self, items: &[u8])
        requires { Neat self.old.pen × RoomFor self.old (length (all_bits (items_and_left_over items.now))) }
        ensures { Adds self.old self.new (all_bits (items_and_left_over items.now)) }
    {
        self.put_list(items);
        if items.len() % 3 != 0 {
            self.put_item(Item::Restore);
        }
    }
}
