// The writer: it judges a list, then puts its module, or leaves the buffer as it is.
ghost use Rattle.std.specs.Prelude.{◌≡◌, ◌++◌, ◌≤◌, length, drop};
ghost use Rattle.writer.specs.Definition.Bytes.{module_of};
ghost use Rattle.writer.specs.Definition.Writing as writing;
ghost use Rattle.writer.specs.Within.Entries.{items_of};

use super::entries::list_in;
use super::packing::Sheet;
use super::pages::refuses_page;
use super::sizes::size_of;
use super::{Pen, Refusal};
use modules::Counter;

// "puts a list of items .., the end item and zero padding into a lent buffer"
fn put_module(items: &[u8], buffer: &mut [u8])
    requires { length (module_of (items_of items.now)) ≤ length buffer.old }
    ensures { buffer.new ≡ module_of (items_of items.now) ++ drop (length (module_of (items_of items.now))) buffer.old }
{
    let mut sheet = Sheet {
        text: buffer,
        pen: Pen {
            at: 0,
            held: 0,
            count: 0,
        },
    };
    sheet.put_list(items);
    sheet.put_bits(6, 3);
    let padding = (8 - sheet.pen.count) % 8;
    sheet.put_bits(0, padding);
}

// "Refusals: PAGE .., then RANGE for a short buffer"
#[tactic(auto, unfolding(crate::specs::Definition::Writing::answer_to))]
fn answer(start: Counter, items: &[u8], buffer: &mut [u8]) -> Result<usize, Refusal>
    ensures { (result ≡ writing.answer_to start.page start.offset (items_of items.now) (length buffer.old)) × (buffer.new ≡ writing.put_by result (items_of items.now) buffer.old) }
{
    if refuses_page(start, items) {
        return Err(Refusal::Page);
    }
    let size = size_of(items);
    if buffer.len() < size {
        return Err(Refusal::Range);
    }
    put_module(items, buffer);
    Ok(size)
}

// Writes the module of a list of items, from a start page and offset, into a buffer of any length.
// Page and offset come one by one, as the C interface hands them.
pub fn write_module(
    page: u8,
    offset: u16,
    items: &[u8],
    buffer: &mut [u8],
) -> Result<usize, Refusal>
    ensures { writing.Writes page offset items.now buffer.old result buffer.new }
{
    list_in(items)?;
    answer(Counter { page, offset }, items, buffer)
}

// The same of one input: start page, start offset and items.
pub fn write_from(input: &[u8], buffer: &mut [u8]) -> Result<usize, Refusal>
    ensures { writing.WritesFrom input.now buffer.old result buffer.new }
{
    let [page, low, high, items @ ..] = input else {
        return Err(Refusal::NoStart);
    };
    write_module(*page, u16::from_le_bytes([*low, *high]), items, buffer)
}
