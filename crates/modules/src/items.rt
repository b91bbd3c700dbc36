// An item of its bits, and what it does at the location counter.
ghost use Rattle.std.specs.Prelude.{◌≡◌, ◌+◌, ◌≤◌, length, IfOk, OnOk};
ghost use Rattle.modules.specs.Definition.Counter.{Counts, size_of, puts_at, put_each};
ghost use Rattle.modules.specs.Within.Acts.{Paged, item_act, put_act, move_act};
ghost use Rattle.modules.specs.Within.Codes.{item_of};

use super::{Counter, Item, Refusal, Target};
use line::guard::guards;
use line::ram::store;

// The item of all its bits, behind a leading 1; neither the end item nor an illegal one.
#[tactic(auto, unfolding(crate::specs::Within::Codes::item_of))]
pub fn item_of(code: usize) -> Item
    ensures { result ≡ item_of code }
{
    match code {
        53 => Item::Restore,
        0..=255 => Item::SetPage((code % 4) as u16),
        256..=767 => Item::Byte((code % 256) as u8),
        768..=851967 => Item::Word((code % 65536) as u16),
        _ => Item::Move((code % 65536) as u16),
    }
}

// Its bytes go to the segment that starts at `base`.
pub fn store_item(ram: &mut [u8], base: usize, c: Counter, item: Item)
    requires { (c.page ≤ 3) × (c.offset + size_of item ≤ 16384) × (base + 16384 ≤ length ram.old) }
    ensures { ram.new ≡ put_each base ram.old (puts_at c item) }
{
    let at = base + usize::from(c.offset);
    match item {
        Item::Byte(x) => store(ram, at, &[x]),
        Item::Word(x) => store(ram, at, &c.relocate(x).to_le_bytes()),
        _ => {}
    }
}

// What comes of a store of so many bytes: "at one item that order".
fn put_act(size: usize, c: Counter, target: Target) -> Result<Counter, Refusal>
    requires { Counts c × (1 ≤ size) × (size ≤ 2) }
    ensures acts { result ≡ put_act target c size }
    ensures counts { IfOk result (λ d. Counts d) }
    ensures inside { OnOk result (c.offset + size ≤ 16384) }
{
    let from = usize::from(c.offset);
    let end = from + size;
    if 16384 < end {
        return Err(Refusal::Page);
    }
    if target.reach < end {
        return Err(Refusal::Range);
    }
    if guards(target.row, from, size) {
        return Err(Refusal::Guard);
    }
    Ok(Counter {
        offset: end as u16,
        ..c
    })
}

// What comes of a move, which must land in the same page.
fn move_act(c: Counter, x: u16) -> Result<Counter, Refusal>
    requires { Counts c }
    ensures acts { result ≡ move_act c x }
    ensures counts { IfOk result (λ d. Counts d) }
{
    let to = c.land(x);
    if to / 16384 != u16::from(c.page) {
        return Err(Refusal::Page);
    }
    Ok(Counter {
        offset: to % 16384,
        ..c
    })
}

// What comes of it.
pub fn judge_item(item: Item, c: Counter, target: Target) -> Result<Counter, Refusal>
    requires { Counts c × (target.page ≤ 3) × Paged item }
    ensures acts { result ≡ item_act target c item }
    ensures counts { IfOk result (λ d. Counts d) }
    ensures inside { OnOk result (c.offset + size_of item ≤ 16384) }
{
    match item {
        Item::Byte(_) => put_act(1, c, target),
        Item::Word(_) => put_act(2, c, target),
        Item::SetPage(page) => Ok(Counter {
            page: page as u8,
            ..c
        }),
        Item::Restore => Ok(Counter {
            page: target.page,
            ..c
        }),
        Item::Move(x) => move_act(c, x),
    }
}
