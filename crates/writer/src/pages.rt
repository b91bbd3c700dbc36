// The loader's page rule over a list of items.
ghost use Rattle.std.specs.Prelude.{◌≡◌, ◌≤◌, IfOk};
ghost use Rattle.modules.specs.Definition.Counter.{Counts};
ghost use Rattle.writer.specs.Definition.Writing.{page_above, refuses_from, refuses_page};
ghost use Rattle.writer.specs.Within.Entries.{items_of};
ghost use Rattle.writer.specs.Within.Pages.{page_act};

use super::entries::item_of;
use modules::items::judge_item;
use modules::{Counter, Item, Refusal, Target};

// "a page number above 3"
fn is_page_above(item: Item) -> bool
    ensures { result ≡ page_above item }
{
    match item {
        Item::SetPage(page) => 3 < page,
        _ => false,
    }
}

// What comes of an item by the loader's page rule: the loader's own judge, asked of a segment with no guard and no user boundary.
#[tactic(auto, using(crate::specs::Laws::Pages::below_paged, crate::specs::Laws::Pages::page_alone))]
fn act_of(item: Item, c: Counter, start: u8) -> Result<Counter, Refusal>
    requires { Counts c × (start ≤ 3) }
    ensures acts { result ≡ page_act start c item }
    ensures counts { IfOk result (λ d. Counts d) }
{
    if is_page_above(item) {
        return Err(Refusal::Page);
    }
    judge_item(
        item,
        c,
        Target {
            row: 1,
            reach: 16384,
            page: start,
        },
    )
}

// Whether the page rule refuses an item of a list.
fn refuses_from(items: &[u8], start: Counter) -> bool
    requires { Counts start }
    ensures { result ≡ refuses_from start.page start (items_of items.now) }
{
    let mut c = start;
    for entry in items.chunks_exact(3) {
        match act_of(item_of(entry), c, start.page) {
            Ok(next) => c = next,
            Err(_) => return true,
        }
    }
    false
}

// "PAGE for items the loader's page rule would refuse from the given start, a page number above 3 or a start outside kind 30's range"
#[tactic(auto, unfolding(crate::specs::Definition::Writing::refuses_page))]
pub fn refuses_page(start: Counter, items: &[u8]) -> bool
    ensures { result ≡ refuses_page start.page start.offset (items_of items.now) }
{
    3 < start.page || 16384 < start.offset || refuses_from(items, start)
}
