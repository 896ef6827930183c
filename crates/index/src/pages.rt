// The check of an index's pages.
ghost use Rattle.std.specs.Prelude.{◌≡◌, not, ◌+◌, ◌-◌, take};
ghost use Rattle.md5_digest.specs.Message.{md5};
ghost use Rattle.refusal.specs.Check.{check_of, refused_if, first_from};
ghost use Rattle.refusal.specs.Number.{index_page_hash, index_padding, last_key};
ghost use Rattle.index_layout.specs.Layout as layout;
ghost use Rattle.index.specs.Check as spec;

use index_layout::{HASH_LENGTH, Layout, PAGE_SIZE, Page, Slot, page_at};
use md5_two::first_eight_of_two;
use parts::{all_zero, equal, part};
use refusal::{Reason, Refusal};

// The first eight bytes of the hashes of a page and of the next. Two pages are hashed together because that is quicker.
pub fn page_hashes(s: &[u8], page: Page) -> ([u8; 8], [u8; 8])
    ensures first_value { result.0 ≡ take layout.hash_length (md5 (layout.page_of s.now page.0)) }
    ensures second_value { result.1 ≡ take layout.hash_length (md5 (layout.page_of s.now (page.0 + 1))) }
{
    let at = page_at(page);
    let (first, second) = first_eight_of_two(
        part(s, at, PAGE_SIZE),
        part(s, at + PAGE_SIZE, PAGE_SIZE),
    );
    (first.unwrap(), second.unwrap())
}

// The first eight bytes of a page's hash against the stored ones.
#[tactic(auto, unfolding(crate::specs::Check::page_hash_check))]
fn page_hash_right(index: &[u8], l: Layout, page: Page, hash: &[u8]) -> bool
    requires { hash.now ≡ take layout.hash_length (md5 (layout.page_of index.now page.0)) }
    ensures { spec.page_hash_check index.now l page.0 ≡ refused_if (not result) index_page_hash page.0 }
{
    equal(
        hash,
        part(index, l.page_hash_at(page), HASH_LENGTH as usize),
    )
}

// Whether the bytes after a page's entries are zero.
#[tactic(auto, unfolding(crate::specs::Check::padding_check))]
fn padding_zero(index: &[u8], l: Layout, page: Page) -> bool
    ensures { spec.padding_check index.now l page.0 ≡ refused_if (not result) index_padding page.0 }
{
    let count = l.on_page(page);
    let at = l.entry_at(page, Slot(count as u32));
    all_zero(part(index, at, PAGE_SIZE - count * l.entry_size()))
}

// Whether a page's first key is above the last of the page before.
fn first_above(index: &[u8], l: Layout, page: Page) -> bool
    ensures { spec.not_above index.now l page.0 0 ≡ not result }
{
    if page.0 == 0 {
        return true;
    }
    let before = Page(page.0 - 1);
    let last = l.entry_at(before, l.last_slot(before));
    let key = usize::from(l.key_length);
    key::rises(
        part(index, last, key),
        part(index, l.entry_at(page, Slot(0)), key),
    )
}

// The order of a page's entries from the second on.
fn check_rest(index: &[u8], l: Layout, page: Page) -> Result<(), Refusal>
    ensures { check_of result ≡ first_from (spec.order_check index.now l page.0) 1 (layout.on_page l page.0 - 1) }
{
    let count = l.on_page(page) as u32;
    let size = l.entry_size() as u16;
    let fall = rising::fall(
        part(index, page_at(page), PAGE_SIZE),
        size,
        l.key_length,
        count,
    );
    if fall < count {
        return Err(Reason::IndexOrder.at(l.entry_number(page, Slot(fall))));
    }
    Ok(())
}

// The order of a page's entries, the first of them against the page before.
fn check_order(index: &[u8], l: Layout, page: Page) -> Result<(), Refusal>
    ensures { check_of result ≡ first_from (spec.order_check index.now l page.0) 0 (layout.on_page l page.0) }
{
    if l.on_page(page) == 0 {
        return Ok(());
    }
    if !first_above(index, l, page) {
        return Err(Reason::IndexOrder.at(l.entry_number(page, Slot(0))));
    }
    check_rest(index, l, page)
}

// Whether a page's stored last key is the key of its last entry.
#[tactic(auto, unfolding(crate::specs::Check::last_key_check))]
fn last_key_right(index: &[u8], l: Layout, page: Page) -> bool
    ensures { spec.last_key_check index.now l page.0 ≡ refused_if (not result) last_key page.0 }
{
    let last = l.entry_at(page, l.last_slot(page));
    let key = usize::from(l.key_length);
    key::same(
        part(index, l.last_key_at(page), key),
        part(index, last, key),
    )
}

// One page, with the first eight bytes of its hash: 6, 7, 8, 9.
#[tactic(auto, unfolding(refusal::specs::Check::first, refusal::specs::Check::refused_if, crate::specs::Check::page_check))]
fn check_page(index: &[u8], l: Layout, page: Page, hash: &[u8]) -> Result<(), Refusal>
    requires { hash.now ≡ take layout.hash_length (md5 (layout.page_of index.now page.0)) }
    ensures { check_of result ≡ spec.page_check index.now l page.0 }
{
    let place = page.0 as usize;
    if !page_hash_right(index, l, page, hash) {
        return Err(Reason::IndexPageHash.at(place));
    }
    if !padding_zero(index, l, page) {
        return Err(Reason::IndexPadding.at(place));
    }
    check_order(index, l, page)?;
    if !last_key_right(index, l, page) {
        return Err(Reason::LastKey.at(place));
    }
    Ok(())
}

// All pages, one after the other: two in each turn of the loop, which are hashed together.
pub(crate) fn check_pages(index: &[u8], l: Layout) -> Result<(), Refusal>
    ensures { check_of result ≡ spec.pages_check index.now l }
{
    let pages = l.pages;
    let mut p = 0;
    while p < pages {
        let (hash, next_hash) = page_hashes(index, Page(p));
        check_page(index, l, Page(p), &hash)?;
        let next = p + 1;
        if pages <= next {
            return Ok(());
        }
        check_page(index, l, Page(next), &next_hash)?;
        p += 2;
    }
    Ok(())
}
