#![tactic(auto)]

// The entries of an archive index, one after the other. Every layout and every cursor is answered for.
ghost use Rattle.std.specs.Prelude.{◌≡◌, ◌+◌};
ghost use Rattle.entry_list.specs.Cursor as spec;

use index_layout::{Layout, Page, Slot};
use parts::part;

// A place among the entries of an index: a page and a slot of it.
#[derive(Clone, Copy)]
pub struct Cursor {
    pub page: Page,
    pub slot: Slot,
}

impl Cursor {
    // Where the first entry stands, if there is one.
    pub fn first() -> Cursor
        ensures { result ≡ spec.first_place }
    {
        Cursor {
            page: Page(0),
            slot: Slot(0),
        }
    }

    // Whether an entry stands here.
    pub fn stands(self, l: Layout) -> bool
        ensures { result ≡ spec.stands l self }
    {
        let page = self.page;
        let slot = self.slot;
        if l.pages <= page.0 {
            return false;
        }
        (slot.0 as usize) < l.on_page(page)
    }

    // The bytes of the entry that stands here; none where there is none.
    pub fn entry(self, index: &[u8], l: Layout) -> &[u8]
        ensures result_value { result.now ≡ spec.entry_here index.now l self }
        ensures ref_ptr_value { (result.ref_ptr.0 ≡ index.entry.ref_ptr.0) × (result.ref_ptr.1 ≡ index.entry.ref_ptr.1 + spec.place_here index.now l self) }
    {
        if !self.stands(l) {
            return part(index, 0, 0);
        }
        let page = self.page;
        let slot = self.slot;
        part(index, l.entry_at(page, slot), l.entry_size())
    }

    // The place after this one; the same where no entry stands.
    pub fn next(self, l: Layout) -> Cursor
        ensures { result ≡ spec.next_place l self }
    {
        if !self.stands(l) {
            return self;
        }
        let page = self.page;
        let slot = self.slot;
        if slot.0 as usize + 1 < l.on_page(page) {
            return Cursor {
                page,
                slot: Slot(slot.0 + 1),
            };
        }
        Cursor {
            page: Page(page.0 + 1),
            slot: Slot(0),
        }
    }
}
