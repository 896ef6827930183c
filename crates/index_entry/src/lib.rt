#![tactic(auto)]

// One entry of an archive index, by its page and slot.
ghost use Rattle.std.specs.Prelude.{◌≡◌, ◌≤◌};
ghost use Rattle.index_entry.specs.Entry as spec;

use index_layout::{Layout, Page, Slot, archive, offset};
use refusal::Refusal;

// The offset width with which a location has an archive number.
pub const ARCHIVE_WIDTH: u8 = 6;

// An entry: the place of its key and the key's length, encoded size, archive number and offset, page and slot.
#[derive(Clone, Copy)]
pub struct Entry {
    pub key_at: usize,
    pub key_length: u8,
    pub size: u32,
    pub archive: u32,
    pub offset: u64,
    pub page: Page,
    pub slot: Slot,
}

// The archive number of a location; 0 where it has none.
fn archive_in(width: u8, location: u64) -> u32
    ensures { result ≡ spec.archive_in width location }
{
    if width == ARCHIVE_WIDTH {
        archive(location)
    } else {
        0
    }
}

// The offset of a location.
fn offset_in(width: u8, location: u64) -> u64
    ensures { result ≡ spec.offset_in width location }
{
    if width == ARCHIVE_WIDTH {
        u64::from(offset(location))
    } else {
        location
    }
}

// The entry in a slot.
fn found(index: &[u8], l: Layout, page: Page, slot: Slot) -> Entry
    requires { l.offset_width ≤ 8 }
    ensures { spec.values result ≡ spec.values_at index.now l page.0 slot.0 }
{
    let key_length = l.key_length;
    let width = l.offset_width;
    let location = l.location_at(index, page, slot);
    Entry {
        key_at: l.entry_at(page, slot),
        key_length,
        size: l.size_at(index, page, slot),
        archive: archive_in(width, location),
        offset: offset_in(width, location),
        page,
        slot,
    }
}

// The entry in a slot of a page, if the index has one there. The opening checks; no page is checked.
pub fn find(index: &[u8], page: u64, slot: u64) -> Result<Option<Entry>, Refusal>
    ensures { spec.outcome result ≡ spec.entry_outcome index.now page slot }
{
    let l = index_open::open(index)?;
    if u64::from(l.pages) <= page {
        return Ok(None);
    }
    let p = Page(page as u32);
    if l.on_page(p) as u64 <= slot {
        return Ok(None);
    }
    Ok(Some(found(index, l, p, Slot(slot as u32))))
}
