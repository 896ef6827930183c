#![tactic(auto)]

// Where things stand in an archive index, and the size and location of an entry. Every value of a layout is answered for: the types keep each sum and product
// within its range. specs/Layout.antt has the same names, as that language writes them.
ghost use Rattle.std.specs.Prelude.{◌≡◌, ◌-◌, ◌≤◌};
ghost use Rattle.index_layout.specs.Layout as spec;
ghost use Rattle.index_layout.specs.Entries as entries;

use numbers::big;

// The bytes of a page and of the footer.
pub const PAGE_SIZE: usize = 4096;

pub const FOOTER_SIZE: usize = 28;

// Where the footer's fields stand in it.
pub const VERSION_AT: usize = 8;

pub const RESERVED_AT: usize = 9;

pub const PAGE_KB_AT: usize = 11;

pub const OFFSET_WIDTH_AT: usize = 12;

pub const SIZE_WIDTH_AT: usize = 13;

pub const KEY_LENGTH_AT: usize = 14;

pub const HASH_LENGTH_AT: usize = 15;

pub const ENTRY_COUNT_AT: usize = 16;

pub const FOOTER_HASH_AT: usize = 20;

// What the footer's fields may be.
pub const LEAST_VERSION: u8 = 0;

pub const MOST_VERSION: u8 = 1;

pub const PAGE_KB: u8 = 4;

pub const LEAST_OFFSET_WIDTH: u8 = 4;

pub const MOST_OFFSET_WIDTH: u8 = 6;

pub const SIZE_WIDTH: u8 = 4;

pub const LEAST_KEY_LENGTH: u8 = 1;

pub const MOST_KEY_LENGTH: u8 = 16;

pub const HASH_LENGTH: u8 = 8;

pub const MOST_ENTRIES: u64 = 8_388_608;

// What the footer says: version, offset width, key length, entry count and page count.
#[derive(Clone, Copy)]
pub struct Layout {
    pub version: u8,
    pub offset_width: u8,
    pub key_length: u8,
    pub entries: u32,
    pub pages: u32,
}

// The number of a page, from 0.
#[derive(Clone, Copy)]
pub struct Page(pub u32);

// The number of an entry within its page, from 0.
#[derive(Clone, Copy)]
pub struct Slot(pub u32);

// The archive number in a location of six bytes.
pub fn archive(location: u64) -> u32
    ensures { result ≡ entries.archive_of location }
{
    (location / 4_294_967_296) as u32
}

// The offset in a location of six bytes.
pub fn offset(location: u64) -> u32
    ensures { result ≡ entries.offset_of location }
{
    (location % 4_294_967_296) as u32
}

// Where a page stands.
pub fn page_at(page: Page) -> usize
    ensures { result ≡ spec.page_offset page.0 }
{
    page.0 as usize * PAGE_SIZE
}

// The last slot of a page with this many entries; 0 where it has none.
fn last_of(count: u32) -> Slot
    ensures { result.0 ≡ count - 1 }
{
    if count == 0 {
        return Slot(0);
    }
    Slot(count - 1)
}

impl Layout {
    // The layout of an index with these settings and this number of entries.
    pub fn new(version: u8, offset_width: u8, key_length: u8, entries: u32) -> Layout
        ensures { result ≡ spec.layout_with version offset_width key_length entries }
    {
        let unpaged = Layout {
            version,
            offset_width,
            key_length,
            entries,
            pages: 0,
        };
        let full = unpaged.full();
        let pages = ((entries as usize + full - 1) / full) as u32;
        Layout {
            version,
            offset_width,
            key_length,
            entries,
            pages,
        }
    }

    // The bytes of an entry: key, encoded size and location.
    pub fn entry_size(self) -> usize
        ensures value { result ≡ spec.entry_size self }
        ensures lower_bound { (4 ≤ result) × (result ≤ 514) }
    {
        self.key_length as usize + SIZE_WIDTH as usize + self.offset_width as usize
    }

    // How many entries a full page holds.
    pub fn full(self) -> usize
        ensures value { result ≡ spec.full self }
        ensures lower_bound { (1 ≤ result) × (result ≤ 1024) }
    {
        PAGE_SIZE / self.entry_size()
    }

    // How many entries of a list are placed on a page.
    pub fn placed_on(self, page: Page) -> usize
        ensures { result ≡ spec.placed_on self page.0 }
    {
        let full = self.full();
        let before = page.0 as usize * full;
        let entries = self.entries as usize;
        if entries <= before {
            return 0;
        }
        if entries - before < full {
            return entries - before;
        }
        full
    }

    // The slot of the last entry that is placed on a page; 0 where none is.
    pub fn last_placed(self, page: Page) -> Slot
        ensures { result.0 ≡ spec.placed_on self page.0 - 1 }
    {
        last_of(self.placed_on(page) as u32)
    }

    // The number in the list of the entry that is placed in a slot.
    pub fn placed_number(self, page: Page, slot: Slot) -> usize
        ensures { result ≡ spec.placed_number self page.0 slot.0 }
    {
        page.0 as usize * self.full() + slot.0 as usize
    }

    // How many entries a page of a file has.
    pub fn on_page(self, page: Page) -> usize
        ensures { result ≡ spec.on_page self page.0 }
    {
        self.placed_on(page)
    }

    // The slot of a page's last entry; 0 where it has none.
    pub fn last_slot(self, page: Page) -> Slot
        ensures { result.0 ≡ spec.on_page self page.0 - 1 }
    {
        last_of(self.on_page(page) as u32)
    }

    // The number of an entry through the whole file.
    pub fn entry_number(self, page: Page, slot: Slot) -> usize
        ensures { result ≡ spec.entry_number self page.0 slot.0 }
    {
        self.placed_number(page, slot)
    }

    // Where a slot of a page stands.
    pub fn entry_at(self, page: Page, slot: Slot) -> usize
        ensures { result ≡ spec.entry_at self page.0 slot.0 }
    {
        page_at(page) + slot.0 as usize * self.entry_size()
    }

    // The encoded size of the entry in a slot.
    pub fn size_at(self, index: &[u8], page: Page, slot: Slot) -> u32
        ensures { result ≡ entries.size_at index.now self page.0 slot.0 }
    {
        let at = self.entry_at(page, slot) + self.key_length as usize;
        big(index, at, SIZE_WIDTH as usize) as u32
    }

    // The location of the entry in a slot. An offset width above 8 reads as 8.
    pub fn location_at(self, index: &[u8], page: Page, slot: Slot) -> u64
        ensures { result ≡ entries.location_read index.now self page.0 slot.0 }
    {
        let at = self.entry_at(page, slot) + self.key_length as usize + SIZE_WIDTH as usize;
        big(index, at, self.offset_width as usize)
    }

    // Where a page's stored last key stands. That of the page after the last is where the hashes begin.
    pub fn last_key_at(self, page: Page) -> usize
        ensures { result ≡ spec.last_key_offset self page.0 }
    {
        page_at(Page(self.pages)) + page.0 as usize * self.key_length as usize
    }

    // Where a page's stored hash stands. That of the page after the last is where the footer begins.
    pub fn page_hash_at(self, page: Page) -> usize
        ensures { result ≡ spec.page_hash_at self page.0 }
    {
        self.last_key_at(Page(self.pages)) + page.0 as usize * HASH_LENGTH as usize
    }

    // The length of the whole file.
    pub fn length(self) -> usize
        ensures { result ≡ spec.index_length_of self }
    {
        self.pages as usize * (PAGE_SIZE + self.key_length as usize + HASH_LENGTH as usize)
            + FOOTER_SIZE
    }
}
