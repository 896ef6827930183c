#![tactic(auto)]

// The parts of an archive index before its footer: pages, last keys and page hashes. Each function answers for any list,
// layout and output: bytes that do not fit are dropped.
ghost use Rattle.std.specs.Prelude.{◌≡◌, ◌*◌, ◌≤◌, length};
ghost use Rattle.parts.specs.Part.{part_at, overlay};
ghost use Rattle.index_layout.specs.Layout as layout;
ghost use Rattle.index_file.specs.File as spec;

use index::page_hashes;
use index_layout::{HASH_LENGTH, Layout, PAGE_SIZE, Page, Slot};
use parts::{copy, part};

// A key length is one byte.
const LONGEST_KEY: usize = 255;

// Where a slot of a page stands in the list.
fn list_at(l: Layout, page: Page, slot: Slot) -> usize
    ensures { result ≡ spec.list_at l page.0 slot.0 }
{
    l.placed_number(page, slot) * l.entry_size()
}

// The bytes of a page's entries.
fn entries_size(l: Layout, page: Page) -> usize
    ensures value { result ≡ layout.placed_on l page.0 * layout.entry_size l }
    ensures upper_bound { result ≤ layout.page_size }
{
    l.placed_on(page) * l.entry_size()
}

// Each page: its entries, and zeros after them.
pub fn write_pages(list: &[u8], l: Layout, output: &mut [u8])
    ensures { output.new ≡ overlay output.old 0 (spec.pages list.now l) }
{
    let zeros = [0u8; PAGE_SIZE];
    let count = l.pages;
    let mut to = 0;
    for p in 0..count {
        let bytes = entries_size(l, Page(p));
        let entries = part(list, list_at(l, Page(p), Slot(0)), bytes);
        copy(entries, output, to);
        to += entries.len();
        let rest = PAGE_SIZE - bytes;
        copy(part(&zeros, 0, rest), output, to);
        to += rest;
    }
}

// A key by value, its bytes in front: the output that it is put into may be what it was read from.
#[derive(Clone, Copy)]
struct Key {
    bytes: [u8; LONGEST_KEY],
    count: usize,
}

// The key in the last placed slot of a page.
fn last_key(output: &[u8], l: Layout, page: Page) -> Key
    ensures count_value { part_at result.bytes 0 result.count ≡ spec.last_key_of output.now l page.0 }
    ensures count_value_2 { result.count ≡ length (spec.last_key_of output.now l page.0) }
{
    let slot = l.last_placed(page);
    let key = part(output, l.entry_at(page, slot), usize::from(l.key_length));
    let mut bytes = [0u8; LONGEST_KEY];
    copy(key, &mut bytes, 0);
    Key {
        bytes,
        count: key.len(),
    }
}

// The last key of each page that the output begins with, after the pages.
pub fn write_last_keys(l: Layout, output: &mut [u8])
    ensures { output.new ≡ overlay output.old (layout.last_key_offset l 0) (spec.last_keys_of output.old l) }
{
    let pages = l.pages;
    let mut to = l.last_key_at(Page(0));
    for p in 0..pages {
        let key = last_key(output, l, Page(p));
        copy(part(&key.bytes, 0, key.count), output, to);
        to += key.count;
    }
}

// The hash of each page that the output begins with, after the last keys: two in each turn of the loop, hashed together.
pub fn write_page_hashes(l: Layout, output: &mut [u8])
    ensures { output.new ≡ overlay output.old (layout.page_hash_at l 0) (spec.hashes_of output.old l) }
{
    let pages = l.pages;
    let size = HASH_LENGTH as usize;
    let mut to = l.page_hash_at(Page(0));
    let mut p = 0;
    while p < pages {
        let (hash, next_hash) = page_hashes(output, Page(p));
        copy(&hash, output, to);
        let next = p + 1;
        if pages <= next {
            return;
        }
        copy(&next_hash, output, to + size);
        to += 2 * size;
        p += 2;
    }
}
