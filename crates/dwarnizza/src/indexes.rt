// Archive indexes.
ghost use Rattle.std.specs.Prelude.{◌≡◌, length};
ghost use Rattle.refusal.specs.Output.{filled};
ghost use Rattle.index_open.specs.Open.{open_outcome, is_loose};
ghost use Rattle.index.specs.Check.{check_outcome};
ghost use Rattle.index_entry.specs.Entry.{entry_outcome};
ghost use Rattle.index_page.specs.Page.{page_outcome};
ghost use Rattle.index_layout.specs.Entries.{list_of};
ghost use Rattle.index_list.specs.List.{list_check, list_outcome};
ghost use Rattle.index_lookup.specs.Lookup.{lookup_of, bound_of};
ghost use Rattle.index_file.specs.File.{file_of};
ghost use Rattle.index_writer.specs.Write.{layout_for, write_check, write_outcome, length_outcome};
ghost use Rattle.index_list_entry.specs.Put.{location_of, entry_bytes, put_check, put_outcome};
ghost use Rattle.listing.specs.Listing.{text_of, listing_check, listing_outcome, fitted};
ghost use Rattle.crossing.specs.Crossing.{Crosses, test_outcome};
ghost use Rattle.dwarnizza.specs.Indexes.{settings_from, footer_outcome};

use crate::narrow::narrow_settings;
use answers::indexes::{tell_footer, tell_lookup};
use answers::told::{tell, tell_found};

// The full check: version, offset width, key length, entries and pages.
#[unsafe(no_mangle)]
pub extern "C" fn dwarnizza_index_check(index: &[u8], answer: &mut [u64; 8]) -> u32
    ensures { Crosses (check_outcome index.now) result answer.new }
{
    tell(index::check(index), answer)
}

// What the footer says, by the opening checks alone: version, offset width, key length, entries and pages.
#[unsafe(no_mangle)]
pub extern "C" fn dwarnizza_index_settings(index: &[u8], answer: &mut [u64; 8]) -> u32
    ensures { Crosses (open_outcome index.now) result answer.new }
{
    tell(index_open::open(index), answer)
}

// The entry in a slot of a page: place of the key, its length, size, archive number, offset, page and slot.
#[unsafe(no_mangle)]
pub extern "C" fn dwarnizza_index_entry(
    index: &[u8],
    page: u64,
    slot: u64,
    answer: &mut [u64; 8],
) -> u32
    ensures { Crosses (entry_outcome index.now page slot) result answer.new }
{
    tell_found(index_entry::find(index, page, slot), answer)
}

// What the footer says, by the opening checks but that of the length: version, offset width, key length, entries, pages, the length
// of the whole file and that of the footer.
#[unsafe(no_mangle)]
pub extern "C" fn dwarnizza_index_footer(index: &[u8], answer: &mut [u64; 8]) -> u32
    ensures { Crosses (footer_outcome index.now) result answer.new }
{
    tell_footer(index_open::read_footer(index), answer)
}

// Whether the footer is that of an index of loose files or of patches.
#[unsafe(no_mangle)]
pub extern "C" fn dwarnizza_index_loose(index: &[u8], answer: &mut [u64; 8]) -> u32
    ensures { Crosses (test_outcome (is_loose index.now)) result answer.new }
{
    *answer = [0u64; 8];
    if index_open::is_loose(index) { 0 } else { 1 }
}

// A page: place and length of the page, of its last key and of its hash, its first entry, and how many it has.
#[unsafe(no_mangle)]
pub extern "C" fn dwarnizza_index_page(index: &[u8], page: u64, answer: &mut [u64; 8]) -> u32
    ensures { Crosses (page_outcome index.now page) result answer.new }
{
    tell_found(index_page::find(index, index_page::page_of(page)), answer)
}

// The list of a checked index: the bytes written.
#[unsafe(no_mangle)]
pub extern "C" fn dwarnizza_index_list(
    index: &[u8],
    output: &mut [u8],
    answer: &mut [u64; 8],
) -> u32
    ensures crosses { Crosses (list_outcome index.now (length output.old)) result answer.new }
    ensures output_after { output.new
        ≡ filled (list_check index.now (length output.old)) (list_of index.now) output.old }
{
    tell(index_list::list(index, output), answer)
}

// The lookup of a key: page, slot, size, location and comparisons; of an absent key, the comparisons.
#[unsafe(no_mangle)]
pub extern "C" fn dwarnizza_index_lookup(index: &[u8], key: &[u8], answer: &mut [u64; 8]) -> u32
    ensures { Crosses (lookup_of index.now key.now) result answer.new }
{
    tell_lookup(index_lookup::lookup(index, key), answer)
}

// The most stored keys that a lookup in an index compares.
#[unsafe(no_mangle)]
pub extern "C" fn dwarnizza_index_bound(index: &[u8], answer: &mut [u64; 8]) -> u32
    ensures { Crosses (bound_of index.now) result answer.new }
{
    tell(index_lookup::bound(index), answer)
}

// Writes the index of a list: the bytes written.
#[unsafe(no_mangle)]
pub extern "C" fn dwarnizza_index_write(
    version: u32,
    offset_width: u32,
    key_length: u32,
    list: &[u8],
    output: &mut [u8],
    answer: &mut [u64; 8],
) -> u32
    ensures crosses { Crosses
        (write_outcome (settings_from version offset_width key_length) list.now (length output.old)) result answer.new }
    ensures output_after { output.new
        ≡ filled (write_check (settings_from version offset_width key_length) list.now (length output.old))
        (file_of list.now (layout_for (settings_from version offset_width key_length) list.now)) output.old }
{
    let settings = narrow_settings(version, offset_width, key_length);
    tell(index_writer::write(settings, list, output), answer)
}

// The length of the file that a list gives.
#[unsafe(no_mangle)]
pub extern "C" fn dwarnizza_index_written_length(
    version: u32,
    offset_width: u32,
    key_length: u32,
    list: &[u8],
    answer: &mut [u64; 8],
) -> u32
    ensures { Crosses (length_outcome (settings_from version offset_width key_length) list.now) result answer.new }
{
    let settings = narrow_settings(version, offset_width, key_length);
    tell(index_writer::written_length(settings, list), answer)
}

// Puts one entry of a list: the bytes written.
#[unsafe(no_mangle)]
pub extern "C" fn dwarnizza_list_put(
    version: u32,
    offset_width: u32,
    key_length: u32,
    key: &[u8],
    size: u32,
    archive: u32,
    offset: u64,
    output: &mut [u8],
    answer: &mut [u64; 8],
) -> u32
    ensures crosses { Crosses
        (put_outcome (settings_from version offset_width key_length) key.now archive offset (length output.old))
        result answer.new }
    ensures output_after { output.new
        ≡ filled (put_check (settings_from version offset_width key_length) key.now archive offset (length output.old))
        (entry_bytes offset_width key.now size (location_of archive offset)) output.old }
{
    let settings = narrow_settings(version, offset_width, key_length);
    tell(
        index_list_entry::put_entry(settings, key, size, archive, offset, output),
        answer,
    )
}

// The listing of an index: the length of the text, which stands at the output's start where there is room for all of it.
#[unsafe(no_mangle)]
pub extern "C" fn dwarnizza_index_listing(
    input: &[u8],
    output: &mut [u8],
    answer: &mut [u64; 8],
) -> u32
    ensures crosses { Crosses (listing_outcome input.now) result answer.new }
    ensures output_after { output.new ≡ fitted (listing_check input.now) (text_of input.now) output.old }
{
    tell(listing::listing(input, output), answer)
}
