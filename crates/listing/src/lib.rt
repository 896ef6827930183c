#![tactic(auto, unfolding(refusal::specs::Check::first, refusal::specs::Check::refused_if, refusal::specs::Outcome::after))]

// An archive index as text.
ghost use Rattle.std.specs.Prelude.{◌≡◌, ◌≤◌, length};
ghost use Rattle.refusal.specs.Outcome.{answered, after, written_outcome};
ghost use Rattle.index_layout.specs.Layout.{layout_of};
ghost use Rattle.index_open.specs.Open.{layout_values, outcome};
ghost use Rattle.parts.specs.Part.{overlay};
ghost use Rattle.text.specs.Place.{place_after};
ghost use Rattle.listing.specs.Listing as spec;

use index_layout::{Layout, Page, Slot};
use listing_lines::{put_entry, put_header};
use parts::part;
use refusal::{Reason, Refusal};

// The longest input that is listed.
const MOST_INPUT: usize = 65_536;

// The line of an entry.
fn put_line(index: &[u8], l: Layout, page: Page, slot: Slot, output: &mut [u8], at: usize) -> usize
    requires { l.offset_width ≤ 8 }
    ensures value { result ≡ place_after at (length (spec.line index.now l page.0 slot.0)) }
    ensures output_after { output.new ≡ overlay output.old at (spec.line index.now l page.0 slot.0) }
{
    put_entry(
        part(index, l.entry_at(page, slot), usize::from(l.key_length)),
        u64::from(l.size_at(index, page, slot)),
        l.offset_width,
        l.location_at(index, page, slot),
        output,
        at,
    )
}

// The lines of a page's entries.
fn put_page(index: &[u8], l: Layout, page: Page, output: &mut [u8], at: usize) -> usize
    requires { l.offset_width ≤ 8 }
    ensures value { result ≡ place_after at (length (spec.page_text index.now l page.0)) }
    ensures output_after { output.new ≡ overlay output.old at (spec.page_text index.now l page.0) }
{
    let mut to = at;
    for i in 0..l.on_page(page) {
        to = put_line(index, l, page, Slot(i as u32), output, to);
    }
    to
}

// The lines of all pages.
fn put_pages(index: &[u8], l: Layout, output: &mut [u8], at: usize) -> usize
    requires { l.offset_width ≤ 8 }
    ensures value { result ≡ place_after at (length (spec.pages_text index.now l)) }
    ensures output_after { output.new ≡ overlay output.old at (spec.pages_text index.now l) }
{
    let mut to = at;
    for p in 0..l.pages {
        to = put_page(index, l, Page(p), output, to);
    }
    to
}

// 70, then the full check.
fn check(input: &[u8]) -> Result<Layout, Refusal>
    ensures { outcome result ≡ after (spec.listing_check input.now) (answered (layout_values (layout_of input.now))) }
{
    if MOST_INPUT < input.len() {
        return Err(Reason::ListingInput.at(0));
    }
    index::check(input)
}

// The whole text.
fn put_text(index: &[u8], l: Layout, output: &mut [u8]) -> usize
    requires { l.offset_width ≤ 8 }
    ensures value { result ≡ place_after 0 (length (spec.text_by index.now l)) }
    ensures output_after { output.new ≡ overlay output.old 0 (spec.text_by index.now l) }
{
    let to = put_header(l, output, 0);
    put_pages(index, l, output, to)
}

// The length of the listing of an index. The text stands at the output's start where there is room for all of it; else the output
// stays as it was. It is measured by putting it where there is no room.
pub fn listing(input: &[u8], output: &mut [u8]) -> Result<usize, Refusal>
    ensures result_value { written_outcome result ≡ spec.listing_outcome input.now }
    ensures output_after { output.new ≡ spec.fitted (spec.listing_check input.now) (spec.text_of input.now) output.old }
{
    let l = check(input)?;
    let mut no_room = [0u8; 0];
    let length = put_text(input, l, &mut no_room);
    if length <= output.len() {
        put_text(input, l, output);
    }
    Ok(length)
}
