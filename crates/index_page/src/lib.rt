#![tactic(auto)]

// Where a page of an archive index and its parts stand.
ghost use Rattle.std.specs.Prelude.{◌≡◌};
ghost use Rattle.index_page.specs.Page as spec;

use index_layout::{Layout, Page, Slot, page_at};
use refusal::Refusal;

// The greatest number that a `Page` holds.
const GREATEST_PAGE: u64 = 4_294_967_295;

// A page: its place, the places of its stored last key and hash and the key's length, the number of its first entry through the whole
// file and how many it has.
#[derive(Clone, Copy)]
pub struct Places {
    pub page_at: usize,
    pub last_key_at: usize,
    pub key_length: u8,
    pub hash_at: usize,
    pub first_entry: usize,
    pub entries: usize,
}

// Where the parts of a page stand.
fn places_of(l: Layout, page: Page) -> Places
    ensures { spec.values result ≡ spec.values_of l page.0 }
{
    let key_length = l.key_length;
    Places {
        page_at: page_at(page),
        last_key_at: l.last_key_at(page),
        key_length,
        hash_at: l.page_hash_at(page),
        first_entry: l.entry_number(page, Slot(0)),
        entries: l.on_page(page),
    }
}

// A page, if the index has it. The opening checks; no page is checked.
pub fn find(index: &[u8], page: Page) -> Result<Option<Places>, Refusal>
    ensures { spec.outcome result ≡ spec.page_outcome index.now page.0 }
{
    let l = index_open::open(index)?;
    if l.pages <= page.0 {
        return Ok(None);
    }
    Ok(Some(places_of(l, page)))
}

// The page of a number that comes from outside: the greatest for any above it, which no index has.
pub fn page_of(number: u64) -> Page
    ensures { result.0 ≡ spec.page_of_number number }
{
    Page(number.min(GREATEST_PAGE) as u32)
}
