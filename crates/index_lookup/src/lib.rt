#![tactic(auto)]

// The lookup of a key in an archive index, by the halving rule, and how many stored keys it may compare.
ghost use Rattle.std.specs.Prelude.{◌≡◌, [], ◌∷◌, ◌≤◌, length};
ghost use Rattle.refusal.specs.Outcome.{absent};
ghost use Rattle.index_layout.specs.Entries as entries;
ghost use Rattle.index_lookup.specs.Lookup as spec;

use halving::{binary_digits, halve};
use index_layout::{Layout, Page, Slot};
use parts::part;
use refusal::{Reason, Refusal};

// A found entry.
#[derive(Clone, Copy)]
pub struct Entry {
    pub page: Page,
    pub slot: Slot,
    pub size: u32,
    pub location: u64,
}

// What a lookup tells: the entry, if the key is there, and how many stored keys were compared.
#[derive(Clone, Copy)]
pub struct Answer {
    pub found: Option<Entry>,
    pub compared: u32,
}

impl Answer {
    // What is told of an absent key, after some comparisons.
    fn absent(compared: u32) -> Answer
        ensures { spec.told result ≡ absent (0 ∷ 0 ∷ 0 ∷ 0 ∷ compared ∷ []) }
    {
        Answer {
            found: None,
            compared,
        }
    }
}

// Where a halving ended, and how many keys it compared. The place is a page or a slot.
#[derive(Clone, Copy)]
struct End<T> {
    place: T,
    compared: u32,
}

// Halves over the last keys.
fn find_page(index: &[u8], l: Layout, key: &[u8]) -> End<Page>
    requires { length key.now ≡ l.key_length }
    ensures result_value { spec.page_end result ≡ spec.page_halved (spec.stored_in index.now l key.now) }
    ensures compared_bound { result.compared ≤ 32 }
{
    let last_keys = part(index, l.last_key_at(Page(0)), index.len());
    let halved = halve(last_keys, u16::from(l.key_length), l.pages, key);
    End {
        place: Page(halved.place),
        compared: halved.count,
    }
}

// Halves over a page's entries.
fn find_slot(index: &[u8], l: Layout, key: &[u8], page: Page) -> End<Slot>
    requires { length key.now ≡ l.key_length }
    ensures result_value { spec.slot_end result ≡ spec.slot_halved (spec.stored_in index.now l key.now) page.0 }
    ensures compared_bound { result.compared ≤ 32 }
{
    let entries = part(index, l.entry_at(page, Slot(0)), index.len());
    let count = l.on_page(page) as u32;
    let halved = halve(entries, l.entry_size() as u16, count, key);
    End {
        place: Slot(halved.place),
        compared: halved.count,
    }
}

// The entry in a slot.
fn found(index: &[u8], l: Layout, page: Page, slot: Slot) -> Entry
    requires { l.offset_width ≤ 8 }
    ensures { spec.values result ≡ page.0 ∷ slot.0 ∷ entries.size_at index.now l page.0 slot.0
        ∷ entries.location_at index.now l page.0 slot.0 ∷ [] }
{
    Entry {
        page,
        slot,
        size: l.size_at(index, page, slot),
        location: l.location_at(index, page, slot),
    }
}

// A page's entries, after some comparisons of last keys.
fn seek_on(index: &[u8], l: Layout, key: &[u8], page: Page, count: u32) -> Answer
    requires { (length key.now ≡ l.key_length) × (l.offset_width ≤ 8) × (count ≤ 32) }
    ensures { spec.told result
        ≡ spec.end_outcome index.now l (spec.ended_on (spec.stored_in index.now l key.now) page.0 count) }
{
    let end = find_slot(index, l, key, page);
    let slot = end.place;
    let compared = count + end.compared;
    if l.on_page(page) <= slot.0 as usize {
        return Answer::absent(compared);
    }
    let at = l.entry_at(page, slot);
    if !key::same(part(index, at, usize::from(l.key_length)), key) {
        return Answer::absent(compared + 1);
    }
    Answer {
        found: Some(found(index, l, page, slot)),
        compared: compared + 1,
    }
}

// The last keys, then the entries of the page that they tell.
fn seek(index: &[u8], l: Layout, key: &[u8]) -> Answer
    requires { (length key.now ≡ l.key_length) × (l.offset_width ≤ 8) }
    ensures { spec.told result ≡ spec.end_outcome index.now l (spec.ended (spec.stored_in index.now l key.now)) }
{
    let end = find_page(index, l, key);
    let page = end.place;
    if l.pages <= page.0 {
        return Answer::absent(end.compared);
    }
    seek_on(index, l, key, page, end.compared)
}

// Looks a key up. The opening checks, then 10; no page is checked.
pub fn lookup(index: &[u8], key: &[u8]) -> Result<Answer, Refusal>
    ensures { spec.outcome result ≡ spec.lookup_of index.now key.now }
{
    let l = index_open::open(index)?;
    if key.len() != usize::from(l.key_length) {
        return Err(Reason::IndexKeyLength.at(0));
    }
    Ok(seek(index, l, key))
}

// The most stored keys that a lookup in an index compares. The opening checks.
pub fn bound(index: &[u8]) -> Result<u32, Refusal>
    ensures { spec.bound_outcome result ≡ spec.bound_of index.now }
{
    let l = index_open::open(index)?;
    Ok(binary_digits(l.pages) + binary_digits(l.full() as u32) + 1)
}
