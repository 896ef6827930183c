#![tactic(auto, unfolding(refusal::specs::Check::first, refusal::specs::Check::refused_if, refusal::specs::Outcome::after))]

// Lookups in an encoding file: of a content key, of an encoding key, and of a spec by its number. They make only the checks named
// for them; no page is checked.
ghost use Rattle.std.specs.Prelude.{◌≡◌, ◌+◌, ◌<◌, ◌^◌, IfSome, IfOk};
ghost use Rattle.refusal.specs.Outcome.{answered, outcome_by};
ghost use Rattle.encoding_header.specs.Header as header;
ghost use Rattle.encoding_page.specs.Entries as entries;
ghost use Rattle.encoding_lookup.specs.Lookup as spec;

use encoding_header::{HEADER_SIZE, Header, Kind, spec_table};
use encoding_index::pages_up_to;
use encoding_page::{COUNT_WIDTH, SIZE_WIDTH, SPEC_WIDTH, find, over};
use numbers::big;
use parts::{byte, part};
use refusal::{Reason, Refusal};

// What a content entry tells: the decoded size, the number of encoding keys, and the place and length of their run in the file.
#[derive(Clone, Copy)]
pub struct Content {
    pub size: u64,
    pub keys: u32,
    pub at: usize,
    pub length: usize,
}

// What an encoding entry tells: the number of its spec, the encoded size, and the place and length of the spec in the file.
#[derive(Clone, Copy)]
pub struct Encoded {
    pub spec: u32,
    pub size: u64,
    pub at: usize,
    pub length: usize,
}

// The place and length of a spec in the file, without its zero byte.
#[derive(Clone, Copy)]
pub struct Spec {
    pub at: usize,
    pub length: usize,
}

// Refusals 30 to 33, then 39, and what the header says.
fn open_for(file: &[u8], kind: Kind, key: &[u8]) -> Result<Header, Refusal>
    ensures { header.outcome result ≡ spec.opened_for file.now kind key.now }
{
    let h = encoding_header::open(file)?;
    if key.len() != usize::from(h.table(kind).key_size) {
        return Err(Reason::EncodingKeyLength.at(0));
    }
    Ok(h)
}

// Searches the page that the first keys tell for the entry with a key: refusal 35 at an entry over the end of the page.
fn seek_key(file: &[u8], h: Header, kind: Kind, key: &[u8]) -> Result<Option<usize>, Refusal>
    ensures value { result ≡ spec.seek file.now h kind key.now }
    ensures by_index { IfOk result (λ found. IfSome found (λ at. at + entries.entry_size file.now h kind at < 2 ^ 64)) }
{
    let pages = pages_up_to(file, h, kind, key);
    if pages == 0 {
        return Ok(None);
    }
    let page = pages - 1;
    let end = h.page_end(kind, page);
    match find(file, h, kind, end, h.page_at(kind, page), key) {
        Ok(at) => Ok(Some(at)),
        Err(at) => {
            if over(file, kind, end, at) {
                return Err(Reason::EntryOverPage.at(page as usize));
            }
            Ok(None)
        }
    }
}

// What a content entry tells.
#[tactic(auto, unfolding(encoding_page::specs::Entries::entry_size))]
fn content_at(file: &[u8], h: Header, at: usize) -> Content
    requires { at + entries.entry_size file.now h Kind.Content at < 2 ^ 64 }
    ensures { answered (spec.content_values result) ≡ spec.content_told file.now h at }
{
    let keys = byte(file, at);
    Content {
        size: big(file, at + COUNT_WIDTH, SIZE_WIDTH),
        keys: u32::from(keys),
        at: at + COUNT_WIDTH + SIZE_WIDTH + usize::from(h.content.key_size),
        length: usize::from(keys) * usize::from(h.encoding.key_size),
    }
}

// Looks a content key up. Refusals 30 to 33, 39, then 35.
pub fn find_content(file: &[u8], key: &[u8]) -> Result<Option<Content>, Refusal>
    ensures { spec.content_outcome result ≡ spec.content_lookup file.now key.now }
{
    let h = open_for(file, Kind::Content, key)?;
    match seek_key(file, h, Kind::Content, key)? {
        Some(at) => Ok(Some(content_at(file, h, at))),
        None => Ok(None),
    }
}

// The run of encoding keys of a content key, as the part of the file where it stands, at the place that the lookup tells; empty,
// at the file's start, where the lookup refuses or the key is absent.
#[tactic(auto, unfolding(crate::specs::Lookup::told_value, crate::specs::Lookup::encoding_keys_of, crate::specs::Lookup::encoding_keys_at))]
pub fn encoding_keys<'a>(file: &'a [u8], key: &[u8]) -> &'a [u8]
    ensures result_value { result.now ≡ spec.encoding_keys_of file.now key.now }
    ensures ref_ptr_value { (result.ref_ptr.0 ≡ file.entry.ref_ptr.0) × (result.ref_ptr.1 ≡ file.entry.ref_ptr.1 + spec.encoding_keys_at file.now key.now) }
{
    match find_content(file, key) {
        Ok(Some(run)) => part(file, run.at, run.length),
        _ => part(file, 0, 0),
    }
}

// Where a spec stands: 38 past the table.
fn spec_at(file: &[u8], h: Header, number: u32) -> Result<Spec, Refusal>
    ensures { spec.spec_outcome result ≡ spec.spec_told file.now h number }
{
    let table = spec_table(file, h);
    let start = spec_table::start(table, number);
    let length = spec_table::length(table, start);
    if table.len() <= start + length {
        return Err(Reason::SpecNumber.at(0));
    }
    Ok(Spec {
        at: HEADER_SIZE + start,
        length,
    })
}

// What an encoding entry tells: 38 where its spec number is past the table.
#[tactic(auto, unfolding(encoding_page::specs::Entries::entry_size, encoding_page::specs::Entries::spec_number_at))]
fn encoding_at(file: &[u8], h: Header, at: usize) -> Result<Encoded, Refusal>
    requires { at + entries.entry_size file.now h Kind.Encoding at < 2 ^ 64 }
    ensures { outcome_by spec.encoding_values result ≡ spec.encoding_told file.now h at }
{
    let number_at = at + usize::from(h.encoding.key_size);
    let number = big(file, number_at, SPEC_WIDTH) as u32;
    let place = spec_at(file, h, number)?;
    Ok(Encoded {
        spec: number,
        size: big(file, number_at + SPEC_WIDTH, SIZE_WIDTH),
        at: place.at,
        length: place.length,
    })
}

// Looks an encoding key up. Refusals 30 to 33, 39, then 38 for the found entry.
pub fn find_encoding(file: &[u8], key: &[u8]) -> Result<Option<Encoded>, Refusal>
    ensures { spec.encoding_outcome result ≡ spec.encoding_lookup file.now key.now }
{
    let h = open_for(file, Kind::Encoding, key)?;
    match seek_key(file, h, Kind::Encoding, key)? {
        Some(at) => Ok(Some(encoding_at(file, h, at)?)),
        None => Ok(None),
    }
}

// The spec of an encoding key, as the part of the file where it stands, at the place that the lookup tells; empty, at the file's
// start, where the lookup refuses or the key is absent.
#[tactic(auto, unfolding(crate::specs::Lookup::told_value, crate::specs::Lookup::encoding_spec, crate::specs::Lookup::encoding_spec_at))]
pub fn encoding_spec<'a>(file: &'a [u8], key: &[u8]) -> &'a [u8]
    ensures result_value { result.now ≡ spec.encoding_spec file.now key.now }
    ensures ref_ptr_value { (result.ref_ptr.0 ≡ file.entry.ref_ptr.0) × (result.ref_ptr.1 ≡ file.entry.ref_ptr.1 + spec.encoding_spec_at file.now key.now) }
{
    match find_encoding(file, key) {
        Ok(Some(spec)) => part(file, spec.at, spec.length),
        _ => part(file, 0, 0),
    }
}

// Where the spec with a number stands. Refusals 30 to 33, then 38.
pub fn find_spec(file: &[u8], number: u32) -> Result<Spec, Refusal>
    ensures { spec.spec_outcome result ≡ spec.spec_lookup file.now number }
{
    let h = encoding_header::open(file)?;
    spec_at(file, h, number)
}

// The spec with a number, as the part of the file where it stands; empty where asking for it refuses, at the spec table's start
// with 38 and at the file's start with 30 to 33.
pub fn spec_string(file: &[u8], number: u32) -> &[u8]
    ensures result_value { result.now ≡ spec.spec_string file.now number }
    ensures ref_ptr_value { (result.ref_ptr.0 ≡ file.entry.ref_ptr.0) × (result.ref_ptr.1 ≡ file.entry.ref_ptr.1 + spec.spec_string_at file.now number) }
{
    match encoding_header::open(file) {
        Ok(h) => spec_table::string(spec_table(file, h), number),
        Err(_) => part(file, 0, 0),
    }
}
