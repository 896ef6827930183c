#![tactic(auto, unfolding(refusal::specs::Check::first, refusal::specs::Check::refused_if, refusal::specs::Outcome::after))]

// The full check of an encoding file.
ghost use Rattle.std.specs.Prelude.{◌≡◌, ◌+◌, IfOk};
ghost use Rattle.parts.specs.Part.{same_bytes};
ghost use Rattle.md5_digest.specs.Message.{md5};
ghost use Rattle.refusal.specs.Check.{check_of};
ghost use Rattle.encoding_header.specs.Header as header;
ghost use Rattle.encoding_page.specs.Entries as entries;
ghost use Rattle.encoding.specs.Check as spec;

use encoding_header::{Header, Kind, first_key, page_hash, page_of, spec_table};
use encoding_page::{Span, Walked, over, starts_with, walk};
use md5_two::digests;
use parts::equal;
use refusal::{Reason, Refusal};

// One page, with its hash and what its entries tell: 34, 35, 37, 36, 38.
#[tactic(auto, unfolding(refusal::specs::Check::first, refusal::specs::Check::refused_if, crate::specs::Check::first_key_right, encoding_page::specs::Entries::entries_of))]
fn judge(
    file: &[u8],
    h: Header,
    kind: Kind,
    page: u32,
    hash: &[u8; 16],
    w: Walked,
) -> Result<(), Refusal>
    ensures { check_of result
        ≡ spec.check_in_order page (same_bytes hash.now (header.page_hash file.now h kind page))
        (entries.over_end file.now kind (header.page_end h kind page) w.end)
        (spec.first_key_right file.now h kind page) w.rises w.specs_known }
{
    let place = page as usize;
    if !equal(hash, page_hash(file, h, kind, page)) {
        return Err(Reason::EncodingPageHash.at(place));
    }
    let end = h.page_end(kind, page);
    if over(file, kind, end, w.end) {
        return Err(Reason::EntryOverPage.at(place));
    }
    let first = first_key(file, h, kind, page);
    if !starts_with(file, h, kind, end, h.page_at(kind, page), first) {
        return Err(Reason::FirstKey.at(place));
    }
    if !w.rises {
        return Err(Reason::EncodingOrder.at(place));
    }
    if !w.specs_known {
        return Err(Reason::SpecNumber.at(0));
    }
    Ok(())
}

// One page, with its hash, after the last key of the pages before it: the last key up to its end.
fn check_page(
    file: &[u8],
    h: Header,
    kind: Kind,
    page: u32,
    hash: &[u8; 16],
    before: Span,
    specs: usize,
) -> Result<Span, Refusal>
    requires { (hash.now ≡ md5 (header.page_of file.now h kind page))
        × (entries.span_of file.now before ≡ spec.key_before file.now h kind page)
        × (specs ≡ spec.specs_of file.now h) }
    ensures check { check_of result ≡ spec.page_check file.now h kind page }
    ensures last { IfOk result (λ last. entries.span_of file.now last ≡ spec.key_before file.now h kind (page + 1)) }
{
    let end = h.page_end(kind, page);
    let w = walk(file, h, kind, end, h.page_at(kind, page), before, specs);
    judge(file, h, kind, page, hash, w)?;
    Ok(w.last)
}

// The pages of a kind, one after the other. Two are hashed together because that is quicker; each is judged whole before the
// next.
fn check_pages(file: &[u8], h: Header, kind: Kind, specs: usize) -> Result<(), Refusal>
    requires { specs ≡ spec.specs_of file.now h }
    ensures { check_of result ≡ spec.pages_check file.now h kind }
{
    let pages = h.table(kind).pages;
    let mut last = Span { at: 0, size: 0 };
    let mut i = 0;
    while i < pages {
        let next = i + 1;
        let (first, second) = digests(page_of(file, h, kind, i), page_of(file, h, kind, next));
        let hash = first?;
        let middle = check_page(file, h, kind, i, &hash, last, specs)?;
        if pages <= next {
            return Ok(());
        }
        let next_hash = second?;
        last = check_page(file, h, kind, next, &next_hash, middle, specs)?;
        i += 2;
    }
    Ok(())
}

// The full check: 30 to 33, then the content pages, then the encoding pages.
pub fn check(file: &[u8]) -> Result<(), Refusal>
    ensures { check_of result ≡ spec.full_check file.now }
{
    let h = encoding_header::open(file)?;
    let specs = spec_table::count(spec_table(file, h));
    check_pages(file, h, Kind::Content, specs)?;
    check_pages(file, h, Kind::Encoding, specs)
}
