#![tactic(auto)]

// The entries of a page of an encoding file, of either kind. A page is told by where it ends in the file, and an entry by its
// offset in the file. specs/Entries.antt has the names of the constants as that language writes them.
ghost use Rattle.std.specs.Prelude.{◌≡◌, ◌+◌, ◌≤◌, ◌<◌, ◌^◌, IfOk};
ghost use Rattle.encoding_page.specs.Entries as spec;

use encoding_header::{Header, Kind};
use numbers::big;
use parts::{all_zero, byte, part};

// A content entry: count, decoded size, content key, encoding keys.
pub const COUNT_WIDTH: usize = 1;

pub const SIZE_WIDTH: usize = 5;

// An encoding entry: key, spec number, encoded size.
pub const SPEC_WIDTH: usize = 4;

// The spec number of padding with any key.
pub const NO_SPEC: u64 = 4_294_967_295;

// A part of the file, by its place and length.
#[derive(Clone, Copy)]
pub struct Span {
    pub at: usize,
    pub size: u8,
}

// What reading a page's entries tells: where they end, the last key, whether the keys rise, and whether each spec number has a
// spec.
#[derive(Clone, Copy)]
pub struct Walked {
    pub end: usize,
    pub last: Span,
    pub rises: bool,
    pub specs_known: bool,
}

// Where the key stands in an entry.
#[tactic(auto, unfolding(crate::specs::Entries::key_offset))]
fn key_offset(kind: Kind) -> usize
    ensures { result ≡ spec.key_offset kind }
{
    match kind {
        Kind::Content => COUNT_WIDTH + SIZE_WIDTH,
        Kind::Encoding => 0,
    }
}

// The bytes of a key.
fn key_size(h: Header, kind: Kind) -> u8
    ensures { result ≡ spec.size_of_key h kind }
{
    h.table(kind).key_size
}

// The bytes of an entry.
#[tactic(auto, unfolding(crate::specs::Entries::entry_size))]
pub fn entry_size(file: &[u8], h: Header, kind: Kind, at: usize) -> usize
    ensures { result ≡ spec.entry_size file.now h kind at }
{
    match kind {
        Kind::Content => {
            let keys = usize::from(byte(file, at)) * usize::from(h.encoding.key_size);
            COUNT_WIDTH + SIZE_WIDTH + usize::from(h.content.key_size) + keys
        }
        Kind::Encoding => usize::from(h.encoding.key_size) + SPEC_WIDTH + SIZE_WIDTH,
    }
}

// Whether a page's entries end at an offset.
#[tactic(auto, unfolding(crate::specs::Entries::ended))]
pub fn ended(file: &[u8], h: Header, kind: Kind, end: usize, at: usize) -> bool
    ensures { result ≡ spec.ended file.now h kind end at }
{
    if end.saturating_sub(at) < entry_size(file, h, kind, at) {
        return true;
    }
    match kind {
        Kind::Content => byte(file, at) == 0,
        Kind::Encoding => false,
    }
}

// The key of an entry, by its place.
fn key_span(h: Header, kind: Kind, at: usize) -> Span
    requires { at + spec.key_offset kind < 2 ^ 64 }
    ensures { (result.at ≡ at + spec.key_offset kind) × (result.size ≡ spec.size_of_key h kind) }
{
    Span {
        at: at + key_offset(kind),
        size: key_size(h, kind),
    }
}

// The spec number of an encoding entry.
#[tactic(auto, unfolding(crate::specs::Entries::entry_size, crate::specs::Entries::spec_number_at))]
fn spec_number(file: &[u8], h: Header, at: usize) -> u64
    requires { at + spec.entry_size file.now h Kind.Encoding at < 2 ^ 64 }
    ensures { result ≡ spec.spec_number_at file.now h at }
{
    big(file, at + usize::from(h.encoding.key_size), SPEC_WIDTH)
}

// Whether an entry is padding.
#[tactic(auto, unfolding(crate::specs::Entries::padding))]
fn padding(file: &[u8], h: Header, kind: Kind, at: usize) -> bool
    requires { at + spec.entry_size file.now h kind at < 2 ^ 64 }
    ensures { result ≡ spec.padding file.now h kind at }
{
    if let Kind::Content = kind {
        return false;
    }
    let number = spec_number(file, h, at);
    if number == NO_SPEC {
        return true;
    }
    if number != 0 {
        return false;
    }
    all_zero(part(file, at, usize::from(h.encoding.key_size)))
}

// The first entry from an offset on, or where the entries end.
pub fn next(file: &[u8], h: Header, kind: Kind, end: usize, from: usize) -> usize
    ensures { result ≡ spec.next_entry file.now h kind end from }
{
    let mut at = from;
    while !ended(file, h, kind, end, at) {
        if !padding(file, h, kind, at) {
            return at;
        }
        at += entry_size(file, h, kind, at);
    }
    at
}

// Whether the first entry from an offset on has a key.
pub fn starts_with(file: &[u8], h: Header, kind: Kind, end: usize, from: usize, key: &[u8]) -> bool
    ensures { result
        ≡ spec.starts_with (spec.key_at file.now h kind) key.now (spec.walk_from file.now h kind end from).entries }
{
    let at = next(file, h, kind, end, from);
    if ended(file, h, kind, end, at) {
        return false;
    }
    key::same(
        key,
        part(file, at + key_offset(kind), usize::from(key_size(h, kind))),
    )
}

// Whether an entry is over a page's end, where the page's entries end at an offset.
#[tactic(auto, unfolding(crate::specs::Entries::over_end))]
pub fn over(file: &[u8], kind: Kind, end: usize, at: usize) -> bool
    ensures { result ≡ spec.over_end file.now kind end at }
{
    match kind {
        Kind::Content => at < end && byte(file, at) != 0,
        Kind::Encoding => false,
    }
}

// Whether an encoding entry's spec number is below the number of specs.
#[tactic(auto, unfolding(crate::specs::Entries::spec_known))]
fn spec_known(file: &[u8], h: Header, kind: Kind, specs: usize, at: usize) -> bool
    requires { at + spec.entry_size file.now h kind at < 2 ^ 64 }
    ensures { result ≡ spec.spec_known file.now h kind specs at }
{
    match kind {
        Kind::Content => true,
        Kind::Encoding => spec_number(file, h, at) < specs as u64,
    }
}

// Whether the key of one place is below that of another.
fn key_rises(file: &[u8], a: Span, b: Span) -> bool
    ensures { result ≡ spec.rises_to (spec.span_of file.now a) (spec.span_of file.now b) }
{
    key::rises(
        part(file, a.at, usize::from(a.size)),
        part(file, b.at, usize::from(b.size)),
    )
}

// Reads a page's entries from an offset on, after a key that stands before them.
pub fn walk(
    file: &[u8],
    h: Header,
    kind: Kind,
    end: usize,
    from: usize,
    before: Span,
    specs: usize,
) -> Walked
    ensures ends { result.end ≡ (spec.walk_from file.now h kind end from).end }
    ensures order { result.rises
        ≡ spec.rising (spec.key_at file.now h kind) (spec.span_of file.now before)
        (spec.walk_from file.now h kind end from).entries }
    ensures last { result.last ≡ spec.last_span (spec.key_span h kind) before (spec.walk_from file.now h kind end from).entries }
    ensures numbers { result.specs_known
        ≡ spec.all (spec.spec_known file.now h kind specs) (spec.walk_from file.now h kind end from).entries }
{
    let mut last = before;
    let mut rises = true;
    let mut specs_known = true;
    let mut at = next(file, h, kind, end, from);
    while !ended(file, h, kind, end, at) {
        let key = key_span(h, kind, at);
        rises &= key_rises(file, last, key);
        specs_known &= spec_known(file, h, kind, specs, at);
        last = key;
        at = next(file, h, kind, end, at + entry_size(file, h, kind, at));
    }
    Walked {
        end: at,
        last,
        rises,
        specs_known,
    }
}

// Searches a page's entries for a key, one after the other: the entry that has it, or where the entries end.
pub fn find(
    file: &[u8],
    h: Header,
    kind: Kind,
    end: usize,
    from: usize,
    key: &[u8],
) -> Result<usize, usize>
    ensures value { result ≡ spec.searched file.now h kind key.now (spec.walk_from file.now h kind end from) }
    ensures by_index { IfOk result (λ at. at + spec.entry_size file.now h kind at ≤ end) }
{
    let size = usize::from(key_size(h, kind));
    let mut at = next(file, h, kind, end, from);
    while !ended(file, h, kind, end, at) {
        if key::same(part(file, at + key_offset(kind), size), key) {
            return Ok(at);
        }
        at = next(file, h, kind, end, at + entry_size(file, h, kind, at));
    }
    Err(at)
}
