#![tactic(auto, unfolding(refusal::specs::Check::first, refusal::specs::Check::refused_if, refusal::specs::Outcome::after))]

// The header of an encoding file: refusals 30 to 33, and where its parts stand. Every value of a header is answered for: the
// types keep each sum and product within its range. specs/Header.antt has the same names, as that language writes them.
ghost use Rattle.std.specs.Prelude.{◌≡◌, ◌+◌, min, length};
ghost use Rattle.encoding_header.specs.Header as spec;

use numbers::{big, within};
use parts::{byte, equal, part};
use refusal::{Reason, Refusal};

pub const HEADER_SIZE: usize = 22;

// Where the header's fields stand in it.
pub const VERSION_AT: usize = 2;

pub const CONTENT_KEY_SIZE_AT: usize = 3;

pub const ENCODING_KEY_SIZE_AT: usize = 4;

pub const CONTENT_PAGE_KB_AT: usize = 5;

pub const ENCODING_PAGE_KB_AT: usize = 7;

pub const CONTENT_PAGES_AT: usize = 9;

pub const ENCODING_PAGES_AT: usize = 13;

pub const FLAGS_AT: usize = 17;

pub const SPEC_SIZE_AT: usize = 18;

// What the header's fields may be.
pub const VERSION: u8 = 1;

pub const LEAST_KEY_SIZE: u8 = 1;

pub const MOST_KEY_SIZE: u8 = 16;

pub const FLAGS: u8 = 0;

// The bytes of a KB, and of a page's MD5.
pub const KB: usize = 1024;

pub const HASH_SIZE: usize = 16;

// The two kinds of pages: content keys with their encoding keys, and encoding keys with their specs.
#[derive(Clone, Copy)]
pub enum Kind {
    Content,
    Encoding,
}

// What a header says of the pages of one kind, and of their index.
#[derive(Clone, Copy)]
pub struct Table {
    pub key_size: u8,
    pub page_kb: u16,
    pub pages: u32,
}

// What a header says.
#[derive(Clone, Copy)]
pub struct Header {
    pub content: Table,
    pub encoding: Table,
    pub spec_size: u32,
}

impl Table {
    // The bytes of an index entry: first key and MD5 of the page.
    #[tactic(auto, unfolding(crate::specs::Header::row_size))]
    pub fn row_size(self) -> usize
        ensures { result ≡ spec.row_size self }
    {
        usize::from(self.key_size) + HASH_SIZE
    }

    // The bytes of a page.
    #[tactic(auto, unfolding(crate::specs::Header::page_size))]
    pub fn page_size(self) -> usize
        ensures { result ≡ spec.page_size self }
    {
        usize::from(self.page_kb) * KB
    }

    // The bytes of the index.
    #[tactic(auto, unfolding(crate::specs::Header::index_size))]
    pub fn index_size(self) -> usize
        ensures { result ≡ spec.index_size self }
    {
        self.pages as usize * self.row_size()
    }

    // The bytes of the index and the pages.
    #[tactic(auto, unfolding(crate::specs::Header::table_size))]
    pub fn size(self) -> usize
        ensures { result ≡ spec.table_size self }
    {
        self.index_size() + self.pages as usize * self.page_size()
    }
}

impl Header {
    // What the header says of a kind's pages.
    #[tactic(auto, unfolding(crate::specs::Header::table_of))]
    pub fn table(self, kind: Kind) -> Table
        ensures { result ≡ spec.table_of self kind }
    {
        match kind {
            Kind::Content => self.content,
            Kind::Encoding => self.encoding,
        }
    }

    // Where a kind's index stands, behind the spec table or behind the content pages.
    #[tactic(auto, unfolding(crate::specs::Header::index_at))]
    pub fn index_at(self, kind: Kind) -> usize
        ensures { result ≡ spec.index_at self kind }
    {
        let content_at = HEADER_SIZE + self.spec_size as usize;
        match kind {
            Kind::Content => content_at,
            Kind::Encoding => content_at + self.content.size(),
        }
    }

    // Where a page's index entry stands.
    #[tactic(auto, unfolding(crate::specs::Header::row_at))]
    pub fn row_at(self, kind: Kind, page: u32) -> usize
        ensures { result ≡ spec.row_at self kind page }
    {
        self.index_at(kind) + page as usize * self.table(kind).row_size()
    }

    // Where a page stands.
    #[tactic(auto, unfolding(crate::specs::Header::page_offset))]
    pub fn page_at(self, kind: Kind, page: u32) -> usize
        ensures { result ≡ spec.page_offset self kind page }
    {
        let table = self.table(kind);
        self.index_at(kind) + table.index_size() + page as usize * table.page_size()
    }

    // Where a page ends.
    #[tactic(auto, unfolding(crate::specs::Header::page_end))]
    pub fn page_end(self, kind: Kind, page: u32) -> usize
        ensures { result ≡ spec.page_end self kind page }
    {
        self.page_at(kind, page) + self.table(kind).page_size()
    }

    // Where the parts end.
    #[tactic(auto, unfolding(crate::specs::Header::end_of))]
    pub fn end(self) -> usize
        ensures { result ≡ spec.end_of self }
    {
        self.index_at(Kind::Encoding) + self.encoding.size()
    }
}

// A page's first key, as its index entry has it.
#[tactic(auto, unfolding(crate::specs::Header::first_key_at))]
pub fn first_key(file: &[u8], h: Header, kind: Kind, page: u32) -> &[u8]
    ensures { result.now ≡ spec.first_key_at file.now h kind page }
{
    part(
        file,
        h.row_at(kind, page),
        usize::from(h.table(kind).key_size),
    )
}

// A page's MD5, as its index entry has it.
#[tactic(auto, unfolding(crate::specs::Header::page_hash))]
pub fn page_hash(file: &[u8], h: Header, kind: Kind, page: u32) -> &[u8]
    ensures { result.now ≡ spec.page_hash file.now h kind page }
{
    let key_size = usize::from(h.table(kind).key_size);
    part(file, h.row_at(kind, page) + key_size, HASH_SIZE)
}

// The bytes of a page.
#[tactic(auto, unfolding(crate::specs::Header::page_of))]
pub fn page_of(file: &[u8], h: Header, kind: Kind, page: u32) -> &[u8]
    ensures { result.now ≡ spec.page_of file.now h kind page }
{
    part(file, h.page_at(kind, page), h.table(kind).page_size())
}

// The spec table.
pub fn spec_table(file: &[u8], h: Header) -> &[u8]
    ensures result_value { result.now ≡ spec.spec_table file.now h }
    ensures ref_ptr_value { (result.ref_ptr.0 ≡ file.entry.ref_ptr.0) × (result.ref_ptr.1 ≡ file.entry.ref_ptr.1 + min spec.header_size (length file.now)) }
{
    part(file, HEADER_SIZE, h.spec_size as usize)
}

// Whether the file begins as an encoding file does.
#[tactic(auto, unfolding(crate::specs::Header::magic_right))]
fn magic_right(file: &[u8]) -> bool
    ensures { result ≡ spec.magic_right file.now }
{
    if file.len() < HEADER_SIZE {
        return false;
    }
    equal(part(file, 0, 2), b"EN")
}

#[tactic(auto, unfolding(crate::specs::Header::table_from))]
fn read_table(file: &[u8], key_size_at: usize, page_kb_at: usize, pages_at: usize) -> Table
    ensures { result ≡ spec.table_from file.now key_size_at page_kb_at pages_at }
{
    Table {
        key_size: byte(file, key_size_at),
        page_kb: big(file, page_kb_at, 2) as u16,
        pages: big(file, pages_at, 4) as u32,
    }
}

// What the header says.
#[tactic(auto, unfolding(crate::specs::Header::header_of))]
fn read_header(file: &[u8]) -> Header
    ensures { result ≡ spec.header_of file.now }
{
    Header {
        content: read_table(
            file,
            CONTENT_KEY_SIZE_AT,
            CONTENT_PAGE_KB_AT,
            CONTENT_PAGES_AT,
        ),
        encoding: read_table(
            file,
            ENCODING_KEY_SIZE_AT,
            ENCODING_PAGE_KB_AT,
            ENCODING_PAGES_AT,
        ),
        spec_size: big(file, SPEC_SIZE_AT, 4) as u32,
    }
}

// Whether the fields of one kind lie in their ranges.
#[tactic(auto, unfolding(crate::specs::Header::table_right))]
fn table_right(t: Table) -> bool
    ensures { result ≡ spec.table_right t }
{
    if !within(
        u32::from(t.key_size),
        u32::from(LEAST_KEY_SIZE),
        u32::from(MOST_KEY_SIZE),
    ) {
        return false;
    }
    if t.page_kb == 0 {
        return false;
    }
    t.pages != 0
}

// Whether every field of the header lies in its range.
#[tactic(auto, unfolding(crate::specs::Header::header_right))]
fn header_right(file: &[u8], h: Header) -> bool
    ensures { result ≡ spec.header_right file.now h }
{
    if byte(file, VERSION_AT) != VERSION {
        return false;
    }
    let content = h.content;
    if !table_right(content) {
        return false;
    }
    let encoding = h.encoding;
    if !table_right(encoding) {
        return false;
    }
    if byte(file, FLAGS_AT) != FLAGS {
        return false;
    }
    h.spec_size != 0
}

// Refusals 30 to 33, and what the header says.
pub fn open(file: &[u8]) -> Result<Header, Refusal>
    ensures { spec.outcome result ≡ spec.open_outcome file.now }
{
    if !magic_right(file) {
        return Err(Reason::NotEncoding.at(0));
    }
    let h = read_header(file);
    if !header_right(file, h) {
        return Err(Reason::EncodingHeader.at(0));
    }
    if file.len() < h.end() {
        return Err(Reason::EncodingCut.at(0));
    }
    if byte(file, h.index_at(Kind::Content) - 1) != 0 {
        return Err(Reason::SpecTableOpen.at(0));
    }
    Ok(h)
}
