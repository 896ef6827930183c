#![tactic(auto)]

// The header of a root file, refusals 42 to 44, and how its blocks are laid out. specs/Header.antt and specs/Layout.antt have the
// names of the constants as that language writes them.
ghost use Rattle.std.specs.Prelude.{◌≡◌, ◌≤◌};
ghost use Rattle.root_layout.specs.Layout as spec;
ghost use Rattle.root_layout.specs.Header as header;

use numbers::{within, word};
use parts::{equal, part};
use refusal::{Reason, Refusal};

// After the magic: the numbers a and b.
pub const HEADER_SIZE_AT: usize = 4;

pub const VERSION_AT: usize = 8;

pub const SHORT_HEADER: u32 = 12;

// A header is long where its size and version lie between these.
pub const LEAST_LONG: u32 = 16;

pub const MOST_LONG: u32 = 99;

pub const LEAST_VERSION: u32 = 1;

pub const MOST_VERSION: u32 = 4;

// A long header that is read has this size or more, and another version than this.
pub const LEAST_SIZE: u32 = 20;

pub const REFUSED_VERSION: u32 = 4;

// The versions that the blocks of a file without magic, and of one with a short header, are laid out by. No long header has the
// first.
pub const NO_MAGIC_VERSION: u32 = 0;

pub const SHORT_VERSION: u32 = 1;

// The bytes of a block header's count and locale flags, of its content flags, and of the unknown bytes after them.
pub const COUNT_SIZE: usize = 4;

pub const LOCALE_SIZE: usize = 4;

pub const CONTENT_SIZE: usize = 4;

pub const WIDE_CONTENT_SIZE: usize = 5;

pub const UNKNOWN_SIZE: u8 = 5;

// Content bit 28.
pub const NO_NAME_HASHES: u64 = 0x1000_0000;

// How the blocks of a root file are laid out. Every value is answered for: the types keep each sum within its range.
#[derive(Clone, Copy)]
pub struct Layout {
    // Where the first block stands.
    pub start: u32,
    // Whether the locale flags stand before the content flags.
    pub locale_first: bool,
    // Whether the content flags have five bytes, not four.
    pub wide_content: bool,
    // The bytes of a block header after count and flags.
    pub unknown: u8,
    // Whether each key has its name hash after it; else all name hashes stand after all keys.
    pub interleaved: bool,
    // A block with one of these content bits has no name hashes.
    pub no_hashes: u64,
}

impl Layout {
    // The bytes of the content flags.
    pub fn content_size(self) -> usize
        ensures value { result ≡ spec.content_size self }
        ensures upper_bound { result ≤ 5 }
    {
        if self.wide_content {
            WIDE_CONTENT_SIZE
        } else {
            CONTENT_SIZE
        }
    }

    // Where the locale flags stand in a block.
    pub fn locale_at(self) -> usize
        ensures { result ≡ spec.locale_at self }
    {
        if self.locale_first {
            COUNT_SIZE
        } else {
            COUNT_SIZE + self.content_size()
        }
    }

    // Where the content flags stand in a block.
    pub fn content_at(self) -> usize
        ensures { result ≡ spec.content_at self }
    {
        if self.locale_first {
            COUNT_SIZE + LOCALE_SIZE
        } else {
            COUNT_SIZE
        }
    }

    // The bytes of a block header, after which the deltas stand.
    pub fn header_size(self) -> usize
        ensures value { result ≡ spec.header_size self }
        ensures upper_bound { result ≤ 268 }
    {
        COUNT_SIZE + LOCALE_SIZE + self.content_size() + usize::from(self.unknown)
    }
}

// The layout of blocks of a version that begin at a byte.
fn layout_for(start: u32, version: u32) -> Layout
    ensures { result ≡ spec.layout_for start version }
{
    if version == NO_MAGIC_VERSION {
        return Layout {
            start,
            locale_first: false,
            wide_content: false,
            unknown: 0,
            interleaved: true,
            no_hashes: 0,
        };
    }
    if version == SHORT_VERSION {
        return Layout {
            start,
            locale_first: false,
            wide_content: false,
            unknown: 0,
            interleaved: false,
            no_hashes: NO_NAME_HASHES,
        };
    }
    Layout {
        start,
        locale_first: true,
        wide_content: false,
        unknown: UNKNOWN_SIZE,
        interleaved: false,
        no_hashes: NO_NAME_HASHES,
    }
}

// Whether one of the magics stands in front.
fn has_magic(file: &[u8]) -> bool
    ensures { result ≡ header.has_magic file.now }
{
    let front = part(file, 0, 4);
    equal(front, b"MFST") || equal(front, b"TSFM")
}

// Whether the numbers after the magic tell a long header.
fn long_numbers(file: &[u8]) -> bool
    ensures { result ≡ header.long_numbers file.now }
{
    within(word(file, HEADER_SIZE_AT), LEAST_LONG, MOST_LONG)
        && within(word(file, VERSION_AT), LEAST_VERSION, MOST_VERSION)
}

// Refusals 43, 44, 42, 43, and how the blocks are laid out.
#[tactic(auto, unfolding(crate::specs::Header::layout_of, refusal::specs::Check::first, refusal::specs::Check::refused_if, refusal::specs::Outcome::after))]
pub fn open(file: &[u8]) -> Result<Layout, Refusal>
    ensures { header.outcome result ≡ header.open_outcome file.now }
{
    if !has_magic(file) {
        return Ok(layout_for(0, NO_MAGIC_VERSION));
    }
    if file.len() < SHORT_HEADER as usize {
        return Err(Reason::RootHeaderCut.at(0));
    }
    if !long_numbers(file) {
        return Ok(layout_for(SHORT_HEADER, SHORT_VERSION));
    }
    let version = word(file, VERSION_AT);
    if version == REFUSED_VERSION {
        return Err(Reason::RootVersion.at(0));
    }
    let size = word(file, HEADER_SIZE_AT);
    if size < LEAST_SIZE {
        return Err(Reason::RootHeaderSize.at(0));
    }
    if file.len() < size as usize {
        return Err(Reason::RootHeaderCut.at(0));
    }
    Ok(layout_for(size, version))
}
