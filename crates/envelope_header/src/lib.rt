#![tactic(auto, unfolding(refusal::specs::Check::first, refusal::specs::Check::refused_if, refusal::specs::Outcome::after))]

// The header of a BLTE envelope: refusals 20 to 22, and where the chunks stand. specs/Header.antt has the names of the constants
// as that language writes them.
ghost use Rattle.std.specs.Prelude.{◌≡◌};
ghost use Rattle.refusal.specs.Check.{check_of};
ghost use Rattle.envelope_header.specs.Header as spec;

use numbers::big;
use parts::{byte, equal, part};
use refusal::{Reason, Refusal};

pub const HEADER_SIZE_AT: usize = 4;

pub const SHORT_SIZE: usize = 8;

pub const FLAGS_AT: usize = 8;

pub const FLAGS: u8 = 15;

pub const COUNT_AT: usize = 9;

pub const TABLE_AT: usize = 12;

pub const ROW_SIZE: usize = 24;

// What a header says: the rows of the chunk table. With none there is no table, and the rest of the file is one chunk.
#[derive(Clone, Copy)]
pub struct Header {
    pub rows: u32,
}

// Where the row of a chunk stands in the table.
#[tactic(auto, unfolding(crate::specs::Header::row_at))]
pub fn row_at(chunk: u32) -> usize
    ensures { result ≡ spec.row_at chunk }
{
    TABLE_AT + ROW_SIZE * chunk as usize
}

impl Header {
    // Whether there is a chunk table.
    pub fn tabled(self) -> bool
        ensures { result ≡ spec.tabled self }
    {
        self.rows != 0
    }

    // How many chunks there are.
    #[tactic(auto, unfolding(crate::specs::Header::chunk_count))]
    pub fn chunks(self) -> u32
        ensures { result ≡ spec.chunk_count self }
    {
        if self.rows != 0 { self.rows } else { 1 }
    }

    // The bytes of the header, after which the chunks stand.
    #[tactic(auto, unfolding(crate::specs::Header::header_length, crate::specs::Header::row_at))]
    pub fn length(self) -> usize
        ensures { result ≡ spec.header_length self }
    {
        if self.rows != 0 {
            row_at(self.rows)
        } else {
            SHORT_SIZE
        }
    }

    // The bytes of a chunk in the file.
    #[tactic(auto, unfolding(crate::specs::Header::encoded_size))]
    pub fn encoded_size(self, file: &[u8], chunk: u32) -> usize
        ensures { result ≡ spec.encoded_size file.now self chunk }
    {
        if self.rows != 0 {
            return big(file, row_at(chunk), 4) as usize;
        }
        file.len().saturating_sub(SHORT_SIZE)
    }
}

// The bytes of a chunk's content, as the table has it.
#[tactic(auto, unfolding(crate::specs::Header::decoded_size_at, crate::specs::Header::row_at))]
pub fn decoded_size(file: &[u8], chunk: u32) -> usize
    ensures { result ≡ spec.decoded_size_at file.now chunk }
{
    big(file, row_at(chunk) + 4, 4) as usize
}

// The MD5 of a chunk, as the table has it.
#[tactic(auto, unfolding(crate::specs::Header::chunk_hash_at, crate::specs::Header::row_at))]
pub fn chunk_hash(file: &[u8], chunk: u32) -> &[u8]
    ensures { result.now ≡ spec.chunk_hash_at file.now chunk }
{
    part(file, row_at(chunk) + 8, 16)
}

// Whether the file begins as an envelope does.
#[tactic(auto, unfolding(crate::specs::Header::magic_right))]
fn magic_right(file: &[u8]) -> bool
    ensures { result ≡ spec.magic_right file.now }
{
    if file.len() < SHORT_SIZE {
        return false;
    }
    equal(part(file, 0, 4), b"BLTE")
}

// Whether the header is right: of size 0, or with a chunk table.
#[tactic(auto, unfolding(crate::specs::Header::header_right))]
fn header_right(file: &[u8]) -> bool
    ensures { result ≡ spec.header_right file.now }
{
    let size = big(file, HEADER_SIZE_AT, 4);
    if size == 0 {
        return true;
    }
    let count = big(file, COUNT_AT, 3);
    if byte(file, FLAGS_AT) != FLAGS {
        return false;
    }
    if count == 0 {
        return false;
    }
    if size != 12 + 24 * count {
        return false;
    }
    size <= file.len() as u64
}

// Refusal 22: takes each chunk's bytes from the rest of the file.
fn check_sizes(file: &[u8], h: Header) -> Result<(), Refusal>
    ensures { check_of result ≡ spec.sizes_check file.now h }
{
    let chunks = h.chunks();
    if file.len() < h.length() {
        return Err(Reason::ChunkSizes.at(0));
    }
    let mut left = file.len() - h.length();
    for i in 0..chunks {
        let size = h.encoded_size(file, i);
        if size == 0 {
            return Err(Reason::ChunkSizes.at(0));
        }
        if left < size {
            return Err(Reason::ChunkSizes.at(0));
        }
        left -= size;
    }
    if left != 0 {
        return Err(Reason::ChunkSizes.at(0));
    }
    Ok(())
}

// The header that an envelope has.
#[tactic(auto, unfolding(crate::specs::Header::header_of))]
fn read_header(file: &[u8]) -> Header
    ensures { result ≡ spec.header_of file.now }
{
    if big(file, HEADER_SIZE_AT, 4) == 0 {
        return Header { rows: 0 };
    }
    Header {
        rows: big(file, COUNT_AT, 3) as u32,
    }
}

// Refusals 20 to 22, and what the header says.
pub fn open(file: &[u8]) -> Result<Header, Refusal>
    ensures { spec.outcome result ≡ spec.open_outcome file.now }
{
    if !magic_right(file) {
        return Err(Reason::NotBlte.at(0));
    }
    if !header_right(file) {
        return Err(Reason::EnvelopeHeader.at(0));
    }
    let h = read_header(file);
    check_sizes(file, h)?;
    Ok(h)
}
