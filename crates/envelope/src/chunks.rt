// The chunks of an envelope, one after the other.
ghost use Rattle.std.specs.Prelude.{◌≡◌, true, ◌≤◌, length};
ghost use Rattle.md5_digest.specs.Message.{md5};
ghost use Rattle.refusal.specs.Check.{check_of, silent};
ghost use Rattle.refusal.specs.Output.{filled};
ghost use Rattle.envelope_header.specs.Header as header;
ghost use Rattle.envelope.specs.Envelope as spec;

use envelope_header::{Header, chunk_hash, decoded_size};
use md5_two::digests;
use parts::{byte, copy, equal, part};
use refusal::{Reason, Refusal};

// N: the rest of the chunk is its content.
const PLAIN_MODE: u8 = 78;

// The mode of a chunk that stands at a place: 24.
fn check_mode(file: &[u8], h: Header, chunk: u32, at: usize) -> Result<(), Refusal>
    requires { at ≡ header.chunk_at file.now h chunk }
    ensures { check_of result ≡ spec.mode_check file.now h chunk }
{
    if byte(file, at) != PLAIN_MODE {
        return Err(Reason::ChunkMode.at(chunk as usize));
    }
    Ok(())
}

// A chunk of a table that stands at a place, with its hash: 23, 24, 25.
fn check_chunk(
    file: &[u8],
    h: Header,
    chunk: u32,
    at: usize,
    hash: &[u8; 16],
) -> Result<(), Refusal>
    requires { (header.tabled h ≡ true) × (at ≡ header.chunk_at file.now h chunk) × (hash.now ≡ md5 (spec.chunk_of file.now h chunk)) }
    ensures { check_of result ≡ spec.chunk_check file.now h chunk }
{
    if !equal(hash, chunk_hash(file, chunk)) {
        return Err(Reason::ChunkHash.at(chunk as usize));
    }
    check_mode(file, h, chunk, at)?;
    if decoded_size(file, chunk) != h.encoded_size(file, chunk).saturating_sub(1) {
        return Err(Reason::DecodedSize.at(chunk as usize));
    }
    Ok(())
}

// The bytes of a chunk; none past the last.
fn size_of(file: &[u8], h: Header, chunk: u32) -> usize
    ensures { result ≡ spec.size_or_none file.now h chunk }
{
    if chunk < h.chunks() {
        return h.encoded_size(file, chunk);
    }
    0
}

// The chunks of a table. Two are hashed together because that is quicker; each is judged whole before the next.
fn check_table(file: &[u8], h: Header) -> Result<(), Refusal>
    requires { (header.tabled h ≡ true) × (header.sizes_check file.now h ≡ silent) }
    ensures { check_of result ≡ spec.chunks_check file.now h }
{
    let chunks = h.chunks();
    let mut at = h.length();
    let mut i = 0;
    while i < chunks {
        let size = h.encoded_size(file, i);
        let next = i + 1;
        let next_at = at + size;
        let next_size = size_of(file, h, next);
        let (first, second) = digests(part(file, at, size), part(file, next_at, next_size));
        let hash = first?;
        check_chunk(file, h, i, at, &hash)?;
        if chunks <= next {
            return Ok(());
        }
        let next_hash = second?;
        check_chunk(file, h, next, next_at, &next_hash)?;
        at = next_at + next_size;
        i += 2;
    }
    Ok(())
}

// All chunks. One without a table has no hash and no decoded size.
pub(crate) fn check_chunks(file: &[u8], h: Header) -> Result<(), Refusal>
    requires { header.sizes_check file.now h ≡ silent }
    ensures { check_of result ≡ spec.chunks_check file.now h }
{
    if h.tabled() {
        return check_table(file, h);
    }
    check_mode(file, h, 0, h.length())
}

// The length of the content: a mode byte less for each chunk.
pub(crate) fn length_of(file: &[u8], h: Header) -> usize
    requires { header.sizes_check file.now h ≡ silent }
    ensures { result ≡ length (spec.content_by file.now h) }
{
    file.len() - h.length() - h.chunks() as usize
}

// Copies the content of each chunk, one after the other.
pub(crate) fn fill(file: &[u8], h: Header, output: &mut [u8])
    requires h_value { header.sizes_check file.now h ≡ silent }
    requires h_in_bounds { length (spec.content_by file.now h) ≤ length output.old }
    ensures { output.new ≡ filled silent (spec.content_by file.now h) output.old }
{
    let chunks = h.chunks();
    let mut at = h.length();
    let mut to = 0;
    for i in 0..chunks {
        let size = h.encoded_size(file, i);
        let content = part(file, at + 1, size.saturating_sub(1));
        copy(content, output, to);
        to += content.len();
        at += size;
    }
}
