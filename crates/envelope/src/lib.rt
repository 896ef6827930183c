#![tactic(auto, unfolding(refusal::specs::Check::first, refusal::specs::Check::refused_if, refusal::specs::Outcome::after))]

// BLTE envelopes of plain chunks: their key, the checks of their chunks, and their content.
ghost use Rattle.std.specs.Prelude.{◌≡◌, length, IfOk};
ghost use Rattle.refusal.specs.Check.{check_of};
ghost use Rattle.refusal.specs.Outcome.{written_outcome};
ghost use Rattle.refusal.specs.Output.{filled};
ghost use Rattle.envelope_header.specs.Header as header;
ghost use Rattle.envelope.specs.Envelope as spec;

use chunks::{check_chunks, fill, length_of};
use envelope_header::Header;
use parts::{equal, part};
use refusal::{Reason, Refusal};

mod chunks;

// The bytes that the key is the hash of: the header, or the whole file where there is no chunk table.
#[tactic(auto, unfolding(crate::specs::Envelope::keyed))]
fn keyed(file: &[u8], h: Header) -> &[u8]
    ensures { result.now ≡ spec.keyed file.now h }
{
    if h.tabled() {
        return part(file, 0, h.length());
    }
    file
}

// Refusals 27 and 50.
fn check_key(file: &[u8], h: Header, key: &[u8]) -> Result<(), Refusal>
    requires { h ≡ header.header_of file.now }
    ensures { check_of result ≡ spec.envelope_key_check file.now key.now }
{
    if key.len() != 16 {
        return Err(Reason::EnvelopeKey.at(0));
    }
    let hash = md5_digest::digest(keyed(file, h))?;
    if !equal(&hash, key) {
        return Err(Reason::EnvelopeKey.at(0));
    }
    Ok(())
}

// Refusals 20 to 22, 27, then 23 to 25, and the header.
fn judge(file: &[u8], key: &[u8]) -> Result<Header, Refusal>
    ensures { header.outcome result ≡ spec.judged_outcome file.now key.now }
{
    let h = envelope_header::open(file)?;
    check_key(file, h, key)?;
    check_chunks(file, h)?;
    Ok(h)
}

// The length of an envelope's content. All checks of opening it but the room.
pub fn content_length(file: &[u8], key: &[u8]) -> Result<usize, Refusal>
    ensures { written_outcome result ≡ spec.length_outcome file.now key.now }
{
    let h = judge(file, key)?;
    Ok(length_of(file, h))
}

// Puts the content of an envelope into the output. Nothing is written before all is judged.
pub fn open(file: &[u8], key: &[u8], output: &mut [u8]) -> Result<usize, Refusal>
    ensures result_value { written_outcome result ≡ spec.open_outcome file.now key.now (length output.old) }
    ensures output_after { output.new
        ≡ filled (spec.open_check file.now key.now (length output.old))
        (spec.content file.now) output.old }
{
    let h = judge(file, key)?;
    let length = length_of(file, h);
    if output.len() < length {
        return Err(Reason::ContentOutputShort.at(0));
    }
    fill(file, h, output);
    Ok(length)
}

// The key of an envelope that passes 20 to 22.
pub fn envelope_key(file: &[u8]) -> Result<[u8; 16], Refusal>
    ensures check { check_of result ≡ spec.key_of_check file.now }
    ensures bytes { IfOk result (λ key. key ≡ spec.envelope_key_of file.now) }
{
    let h = envelope_header::open(file)?;
    md5_digest::digest(keyed(file, h))
}
