#![tactic(auto, unfolding(refusal::specs::Check::first, refusal::specs::Check::refused_if, refusal::specs::Outcome::after))]

// What the listing program prints: the listing of an index, or the line of a refusal.
ghost use Rattle.std.specs.Prelude.{◌≡◌, length};
ghost use Rattle.refusal.specs.Check.{silent};
ghost use Rattle.refusal.specs.Number.{number_of};
ghost use Rattle.refusal.specs.Output.{filled};
ghost use Rattle.parts.specs.Part.{overlay};
ghost use Rattle.text.specs.Place.{place_after};
ghost use Rattle.listing_printed.specs.Printed as spec;

use listing::listing;
use refusal::{Reason, Refusal};
use text::{put, put_number};

// No text is longer.
pub const MOST_PRINTED: usize = 655_360;

// Whether a refusal for this reason has a place of its own, which may be 0.
#[tactic(auto, unfolding(numbers::specs::Number::within, crate::specs::Printed::has_place))]
fn has_place(reason: Reason) -> bool
    ensures { result ≡ spec.has_place (number_of reason) }
{
    match reason {
        Reason::IndexPageHash
        | Reason::IndexPadding
        | Reason::IndexOrder
        | Reason::LastKey
        | Reason::ChunkHash
        | Reason::ChunkMode
        | Reason::DecodedSize
        | Reason::EncodingPageHash
        | Reason::EntryOverPage
        | Reason::EncodingOrder
        | Reason::FirstKey
        | Reason::BlockCut
        | Reason::IdRange
        | Reason::HexDigit
        | Reason::FooterVersion
        | Reason::FooterReserved
        | Reason::FooterPageSize
        | Reason::FooterOffsetWidth
        | Reason::FooterSizeWidth
        | Reason::FooterKeyLength
        | Reason::FooterHashLength
        | Reason::ListFalls => true,
        _ => false,
    }
}

// The place of a refusal, where it has one.
fn put_place(r: Refusal, output: &mut [u8], at: usize) -> usize
    ensures value { result ≡ place_after at (length (spec.place_text (number_of r.reason) r.place)) }
    ensures output_after { output.new ≡ overlay output.old at (spec.place_text (number_of r.reason) r.place) }
{
    if has_place(r.reason) {
        return put_number(b" at ", r.place as u64, output, at);
    }
    at
}

// The line of a refusal.
fn put_refusal(r: Refusal, output: &mut [u8]) -> usize
    ensures value { result ≡ place_after 0 (length (spec.refusal_line (number_of r.reason) r.place)) }
    ensures output_after { output.new ≡ overlay output.old 0 (spec.refusal_line (number_of r.reason) r.place) }
{
    let mut to = put_number(b"refused ", u64::from(r.reason.number()), output, 0);
    to = put_place(r, output, to);
    put(b"\n", output, to)
}

// What is printed for an input, at the start of an output that has room for any text, and how long it is.
pub fn print(input: &[u8], output: &mut [u8; MOST_PRINTED]) -> usize
    ensures value { result ≡ length (spec.printed input.now) }
    ensures output_after { output.new ≡ filled silent (spec.printed input.now) output.old }
{
    match listing(input, output) {
        Ok(length) => length,
        Err(r) => put_refusal(r, output),
    }
}
