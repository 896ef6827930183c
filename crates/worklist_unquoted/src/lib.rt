#![tactic(auto, unfolding(refusal::specs::Check::first, refusal::specs::Check::refused_if, refusal::specs::Outcome::after))]

// The bytes that a field of separated text stands for. Any bytes are answered for.
ghost use Rattle.std.specs.Prelude.{◌≡◌, false, ◌+◌, ◌^◌, ◌<◌, length};
ghost use Rattle.refusal.specs.Outcome.{written_outcome};
ghost use Rattle.parts.specs.Part.{overlay};
ghost use Rattle.worklist_unquoted.specs.Unquoted as spec;

use parts::{byte, copy, part};
use refusal::{Reason, Refusal};

const QUOTE: u8 = 34;

// Whether a field is one whole quoted field: its closing quote is its last byte.
fn whole(field: &[u8]) -> bool
    ensures { result ≡ spec.is_whole field.now }
{
    if byte(field, 0) != QUOTE {
        return false;
    }
    let mut closed = false;
    for at in 1..field.len() {
        if closed {
            if field[at] != QUOTE {
                return false;
            }
            closed = false;
        } else {
            closed = field[at] == QUOTE;
        }
    }
    closed
}

// The bytes that a byte takes between the quotes.
fn step(b: u8) -> usize
    ensures { result ≡ spec.step_of b }
{
    if b == QUOTE { 2 } else { 1 }
}

// Puts bytes into the output with each doubled quote as one, and tells how many they are. Bytes that do not fit are dropped.
fn put_undoubled(bytes: &[u8], output: &mut [u8]) -> usize
    requires { length bytes.now + 1 < 2 ^ 64 }
    ensures value { result ≡ length (spec.undoubled false bytes.now) }
    ensures output_after { output.new ≡ overlay output.old 0 (spec.undoubled false bytes.now) }
{
    let mut to = 0;
    let mut at = 0;
    // A while loop: the step is that of the byte, 2 for a quote.
    while at < bytes.len() {
        let b = bytes[at];
        copy(&[b], output, to);
        to += 1;
        at += step(b);
    }
    to
}

// Puts the bytes that a field stands for into the output, and tells how many they are. Bytes that do not fit are dropped.
fn put(field: &[u8], output: &mut [u8]) -> usize
    ensures value { result ≡ length (spec.content_of field.now) }
    ensures output_after { output.new ≡ overlay output.old 0 (spec.content_of field.now) }
{
    if whole(field) {
        return put_undoubled(part(field, 1, field.len().saturating_sub(2)), output);
    }
    copy(field, output, 0);
    field.len()
}

// Writes the bytes that a field stands for. They are measured by putting them where there is no room.
#[tactic(auto, unfolding(refusal::specs::Check::refused_if, refusal::specs::Outcome::after, refusal::specs::Output::filled))]
pub fn unquoted(field: &[u8], output: &mut [u8]) -> Result<usize, Refusal>
    ensures result_value { written_outcome result ≡ spec.unquoted_outcome field.now (length output.old) }
    ensures output_after { output.new ≡ spec.unquoted_output field.now output.old }
{
    let mut no_room = [0u8; 0];
    let count = put(field, &mut no_room);
    if output.len() < count {
        return Err(Reason::OutputShort.at(0));
    }
    put(field, output);
    Ok(count)
}
