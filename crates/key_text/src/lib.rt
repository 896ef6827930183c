#![tactic(auto, unfolding(refusal::specs::Check::first, refusal::specs::Check::refused_if, refusal::specs::Outcome::after))]

// Key text: two hex digits for each byte of a key, the higher first.
ghost use Rattle.std.specs.Prelude.{◌≡◌, ◌*◌, ◌<◌, ◌≤◌, length, replicate, IfOk};
ghost use Rattle.parts.specs.Part.{byte_at};
ghost use Rattle.refusal.specs.Check.{check_of, silent};
ghost use Rattle.refusal.specs.Output.{filled};
ghost use Rattle.key_text.specs.Text as spec;

use index_layout::{LEAST_KEY_LENGTH, MOST_KEY_LENGTH};
use numbers::within;
use refusal::{Reason, Refusal};

// The value of the hex digit at an offset, in either case. Refusal 61.
#[tactic(auto, unfolding(refusal::specs::Check::refused_if, numbers::specs::Number::within), using(std::proofs::lemmas::Bool::Decides::nat_tests))]
fn digit(text: &[u8], at: usize) -> Result<u8, Refusal>
    requires { at < length text.now }
    ensures check { check_of result ≡ spec.digit_check text.now at }
    ensures value { IfOk result (λ digit. digit ≡ spec.digit_of (byte_at text.now at)) }
    ensures below { IfOk result (λ digit. digit < 16) }
{
    match char::from(text[at]).to_digit(16) {
        Some(value) => Ok(value as u8),
        None => Err(Reason::HexDigit.at(at)),
    }
}

// The bytes of digits, with zeros to sixteen. Refusal 61.
fn read(text: &[u8], count: usize) -> Result<[u8; 16], Refusal>
    requires { (length text.now ≡ 2 * count) × (count ≤ 16) }
    ensures check { check_of result ≡ spec.digits_check text.now }
    ensures bytes { IfOk result (λ bytes. bytes ≡ filled silent (spec.text_bytes text.now) (replicate 16 0)) }
{
    let mut bytes = [0u8; 16];
    for at in 0..count {
        let high = digit(text, 2 * at)?;
        let low = digit(text, 2 * at + 1)?;
        bytes[at] = high * 16 + low;
    }
    Ok(bytes)
}

// The key of `length` bytes that a text tells: its bytes, and zeros past them. Refusals 11, 60 and 61.
pub fn from_text(text: &[u8], length: u8) -> Result<[u8; 16], Refusal>
    ensures check { check_of result ≡ spec.text_check text.now length }
    ensures bytes { IfOk result (λ bytes. bytes ≡ spec.carried text.now length) }
{
    if !within(
        u32::from(length),
        u32::from(LEAST_KEY_LENGTH),
        u32::from(MOST_KEY_LENGTH),
    ) {
        return Err(Reason::Settings.at(0));
    }
    let count = usize::from(length);
    if text.len() != 2 * count {
        return Err(Reason::KeyTextLength.at(0));
    }
    read(text, count)
}
