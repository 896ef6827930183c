#![tactic(auto)]

// Numbers at an offset of lent bytes. Every offset and every width is answered for: a byte past the end reads as 0.
ghost use Rattle.std.specs.Prelude.{◌≡◌, ℕ, ◌+◌, ◌-◌, ◌≤◌, ◌<◌, min, length, get_or};
ghost use Rattle.parts.specs.Part.{byte_at};
ghost use Rattle.numbers.specs.Number as spec;
ghost use Rattle.numbers.specs.Number.{big_at, little_at};

use parts::{copy, part};

// Whether a number lies between two bounds.
pub fn within(x: u32, low: u32, high: u32) -> bool
    ensures { result ≡ spec.within x low high }
{
    (low..=high).contains(&x)
}

// The eight bytes from an offset on, with zeros past the end: what a number that runs past the end is read from.
fn padded(s: &[u8], at: usize) -> [u8; 8]
    ensures { (i : ℕ) → i < 8 → get_or result i 0 ≡ byte_at s.now (at + i) }
{
    let mut near = [0u8; 8];
    copy(part(s, at, 8), &mut near, 0);
    near
}

// A big-endian number whose bytes are all there.
fn big_inside(s: &[u8], at: usize, width: usize) -> u64
    requires { (width ≤ 8) × (width ≤ length s.now - at) }
    ensures { result ≡ big_at s.now at width }
{
    let mut number: u64 = 0;
    for read in 0..width {
        number = number * 256 + u64::from(s[at + read]);
    }
    number
}

// The big-endian number of `width` bytes at an offset. A `u64` holds eight bytes: a greater width reads as eight.
pub fn big(s: &[u8], at: usize, width: usize) -> u64
    ensures { result ≡ big_at s.now at (min width 8) }
{
    let w = width.min(8);
    if w <= s.len().saturating_sub(at) {
        return big_inside(s, at, w);
    }
    let near = padded(s, at);
    big_inside(&near, 0, w)
}

// A little-endian number whose bytes are all there.
fn little_inside(s: &[u8], at: usize, width: usize) -> u64
    requires { (width ≤ 8) × (width ≤ length s.now - at) }
    ensures { result ≡ little_at s.now at width }
{
    let mut number: u64 = 0;
    for left in (0..width).rev() {
        number = number * 256 + u64::from(s[at + left]);
    }
    number
}

// The little-endian number of `width` bytes at an offset. A `u64` holds eight bytes: a greater width reads as eight.
pub fn little(s: &[u8], at: usize, width: usize) -> u64
    ensures { result ≡ little_at s.now at (min width 8) }
{
    let w = width.min(8);
    if w <= s.len().saturating_sub(at) {
        return little_inside(s, at, w);
    }
    let near = padded(s, at);
    little_inside(&near, 0, w)
}

// The little-endian number of four bytes at an offset.
pub fn word(s: &[u8], at: usize) -> u32
    ensures { result ≡ little_at s.now at 4 }
{
    little(s, at, 4) as u32
}
