#![tactic(auto)]

// Text as bytes, put into output from a place on. Each function tells the place after its text, at most the greatest `usize`,
// which no output reaches; bytes that do not fit are dropped.
ghost use Rattle.std.specs.Prelude.{◌≡◌, ◌++◌, ◌+◌, ◌<◌, length};
ghost use Rattle.parts.specs.Part.{overlay};
ghost use Rattle.text.specs.Text as spec;
ghost use Rattle.text.specs.Place.{place_after};

use parts::copy;

// Bytes as they are.
pub fn put(text: &[u8], output: &mut [u8], at: usize) -> usize
    ensures value { result ≡ place_after at (length text.now) }
    ensures output_after { output.new ≡ overlay output.old at text.now }
{
    copy(text, output, at);
    at.saturating_add(text.len())
}

// A number in decimal.
fn put_decimal(n: u64, output: &mut [u8], at: usize) -> usize
    ensures value { result ≡ place_after at (length (spec.decimal n)) }
    ensures output_after { output.new ≡ overlay output.old at (spec.decimal n) }
{
    let mut digits = [0u8; 20];
    let mut first = 19;
    let mut rest = n;
    while 10 <= rest {
        digits[first] = 48 + (rest % 10) as u8;
        rest /= 10;
        first -= 1;
    }
    digits[first] = 48 + rest as u8;
    put(&digits[first..], output, at)
}

// A word, and a number in decimal after it.
pub fn put_number(word: &[u8], n: u64, output: &mut [u8], at: usize) -> usize
    ensures value { result ≡ place_after at (length (word.now ++ spec.decimal n)) }
    ensures output_after { output.new ≡ overlay output.old at (word.now ++ spec.decimal n) }
{
    let to = put(word, output, at);
    put_decimal(n, output, to)
}

fn hex_digit(d: u8) -> u8
    requires { d < 16 }
    ensures { result ≡ spec.hex_digit_of d }
{
    if d < 10 { 48 + d } else { 87 + d }
}

// Bytes in hex.
pub fn put_hex(bytes: &[u8], output: &mut [u8], at: usize) -> usize
    ensures value { result ≡ place_after at (length (spec.hex bytes.now)) }
    ensures output_after { output.new ≡ overlay output.old at (spec.hex bytes.now) }
{
    let mut to = at;
    for b in bytes {
        let pair = [hex_digit(*b / 16), hex_digit(*b % 16)];
        to = put(&pair, output, to);
    }
    to
}
