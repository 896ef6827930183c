#![tactic(auto, unfolding(refusal::specs::Check::refused_if))]

// Two messages hashed at once, a block of each at a time. A step of MD5 waits for the step before it,
// but not for those of the other message, so that two blocks in turn take little longer than one.
ghost use Rattle.std.specs.Prelude.{◌≡◌, ◌++◌, ◌*◌, ◌%◌, length};
ghost use Rattle.md5_block.specs.Block.{addends, whole};
ghost use Rattle.md5_digest.specs.Message.{initial, padding};
ghost use Rattle.md5_two.specs.Two as spec;

use md5_block::{Words, addends, block_words, four, sum};
use md5_digest::{digest, first_eight, within_limit};
use md5_end::{bytes, eight, end, initial, last_words};
use refusal::Refusal;

// The words of two messages.
#[derive(Clone, Copy)]
pub struct Two {
    pub first: Words,
    pub second: Words,
}

// The four steps of group g, of each message.
fn four_two(g: usize, w: Two, x: &[u32; 16], y: &[u32; 16], k: &[u32; 64]) -> Two
    ensures { result ≡ spec.steps_two k.now x.now y.now (g % 16 * 4) 4 w }
{
    let first = w.first;
    let second = w.second;
    Two {
        first: four(g, first, x, k),
        second: four(g, second, y, k),
    }
}

// The words after a block of each message.
fn block_two(w: Two, x: &[u32; 16], y: &[u32; 16], k: &[u32; 64]) -> Two
    ensures { result ≡ spec.block_two k.now x.now y.now w }
{
    let e = four_two(0, w, x, y, k);
    let e = four_two(1, e, x, y, k);
    let e = four_two(2, e, x, y, k);
    let e = four_two(3, e, x, y, k);
    let e = four_two(4, e, x, y, k);
    let e = four_two(5, e, x, y, k);
    let e = four_two(6, e, x, y, k);
    let e = four_two(7, e, x, y, k);
    let e = four_two(8, e, x, y, k);
    let e = four_two(9, e, x, y, k);
    let e = four_two(10, e, x, y, k);
    let e = four_two(11, e, x, y, k);
    let e = four_two(12, e, x, y, k);
    let e = four_two(13, e, x, y, k);
    let e = four_two(14, e, x, y, k);
    let e = four_two(15, e, x, y, k);
    let first = w.first;
    let second = w.second;
    let after_first = e.first;
    let after_second = e.second;
    Two {
        first: sum(first, after_first),
        second: sum(second, after_second),
    }
}

// The words after the whole blocks of two messages of one length.
fn blocks_two(w: Two, s: &[u8], t: &[u8], k: &[u32; 64]) -> Two
    requires { length s.now ≡ length t.now }
    ensures { result ≡ spec.whole_two k.now s.now t.now w }
{
    let mut e = w;
    let mut at = 0;
    while 64 <= s.len() - at {
        let x = block_words(&s[at..]);
        let y = block_words(&t[at..]);
        e = block_two(e, &x, &y, k);
        at += 64;
    }
    e
}

// Two messages of one length in whole blocks, to their end: they have the same padding. Its block is hashed here and not by
// `md5_digest::end`: with a second call of it `block_two` stays a function by itself, which is quicker.
fn together(a: &[u8], b: &[u8]) -> Two
    requires { (length a.now ≡ length b.now) × (length a.now % 64 ≡ 0) }
    ensures first_value { result.first ≡ whole addends (a.now ++ padding (length a.now)) initial }
    ensures second_value { result.second ≡ whole addends (b.now ++ padding (length b.now)) initial }
{
    let k = addends();
    let start = Two {
        first: initial(),
        second: initial(),
    };
    let e = blocks_two(start, a, b, &k);
    let x = last_words(128, a.len() as u64);
    block_two(e, &x, &x, &k)
}

// The first eight bytes of the digests of two messages, or a refusal of each. Of one length in whole blocks they are hashed
// together.
pub fn first_eight_of_two(
    a: &[u8],
    b: &[u8],
) -> (Result<[u8; 8], Refusal>, Result<[u8; 8], Refusal>)
    ensures first { spec.FirstEightOf a.now result.0 }
    ensures second { spec.FirstEightOf b.now result.1 }
{
    let n = a.len();
    if n != b.len() || n % 64 != 0 || !within_limit(0, n as u64) {
        return (first_eight(a), first_eight(b));
    }
    let w = together(a, b);
    (Ok(eight(w.first)), Ok(eight(w.second)))
}

// The whole blocks of two messages of one length together, and then the end of each by itself.
fn ended(a: &[u8], b: &[u8]) -> Two
    requires { length a.now ≡ length b.now }
    ensures first_value { result.first ≡ whole addends (a.now ++ padding (length a.now)) initial }
    ensures second_value { result.second ≡ whole addends (b.now ++ padding (length b.now)) initial }
{
    let k = addends();
    let start = Two {
        first: initial(),
        second: initial(),
    };
    let e = blocks_two(start, a, b, &k);
    let v = e.first;
    let u = e.second;
    let at = a.len() - a.len() % 64;
    let count = a.len() as u64;
    Two {
        first: end(v, &a[at..], count),
        second: end(u, &b[at..], count),
    }
}

// The digests of two messages, or a refusal of each. Of one length they are hashed together.
pub fn digests(a: &[u8], b: &[u8]) -> (Result<[u8; 16], Refusal>, Result<[u8; 16], Refusal>)
    ensures first { spec.DigestOf a.now result.0 }
    ensures second { spec.DigestOf b.now result.1 }
{
    if a.len() != b.len() || !within_limit(0, a.len() as u64) {
        return (digest(a), digest(b));
    }
    let w = ended(a, b);
    (Ok(bytes(w.first)), Ok(bytes(w.second)))
}
