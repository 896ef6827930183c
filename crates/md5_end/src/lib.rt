#![tactic(auto)]

// The end of a message of RFC 1321: what is left after its whole blocks, the padding, and the digest's bytes.
ghost use Rattle.std.specs.Prelude.{◌≡◌, ◌++◌, ◌∷◌, ◌+◌, ◌*◌, ◌^◌, length, take, replicate};
ghost use Rattle.parts.specs.Part.{overlay};
ghost use Rattle.md5_block.specs.Block.{addends, words_of, block, whole};
ghost use Rattle.md5_end.specs.End as spec;

use md5_block::{Words, addends, block, block_words, blocks};
use parts::copy;

// The words before the first block.
pub fn initial() -> Words
    ensures { result ≡ spec.initial }
{
    Words {
        a: 0x6745_2301,
        b: 0xefcd_ab89,
        c: 0x98ba_dcfe,
        d: 0x1032_5476,
    }
}

// Puts a message's length into the last eight bytes of a block: eight times the number of bytes, modulo 2^64.
fn put_length(t: &mut [u8; 64], count: u64)
    ensures t_after { t.new ≡ take 56 t.old ++ spec.little_bytes 8 (count * 8) }
    ensures t_len { length t.new ≡ 64 }
{
    let length = count.wrapping_mul(8).to_le_bytes();
    copy(&length, t, 56);
}

// Lays the bytes after the whole blocks of s at the start of a block.
pub fn lay_rest(s: &[u8], t: &mut [u8; 64])
    ensures t_after { t.new ≡ overlay t.old 0 (spec.rest s.now) }
    ensures t_len { length t.new ≡ 64 }
{
    let n = s.len() % 64;
    copy(&s[s.len() - n..], t, 0);
}

// The words of a block of one byte, zeros and a message's length: with 128 the padding after whole blocks.
pub fn last_words(first: u8, count: u64) -> [u32; 16]
    ensures { result ≡ words_of 16 (first ∷ replicate 55 0 ++ spec.little_bytes 8 (count * 8)) }
{
    let mut t = [0u8; 64];
    t[0] = first;
    put_length(&mut t, count);
    block_words(&t)
}

// The words after a block in which the length has no room, and the block of the length.
fn last_two(w: Words, t: &[u8; 64], count: u64, k: &[u32; 64]) -> Words
    ensures { result
        ≡ block k.now (words_of 16 (replicate 56 0 ++ spec.little_bytes 8 (count * 8))) (block k.now (words_of 16 t.now) w) }
{
    let x = block_words(t);
    let e = block(w, &x, k);
    let y = last_words(0, count);
    block(e, &y, k)
}

// The words after the end of a message of `count` bytes: the whole blocks of s, the rest of s and the padding. The rest is
// laid out first, so that it is there when the blocks are done.
pub fn end(w: Words, s: &[u8], count: u64) -> Words
    ensures { result ≡ whole addends (s.now ++ spec.padded (spec.zeros (length s.now)) count) w }
{
    let k = addends();
    let n = s.len() % 64;
    let mut t = [0u8; 64];
    lay_rest(s, &mut t);
    t[n] = 128;
    let e = blocks(w, s, &k);
    if n < 56 {
        put_length(&mut t, count);
        let x = block_words(&t);
        return block(e, &x, &k);
    }
    last_two(e, &t, count, &k)
}

// Two words as one number.
fn pair(a: u32, b: u32) -> u64
    ensures { result ≡ a + b * 2 ^ 32 }
{
    u64::from(a) + u64::from(b) * 4_294_967_296
}

// The first eight bytes of the digest that the words are.
pub fn eight(w: Words) -> [u8; 8]
    ensures { result ≡ take 8 (spec.digest_of w) }
{
    pair(w.a, w.b).to_le_bytes()
}

pub fn bytes(w: Words) -> [u8; 16]
    ensures { result ≡ spec.digest_of w }
{
    let low = pair(w.a, w.b).to_le_bytes();
    let high = pair(w.c, w.d).to_le_bytes();
    let mut d = [0u8; 16];
    copy(&low, &mut d, 0);
    copy(&high, &mut d, 8);
    d
}
