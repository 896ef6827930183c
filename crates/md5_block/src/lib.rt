#![tactic(auto)]

// One block of RFC 1321: sixty-four steps over sixteen words.
ghost use Rattle.std.specs.Prelude.{◌≡◌, ◌+◌, ◌*◌, ◌/◌, ◌%◌, ◌<◌, ◌≤◌, length, drop, slice_index};
ghost use Rattle.md5_block.specs.Block as spec;

use parts::copy;

// A, B, C and D of RFC 1321.
#[derive(Clone, Copy)]
pub struct Words {
    pub a: u32,
    pub b: u32,
    pub c: u32,
    pub d: u32,
}

// T of RFC 1321, by the step's number.
const ADDENDS: [u32; 64] = [
    0xd76a_a478,
    0xe8c7_b756,
    0x2420_70db,
    0xc1bd_ceee,
    0xf57c_0faf,
    0x4787_c62a,
    0xa830_4613,
    0xfd46_9501,
    0x6980_98d8,
    0x8b44_f7af,
    0xffff_5bb1,
    0x895c_d7be,
    0x6b90_1122,
    0xfd98_7193,
    0xa679_438e,
    0x49b4_0821,
    0xf61e_2562,
    0xc040_b340,
    0x265e_5a51,
    0xe9b6_c7aa,
    0xd62f_105d,
    0x0244_1453,
    0xd8a1_e681,
    0xe7d3_fbc8,
    0x21e1_cde6,
    0xc337_07d6,
    0xf4d5_0d87,
    0x455a_14ed,
    0xa9e3_e905,
    0xfcef_a3f8,
    0x676f_02d9,
    0x8d2a_4c8a,
    0xfffa_3942,
    0x8771_f681,
    0x6d9d_6122,
    0xfde5_380c,
    0xa4be_ea44,
    0x4bde_cfa9,
    0xf6bb_4b60,
    0xbebf_bc70,
    0x289b_7ec6,
    0xeaa1_27fa,
    0xd4ef_3085,
    0x0488_1d05,
    0xd9d4_d039,
    0xe6db_99e5,
    0x1fa2_7cf8,
    0xc4ac_5665,
    0xf429_2244,
    0x432a_ff97,
    0xab94_23a7,
    0xfc93_a039,
    0x655b_59c3,
    0x8f0c_cc92,
    0xffef_f47d,
    0x8584_5dd1,
    0x6fa8_7e4f,
    0xfe2c_e6e0,
    0xa301_4314,
    0x4e08_11a1,
    0xf753_7e82,
    0xbd3a_f235,
    0x2ad7_d2bb,
    0xeb86_d391,
];

// The shift amounts, by the round and the step's place in a group of four.
const SHIFTS: [u32; 16] = [7, 12, 17, 22, 5, 9, 14, 20, 4, 11, 16, 23, 6, 10, 15, 21];

// The table of addends, to be lent to the functions below.
pub fn addends() -> [u32; 64]
    ensures { result ≡ spec.addends }
{
    ADDENDS
}

// F, G, H and I of RFC 1321, by the round. F is written with one operation less after b, on which the next step waits.
#[tactic(auto, unfolding(crate::specs::Block::mixed))]
fn mix(round: usize, b: u32, c: u32, d: u32) -> u32
    ensures { result ≡ spec.mixed round b c d }
{
    match round {
        0 => d ^ (b & (c ^ d)),
        1 => (b & d) | (c & !d),
        2 => b ^ c ^ d,
        _ => c ^ (b | !d),
    }
}

// Which word of the block a step adds.
#[tactic(auto, unfolding(crate::specs::Block::word_number))]
fn word_number(round: usize, i: usize) -> usize
    requires { i < 64 }
    ensures value { result ≡ spec.word_number round i }
    ensures upper_bound { result < 16 }
{
    match round {
        0 => i % 16,
        1 => (5 * i + 1) % 16,
        2 => (3 * i + 5) % 16,
        _ => 7 * i % 16,
    }
}

// Step i, with its shift amount. The table of addends is lent: folded into the code as constants they would lengthen the
// chain of additions.
fn step(i: usize, s: u32, w: Words, x: &[u32; 16], k: &[u32; 64]) -> Words
    requires { (i < 64) × (s ≡ slice_index spec.shifts (i / 16 * 4 + i % 4)) }
    ensures { result ≡ spec.step k.now x.now i w }
{
    let round = i / 16;
    let mixed = w.a.wrapping_add(mix(round, w.b, w.c, w.d));
    let worded = mixed.wrapping_add(x[word_number(round, i)]);
    let summed = worded.wrapping_add(k[i]);
    Words {
        a: w.d,
        b: w.b.wrapping_add(summed.rotate_left(s)),
        c: w.b,
        d: w.c,
    }
}

// The four steps of group g, counted from 0 to 15; group 16 is group 0 again. Called with a literal it is inlined, and its
// tests and its shift amounts fold.
pub fn four(g: usize, w: Words, x: &[u32; 16], k: &[u32; 64]) -> Words
    ensures { result ≡ spec.steps k.now x.now (g % 16 * 4) 4 w }
{
    let s = SHIFTS;
    let i = g % 16 * 4;
    let row = i / 16 * 4;
    let w = step(i, s[row], w, x, k);
    let w = step(i + 1, s[row + 1], w, x, k);
    let w = step(i + 2, s[row + 2], w, x, k);
    step(i + 3, s[row + 3], w, x, k)
}

// The four bytes at a place, the lowest first.
#[tactic(auto, unfolding(crate::specs::Block::word))]
fn word(s: &[u8], at: usize) -> u32
    requires { at + 4 ≤ length s.now }
    ensures { result ≡ spec.word (drop at s.now) }
{
    u32::from_le_bytes([s[at], s[at + 1], s[at + 2], s[at + 3]])
}

fn words_inside(s: &[u8]) -> [u32; 16]
    requires { 64 ≤ length s.now }
    ensures { result ≡ spec.words_of 16 s.now }
{
    let mut x = [0u32; 16];
    for i in 0..16 {
        x[i] = word(s, 4 * i);
    }
    x
}

// The first sixteen words of s, as if zeros followed its bytes.
pub fn block_words(s: &[u8]) -> [u32; 16]
    ensures { result ≡ spec.words_of 16 s.now }
{
    if 64 <= s.len() {
        return words_inside(s);
    }
    let mut t = [0u8; 64];
    copy(s, &mut t, 0);
    words_inside(&t)
}

// The sum of two states of the words.
#[tactic(auto, unfolding(crate::specs::Block::sum))]
pub fn sum(v: Words, w: Words) -> Words
    ensures { result ≡ spec.sum v w }
{
    Words {
        a: v.a.wrapping_add(w.a),
        b: v.b.wrapping_add(w.b),
        c: v.c.wrapping_add(w.c),
        d: v.d.wrapping_add(w.d),
    }
}

// The words after a block of sixteen words.
pub fn block(w: Words, x: &[u32; 16], k: &[u32; 64]) -> Words
    ensures { result ≡ spec.block k.now x.now w }
{
    let e = four(0, w, x, k);
    let e = four(1, e, x, k);
    let e = four(2, e, x, k);
    let e = four(3, e, x, k);
    let e = four(4, e, x, k);
    let e = four(5, e, x, k);
    let e = four(6, e, x, k);
    let e = four(7, e, x, k);
    let e = four(8, e, x, k);
    let e = four(9, e, x, k);
    let e = four(10, e, x, k);
    let e = four(11, e, x, k);
    let e = four(12, e, x, k);
    let e = four(13, e, x, k);
    let e = four(14, e, x, k);
    let e = four(15, e, x, k);
    sum(w, e)
}

// The words after each whole block of s.
pub fn blocks(w: Words, s: &[u8], k: &[u32; 64]) -> Words
    ensures { result ≡ spec.whole k.now s.now w }
{
    let mut e = w;
    let mut at = 0;
    while 64 <= s.len() - at {
        let x = block_words(&s[at..]);
        e = block(e, &x, k);
        at += 64;
    }
    e
}
