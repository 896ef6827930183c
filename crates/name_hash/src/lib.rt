#![tactic(auto)]

// Name hashes: hashlittle2 of a path in capitals, with backslashes.
ghost use Rattle.std.specs.Prelude.{◌≡◌, ◌+◌, ◌*◌, ◌<◌, ◌≤◌, length, replicate};
ghost use Rattle.parts.specs.Part.{overlay};
ghost use Rattle.md5_block.specs.Block.{rotated};
ghost use Rattle.name_hash.specs.Hashlittle as little;
ghost use Rattle.name_hash.specs.NameHash as spec;

use numbers::word;
use refusal::{Reason, Refusal};

// The greatest length of a path.
pub const MOST_PATH: usize = 1024;

// The greatest length of a short path, as most are.
const SHORT_PATH: usize = 128;

// a, b and c of hashlittle2.
#[derive(Clone, Copy)]
pub struct Words {
    pub a: u32,
    pub b: u32,
    pub c: u32,
}

fn rotate(x: u32, k: u32) -> u32
    requires { (0 < k) × (k < 32) }
    ensures { result ≡ rotated x k }
{
    x.rotate_left(k)
}

// A line of `mix`: a -= c; a ^= rot(c, k); c += b. The next line has b, c and a in the places of a, b and c.
#[tactic(auto, unfolding(crate::specs::Hashlittle::mix_line))]
fn mix_line(w: Words, k: u32) -> Words
    requires { (0 < k) × (k < 32) }
    ensures { result ≡ little.mix_line k w }
{
    Words {
        a: w.b,
        b: w.c.wrapping_add(w.b),
        c: w.a.wrapping_sub(w.c) ^ rotate(w.c, k),
    }
}

#[tactic(auto, unfolding(crate::specs::Hashlittle::mix, crate::specs::Hashlittle::lines))]
fn mix(w: Words) -> Words
    ensures { result ≡ little.mix w }
{
    let w = mix_line(w, 4);
    let w = mix_line(w, 6);
    let w = mix_line(w, 8);
    let w = mix_line(w, 16);
    let w = mix_line(w, 19);
    mix_line(w, 4)
}

// A line of `final`: c ^= b; c -= rot(b, k). The next line has b, c and a in the places of a, b and c.
#[tactic(auto, unfolding(crate::specs::Hashlittle::final_line))]
fn final_line(w: Words, k: u32) -> Words
    requires { (0 < k) × (k < 32) }
    ensures { result ≡ little.final_line k w }
{
    Words {
        a: w.b,
        b: (w.c ^ w.b).wrapping_sub(rotate(w.b, k)),
        c: w.a,
    }
}

// Seven lines leave b, c and a in the places of a, b and c.
fn final_mix(w: Words) -> Words
    ensures { result ≡ little.final w }
{
    let w = final_line(w, 14);
    let w = final_line(w, 11);
    let w = final_line(w, 25);
    let w = final_line(w, 16);
    let w = final_line(w, 4);
    let w = final_line(w, 14);
    let w = final_line(w, 24);
    Words {
        a: w.c,
        b: w.a,
        c: w.b,
    }
}

// The three words at an offset added to a, b and c.
#[tactic(auto, unfolding(crate::specs::Hashlittle::added))]
fn add(w: Words, s: &[u8], at: usize) -> Words
    requires { at ≤ length s.now }
    ensures { result ≡ little.added_at s.now at w }
{
    Words {
        a: w.a.wrapping_add(word(s, at)),
        b: w.b.wrapping_add(word(s, at + 4)),
        c: w.c.wrapping_add(word(s, at + 8)),
    }
}

// a, b and c before the first of `count` bytes.
#[tactic(auto, unfolding(crate::specs::Hashlittle::start))]
fn start(count: u32) -> Words
    ensures { result ≡ little.start count }
{
    let v = 0xdead_beefu32.wrapping_add(count);
    Words { a: v, b: v, c: v }
}

// The words after n blocks of 12 bytes.
fn mix_blocks(s: &[u8], count: u32, n: usize) -> Words
    requires { 12 * n ≤ length s.now }
    ensures { result ≡ little.mixed count s.now n }
{
    let mut w = start(count);
    for i in 0..n {
        w = mix(add(w, s, 12 * i));
    }
    w
}

// The words after `count` bytes: the blocks, and then the last 1 to 12 bytes with those behind them.
fn end(s: &[u8], count: u32) -> Words
    requires { (0 < count) × (count ≤ length s.now) }
    ensures { result ≡ little.ended count s.now }
{
    let n = (count as usize - 1) / 12;
    final_mix(add(mix_blocks(s, count, n), s, 12 * n))
}

// A byte of a path as it is hashed.
#[tactic(auto, unfolding(crate::specs::NameHash::normal_byte, numbers::specs::Number::within))]
fn normal(b: u8) -> u8
    ensures { result ≡ spec.normal_byte b }
{
    match b {
        b'a'..=b'z' => b - 32,
        b'/' => b'\\',
        _ => b,
    }
}

// Puts the bytes of a path, as they are hashed, in place of the first ones of `room`.
fn normalize(path: &[u8], room: &mut [u8])
    requires { length path.now ≤ length room.old }
    ensures { room.new ≡ overlay room.old 0 (spec.normalized path.now) }
{
    for i in 0..path.len() {
        room[i] = normal(path[i]);
    }
}

// A path of up to N bytes, stored as it is hashed, in front of zeros: the compiler then changes 16 bytes at a time.
fn hash_within<const N: usize>(path: &[u8]) -> Words
    requires { (0 < length path.now) × (length path.now ≤ N) × (N ≤ spec.most_path) }
    ensures { result ≡ little.hashlittle2 (spec.normalized path.now) }
{
    let mut room = [0u8; N];
    normalize(path, &mut room);
    end(&room, path.len() as u32)
}

// a, b and c at the end of a path. Most paths are short: to clear the greater room for them would cost as much as the hash.
fn hash_words(path: &[u8]) -> Words
    requires { length path.now ≤ spec.most_path }
    ensures { result ≡ little.hashlittle2 (spec.normalized path.now) }
{
    if path.is_empty() {
        return start(0);
    }
    if path.len() <= SHORT_PATH {
        return hash_within::<SHORT_PATH>(path);
    }
    hash_within::<MOST_PATH>(path)
}

// The name hash of a path, or refusal 110.
#[tactic(auto, unfolding(crate::specs::NameHash::name_hash, refusal::specs::Check::refused_if, refusal::specs::Outcome::after))]
pub fn hash(path: &[u8]) -> Result<u64, Refusal>
    ensures { spec.outcome result ≡ spec.hash_outcome path.now }
{
    if path.len() > MOST_PATH {
        return Err(Reason::PathLength.at(0));
    }
    let w = hash_words(path);
    Ok(u64::from(w.c) * 4_294_967_296 + u64::from(w.b))
}
