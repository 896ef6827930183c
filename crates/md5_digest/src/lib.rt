#![tactic(auto, unfolding(refusal::specs::Check::first, refusal::specs::Check::refused_if, refusal::specs::Outcome::after))]

// MD5 (RFC 1321) over bytes that come in parts.
ghost use Rattle.std.specs.Prelude.{◌≡◌, not, ◌++◌, ◌+◌, ◌-◌, ◌%◌, ◌^◌, ◌≤◌, ◌<◌, length, take, IfOk};
ghost use Rattle.refusal.specs.Check.{check_of};
ghost use Rattle.md5_block.specs.Block.{addends, whole};
ghost use Rattle.md5_digest.specs.Message as spec;

use md5_block::{Words, addends, blocks};
use md5_end::{bytes, eight, end, initial, lay_rest};
use parts::copy;
use refusal::{Reason, Refusal};

// The most bytes that are hashed in all: 2^48.
pub const LIMIT: u64 = 281_474_976_710_656;

// The running state: the words after the whole blocks so far, the bytes of the block that is not whole yet, of which
// the first count % 64 matter, and the number of bytes so far. Every value of it is a state.
#[derive(Clone, Copy)]
pub struct Md5 {
    pub words: Words,
    pub pending: [u8; 64],
    pub count: u64,
}

// Whether n more bytes stay within the limit.
pub fn within_limit(count: u64, n: u64) -> bool
    ensures { spec.is_too_long (count + n) ≡ not result }
{
    if LIMIT < count {
        return false;
    }
    n <= LIMIT - count
}

// A part that does not fill the block of the waiting bytes.
fn join(state: Md5, part: &[u8]) -> Md5
    requires { (state.count + length part.now ≤ 2 ^ 48) × (length part.now < 64 - state.count % 64) }
    ensures { result ≡ spec.absorbed state part.now }
{
    let count = state.count;
    let words = state.words;
    let mut pending = state.pending;
    copy(part, &mut pending, (count % 64) as usize);
    Md5 {
        words,
        pending,
        count: count + part.len() as u64,
    }
}

// A part that fills it.
fn fill(state: Md5, part: &[u8]) -> Md5
    requires { (state.count + length part.now ≤ 2 ^ 48) × (64 - state.count % 64 ≤ length part.now) }
    ensures { result ≡ spec.absorbed state part.now }
{
    let k = addends();
    let n = (state.count % 64) as usize;
    let room = 64 - n;
    let mut filled = state.pending;
    copy(&part[..room], &mut filled, n);
    let rest = &part[room..];
    let words = blocks(blocks(state.words, &filled, &k), rest, &k);
    let mut pending = [0u8; 64];
    lay_rest(rest, &mut pending);
    Md5 {
        words,
        pending,
        count: state.count + part.len() as u64,
    }
}

fn absorb(state: Md5, part: &[u8]) -> Md5
    requires { state.count + length part.now ≤ 2 ^ 48 }
    ensures { result ≡ spec.absorbed state part.now }
{
    let room = 64 - (state.count % 64) as usize;
    if part.len() < room {
        return join(state, part);
    }
    fill(state, part)
}

impl Md5 {
    pub fn new() -> Md5
        ensures { result ≡ spec.fresh }
    {
        Md5 {
            words: initial(),
            pending: [0u8; 64],
            count: 0,
        }
    }

    // Takes the next part of the message. A refused part leaves the state as it was.
    pub fn update(self, part: &[u8]) -> (Md5, Result<(), Refusal>)
        ensures state { result.0 ≡ spec.updated self part.now }
        ensures check { check_of result.1 ≡ spec.limited (self.count + length part.now) }
    {
        if !within_limit(self.count, part.len() as u64) {
            return (self, Err(Reason::HashLimit.at(0)));
        }
        (absorb(self, part), Ok(()))
    }

    // The digest of all parts.
    pub fn finish(self) -> [u8; 16]
        ensures { result ≡ spec.finished self }
    {
        let count = self.count;
        let n = (count % 64) as usize;
        let pending = self.pending;
        bytes(end(self.words, &pending[..n], count))
    }
}

// The words after a message and its padding.
fn words_after(message: &[u8]) -> Words
    ensures { result ≡ whole addends (message.now ++ spec.padding (length message.now)) spec.initial }
{
    end(initial(), message, message.len() as u64)
}

// The digest of bytes that are all at hand.
pub fn digest(message: &[u8]) -> Result<[u8; 16], Refusal>
    ensures check { check_of result ≡ spec.limited (length message.now) }
    ensures bytes { IfOk result (λ digest. digest ≡ spec.md5 message.now) }
{
    if !within_limit(0, message.len() as u64) {
        return Err(Reason::HashLimit.at(0));
    }
    Ok(bytes(words_after(message)))
}

// The first eight bytes of the digest of bytes that are all at hand.
pub fn first_eight(message: &[u8]) -> Result<[u8; 8], Refusal>
    ensures check { check_of result ≡ spec.limited (length message.now) }
    ensures bytes { IfOk result (λ bytes. bytes ≡ take 8 (spec.md5 message.now)) }
{
    if !within_limit(0, message.len() as u64) {
        return Err(Reason::HashLimit.at(0));
    }
    Ok(eight(words_after(message)))
}
