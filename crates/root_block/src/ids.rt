// The ids of a block, from its signed deltas.
ghost use Rattle.std.specs.Prelude.{◌≡◌, [], ◌∷◌, ◌*◌, ◌≤◌, length};
ghost use Rattle.refusal.specs.Check.{check_of};
ghost use Rattle.numbers.specs.Number.{little_at};
ghost use Rattle.root_block.specs.Ids as spec;

use crate::DELTA_SIZE;
use numbers::word;
use refusal::{Reason, Refusal};

pub const MOST_ID: i64 = 4_294_967_295;

// Four little-endian bytes as a signed number.
pub fn delta(a: u8, b: u8, c: u8, d: u8) -> i32
    ensures { result ≡ spec.signed (little_at (a ∷ b ∷ c ∷ d ∷ []) 0 4) }
{
    i32::from_le_bytes([a, b, c, d])
}

// The delta at a place where bytes are missing. Never inlined, so that the loops over records stay short.
#[cold]
#[inline(never)]
fn past_end(deltas: &[u8], at: usize) -> i32
    ensures { result ≡ spec.signed (little_at deltas.now at 4) }
{
    word(deltas, at).cast_signed()
}

// The delta of record i: four little-endian bytes as a signed number. A byte past the end reads as 0.
pub fn delta_at(deltas: &[u8], i: u32) -> i32
    ensures { result ≡ spec.delta_at deltas.now i }
{
    let at = DELTA_SIZE * i as usize;
    if deltas.len() < at + DELTA_SIZE {
        return past_end(deltas, at);
    }
    delta(deltas[at], deltas[at + 1], deltas[at + 2], deltas[at + 3])
}

// Refusal 41. An i64 holds an id, plus 1, plus any delta; each id is judged before the next is reckoned. The bytes of a delta are
// all there, so they are read with no test: this loop is most of a check.
pub(crate) fn check_ids(deltas: &[u8], count: u32, place: usize) -> Result<(), Refusal>
    requires { 4 * count ≤ length deltas.now }
    ensures { check_of result ≡ spec.ids_check deltas.now count place }
{
    let mut id: i64 = -1;
    for i in 0..count {
        let at = DELTA_SIZE * i as usize;
        let step = delta(deltas[at], deltas[at + 1], deltas[at + 2], deltas[at + 3]);
        id = id + 1 + i64::from(step);
        if id < 0 || id > MOST_ID {
            return Err(Reason::IdRange.at(place));
        }
    }
    Ok(())
}
