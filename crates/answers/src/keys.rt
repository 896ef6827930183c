// Keys.
ghost use Rattle.std.specs.Prelude.{◌≡◌, [], ◌∷◌};
ghost use Rattle.parts.specs.Part.{part_at};
ghost use Rattle.refusal.specs.Check.{check_of};
ghost use Rattle.refusal.specs.Outcome.{answered, after};
ghost use Rattle.refusal.specs.Output.{filled};
ghost use Rattle.crossing.specs.Crossing.{Crosses, told_or};

use crossing::refused;
use parts::{copy, part};
use refusal::Refusal;

// Lays out what reading a key of `length` bytes answers, and puts these bytes.
pub fn tell_key(
    read: Result<[u8; 16], Refusal>,
    length: u8,
    key: &mut [u8; 16],
    answer: &mut [u64; 8],
) -> u32
    ensures crosses { Crosses (after (check_of read) (answered (length ∷ []))) result answer.new }
    ensures key_after { key.new ≡ filled (check_of read) (part_at (told_or read []) 0 length) key.old }
{
    match read {
        Err(r) => refused(r, answer),
        Ok(bytes) => {
            copy(part(&bytes, 0, usize::from(length)), key, 0);
            *answer = [u64::from(length), 0, 0, 0, 0, 0, 0, 0];
            0
        }
    }
}
