#![tactic(auto, unfolding(refusal::specs::Outcome::after, crate::specs::Crossing::result, crate::specs::Crossing::answer_words))]

// How answers cross to C, as a result and eight words, and how small numbers come from there.
ghost use Rattle.std.specs.Prelude.{◌≡◌, min};
ghost use Rattle.refusal.specs.Check.{check_of};
ghost use Rattle.refusal.specs.Number.{number_of};
ghost use Rattle.refusal.specs.Outcome.{refusal};
ghost use Rattle.crossing.specs.Crossing.{Crosses, CrossesBeside, verdict_outcome, told_or};

use refusal::Refusal;

// A number that a byte does not hold becomes 255, which no setting may be.
pub fn narrow(x: u32) -> u8
    ensures { result ≡ min x 255 }
{
    x.min(255) as u8
}

// Lays out a refusal, and the number that stands beside it.
pub fn refused_beside(r: Refusal, beside: u32, answer: &mut [u64; 8]) -> u32
    ensures { CrossesBeside beside (refusal (number_of r.reason) r.place) result answer.new }
{
    let number = u64::from(r.reason.number());
    let place = r.place as u64;
    *answer = [number, place, u64::from(beside), 0, 0, 0, 0, 0];
    2
}

// Lays out a refusal.
pub fn refused(r: Refusal, answer: &mut [u64; 8]) -> u32
    ensures { Crosses (refusal (number_of r.reason) r.place) result answer.new }
{
    refused_beside(r, 0, answer)
}

// Lays out an answer of sixteen bytes, which are put in place of those lent; a refusal leaves them.
pub fn tell_sixteen(
    told: Result<[u8; 16], Refusal>,
    lent: &mut [u8; 16],
    answer: &mut [u64; 8],
) -> u32
    ensures crosses { Crosses (verdict_outcome (check_of told)) result answer.new }
    ensures lent_after { lent.new ≡ told_or told lent.old }
{
    match told {
        Err(r) => refused(r, answer),
        Ok(bytes) => {
            *lent = bytes;
            *answer = [0u64; 8];
            0
        }
    }
}
