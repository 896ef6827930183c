// How answers of any type are laid out.
ghost use Rattle.std.specs.Prelude.{◌≡◌, List, ℕ};
ghost use Rattle.refusal.specs.Outcome.{answered, outcome_by};
ghost use Rattle.crossing.specs.Crossing.{Crosses, answer_words, found_outcome};

use crossing::refused;
use refusal::Refusal;

// An answer that C is told as a word for each of its values, at most eight.
pub trait AsWords {
    ghost values: { Self → List ℕ };

    fn words(self) -> [u64; 8]
        ensures { result ≡ answer_words 0 (answered (values self)) };
}

// Lays out an answer, or a refusal.
pub fn tell<T: AsWords>(told: Result<T, Refusal>, answer: &mut [u64; 8]) -> u32
    ensures { Crosses (outcome_by T.values told) result answer.new }
{
    match told {
        Err(r) => refused(r, answer),
        Ok(values) => {
            *answer = values.words();
            0
        }
    }
}

// Lays out an answer that may be absent, or a refusal.
pub fn tell_found<T: AsWords>(told: Result<Option<T>, Refusal>, answer: &mut [u64; 8]) -> u32
    ensures { Crosses (found_outcome T.values told) result answer.new }
{
    match told {
        Err(r) => refused(r, answer),
        Ok(None) => {
            *answer = [0u64; 8];
            1
        }
        Ok(Some(found)) => {
            *answer = found.words();
            0
        }
    }
}
