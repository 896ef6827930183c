// File numbers, and what a chain answers for one.
ghost use Rattle.std.specs.Prelude.{◌≡◌};
ghost use Rattle.chain.specs.Chain.{told};
ghost use Rattle.file_number.specs.FileNumber as numbers;
ghost use Rattle.crossing.specs.Crossing.{Crosses};
ghost use Rattle.answers.specs.Chain.{ChainCrosses};

use crate::indexes::entry_words;
use chain::{LinkRefusal, Resolved};
use crossing::refused_beside;
use file_number::Fault;

// Lays out what a chain answers.
pub fn tell_resolved(resolved: Result<Resolved, LinkRefusal>, answer: &mut [u64; 8]) -> u32
    ensures { ChainCrosses (told resolved) result answer.new }
{
    match resolved {
        Err(refused) => refused_beside(refused.refusal, refused.link.number(), answer),
        Ok(chained) => match chained.found {
            Ok(e) => {
                *answer = entry_words(e, chained.compared);
                0
            }
            Err(link) => {
                let at = u64::from(link.number());
                *answer = [0, 0, at, 0, u64::from(chained.compared), 0, 0, 0];
                1
            }
        },
    }
}

// Lays out what a file number answers.
pub fn tell_number(told: Result<u32, Fault>, answer: &mut [u64; 8]) -> u32
    ensures { Crosses (numbers.outcome told) result answer.new }
{
    match told {
        Ok(n) => {
            *answer = [u64::from(n), 0, 0, 0, 0, 0, 0, 0];
            0
        }
        Err(fault) => {
            let what = u64::from(fault.what.number());
            *answer = [what, fault.place as u64, 0, 0, 0, 0, 0, 0];
            1
        }
    }
}
