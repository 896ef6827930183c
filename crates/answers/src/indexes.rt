// Archive indexes.
ghost use Rattle.std.specs.Prelude.{◌≡◌, Some};
ghost use Rattle.index_lookup.specs.Lookup as lookups;
ghost use Rattle.crossing.specs.Crossing.{Crosses, answer_words};
ghost use Rattle.answers.specs.Lent.{footer_told};

use crate::told::AsWords;
use crossing::refused;
use index_layout::{FOOTER_SIZE, Layout};
use index_lookup::{Answer, Entry};
use refusal::Refusal;

// Lays out what a footer tells: the layout, the length of the whole file and that of the footer.
pub fn tell_footer(told: Result<Layout, Refusal>, answer: &mut [u64; 8]) -> u32
    ensures { Crosses (footer_told told) result answer.new }
{
    match told {
        Err(r) => refused(r, answer),
        Ok(l) => {
            *answer = l.words();
            answer[5] = l.length() as u64;
            answer[6] = FOOTER_SIZE as u64;
            0
        }
    }
}

// The words of an entry that was found, and of the comparisons.
pub(crate) fn entry_words(e: Entry, compared: u32) -> [u64; 8]
    ensures { result ≡ answer_words 0 (lookups.told_with compared (Some e)) }
{
    let page = u64::from(e.page.0);
    let slot = u64::from(e.slot.0);
    let size = u64::from(e.size);
    let compared = u64::from(compared);
    [page, slot, size, e.location, compared, 0, 0, 0]
}

// Lays out what a lookup answers. Of an absent key it tells the comparisons.
pub fn tell_lookup(told: Result<Answer, Refusal>, answer: &mut [u64; 8]) -> u32
    ensures { Crosses (lookups.outcome told) result answer.new }
{
    match told {
        Err(r) => refused(r, answer),
        Ok(looked) => match looked.found {
            Some(e) => {
                *answer = entry_words(e, looked.compared);
                0
            }
            None => {
                *answer = [0, 0, 0, 0, u64::from(looked.compared), 0, 0, 0];
                1
            }
        },
    }
}
