// Content keys that are found in a root file.
ghost use Rattle.std.specs.Prelude.{◌≡◌, [], ◌∷◌, List, ℕ};
ghost use Rattle.crossing.specs.Crossing.{Crosses, found_outcome, key_found};

use crate::told::AsWords;
use crossing::refused;
use refusal::Refusal;

// What a lookup in a root file finds: values that C is told, and a content key.
pub trait Keyed: AsWords {
    ghost key: { Self → List ℕ };

    fn content_key(&self) -> [u8; 16]
        ensures { result ≡ key self.now };
}

impl AsWords for root::Found {
    ghost values = { λ found. found.at ∷ [] };

    fn words(self) -> [u64; 8] {
        [self.at as u64, 0, 0, 0, 0, 0, 0, 0]
    }
}

impl Keyed for root::Found {
    ghost key = { λ found. found.key };

    fn content_key(&self) -> [u8; 16] {
        self.key
    }
}

impl AsWords for root_find_path::Found {
    ghost values = { λ found. found.id ∷ found.at ∷ [] };

    fn words(self) -> [u64; 8] {
        [u64::from(self.id), self.at as u64, 0, 0, 0, 0, 0, 0]
    }
}

impl Keyed for root_find_path::Found {
    ghost key = { λ found. found.key };

    fn content_key(&self) -> [u8; 16] {
        self.key
    }
}

// Lays out what a lookup answers, and puts the content key that it found.
pub fn tell_keyed<T: Keyed>(
    told: Result<Option<T>, Refusal>,
    key: &mut [u8; 16],
    answer: &mut [u64; 8],
) -> u32
    ensures crosses { Crosses (found_outcome T.values told) result answer.new }
    ensures key_after { key.new ≡ key_found T.key told key.old }
{
    match told {
        Err(r) => refused(r, answer),
        Ok(None) => {
            *answer = [0u64; 8];
            1
        }
        Ok(Some(found)) => {
            *key = found.content_key();
            *answer = found.words();
            0
        }
    }
}
