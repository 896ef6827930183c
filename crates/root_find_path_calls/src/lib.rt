#![tactic(auto)]

// The check of a root file, the name hash of a path and the lookup of the path in the file, one call after the other. That the first
// record is found is what `look` ensures of their answers, so that it rests on the contracts of the functions themselves.
ghost use Rattle.std.specs.Prelude.{◌≡◌, ℕ, Ok};
ghost use Rattle.refusal.specs.Check.{check_of};
ghost use Rattle.name_hash.specs.NameHash as names;
ghost use Rattle.root.specs.Root.{root_check};
ghost use Rattle.root_find_path.specs.Path.{path_lookup, outcome};
ghost use Rattle.root_find_path_calls.specs.Named.{FindsPath};

use refusal::Refusal;
use root_find_path::Found;

// What the three calls answered.
#[derive(Clone, Copy)]
pub struct Looked {
    pub checked: Result<(), Refusal>,
    pub hashed: Result<u64, Refusal>,
    pub found: Result<Option<Found>, Refusal>,
}

// Checks a root file, hashes a path and looks it up in the file. Where the check passed and the path has a name hash, the first record
// of all that is wanted is found, and none is absent where there is one (rule R22).
pub fn look(file: &[u8], path: &[u8], locale: u32, unwanted: u64) -> Looked
    ensures checked_value { check_of result.checked ≡ root_check file.now }
    ensures hashed_value { names.outcome result.hashed ≡ names.hash_outcome path.now }
    ensures answer_value { outcome result.found ≡ path_lookup file.now path.now locale unwanted }
    ensures by_index { (hash : ℕ) → result.checked ≡ Ok tt → result.hashed ≡ Ok hash → FindsPath file.now hash locale unwanted result.found }
{
    Looked {
        checked: root::check(file),
        hashed: name_hash::hash(path),
        found: root_find_path::find_path(file, path, locale, unwanted),
    }
}
