#![tactic(auto)]

// The check of a root file and the lookup of a file number in it, one call after the other. That the first record is found is what
// `look` ensures of their answers, so that it rests on the contracts of the functions themselves.
ghost use Rattle.std.specs.Prelude.{◌≡◌, Ok};
ghost use Rattle.refusal.specs.Check.{check_of};
ghost use Rattle.root.specs.Root.{root_check};
ghost use Rattle.root.specs.Lookup.{lookup_of, outcome};
ghost use Rattle.root_records.specs.Records.{FindsNumber};

use refusal::Refusal;
use root::Found;

// What the check and the lookup answered.
#[derive(Clone, Copy)]
pub struct Looked {
    pub checked: Result<(), Refusal>,
    pub found: Result<Option<Found>, Refusal>,
}

// Checks a root file and looks a file number up in it. Where the check passed, the first wanted record of all is found, and none is
// absent where there is one (rule R15).
pub fn look(file: &[u8], id: u32, locale: u32, unwanted: u64) -> Looked
    ensures checked_value { check_of result.checked ≡ root_check file.now }
    ensures answer_value { outcome result.found ≡ lookup_of file.now id locale unwanted }
    ensures finds_number { result.checked ≡ Ok tt → FindsNumber file.now id locale unwanted result.found }
{
    Looked {
        checked: root::check(file),
        found: root::lookup(file, id, locale, unwanted),
    }
}
