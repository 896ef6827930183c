#![tactic(auto)]

// The full check of an index, the lookup of a key in it and the bound, one call after the other. Demand 3 is what `look` ensures of
// their answers, so that it rests on the contracts of the functions themselves.
ghost use Rattle.std.specs.Prelude.{◌≡◌, ◌≤◌, IfOk};
ghost use Rattle.index_lookup.specs.Lookup.{outcome, bound_outcome};
ghost use Rattle.index_agreement.specs.LookupAgrees.{comparisons};
ghost use Rattle.index_lookup_calls.specs.Looked as spec;

use index_lookup::Answer;
use refusal::Refusal;

// What the lookup and the bound answered after the full check; its refusal for both where it refused.
#[derive(Clone, Copy)]
pub struct Looked {
    pub looked: Result<Answer, Refusal>,
    pub most: Result<u32, Refusal>,
}

// Looks a key up in an index that passes the full check.
pub fn look(index: &[u8], key: &[u8]) -> Looked
    ensures looked_value { outcome result.looked ≡ spec.checked_lookup index.now key.now }
    ensures most_value { bound_outcome result.most ≡ spec.checked_bound index.now }
    ensures by_index { IfOk result.most (λ n. comparisons index.now key.now ≤ n) }
{
    if let Err(r) = index::check(index) {
        return Looked {
            looked: Err(r),
            most: Err(r),
        };
    }
    Looked {
        looked: index_lookup::lookup(index, key),
        most: index_lookup::bound(index),
    }
}
