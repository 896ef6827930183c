#![tactic(auto)]

// The full checks of three files and the chain through them, one call after the other. That the chain agrees with reading each file is
// what `follow` ensures of their answers, so that it rests on the contracts of the functions themselves.
ghost use Rattle.std.specs.Prelude.{◌≡◌};
ghost use Rattle.refusal.specs.Check.{check_of};
ghost use Rattle.root.specs.Root.{root_check};
ghost use Rattle.encoding.specs.Check.{full_check};
ghost use Rattle.index_open.specs.Open.{outcome};
ghost use Rattle.index.specs.Check.{check_outcome};
ghost use Rattle.chain.specs.Chain.{resolve, told};
ghost use Rattle.chain_calls.specs.Followed as spec;

use chain::{LinkRefusal, Resolved};
use index_layout::Layout;
use refusal::Refusal;

// What the three checks and the chain answered.
#[derive(Clone, Copy)]
pub struct Followed {
    pub root: Result<(), Refusal>,
    pub encoding: Result<(), Refusal>,
    pub index: Result<Layout, Refusal>,
    pub resolved: Result<Resolved, LinkRefusal>,
}

// Checks three files and follows a file number through them (rule C8).
pub fn follow(
    root: &[u8],
    encoding: &[u8],
    index: &[u8],
    id: u32,
    locale: u32,
    unwanted: u64,
) -> Followed
    ensures root_value { (check_of result.root ≡ root_check root.now) × (check_of result.encoding ≡ full_check encoding.now) }
    ensures index_value { outcome result.index ≡ check_outcome index.now }
    ensures resolved_value { told result.resolved ≡ resolve root.now encoding.now index.now id locale unwanted }
    ensures agrees_where_checked { spec.AgreesWhereChecked root.now encoding.now index.now id locale unwanted result }
{
    Followed {
        root: root::check(root),
        encoding: encoding::check(encoding),
        index: index::check(index),
        resolved: chain::resolve(root, encoding, index, id, locale, unwanted),
    }
}
