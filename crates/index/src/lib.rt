#![tactic(auto, unfolding(refusal::specs::Check::first, refusal::specs::Check::refused_if, refusal::specs::Outcome::after))]

// The full check of an archive index.
ghost use Rattle.std.specs.Prelude.{◌≡◌};
ghost use Rattle.index_open.specs.Open.{outcome};
ghost use Rattle.index.specs.Check as spec;

use index_layout::Layout;
use index_open::open;
use refusal::Refusal;

mod pages;

pub use pages::page_hashes;

// The full check.
pub fn check(index: &[u8]) -> Result<Layout, Refusal>
    ensures { outcome result ≡ spec.check_outcome index.now }
{
    let layout = open(index)?;
    pages::check_pages(index, layout)?;
    Ok(layout)
}
