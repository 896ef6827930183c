#![tactic(auto, unfolding(refusal::specs::Check::first, refusal::specs::Check::refused_if, refusal::specs::Outcome::after, crate::specs::List::list_check))]

// The list of an index: its entries' bytes, in order, with nothing between.
ghost use Rattle.std.specs.Prelude.{◌≡◌, ◌≤◌, length};
ghost use Rattle.refusal.specs.Check.{silent};
ghost use Rattle.refusal.specs.Outcome.{written_outcome};
ghost use Rattle.refusal.specs.Output.{filled};
ghost use Rattle.index_layout.specs.Entries as entries;
ghost use Rattle.index_list.specs.List as spec;

use index_layout::{Layout, Page, page_at};
use parts::{copy, part};
use refusal::{Reason, Refusal};

// Copies the entries of each page, one page after the other.
fn fill(index: &[u8], l: Layout, output: &mut [u8])
    requires { length (entries.entries_by index.now l) ≤ length output.old }
    ensures { output.new ≡ filled silent (entries.entries_by index.now l) output.old }
{
    let size = l.entry_size();
    let pages = l.pages;
    let mut to = 0;
    for p in 0..pages {
        let bytes = l.on_page(Page(p)) * size;
        let page = part(index, page_at(Page(p)), bytes);
        copy(page, output, to);
        to += page.len();
    }
}

// Writes the list of a checked index into the output.
pub fn list(index: &[u8], output: &mut [u8]) -> Result<usize, Refusal>
    ensures result_value { written_outcome result ≡ spec.list_outcome index.now (length output.old) }
    ensures output_after { output.new
        ≡ filled (spec.list_check index.now (length output.old)) (entries.list_of index.now) output.old }
{
    let l = index::check(index)?;
    let bytes = l.entries as usize * l.entry_size();
    if output.len() < bytes {
        return Err(Reason::OutputShort.at(0));
    }
    fill(index, l, output);
    Ok(bytes)
}
