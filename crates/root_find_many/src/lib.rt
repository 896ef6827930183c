#![tactic(auto)]

// Many file numbers looked up in a root file at once: one pass over its records, each of which is sought among the ids.
ghost use Rattle.std.specs.Prelude.{◌≡◌, [], ◌<◌, length, drop};
ghost use Rattle.refusal.specs.Check.{silent};
ghost use Rattle.refusal.specs.Outcome.{written_outcome};
ghost use Rattle.id_list.specs.Place.{Rising};
ghost use Rattle.root_layout.specs.Header as header;
ghost use Rattle.root_block.specs.Block.{block_check};
ghost use Rattle.root.specs.Root.{blocks_by, blocks_check};
ghost use Rattle.root.specs.Lookup.{records_by};
ghost use Rattle.root_find_many.specs.Many as spec;
ghost use Rattle.root_find_many.specs.Entries.{Room, Held, Kept, entry_by, BlockAt, BlockPut, CountedPut};

use entries::{clear, put_record};
use id_list::ID_SIZE;
use refusal::{Reason, Refusal};
use root::judge;
use root_block::Block;
use root_block::ids::delta_at;
use root_layout::Layout;

mod entries;

// The bytes of an entry in the output.
pub const ENTRY_SIZE: usize = 20;

// Puts the entries of a block that counts, record by record. The guess is where the last id stands: ids mostly rise.
fn put_records(
    file: &[u8],
    l: Layout,
    at: usize,
    block: Block,
    deltas: &[u8],
    ids: &[u8],
    output: &mut [u8],
)
    requires block_at { BlockAt file.now l at block deltas.now }
    requires rising { Rising ids.now }
    requires room { Room ids.now output.old }
    ensures kept { Kept ids.now output.old output.new }
    ensures counted_put { CountedPut file.now l at block ids.now output.old output.new }
{
    let mut last: i64 = -1;
    let mut guess = 0;
    for i in 0..block.count {
        let step = delta_at(deltas, i);
        last = last + 1 + i64::from(step);
        guess = put_record(
            file,
            at + block.key_at(l, i),
            last as u32,
            ids,
            guess,
            output,
        );
    }
}

// Puts the entries of the block at a byte, if it counts.
fn put_block(
    file: &[u8],
    l: Layout,
    at: usize,
    ids: &[u8],
    locale: u32,
    unwanted: u64,
    output: &mut [u8],
)
    requires at_in_bounds { (at < length file.now) × (block_check l (drop at file.now) at ≡ silent) }
    requires rising { Rising ids.now }
    requires room { Room ids.now output.old }
    ensures kept { Kept ids.now output.old output.new }
    ensures block_put { BlockPut file.now l at locale unwanted ids.now output.old output.new }
{
    let bytes = &file[at..];
    let block = Block::read(bytes, l);
    if !block.counts(locale, unwanted) {
        return;
    }
    put_records(
        file,
        l,
        at,
        block,
        root_block::deltas(bytes, l),
        ids,
        output,
    );
}

// Puts the entries of all blocks, from the first on.
fn put_blocks(file: &[u8], l: Layout, ids: &[u8], locale: u32, unwanted: u64, output: &mut [u8])
    requires l_value { (blocks_check file.now l (blocks_by file.now l) ≡ silent) × Held ids.now output.old (entry_by file.now locale unwanted []) }
    requires rising { Rising ids.now }
    requires room { Room ids.now output.old }
    ensures kept { Kept ids.now output.old output.new }
    ensures held { Held ids.now output.new (entry_by file.now locale unwanted (records_by file.now l)) }
{
    let mut at = l.start as usize;
    while at < file.len() {
        put_block(file, l, at, ids, locale, unwanted, output);
        at += Block::read(&file[at..], l).size(l);
    }
}

// The entries of all ids.
fn fill(file: &[u8], l: Layout, ids: &[u8], locale: u32, unwanted: u64, output: &mut [u8])
    requires l_value { blocks_check file.now l (blocks_by file.now l) ≡ silent }
    requires rising { Rising ids.now }
    requires room { Room ids.now output.old }
    ensures kept { Kept ids.now output.old output.new }
    ensures held { Held ids.now output.new (entry_by file.now locale unwanted (records_by file.now l)) }
{
    clear(ids.len() / ID_SIZE, output);
    put_blocks(file, l, ids, locale, unwanted, output);
}

// The root's check, 12, 161, 13, and how the blocks are laid out.
fn judge_all(file: &[u8], ids: &[u8], room: usize) -> Result<Layout, Refusal>
    ensures { header.outcome result ≡ spec.judged_outcome file.now ids.now room }
{
    let l = judge(file)?;
    id_list::check(ids)?;
    if room / ENTRY_SIZE < ids.len() / ID_SIZE {
        return Err(Reason::OutputShort.at(0));
    }
    Ok(l)
}

// Looks up each id of a list that rises, in the blocks that share a locale bit and no unwanted content bit.
pub fn find_many(
    file: &[u8],
    ids: &[u8],
    locale: u32,
    unwanted: u64,
    output: &mut [u8],
) -> Result<usize, Refusal>
    ensures result_value { written_outcome result ≡ spec.many_outcome file.now ids.now (length output.old) }
    ensures output_after { output.new ≡ spec.many_output file.now ids.now locale unwanted output.old }
{
    let l = judge_all(file, ids, output.len())?;
    fill(file, l, ids, locale, unwanted, output);
    Ok(ENTRY_SIZE * (ids.len() / ID_SIZE))
}
