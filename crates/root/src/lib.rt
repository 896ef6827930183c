#![tactic(auto)]

// Root files: the walk over their blocks, the check of a whole file, and the lookup of a file number.
ghost use Rattle.std.specs.Prelude.{◌≡◌, IfOk, IfSome};
ghost use Rattle.refusal.specs.Check.{check_of, silent};
ghost use Rattle.root_layout.specs.Header as header;
ghost use Rattle.root.specs.Root as spec;
ghost use Rattle.root.specs.Lookup as lookup;

use parts::{copy, part};
use refusal::Refusal;
use root_block::ids::delta;
use root_block::{Block, DELTA_SIZE, KEY_SIZE};
use root_layout::Layout;

// What a lookup finds: where the content key stands in the file, and the key by value.
#[derive(Clone, Copy)]
pub struct Found {
    pub at: usize,
    pub key: [u8; 16],
}

// Refusals 40 and 41, block by block.
fn check_blocks(file: &[u8], l: Layout) -> Result<(), Refusal>
    ensures { check_of result ≡ spec.blocks_check file.now l (spec.blocks_by file.now l) }
{
    let mut place = l.start as usize;
    while place < file.len() {
        let bytes = &file[place..];
        root_block::check(bytes, l, place)?;
        place += Block::read(bytes, l).size(l);
    }
    Ok(())
}

// The check of a whole file, and how its blocks are laid out.
pub fn judge(file: &[u8]) -> Result<Layout, Refusal>
    ensures { header.outcome result ≡ spec.judged_outcome file.now }
{
    let l = root_layout::open(file)?;
    check_blocks(file, l)?;
    Ok(l)
}

// Refusals 43, 44, 42, 43, then block by block 40, 41.
#[tactic(auto, unfolding(refusal::specs::Outcome::after))]
pub fn check(file: &[u8]) -> Result<(), Refusal>
    ensures { check_of result ≡ spec.root_check file.now }
{
    judge(file)?;
    Ok(())
}

// The content key at a place, with zeros past the end of the file.
pub fn key_from(file: &[u8], at: usize) -> [u8; 16]
    ensures { result ≡ lookup.key_from file.now at }
{
    let mut key = [0u8; 16];
    copy(part(file, at, KEY_SIZE), &mut key, 0);
    key
}

// The first record of the sought id, in file order, in a block that counts. The search leaves both loops at the first match.
fn search(file: &[u8], l: Layout, id: u32, locale: u32, unwanted: u64) -> Option<Found>
    requires { spec.blocks_check file.now l (spec.blocks_by file.now l) ≡ silent }
    ensures result_value { lookup.found_told result ≡ lookup.found_among (lookup.wanted id locale unwanted) (lookup.records_by file.now l) }
    ensures key_value { IfSome result (λ f. f.key ≡ lookup.key_at file.now f.at) }
{
    let sought = i64::from(id);
    let mut found = None;
    let mut at = l.start as usize;
    'blocks: while at < file.len() {
        let bytes = &file[at..];
        let block = Block::read(bytes, l);
        if block.counts(locale, unwanted) {
            let deltas = root_block::deltas(bytes, l);
            let mut last: i64 = -1;
            for i in 0..block.count {
                let d = DELTA_SIZE * i as usize;
                let step = delta(deltas[d], deltas[d + 1], deltas[d + 2], deltas[d + 3]);
                last = last + 1 + i64::from(step);
                if last == sought {
                    let place = at + block.key_at(l, i);
                    found = Some(Found {
                        at: place,
                        key: key_from(file, place),
                    });
                    break 'blocks;
                }
            }
        }
        at += block.size(l);
    }
    found
}

// Looks a file number up in the blocks that share a locale bit and no unwanted content bit. The whole file is checked first.
pub fn lookup(file: &[u8], id: u32, locale: u32, unwanted: u64) -> Result<Option<Found>, Refusal>
    ensures answer_value { lookup.outcome result ≡ lookup.lookup_of file.now id locale unwanted }
    ensures key_value { IfOk result (λ found. IfSome found (λ f. f.key ≡ lookup.key_at file.now f.at)) }
{
    let l = judge(file)?;
    Ok(search(file, l, id, locale, unwanted))
}
