#![tactic(auto)]

// The lookup of a path in a root file: the first record that has the path's name hash.
ghost use Rattle.std.specs.Prelude.{◌≡◌, IfOk, IfSome};
ghost use Rattle.refusal.specs.Check.{silent};
ghost use Rattle.root.specs.Root.{blocks_by, blocks_check};
ghost use Rattle.root.specs.Lookup.{records_by, first_of, key_at};
ghost use Rattle.root_find_path.specs.Path as spec;

use records::{id_at, record_with};
use refusal::Refusal;
use root::{judge, key_from};
use root_block::Block;
use root_layout::Layout;

mod records;

// What a lookup finds: the id of the record, where its content key stands in the file, and the key by value.
#[derive(Clone, Copy)]
pub struct Found {
    pub id: u32,
    pub at: usize,
    pub key: [u8; 16],
}

// Whether the records of a block are searched: it counts, and has name hashes.
#[tactic(auto, unfolding(crate::specs::Path::is_searched))]
fn is_searched(block: Block, l: Layout, locale: u32, unwanted: u64) -> bool
    ensures { result ≡ spec.is_searched l locale unwanted block }
{
    block.counts(locale, unwanted) && block.has_hashes(l)
}

// The first record with a name hash, in file order, in a block that is searched.
fn search(file: &[u8], l: Layout, hash: u64, locale: u32, unwanted: u64) -> Option<Found>
    requires { blocks_check file.now l (blocks_by file.now l) ≡ silent }
    ensures result_value { spec.found_told result ≡ spec.record_told (first_of (spec.named l hash locale unwanted) (records_by file.now l)) }
    ensures key_value { IfSome result (λ f. f.key ≡ key_at file.now f.at) }
{
    let mut at = l.start as usize;
    while at < file.len() {
        let bytes = &file[at..];
        let block = Block::read(bytes, l);
        if is_searched(block, l, locale, unwanted) {
            if let Some(i) = record_with(bytes, l, block, hash) {
                let id = id_at(root_block::deltas(bytes, l), block.count, i);
                let place = at + block.key_at(l, i);
                return Some(Found {
                    id,
                    at: place,
                    key: key_from(file, place),
                });
            }
        }
        at += block.size(l);
    }
    None
}

// Looks a name hash up in the blocks that are searched. The whole file is checked first.
fn find_hash(file: &[u8], hash: u64, locale: u32, unwanted: u64) -> Result<Option<Found>, Refusal>
    ensures answer_value { spec.outcome result ≡ spec.hash_lookup file.now hash locale unwanted }
    ensures key_value { IfOk result (λ found. IfSome found (λ f. f.key ≡ key_at file.now f.at)) }
{
    let l = judge(file)?;
    Ok(search(file, l, hash, locale, unwanted))
}

// Looks a path up by its name hash, in the blocks that share a locale bit and no unwanted content bit and have name hashes.
pub fn find_path(
    file: &[u8],
    path: &[u8],
    locale: u32,
    unwanted: u64,
) -> Result<Option<Found>, Refusal>
    ensures answer_value { spec.outcome result ≡ spec.path_lookup file.now path.now locale unwanted }
    ensures key_value { IfOk result (λ found. IfSome found (λ f. f.key ≡ key_at file.now f.at)) }
{
    let hash = name_hash::hash(path)?;
    find_hash(file, hash, locale, unwanted)
}
