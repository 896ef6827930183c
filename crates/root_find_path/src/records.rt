// The records of one block: the first with a name hash, and the id of a record.
ghost use Rattle.std.specs.Prelude.{◌≡◌, ◌+◌, ◌≤◌, ◌<◌, pos, length};
ghost use Rattle.numbers.specs.Number.{little_at};
ghost use Rattle.root_block.specs.Ids.{id_at};
ghost use Rattle.root_find_path.specs.Records.{Whole, FoundWith, Judged};

use root_block::ids::delta;
use root_block::{Block, DELTA_SIZE};
use root_layout::Layout;

// The name hash at an offset: eight little-endian bytes.
fn hash_in(bytes: &[u8], at: usize) -> u64
    requires { at + 8 ≤ length bytes.now }
    ensures { result ≡ little_at bytes.now at 8 }
{
    u64::from_le_bytes([
        bytes[at],
        bytes[at + 1],
        bytes[at + 2],
        bytes[at + 3],
        bytes[at + 4],
        bytes[at + 5],
        bytes[at + 6],
        bytes[at + 7],
    ])
}

// The first record of a block that has this name hash.
pub(crate) fn record_with(bytes: &[u8], l: Layout, block: Block, hash: u64) -> Option<u32>
    requires { Whole bytes.now l block }
    ensures { FoundWith bytes.now l block hash result }
{
    for i in 0..block.count {
        if hash_in(bytes, block.hash_at(l, i)) == hash {
            return Some(i);
        }
    }
    None
}

// The id of record i of `count`, whose ids are in range: reckoned from the first on.
pub(crate) fn id_at(deltas: &[u8], count: u32, i: u32) -> u32
    requires judged { Judged deltas.now count }
    requires i_lt_count { i < count }
    ensures { pos result ≡ id_at deltas.now i }
{
    let mut id: i64 = -1;
    for j in 0..i + 1 {
        let at = DELTA_SIZE * j as usize;
        let step = delta(deltas[at], deltas[at + 1], deltas[at + 2], deltas[at + 3]);
        id = id + 1 + i64::from(step);
    }
    id as u32
}
