#![tactic(auto)]

// A block of a root file under a layout: its header, its size, its ids, and where its keys and name hashes stand. The bytes lent
// begin with the block; what follows it does not matter. specs/Block.antt and specs/Ids.antt have the names of the constants as that
// language writes them.
ghost use Rattle.std.specs.Prelude.{◌≡◌, ◌^◌, ◌≤◌, ◌<◌};
ghost use Rattle.refusal.specs.Check.{check_of};
ghost use Rattle.root_block.specs.Block as spec;

use ids::check_ids;
use numbers::{little, word};
use parts::part;
use refusal::{Reason, Refusal};
use root_layout::Layout;

pub mod ids;

// The bytes of a delta, of a key and of a name hash.
pub const DELTA_SIZE: usize = 4;

pub const KEY_SIZE: usize = 16;

pub const NAME_HASH_SIZE: usize = 8;

// What the header of a block says.
#[derive(Clone, Copy)]
pub struct Block {
    pub count: u32,
    pub locale: u32,
    pub content: u64,
}

impl Block {
    // The header in front of the bytes.
    #[tactic(auto, unfolding(crate::specs::Block::block_of))]
    pub fn read(bytes: &[u8], l: Layout) -> Block
        ensures { result ≡ spec.block_of l bytes.now }
    {
        Block {
            count: word(bytes, 0),
            locale: word(bytes, l.locale_at()),
            content: little(bytes, l.content_at(), l.content_size()),
        }
    }

    // Whether the block has name hashes: a content bit drops them.
    pub fn has_hashes(self, l: Layout) -> bool
        ensures { result ≡ spec.block_has_hashes l self }
    {
        self.content & l.no_hashes == 0
    }

    // The bytes that a record's name hash takes.
    fn hash_size(self, l: Layout) -> usize
        ensures value { result ≡ spec.hash_size l self }
        ensures upper_bound { result ≤ 8 }
    {
        if self.has_hashes(l) {
            return NAME_HASH_SIZE;
        }
        0
    }

    // The bytes of the block.
    #[tactic(auto, unfolding(crate::specs::Block::block_size))]
    pub fn size(self, l: Layout) -> usize
        ensures { result ≡ spec.block_size l self }
    {
        l.header_size() + (DELTA_SIZE + KEY_SIZE + self.hash_size(l)) * self.count as usize
    }

    // Where the keys begin in the block: after the deltas.
    fn keys_at(self, l: Layout) -> usize
        ensures value { result ≡ spec.keys_at l self }
        ensures upper_bound { result < 2 ^ 35 }
    {
        l.header_size() + DELTA_SIZE * self.count as usize
    }

    // Where the key of a record stands in the block.
    #[tactic(auto, unfolding(crate::specs::Block::key_at))]
    pub fn key_at(self, l: Layout, i: u32) -> usize
        ensures value { result ≡ spec.key_at l self i }
        ensures upper_bound { result < 2 ^ 37 }
    {
        if l.interleaved {
            return self.keys_at(l) + (KEY_SIZE + self.hash_size(l)) * i as usize;
        }
        self.keys_at(l) + KEY_SIZE * i as usize
    }

    // Where the name hash of a record stands in a block that has them.
    #[tactic(auto, unfolding(crate::specs::Block::key_at, crate::specs::Block::hash_offset))]
    pub fn hash_at(self, l: Layout, i: u32) -> usize
        ensures { result ≡ spec.hash_offset l self i }
    {
        if l.interleaved {
            return self.key_at(l, i) + KEY_SIZE;
        }
        self.keys_at(l) + KEY_SIZE * self.count as usize + NAME_HASH_SIZE * i as usize
    }

    // Whether the block shares a locale bit and no unwanted content bit.
    #[tactic(auto, unfolding(crate::specs::Block::counts))]
    pub fn counts(self, locale: u32, unwanted: u64) -> bool
        ensures { result ≡ spec.counts locale unwanted self }
    {
        self.locale & locale != 0 && self.content & unwanted == 0
    }
}

// The bytes of a block's deltas.
#[tactic(auto, unfolding(crate::specs::Block::deltas_of))]
pub fn deltas(bytes: &[u8], l: Layout) -> &[u8]
    ensures { result.now ≡ spec.deltas_of l bytes.now }
{
    let block = Block::read(bytes, l);
    part(bytes, l.header_size(), DELTA_SIZE * block.count as usize)
}

// A block that stands at a place of its file: refusals 40 and 41.
pub fn check(bytes: &[u8], l: Layout, place: usize) -> Result<(), Refusal>
    ensures { check_of result ≡ spec.block_check l bytes.now place }
{
    let block = Block::read(bytes, l);
    if bytes.len() < block.size(l) {
        return Err(Reason::BlockCut.at(place));
    }
    check_ids(deltas(bytes, l), block.count, place)
}
