#![tactic(auto)]

// The spec table of an encoding file: a run of strings, each closed by a zero byte. Any bytes are answered for.
ghost use Rattle.std.specs.Prelude.{◌≡◌, ◌+◌, ◌^◌, ◌≤◌, ◌<◌, length, drop};
ghost use Rattle.parts.specs.Part.{part_at};
ghost use Rattle.spec_table.specs.Specs as spec;

use parts::part;

// The bytes that are counted at a time: so few that a u32 counts them, which is several times quicker than a usize.
const BLOCK: usize = 1024;

// A place in the table, and how many zero bytes stand between it and a string.
#[derive(Clone, Copy)]
struct Place {
    at: usize,
    left: u32,
}

// A block from a place on.
fn block_from(table: &[u8], at: usize) -> &[u8]
    requires { at < length table.now }
    ensures result_value { result.now ≡ part_at table.now at (length result.now) }
    ensures result_nonzero { (0 < length result.now) × (length result.now < 2 ^ 32) × (at + length result.now ≤ length table.now) }
{
    part(table, at, BLOCK)
}

// The zero bytes of a block.
fn zeros(block: &[u8]) -> u32
    requires { length block.now < 2 ^ 32 }
    ensures { result ≡ spec.count_of block.now }
{
    let mut found = 0;
    for b in block {
        if *b == 0 {
            found += 1;
        }
    }
    found
}

// How many strings there are. A while loop: the step is the size of the block.
pub fn count(table: &[u8]) -> usize
    ensures { result ≡ spec.count_of table.now }
{
    let mut found = 0;
    let mut at = 0;
    while at < table.len() {
        let block = block_from(table, at);
        found += zeros(block) as usize;
        at += block.len();
    }
    found
}

// The start of the block in which a string begins, and how many zero bytes of the block stand before it.
fn pass_blocks(table: &[u8], number: u32) -> Place
    ensures inside { result.at ≤ length table.now }
    ensures start { spec.start_of table.now number ≡ result.at + spec.start_of (drop result.at table.now) result.left }
{
    let mut left = number;
    let mut at = 0;
    while at < table.len() {
        let block = block_from(table, at);
        let found = zeros(block);
        if left <= found {
            return Place { at, left };
        }
        left -= found;
        at += block.len();
    }
    Place { at, left }
}

// Where string `number` begins; the table's length where there is no such string.
pub fn start(table: &[u8], number: u32) -> usize
    ensures { result ≡ spec.start_of table.now number }
{
    let place = pass_blocks(table, number);
    let mut left = place.left;
    for at in place.at..table.len() {
        if left == 0 {
            return at;
        }
        if table[at] == 0 {
            left -= 1;
        }
    }
    table.len()
}

// The bytes from a place up to the next zero byte, or to the end.
pub fn length(table: &[u8], at: usize) -> usize
    ensures { result ≡ spec.length_at table.now at }
{
    for end in at..table.len() {
        if table[end] == 0 {
            return end - at;
        }
    }
    table.len().saturating_sub(at)
}

// The string with a number, as the part of the table where it stands; empty, at the table's start, where there is none. A string
// that is there ends before the table does, since a zero byte closes it.
pub fn string(table: &[u8], number: u32) -> &[u8]
    ensures result_value { result.now ≡ spec.spec_of table.now number }
    ensures ref_ptr_value { (result.ref_ptr.0 ≡ table.entry.ref_ptr.0) × (result.ref_ptr.1 ≡ table.entry.ref_ptr.1 + spec.place_of table.now number) }
{
    let at = start(table, number);
    let count = length(table, at);
    if at + count < table.len() {
        return part(table, at, count);
    }
    part(table, 0, 0)
}
