// The entries of the ids in the output.
ghost use Rattle.std.specs.Prelude.{◌≡◌, ◌++◌, cond, ◌+◌, ◌*◌, ◌≤◌, eqb, length, drop, replicate};
ghost use Rattle.parts.specs.Part.{parts_from};
ghost use Rattle.id_list.specs.Place.{Placed, Rising};
ghost use Rattle.root_find_many.specs.Entries.{Room, Kept, Turned, found_entry, turned};

use crate::ENTRY_SIZE;
use id_list::{place, stands};
use parts::{copy, part};
use root_block::KEY_SIZE;

// Entries of zeros: nothing is found yet.
pub(crate) fn clear(count: usize, output: &mut [u8])
    requires { 20 * count ≤ length output.old }
    ensures { output.new ≡ parts_from (λ i. replicate 20 0) 0 count ++ drop (20 * count) output.old }
{
    let zeros = [0u8; ENTRY_SIZE];
    for i in 0..count {
        copy(&zeros, output, ENTRY_SIZE * i);
    }
}

// The entry of an id that is found, with the key that stands at a place.
fn entry_of(file: &[u8], at: usize) -> [u8; 20]
    requires { at + 16 ≤ length file.now }
    ensures { result ≡ found_entry file.now at }
{
    let mut entry = [0u8; 20];
    entry[0] = 1;
    copy(part(file, at, KEY_SIZE), &mut entry, 4);
    entry
}

// Puts an entry for every id that equals the sought one, which stand from a place on.
fn put_equals(entry: &[u8; 20], ids: &[u8], id: u32, from: usize, output: &mut [u8])
    requires rising { Rising ids.now }
    requires placed { Placed ids.now id from }
    requires room { Room ids.now output.old }
    ensures kept { Kept ids.now output.old output.new }
    ensures turned { Turned ids.now output.old output.new (λ x e. cond (eqb x id) entry.now e) }
{
    let mut i = from;
    // A while loop: it ends at the first other id, and not at a count.
    while stands(ids, i, id) {
        copy(entry, output, ENTRY_SIZE * i);
        i += 1;
    }
}

// Puts the entry of a record where its id is sought and not found yet. Answers where the id stands or would stand.
pub(crate) fn put_record(
    file: &[u8],
    key: usize,
    id: u32,
    ids: &[u8],
    guess: usize,
    output: &mut [u8],
) -> usize
    requires key_in_bounds { key + 16 ≤ length file.now }
    requires rising { Rising ids.now }
    requires room { Room ids.now output.old }
    ensures kept { Kept ids.now output.old output.new }
    ensures turned { Turned ids.now output.old output.new (turned (found_entry file.now key) id) }
{
    let at = place(ids, id, guess);
    if !stands(ids, at, id) {
        return at;
    }
    if 0 < output[ENTRY_SIZE * at] {
        return at;
    }
    put_equals(&entry_of(file, key), ids, id, at, output);
    at
}
