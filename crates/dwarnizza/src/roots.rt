// Root files, and name hashes.
ghost use Rattle.std.specs.Prelude.{◌≡◌, length};
ghost use Rattle.name_hash.specs.NameHash.{hash_outcome};
ghost use Rattle.root.specs.Root.{root_check};
ghost use Rattle.root.specs.Lookup.{lookup_of, key_or};
ghost use Rattle.root_find_many.specs.Many.{many_outcome, many_output};
ghost use Rattle.root_find_path.specs.Path as paths;
ghost use Rattle.root_find_path.specs.Path.{path_lookup};
ghost use Rattle.crossing.specs.Crossing.{Crosses, verdict_outcome};

use answers::roots::tell_keyed;
use answers::told::tell;

// The check of a whole root file.
#[unsafe(no_mangle)]
pub extern "C" fn dwarnizza_root_check(file: &[u8], answer: &mut [u64; 8]) -> u32
    ensures { Crosses (verdict_outcome (root_check file.now)) result answer.new }
{
    tell(root::check(file), answer)
}

// The content key of a file number: its byte offset, and its bytes. Where none is found the key's bytes stay.
#[unsafe(no_mangle)]
pub extern "C" fn dwarnizza_root_find(
    file: &[u8],
    id: u32,
    locale: u32,
    unwanted: u64,
    key: &mut [u8; 16],
    answer: &mut [u64; 8],
) -> u32
    ensures crosses { Crosses (lookup_of file.now id locale unwanted) result answer.new }
    ensures key_after { key.new ≡ key_or file.now key.old (lookup_of file.now id locale unwanted) }
{
    tell_keyed(root::lookup(file, id, locale, unwanted), key, answer)
}

// The content keys of many file numbers, which rise, four bytes each: the bytes written. A refusal leaves the output's bytes.
#[unsafe(no_mangle)]
pub extern "C" fn dwarnizza_root_find_many(
    file: &[u8],
    ids: &[u8],
    locale: u32,
    unwanted: u64,
    output: &mut [u8],
    answer: &mut [u64; 8],
) -> u32
    ensures crosses { Crosses (many_outcome file.now ids.now (length output.old)) result answer.new }
    ensures output_after { output.new ≡ many_output file.now ids.now locale unwanted output.old }
{
    tell(
        root_find_many::find_many(file, ids, locale, unwanted, output),
        answer,
    )
}

// The record of a path: its id, the byte offset of its content key, and the key's bytes. Where none is found the key's bytes stay.
#[unsafe(no_mangle)]
pub extern "C" fn dwarnizza_root_find_path(
    file: &[u8],
    path: &[u8],
    locale: u32,
    unwanted: u64,
    key: &mut [u8; 16],
    answer: &mut [u64; 8],
) -> u32
    ensures crosses { Crosses (path_lookup file.now path.now locale unwanted) result answer.new }
    ensures key_after { key.new
        ≡ paths.key_or file.now key.old (path_lookup file.now path.now locale unwanted) }
{
    tell_keyed(
        root_find_path::find_path(file, path, locale, unwanted),
        key,
        answer,
    )
}

// The name hash of a path.
#[unsafe(no_mangle)]
pub extern "C" fn dwarnizza_name_hash(path: &[u8], answer: &mut [u64; 8]) -> u32
    ensures { Crosses (hash_outcome path.now) result answer.new }
{
    tell(name_hash::hash(path), answer)
}
