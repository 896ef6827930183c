// Encoding files.
ghost use Rattle.std.specs.Prelude.{◌≡◌};
ghost use Rattle.encoding.specs.Check.{full_check};
ghost use Rattle.encoding_lookup.specs.Lookup.{content_lookup, encoding_lookup, spec_lookup};
ghost use Rattle.crossing.specs.Crossing.{Crosses, verdict_outcome};

use answers::told::{tell, tell_found};

// The full check of an encoding file.
#[unsafe(no_mangle)]
pub extern "C" fn dwarnizza_encoding_check(file: &[u8], answer: &mut [u64; 8]) -> u32
    ensures { Crosses (verdict_outcome (full_check file.now)) result answer.new }
{
    tell(encoding::check(file), answer)
}

// The lookup of a content key: decoded size, number of encoding keys, place and length of their run.
#[unsafe(no_mangle)]
pub extern "C" fn dwarnizza_encoding_find_content(
    file: &[u8],
    key: &[u8],
    answer: &mut [u64; 8],
) -> u32
    ensures { Crosses (content_lookup file.now key.now) result answer.new }
{
    tell_found(encoding_lookup::find_content(file, key), answer)
}

// The lookup of an encoding key: spec number, encoded size, place and length of the spec.
#[unsafe(no_mangle)]
pub extern "C" fn dwarnizza_encoding_find_encoding(
    file: &[u8],
    key: &[u8],
    answer: &mut [u64; 8],
) -> u32
    ensures { Crosses (encoding_lookup file.now key.now) result answer.new }
{
    tell_found(encoding_lookup::find_encoding(file, key), answer)
}

// A spec by its number: its place and length.
#[unsafe(no_mangle)]
pub extern "C" fn dwarnizza_encoding_spec(file: &[u8], number: u32, answer: &mut [u64; 8]) -> u32
    ensures { Crosses (spec_lookup file.now number) result answer.new }
{
    tell(encoding_lookup::find_spec(file, number), answer)
}
