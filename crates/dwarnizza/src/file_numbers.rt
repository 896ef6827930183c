// File numbers.
ghost use Rattle.std.specs.Prelude.{◌≡◌};
ghost use Rattle.chain.specs.Chain.{resolve};
ghost use Rattle.file_number.specs.FileNumber.{file_number_of};
ghost use Rattle.crossing.specs.Crossing.{Crosses};
ghost use Rattle.answers.specs.Chain.{ChainCrosses};

use answers::file_numbers::{tell_number, tell_resolved};

// Follows a file number through root, encoding file and index: page, slot, size, location and comparisons; where a link is absent,
// the link and the comparisons; where one refuses, its number, place and link.
#[unsafe(no_mangle)]
pub extern "C" fn dwarnizza_resolve(
    root: &[u8],
    encoding: &[u8],
    index: &[u8],
    id: u32,
    locale: u32,
    unwanted: u64,
    answer: &mut [u64; 8],
) -> u32
    ensures { ChainCrosses (resolve root.now encoding.now index.now id locale unwanted) result answer.new }
{
    tell_resolved(
        chain::resolve(root, encoding, index, id, locale, unwanted),
        answer,
    )
}

// The file number that a decimal text tells; where it tells none, what is wrong and its place.
#[unsafe(no_mangle)]
pub extern "C" fn dwarnizza_file_number(text: &[u8], answer: &mut [u64; 8]) -> u32
    ensures { Crosses (file_number_of text.now) result answer.new }
{
    tell_number(file_number::read(text), answer)
}
