// Worklists: separated text.
ghost use Rattle.std.specs.Prelude.{◌≡◌, length};
ghost use Rattle.worklist.specs.Rows.{row_outcome, field_outcome};
ghost use Rattle.worklist_unquoted.specs.Unquoted.{unquoted_output, unquoted_outcome};
ghost use Rattle.crossing.specs.Crossing.{Crosses};

use answers::told::{tell, tell_found};

// The row that begins at a byte of a text: where it ends, where the next begins, the number of its fields; of a malformed one 1 and
// the place in the last two words.
#[unsafe(no_mangle)]
pub extern "C" fn dwarnizza_worklist_row(
    text: &[u8],
    at: usize,
    separator: u32,
    answer: &mut [u64; 8],
) -> u32
    ensures { Crosses (row_outcome text.now at separator) result answer.new }
{
    tell_found(worklist::row(text, at, separator), answer)
}

// A field of a row by its column: its place and length with its quotes, and 1 where it is quoted.
#[unsafe(no_mangle)]
pub extern "C" fn dwarnizza_worklist_field(
    text: &[u8],
    at: usize,
    separator: u32,
    column: usize,
    answer: &mut [u64; 8],
) -> u32
    ensures { Crosses (field_outcome text.now at separator column) result answer.new }
{
    tell_found(worklist::field(text, at, separator, column), answer)
}

// The bytes that a field stands for, in the output: how many they are. A refusal leaves the output's bytes.
#[unsafe(no_mangle)]
pub extern "C" fn dwarnizza_worklist_unquoted(
    field: &[u8],
    output: &mut [u8],
    answer: &mut [u64; 8],
) -> u32
    ensures crosses { Crosses (unquoted_outcome field.now (length output.old)) result answer.new }
    ensures output_after { output.new ≡ unquoted_output field.now output.old }
{
    tell(worklist_unquoted::unquoted(field, output), answer)
}
