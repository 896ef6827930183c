#![tactic(auto)]

// The rows of separated text, and the fields of a row, copied one after the other: what is joined is the text, and the row.
ghost use Rattle.std.specs.Prelude.{◌≡◌, ◌+◌, ◌^◌, ◌<◌, ◌≤◌, length};
ghost use Rattle.parts.specs.Part.{overlay};
ghost use Rattle.worklist_joined.specs.Joined as spec;

use parts::{copy, part};
use worklist::{field_part, row};

// Copies each row with its line end to the same place of the output, and tells how many there are.
pub fn copy_rows(text: &[u8], separator: u32, output: &mut [u8]) -> usize
    ensures value { result ≡ spec.row_count separator text.now }
    ensures output_after { output.new ≡ spec.copied_rows separator text.now output.old }
{
    let mut count = 0;
    let mut at = 0;
    while let Ok(Some(found)) = row(text, at, separator) {
        copy(part(text, at, found.next - at), output, at);
        at = found.next;
        count += 1;
    }
    count
}

// Copies a separator and the field of a column to a place of the output, and tells the place behind them.
fn put(text: &[u8], at: usize, separator: u32, column: usize, output: &mut [u8], to: usize) -> usize
    requires { (separator ≤ 255) × (to + (1 + length (spec.field_of separator text.now at column)) < 2 ^ 64) }
    ensures value { result ≡ to + (1 + length (spec.field_of separator text.now at column)) }
    ensures output_after { output.new ≡ spec.laid_field separator text.now at column output.old to }
{
    let between = [separator as u8];
    copy(&between, output, to);
    let field = field_part(text, at, separator, column);
    copy(field, output, to + 1);
    to + (1 + field.len())
}

// Copies the fields of a row to the start of the output, with a separator between each two.
fn join(text: &[u8], at: usize, separator: u32, fields: usize, output: &mut [u8])
    requires { spec.HasFields separator text.now at fields }
    ensures { output.new ≡ overlay output.old 0 (spec.joined_row separator text.now at) }
{
    let first = field_part(text, at, separator, 0);
    copy(first, output, 0);
    let mut to = first.len();
    for column in 1..fields {
        to = put(text, at, separator, column, output, to);
    }
}

// The fields of the row that begins at a place, joined by the separator: its bytes, where it is not malformed.
pub fn copy_fields(text: &[u8], at: usize, separator: u32, output: &mut [u8])
    ensures { output.new ≡ spec.copied_fields separator text.now at output.old }
{
    match row(text, at, separator) {
        Ok(Some(found)) => {
            if let Ok(fields) = found.fields {
                join(text, at, separator, fields, output);
            }
        }
        Ok(None) => {}
        Err(_) => {}
    }
}
