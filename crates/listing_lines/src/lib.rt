#![tactic(auto)]

// The lines of a listing, put into output from a place on.
ghost use Rattle.std.specs.Prelude.{◌≡◌, length};
ghost use Rattle.parts.specs.Part.{overlay};
ghost use Rattle.text.specs.Place.{place_after};
ghost use Rattle.listing_lines.specs.Lines as spec;

use index_layout::{Layout, archive, offset};
use text::{put, put_hex, put_number};

// Key length, offset width, entries and pages.
pub fn put_header(l: Layout, output: &mut [u8], at: usize) -> usize
    ensures value { result ≡ place_after at (length (spec.header l)) }
    ensures output_after { output.new ≡ overlay output.old at (spec.header l) }
{
    let mut to = put_number(b"index key=", u64::from(l.key_length), output, at);
    to = put_number(b" offset=", u64::from(l.offset_width), output, to);
    to = put_number(b" entries=", u64::from(l.entries), output, to);
    to = put_number(b" pages=", u64::from(l.pages), output, to);
    put(b"\n", output, to)
}

// Archive number and offset, or a dash and the offset.
fn put_location(width: u8, location: u64, output: &mut [u8], at: usize) -> usize
    ensures value { result ≡ place_after at (length (spec.location_text width location)) }
    ensures output_after { output.new ≡ overlay output.old at (spec.location_text width location) }
{
    if width == 6 {
        let to = put_number(b" ", u64::from(archive(location)), output, at);
        return put_number(b" ", u64::from(offset(location)), output, to);
    }
    put_number(b" - ", location, output, at)
}

// The line of an entry, by its values.
pub fn put_entry(
    key: &[u8],
    size: u64,
    width: u8,
    location: u64,
    output: &mut [u8],
    at: usize,
) -> usize
    ensures value { result ≡ place_after at (length (spec.entry_line key.now size width location)) }
    ensures output_after { output.new ≡ overlay output.old at (spec.entry_line key.now size width location) }
{
    let mut to = put_hex(key, output, at);
    to = put_number(b" ", size, output, to);
    to = put_location(width, location, output, to);
    put(b"\n", output, to)
}
