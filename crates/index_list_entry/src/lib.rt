#![tactic(auto, unfolding(refusal::specs::Check::first, refusal::specs::Check::refused_if, refusal::specs::Outcome::after))]

// One entry of the list that an index is written from.
ghost use Rattle.std.specs.Prelude.{◌≡◌, ◌+◌, ◌^◌, ◌≤◌, length};
ghost use Rattle.refusal.specs.Check.{check_of, silent};
ghost use Rattle.refusal.specs.Outcome.{written_outcome};
ghost use Rattle.refusal.specs.Output.{filled};
ghost use Rattle.index_layout.specs.Layout.{least_offset_width, most_offset_width, size_width, most_key_length};
ghost use Rattle.index_list_entry.specs.Put as spec;

use index_entry::ARCHIVE_WIDTH;
use index_layout::SIZE_WIDTH;
use index_writer::{Settings, settings_right};
use parts::{copy, part};
use refusal::{Reason, Refusal};

// The highest archive number, which has two bytes.
const MOST_ARCHIVE: u32 = 65_535;

// How many numbers four bytes can hold, and five.
const FOUR_BYTES: u64 = 4_294_967_296;

const FIVE_BYTES: u64 = 1_099_511_627_776;

// The bytes of a `u64`.
const NUMBER_BYTES: usize = 8;

// The highest archive number with an offset width.
#[tactic(auto, unfolding(crate::specs::Put::most_archive))]
fn most_archive(width: u8) -> u32
    ensures { result ≡ spec.most_archive width }
{
    if width == ARCHIVE_WIDTH {
        MOST_ARCHIVE
    } else {
        0
    }
}

// How many offsets there are with an offset width.
#[tactic(auto, unfolding(crate::specs::Put::offset_bytes))]
fn offset_limit(width: u8) -> u64
    requires { (least_offset_width ≤ width) × (width ≤ most_offset_width) }
    ensures { result ≡ 256 ^ spec.offset_bytes width }
{
    if width == 5 { FIVE_BYTES } else { FOUR_BYTES }
}

// Whether archive number and offset can be written with an offset width.
#[tactic(auto, unfolding(crate::specs::Put::location_right))]
fn location_right(width: u8, archive: u32, offset: u64) -> bool
    requires { (least_offset_width ≤ width) × (width ≤ most_offset_width) }
    ensures { result ≡ spec.location_right width archive offset }
{
    archive <= most_archive(width) && offset < offset_limit(width)
}

// Refusals 11, 10 and 13.
fn judge(
    settings: Settings,
    key: &[u8],
    archive: u32,
    offset: u64,
    room: usize,
) -> Result<(), Refusal>
    ensures { check_of result ≡ spec.put_check settings key.now archive offset room }
{
    if !settings_right(settings) {
        return Err(Reason::Settings.at(0));
    }
    let width = settings.offset_width;
    if !location_right(width, archive, offset) {
        return Err(Reason::Settings.at(0));
    }
    let length = settings.key_length as usize;
    if key.len() != length {
        return Err(Reason::IndexKeyLength.at(0));
    }
    if room < length + SIZE_WIDTH as usize + width as usize {
        return Err(Reason::OutputShort.at(0));
    }
    Ok(())
}

// Key, encoded size and location at the start of the output.
fn fill(width: u8, key: &[u8], size: u32, location: u64, output: &mut [u8])
    requires { (width ≤ most_offset_width) × (length key.now ≤ most_key_length) × (length key.now + size_width + width ≤ length output.old) }
    ensures { output.new ≡ filled silent (spec.entry_bytes width key.now size location) output.old }
{
    let at = key.len();
    let s = SIZE_WIDTH as usize;
    let w = width as usize;
    copy(key, output, 0);
    copy(&size.to_be_bytes(), output, at);
    copy(
        part(&location.to_be_bytes(), NUMBER_BYTES - w, w),
        output,
        at + s,
    );
}

// Puts one entry of a list at the start of the output.
pub fn put_entry(
    settings: Settings,
    key: &[u8],
    size: u32,
    archive: u32,
    offset: u64,
    output: &mut [u8],
) -> Result<usize, Refusal>
    ensures result_value { written_outcome result ≡ spec.put_outcome settings key.now archive offset (length output.old) }
    ensures output_after { output.new
        ≡ filled (spec.put_check settings key.now archive offset (length output.old))
        (spec.entry_bytes settings.offset_width key.now size (spec.location_of archive offset)) output.old }
{
    judge(settings, key, archive, offset, output.len())?;
    let width = settings.offset_width;
    let location = u64::from(archive) * FOUR_BYTES + offset;
    fill(width, key, size, location, output);
    Ok(key.len() + SIZE_WIDTH as usize + width as usize)
}
