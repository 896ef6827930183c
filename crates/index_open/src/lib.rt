#![tactic(auto, unfolding(refusal::specs::Check::first, refusal::specs::Check::refused_if, refusal::specs::Outcome::after))]

// Opening an archive index: the opening checks, and the layout that the footer tells; and whether a footer is that of a loose index.
ghost use Rattle.std.specs.Prelude.{◌≡◌, not, ◌++◌, ◌<◌, ◌≤◌, length};
ghost use Rattle.md5_block.specs.Block.{words_of};
ghost use Rattle.md5_end.specs.End.{padding};
ghost use Rattle.refusal.specs.Check.{check_of, refused_if};
ghost use Rattle.refusal.specs.Number.{footer_hash, number_of};
ghost use Rattle.index_layout.specs.Layout as layout;
ghost use Rattle.index_open.specs.Open as spec;

use index_layout::{
    ENTRY_COUNT_AT, FOOTER_HASH_AT, FOOTER_SIZE, HASH_LENGTH, HASH_LENGTH_AT, KEY_LENGTH_AT,
    LEAST_KEY_LENGTH, LEAST_OFFSET_WIDTH, LEAST_VERSION, Layout, MOST_ENTRIES, MOST_KEY_LENGTH,
    MOST_OFFSET_WIDTH, MOST_VERSION, OFFSET_WIDTH_AT, PAGE_KB, PAGE_KB_AT, RESERVED_AT, SIZE_WIDTH,
    SIZE_WIDTH_AT, VERSION_AT,
};
use md5_block::{addends, block};
use md5_end::{eight, initial};
use numbers::{little, within, word};
use parts::{byte, equal, part};
use refusal::{Reason, Refusal};

// The offset width of an index of loose files or of patches.
pub const LOOSE_OFFSET_WIDTH: u8 = 0;

// The last 28 bytes.
fn footer(index: &[u8]) -> &[u8]
    requires { layout.footer_size ≤ length index.now }
    ensures result_value { result.now ≡ layout.footer index.now }
    ensures result_len { length result.now ≡ layout.footer_size }
{
    let at = index.len() - FOOTER_SIZE;
    &index[at..]
}

// The footer byte at an offset, which lies from low to high; else a refusal at this offset.
fn check_field(footer: &[u8], at: usize, low: u8, high: u8, reason: Reason) -> Result<(), Refusal>
    ensures { check_of result ≡ spec.field_check footer.now at low high (number_of reason) }
{
    if !within(u32::from(byte(footer, at)), u32::from(low), u32::from(high)) {
        return Err(reason.at(at));
    }
    Ok(())
}

// The same of a field that has one value.
fn check_value(footer: &[u8], at: usize, value: u8, reason: Reason) -> Result<(), Refusal>
    ensures { check_of result ≡ spec.field_check footer.now at value value (number_of reason) }
{
    check_field(footer, at, value, value, reason)
}

// Each field against its list, in the footer's order: version, reserved, page KB, offset width from low to high, size width,
// key length and hash length.
fn check_fields(footer: &[u8], low: u8, high: u8) -> Result<(), Refusal>
    ensures { check_of result ≡ spec.fields_check_with footer.now low high }
{
    check_field(
        footer,
        VERSION_AT,
        LEAST_VERSION,
        MOST_VERSION,
        Reason::FooterVersion,
    )?;
    check_value(footer, RESERVED_AT, 0, Reason::FooterReserved)?;
    check_value(footer, RESERVED_AT + 1, 0, Reason::FooterReserved)?;
    check_value(footer, PAGE_KB_AT, PAGE_KB, Reason::FooterPageSize)?;
    check_field(
        footer,
        OFFSET_WIDTH_AT,
        low,
        high,
        Reason::FooterOffsetWidth,
    )?;
    check_value(footer, SIZE_WIDTH_AT, SIZE_WIDTH, Reason::FooterSizeWidth)?;
    check_field(
        footer,
        KEY_LENGTH_AT,
        LEAST_KEY_LENGTH,
        MOST_KEY_LENGTH,
        Reason::FooterKeyLength,
    )?;
    check_value(
        footer,
        HASH_LENGTH_AT,
        HASH_LENGTH,
        Reason::FooterHashLength,
    )
}

// The one block of the message that the footer hash is of: the bytes from the version on, zeros for the hash itself, and the padding.
// Its words are read from the footer as they stand there: quicker than to copy the message and pad it.
fn footer_block(footer: &[u8]) -> [u32; 16]
    requires { length footer.now ≡ layout.footer_size }
    ensures { result ≡ words_of 16 (spec.hashed_footer footer.now ++ padding 20) }
{
    let a = word(footer, VERSION_AT);
    let b = word(footer, OFFSET_WIDTH_AT);
    let c = word(footer, ENTRY_COUNT_AT);
    // 128 is the set bit after the message, and 160 the number of bits in its 20 bytes.
    [a, b, c, 0, 0, 128, 0, 0, 0, 0, 0, 0, 0, 0, 160, 0]
}

// The first eight bytes of the hash of a footer, with the stored hash taken as zero, against the stored ones.
fn footer_hash_right(footer: &[u8]) -> bool
    requires { length footer.now ≡ layout.footer_size }
    ensures { spec.footer_hash_check footer.now ≡ refused_if (not result) footer_hash 0 }
{
    let words = footer_block(footer);
    let k = addends();
    let hash = eight(block(initial(), &words, &k));
    equal(&hash, part(footer, FOOTER_HASH_AT, HASH_LENGTH as usize))
}

// The entry count, the one number that is little-endian.
fn entry_count(footer: &[u8]) -> u64
    ensures { result ≡ layout.entry_count_of footer.now }
{
    little(footer, ENTRY_COUNT_AT, 4)
}

// The layout that a footer tells, where its entries are not too many.
fn read_layout(footer: &[u8]) -> Layout
    requires { layout.entry_count_of footer.now ≤ layout.most_entries }
    ensures { result ≡ layout.layout_from footer.now }
{
    let version = byte(footer, VERSION_AT);
    let offset_width = byte(footer, OFFSET_WIDTH_AT);
    let key_length = byte(footer, KEY_LENGTH_AT);
    let entries = entry_count(footer) as u32;
    Layout::new(version, offset_width, key_length, entries)
}

// Refusals 102 to 108, 3 and 4.
fn check_footer(footer: &[u8]) -> Result<(), Refusal>
    requires { length footer.now ≡ layout.footer_size }
    ensures { check_of result ≡ spec.footer_check footer.now }
{
    check_fields(footer, LEAST_OFFSET_WIDTH, MOST_OFFSET_WIDTH)?;
    if !footer_hash_right(footer) {
        return Err(Reason::FooterHash.at(0));
    }
    if MOST_ENTRIES < entry_count(footer) {
        return Err(Reason::EntryCount.at(0));
    }
    Ok(())
}

// The opening checks but the last, and what the footer says: the last 28 bytes of a file are enough.
pub fn read_footer(index: &[u8]) -> Result<Layout, Refusal>
    ensures { spec.outcome result ≡ spec.footer_outcome index.now }
{
    if index.len() < FOOTER_SIZE {
        return Err(Reason::IndexShort.at(0));
    }
    let footer = footer(index);
    check_footer(footer)?;
    Ok(read_layout(footer))
}

// The opening checks, and what the footer says.
pub fn open(index: &[u8]) -> Result<Layout, Refusal>
    ensures { spec.outcome result ≡ spec.open_outcome index.now }
{
    let layout = read_footer(index)?;
    if index.len() != layout.length() {
        return Err(Reason::IndexLength.at(0));
    }
    Ok(layout)
}

// Whether the last 28 bytes are the footer of an index of loose files or of patches.
pub fn is_loose(index: &[u8]) -> bool
    ensures { result ≡ spec.is_loose index.now }
{
    if index.len() < FOOTER_SIZE {
        return false;
    }
    let footer = footer(index);
    check_fields(footer, LOOSE_OFFSET_WIDTH, LOOSE_OFFSET_WIDTH).is_ok()
        && footer_hash_right(footer)
}
