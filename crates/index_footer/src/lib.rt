#![tactic(auto)]

// The footer of an archive index that is written.
ghost use Rattle.std.specs.Prelude.{◌≡◌, ◌++◌, ◌+◌, take, replicate};
ghost use Rattle.parts.specs.Part.{overlay};
ghost use Rattle.md5_digest.specs.Message.{md5};
ghost use Rattle.index_layout.specs.Layout as layout;
ghost use Rattle.index_footer.specs.Footer as spec;

use index_layout::{
    FOOTER_HASH_AT, FOOTER_SIZE, HASH_LENGTH, Layout, PAGE_KB, Page, SIZE_WIDTH, VERSION_AT,
};
use md5_digest::first_eight;
use parts::{copy, part};

// The footer's fields, and zeros in place of the footer hash.
fn unhashed_fields(l: Layout) -> [u8; FOOTER_SIZE - VERSION_AT]
    ensures { result ≡ spec.fields l ++ replicate layout.hash_length 0 }
{
    let [a, b, c, d] = l.entries.to_le_bytes();
    [
        l.version,
        0,
        0,
        PAGE_KB,
        l.offset_width,
        SIZE_WIDTH,
        l.key_length,
        HASH_LENGTH,
        a,
        b,
        c,
        d,
        0,
        0,
        0,
        0,
        0,
        0,
        0,
        0,
    ]
}

// The contents hash, of the last keys and the page hashes that stand in the output.
fn write_contents_hash(l: Layout, output: &mut [u8])
    ensures { output.new
        ≡ overlay output.old (spec.footer_at l) (take layout.hash_length (md5 (spec.contents_of output.old l))) }
{
    let from = l.last_key_at(Page(0));
    let at = l.page_hash_at(Page(l.pages));
    let hash = first_eight(part(output, from, at - from)).unwrap();
    copy(&hash, output, at);
}

// The footer after its contents hash: the fields and the footer hash.
fn write_fields(l: Layout, output: &mut [u8])
    ensures { output.new ≡ overlay output.old (spec.footer_at l + layout.version_at) (spec.hashed_fields l) }
{
    let at = l.page_hash_at(Page(l.pages));
    let mut fields = unhashed_fields(l);
    let hash = first_eight(&fields).unwrap();
    copy(&hash, &mut fields, FOOTER_HASH_AT - VERSION_AT);
    copy(&fields, output, at + VERSION_AT);
}

// The footer, after the last keys and the page hashes that stand in the output.
pub fn write_footer(l: Layout, output: &mut [u8])
    ensures { output.new ≡ overlay output.old (spec.footer_at l) (spec.footer_with l (spec.contents_of output.old l)) }
{
    write_contents_hash(l, output);
    write_fields(l, output);
}
