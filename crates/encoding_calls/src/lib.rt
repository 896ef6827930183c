#![tactic(auto, unfolding(refusal::specs::Check::first, refusal::specs::Check::refused_if, refusal::specs::Outcome::after))]

// The lookups of an encoding file after its full check, and a spec by its number after 30 to 33, one call after the other. Rule E25
// is what these functions ensure of the answers and of the parts that are returned, so that it rests on the contracts of the
// functions themselves.
ghost use Rattle.std.specs.Prelude.{◌≡◌, ◌+◌};
ghost use Rattle.encoding_lookup.specs.Lookup.{content_outcome, encoding_outcome, spec_outcome};
ghost use Rattle.encoding_calls.specs.Calls as spec;

use encoding_lookup::{
    Content, Encoded, Spec, encoding_keys, encoding_spec, find_content, find_encoding, find_spec,
    spec_string,
};
use parts::part;
use refusal::Refusal;

// Looks a content key up in a file that passes the full check.
pub fn content(file: &[u8], key: &[u8]) -> Result<Option<Content>, Refusal>
    ensures { content_outcome result ≡ spec.checked_content file.now key.now }
{
    let checked = encoding::check(file);
    checked?;
    find_content(file, key)
}

// Its encoding keys, as the part of the file where the plain reading finds them.
pub fn content_keys<'a>(file: &'a [u8], key: &[u8]) -> &'a [u8]
    ensures result_value { result.now ≡ spec.content_keys_of file.now key.now }
    ensures ref_ptr_value { (result.ref_ptr.0 ≡ file.entry.ref_ptr.0) × (result.ref_ptr.1 ≡ file.entry.ref_ptr.1 + spec.content_keys_at file.now key.now) }
{
    match encoding::check(file) {
        Ok(()) => encoding_keys(file, key),
        Err(_) => part(file, 0, 0),
    }
}

// Looks an encoding key up in a file that passes the full check.
pub fn encoded(file: &[u8], key: &[u8]) -> Result<Option<Encoded>, Refusal>
    ensures { encoding_outcome result ≡ spec.checked_encoding file.now key.now }
{
    encoding::check(file)?;
    find_encoding(file, key)
}

// Its spec, as the part of the file where the plain reading finds it.
pub fn encoded_spec<'a>(file: &'a [u8], key: &[u8]) -> &'a [u8]
    ensures result_value { result.now ≡ spec.encoded_spec file.now key.now }
    ensures ref_ptr_value { (result.ref_ptr.0 ≡ file.entry.ref_ptr.0) × (result.ref_ptr.1 ≡ file.entry.ref_ptr.1 + spec.encoded_spec_at file.now key.now) }
{
    match encoding::check(file) {
        Ok(()) => encoding_spec(file, key),
        Err(_) => part(file, 0, 0),
    }
}

// Asks for a spec by its number. This needs 30 to 33 only.
pub fn spec(file: &[u8], number: u32) -> Result<Spec, Refusal>
    ensures { spec_outcome result ≡ spec.opened_spec file.now number }
{
    find_spec(file, number)
}

// The string with that number, as the part of the file where the plain reading of the table finds it.
pub fn spec_part(file: &[u8], number: u32) -> &[u8]
    ensures result_value { result.now ≡ spec.spec_part file.now number }
    ensures ref_ptr_value { (result.ref_ptr.0 ≡ file.entry.ref_ptr.0) × (result.ref_ptr.1 ≡ file.entry.ref_ptr.1 + spec.spec_part_at file.now number) }
{
    match find_spec(file, number) {
        Ok(_) => spec_string(file, number),
        Err(_) => part(file, 0, 0),
    }
}
