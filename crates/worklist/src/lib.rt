#![tactic(auto, unfolding(refusal::specs::Check::first, refusal::specs::Check::refused_if, refusal::specs::Outcome::after))]

// Separated text: rows of fields, of which some stand in quotes. Any bytes and any offset are answered for.
ghost use Rattle.std.specs.Prelude.{◌≡◌, ◌+◌, ◌≤◌, length, IfOk};
ghost use Rattle.refusal.specs.Check.{check_of};
ghost use Rattle.worklist.specs.Rows as spec;

use parts::byte;
use refusal::{Reason, Refusal};

pub const QUOTE: u8 = 34;

pub const CR: u8 = 13;

pub const LF: u8 = 10;

pub const MOST_SEPARATOR: u32 = 255;

// The place where a row is malformed.
#[derive(Clone, Copy, PartialEq, Eq, Debug)]
pub struct Malformed {
    pub place: usize,
}

// Where a field ends, and whether it is quoted.
#[derive(Clone, Copy)]
pub struct FieldEnd {
    pub end: usize,
    pub quoted: bool,
}

// A field of a row, by its place and length.
#[derive(Clone, Copy, PartialEq, Eq, Debug)]
pub struct Span {
    pub at: usize,
    pub length: usize,
    pub quoted: bool,
}

// A row that was read: where it ends, how many fields it has, and the one that was sought, where it has that.
#[derive(Clone, Copy)]
pub struct Walked {
    pub end: usize,
    pub fields: usize,
    pub found: Option<Span>,
}

// A row: where it ends and where the next begins, and the number of its fields, or the place where it is malformed.
#[derive(Clone, Copy, PartialEq, Eq, Debug)]
pub struct RowFound {
    pub end: usize,
    pub next: usize,
    pub fields: Result<usize, Malformed>,
}

// Whether a number cannot be a separator.
#[tactic(auto, unfolding(crate::specs::Rows::no_separator), using(std::proofs::lemmas::Bool::Decides::nat_tests))]
fn no_separator(separator: u32) -> bool
    ensures { result ≡ spec.no_separator separator }
{
    MOST_SEPARATOR < separator
        || separator == u32::from(QUOTE)
        || separator == u32::from(CR)
        || separator == u32::from(LF)
}

// The separator as a byte. Refusal 11.
#[tactic(auto, unfolding(refusal::specs::Check::refused_if, crate::specs::Rows::no_separator), using(std::proofs::lemmas::Bool::Decides::nat_tests))]
fn separator_byte(separator: u32) -> Result<u8, Refusal>
    ensures check { check_of result ≡ spec.separator_check separator }
    ensures value { IfOk result (λ b. b ≡ separator) }
{
    if no_separator(separator) {
        return Err(Reason::Settings.at(0));
    }
    Ok(separator as u8)
}

// Whether a byte ends a plain field.
#[tactic(auto, unfolding(crate::specs::Rows::stops), using(std::proofs::lemmas::Bool::Decides::nat_tests))]
fn stops(b: u8, separator: u8) -> bool
    ensures { result ≡ spec.stops separator b }
{
    b == separator || b == CR || b == LF
}

// The first separator, CR or LF from a place on, or the text's end.
fn stop_from(text: &[u8], from: usize, separator: u8) -> usize
    ensures { result ≡ spec.stop_at separator text.now from }
{
    for at in from..text.len() {
        if stops(text[at], separator) {
            return at;
        }
    }
    from.max(text.len())
}

// The place behind the closing quote of a field, from the byte behind its opening quote on, where it is closed. `pending`: the
// byte before is a quote, which closes the field unless another follows.
fn closing_from(text: &[u8], from: usize) -> Option<usize>
    ensures { result ≡ spec.closing_at text.now from }
{
    let mut pending = false;
    for at in from..text.len() {
        if text[at] == QUOTE {
            pending = !pending;
        } else if pending {
            return Some(at);
        }
    }
    if pending { Some(text.len()) } else { None }
}

// Whether a field may end at a place.
#[tactic(auto, unfolding(crate::specs::Rows::ends_field), using(std::proofs::lemmas::Bool::Decides::nat_tests))]
fn ends_field(text: &[u8], at: usize, separator: u8) -> bool
    ensures { result ≡ spec.ends_field separator text.now at }
{
    text.len() <= at || stops(text[at], separator)
}

// Whether a separator stands at a place.
#[tactic(auto, unfolding(crate::specs::Rows::separator_at), using(std::proofs::lemmas::Bool::Decides::nat_tests))]
fn separator_at(text: &[u8], at: usize, separator: u8) -> bool
    ensures { result ≡ spec.separator_at separator text.now at }
{
    at < text.len() && text[at] == separator
}

// The field that begins at a place.
#[tactic(auto, unfolding(crate::specs::Rows::field_at, crate::specs::Rows::quoted_field), using(std::proofs::lemmas::Bool::Decides::nat_tests))]
fn field_end(text: &[u8], at: usize, separator: u8) -> Result<FieldEnd, Malformed>
    ensures { result ≡ spec.field_at separator text.now at }
{
    if byte(text, at) != QUOTE {
        let end = stop_from(text, at, separator);
        return Ok(FieldEnd { end, quoted: false });
    }
    match closing_from(text, at + 1) {
        None => Err(Malformed { place: at }),
        Some(end) => {
            if !ends_field(text, end, separator) {
                return Err(Malformed { place: end });
            }
            Ok(FieldEnd { end, quoted: true })
        }
    }
}

// The row that begins at a place, and the field of a column.
fn walk(text: &[u8], at: usize, separator: u8, column: usize) -> Result<Walked, Malformed>
    requires { at ≤ length text.now }
    ensures { result ≡ spec.walked_of (spec.row_at separator text.now at) column }
{
    let mut from = at;
    let mut fields = 0;
    let mut found = None;
    loop {
        let field = field_end(text, from, separator)?;
        if fields == column {
            found = Some(Span {
                at: from,
                length: field.end - from,
                quoted: field.quoted,
            });
        }
        fields += 1;
        if !separator_at(text, field.end, separator) {
            return Ok(Walked {
                end: field.end,
                fields,
                found,
            });
        }
        from = field.end + 1;
    }
}

// The place behind the line end at a place; that place where none stands there.
#[tactic(auto, unfolding(crate::specs::Rows::behind_line_end), using(std::proofs::lemmas::Bool::Decides::nat_tests))]
fn behind_line_end(text: &[u8], at: usize) -> usize
    ensures { result ≡ spec.behind_line_end text.now at }
{
    let first = byte(text, at);
    if first == LF {
        return at + 1;
    }
    if first != CR {
        return at;
    }
    if byte(text, at + 1) == LF {
        return at + 2;
    }
    at + 1
}

// The row that begins at a place, where one does.
pub fn row(text: &[u8], at: usize, separator: u32) -> Result<Option<RowFound>, Refusal>
    ensures { spec.outcome_of_row result ≡ spec.row_outcome text.now at separator }
{
    let separator = separator_byte(separator)?;
    if text.len() <= at {
        return Ok(None);
    }
    match walk(text, at, separator, 0) {
        Ok(walked) => Ok(Some(RowFound {
            end: walked.end,
            next: behind_line_end(text, walked.end),
            fields: Ok(walked.fields),
        })),
        Err(malformed) => {
            let end = stop_from(text, malformed.place, LF);
            Ok(Some(RowFound {
                end,
                next: behind_line_end(text, end),
                fields: Err(malformed),
            }))
        }
    }
}

// The field of a column of the row that begins at a place, where there is one.
pub fn field(text: &[u8], at: usize, separator: u32, column: usize) -> Result<Option<Span>, Refusal>
    ensures { spec.field_told result ≡ spec.field_outcome text.now at separator column }
{
    let separator = separator_byte(separator)?;
    if text.len() <= at {
        return Ok(None);
    }
    match walk(text, at, separator, column) {
        Ok(walked) => Ok(walked.found),
        Err(_) => Ok(None),
    }
}

// The bytes of that field, as the part of the text where it stands; empty where there is none.
pub fn field_part(text: &[u8], at: usize, separator: u32, column: usize) -> &[u8]
    ensures value { result.now ≡ spec.field_part text.now (spec.field_outcome text.now at separator column) }
    ensures part { result.ref_ptr.0 ≡ text.entry.ref_ptr.0 }
    ensures place { result.ref_ptr.1 ≡ text.entry.ref_ptr.1 + spec.place_of (spec.field_outcome text.now at separator column) }
{
    match field(text, at, separator, column) {
        Ok(Some(found)) => {
            let end = found.at + found.length;
            &text[found.at..end]
        }
        Ok(None) => &text[0..0],
        Err(_) => &text[0..0],
    }
}
