#![tactic(auto)]

// Runs every function that returns a part of an encoding file, on the small file of specs/File.antt, which has two equal specs: for
// each question what the lookup tells, with the place and length of the part, and then the bytes of the part that is returned.
ghost use Rattle.std.specs.Prelude.{◌≡◌};
ghost use Rattle.parts.specs.Part.{overlay};
ghost use Rattle.encoding_parts.specs.File.{first_entries, last_entry, encoding_file};

use encoding_lookup::{
    encoding_keys, encoding_spec, find_content, find_encoding, find_spec, spec_string,
};
use parts::{copy, part};
use refusal::Refusal;
use std::io;
use std::io::Write;
use text::put_hex;

// A file with a part laid over it.
fn laid(file: [u8; 2110], bytes: &[u8], at: usize) -> [u8; 2110]
    ensures { result ≡ overlay file at bytes.now }
{
    let mut with = file;
    copy(bytes, &mut with, at);
    with
}

// The entries of the encoding page.
fn encoding_entries(file: [u8; 2110]) -> [u8; 2110]
    ensures { result ≡ overlay (overlay file 1086 first_entries) 1106 last_entry }
{
    let first = laid(
        file,
        b"\x11\x00\x00\x00\x01\x00\x00\x00\x00\x0c\x21\x00\x00\x00\x00\x00\x00\x00\x01\x09",
        1086,
    );
    laid(first, b"\x22\x00\x00\x00\x02\x00\x00\x00\x00\xc8", 1106)
}

// The file: header, spec table, then index and entries of each kind.
fn encoding_file() -> [u8; 2110]
    ensures { result ≡ encoding_file }
{
    let header = laid(
        [0; 2110],
        b"EN\x01\x01\x01\x00\x01\x00\x01\x00\x00\x00\x01\x00\x00\x00\x01\x00\x00\x00\x00\x06",
        0,
    );
    let specs = laid(header, b"n\x00n\x00z\x00", 22);
    let content_index = laid(
        specs,
        b"\x05\xe0\x50\x7b\x1a\x9c\x85\xf1\xfe\x2a\x42\xb8\x4e\x3e\xd4\x13\xc5",
        28,
    );
    let content = laid(
        content_index,
        b"\x01\x00\x00\x00\x00\x03\x05\x11\x02\x00\x00\x00\x01\x00\x07\x21\x22",
        45,
    );
    let encoding_index = laid(
        content,
        b"\x11\x1c\xd4\x6a\xbb\x22\x2b\xfa\xf3\x0a\xd5\x07\x54\x4b\xea\x62\x07",
        1069,
    );
    encoding_entries(encoding_index)
}

fn put(out: &mut impl Write, text: &[u8]) -> io::Result<()> {
    out.write_all(text)
}

// Up to 32 bytes in hex.
fn put_bytes(out: &mut impl Write, bytes: &[u8]) -> io::Result<()> {
    let mut digits = [0u8; 64];
    let end = put_hex(bytes, &mut digits, 0);
    put(out, part(&digits, 0, end))
}

fn put_place(out: &mut impl Write, at: usize, length: usize) -> io::Result<()> {
    write!(out, " found at {at} length {length}")
}

fn put_refusal(out: &mut impl Write, r: Refusal) -> io::Result<()> {
    let number = r.reason.number();
    let place = r.place;
    write!(out, " refused {number} {place}")
}

// The part that was returned.
fn put_part(out: &mut impl Write, bytes: &[u8]) -> io::Result<()> {
    put(out, b": ")?;
    put_bytes(out, bytes)?;
    put(out, b"\n")
}

fn content_line(out: &mut impl Write, file: &[u8], key: &[u8]) -> io::Result<()> {
    put(out, b"content key ")?;
    put_bytes(out, key)?;
    match find_content(file, key) {
        Ok(Some(c)) => put_place(out, c.at, c.length)?,
        Ok(None) => put(out, b" absent")?,
        Err(r) => put_refusal(out, r)?,
    }
    put_part(out, encoding_keys(file, key))
}

fn encoding_line(out: &mut impl Write, file: &[u8], key: &[u8]) -> io::Result<()> {
    put(out, b"encoding key ")?;
    put_bytes(out, key)?;
    match find_encoding(file, key) {
        Ok(Some(e)) => put_place(out, e.at, e.length)?,
        Ok(None) => put(out, b" absent")?,
        Err(r) => put_refusal(out, r)?,
    }
    put_part(out, encoding_spec(file, key))
}

fn spec_line(out: &mut impl Write, file: &[u8], number: u32) -> io::Result<()> {
    write!(out, "spec {number}")?;
    match find_spec(file, number) {
        Ok(s) => put_place(out, s.at, s.length)?,
        Err(r) => put_refusal(out, r)?,
    }
    put_part(out, spec_string(file, number))
}

fn string_line(out: &mut impl Write, table: &[u8], number: u32) -> io::Result<()> {
    let at = spec_table::start(table, number);
    write!(out, "string {number} at {at}")?;
    put_part(out, spec_table::string(table, number))
}

fn keys(out: &mut impl Write, file: &[u8]) -> io::Result<()> {
    content_line(out, file, &[5])?;
    content_line(out, file, &[7])?;
    content_line(out, file, &[6])?;
    content_line(out, file, &[5, 5])?;
    encoding_line(out, file, &[17])?;
    encoding_line(out, file, &[33])?;
    encoding_line(out, file, &[34])?;
    encoding_line(out, file, &[18])?;
    encoding_line(out, file, &[])
}

fn specs(out: &mut impl Write, file: &[u8]) -> io::Result<()> {
    for number in 0..4 {
        spec_line(out, file, number)?;
    }
    Ok(())
}

fn strings(out: &mut impl Write, file: &[u8]) -> io::Result<()> {
    if let Ok(h) = encoding_header::open(file) {
        let table = encoding_header::spec_table(file, h);
        for number in 0..4 {
            string_line(out, table, number)?;
        }
    }
    Ok(())
}

fn main(rt: HostRuntime) -> io::Result<()> {
    let mut out = io::writer(&rt);
    let file = encoding_file();
    match encoding::check(&file) {
        Ok(()) => put(&mut out, b"passed\n")?,
        Err(_) => put(&mut out, b"refused\n")?,
    }
    keys(&mut out, &file)?;
    specs(&mut out, &file)?;
    strings(&mut out, &file)?;
    put(&mut out, b"a file of 2109 bytes\n")?;
    let cut = part(&file, 0, 2109);
    content_line(&mut out, cut, &[5])?;
    encoding_line(&mut out, cut, &[17])?;
    spec_line(&mut out, cut, 0)
}
