#![tactic(auto, unfolding(refusal::specs::Check::refused_if))]

// Prints MD5 digests for a comparison: of the strings of RFC 1321's suite, of data of many lengths in one call, and of data
// that comes in parts. One digest to a line.
ghost use Rattle.std.specs.Prelude.{◌≡◌, ◌^◌, ◌≤◌, ◌<◌, length, take};
ghost use Rattle.text.specs.Text.{hex as Text·hex};
ghost use Rattle.md5_digest.specs.Message.{md5 as Message·md5};
ghost use Rattle.md5_suite.specs.Suite.{data_byte, data_of};

use std::io;
use std::io::Write;
use text::put_hex;

// Byte i of the data.
fn data_byte(i: usize) -> u8
    requires { i < 2 ^ 48 }
    ensures { result ≡ data_byte i }
{
    ((i * 31 + i / 256 * 7 + 5) % 256) as u8
}

// Puts the data's first bytes into all of `to`.
fn fill(to: &mut [u8])
    requires { length to.old ≤ 2 ^ 48 }
    ensures { to.new ≡ data_of (length to.old) }
{
    for (i, byte) in to.iter_mut().enumerate() {
        *byte = data_byte(i);
    }
}

// A digest in hex digits.
fn hex(digest: &[u8; 16]) -> [u8; 32]
    ensures { result ≡ Text·hex digest.now }
{
    let mut digits = [0u8; 32];
    put_hex(digest, &mut digits, 0);
    digits
}

fn in_one_call(s: &[u8]) -> [u8; 16]
    requires { length s.now ≤ 2 ^ 48 }
    ensures { result ≡ Message·md5 s.now }
{
    md5_digest::digest(s).unwrap()
}

// The first n bytes of `s`.
fn first(s: &[u8], n: usize) -> &[u8]
    requires { n ≤ length s.now }
    ensures { (result.now ≡ take n s.now) × (length result.now ≡ n) }
{
    &s[..n]
}

// The digest of `s` that comes in parts of `size` bytes, the last shorter. Below the limit no part is refused.
fn in_parts(s: &[u8], size: usize) -> [u8; 16]
    requires { (length s.now ≤ 2 ^ 48) × (0 < size) }
    ensures { result ≡ Message·md5 s.now }
{
    let mut state = md5_digest::Md5::new();
    let mut at = 0;
    while at < s.len() {
        let end = at + size.min(s.len() - at);
        let (next, _) = state.update(&s[at..end]);
        state = next;
        at = end;
    }
    state.finish()
}

fn put(out: &mut impl Write, text: &[u8]) -> io::Result<()> {
    out.write_all(text)
}

fn put_number(out: &mut impl Write, n: usize) -> io::Result<()> {
    write!(out, "{n}")
}

fn put_digest(out: &mut impl Write, digest: [u8; 16]) -> io::Result<()> {
    let text = hex(&digest);
    put(out, &text)?;
    put(out, b"\n")
}

fn string_line(out: &mut impl Write, s: &[u8]) -> io::Result<()>
    requires { length s.now ≤ 2 ^ 48 }
{
    put(out, b"MD5 (\"")?;
    put(out, s)?;
    put(out, b"\") = ")?;
    put_digest(out, in_one_call(s))
}

fn length_line(out: &mut impl Write, s: &[u8]) -> io::Result<()>
    requires { length s.now ≤ 2 ^ 48 }
{
    put_number(out, s.len())?;
    put(out, b" ")?;
    put_digest(out, in_one_call(s))
}

fn parts_line(out: &mut impl Write, s: &[u8], size: usize) -> io::Result<()>
    requires { (length s.now ≤ 2 ^ 48) × (0 < size) }
{
    put_number(out, s.len())?;
    put(out, b" by ")?;
    put_number(out, size)?;
    put(out, b" ")?;
    put_digest(out, in_parts(s, size))
}

fn strings(out: &mut impl Write) -> io::Result<()> {
    string_line(out, b"")?;
    string_line(out, b"a")?;
    string_line(out, b"abc")?;
    string_line(out, b"message digest")?;
    string_line(out, b"abcdefghijklmnopqrstuvwxyz")?;
    string_line(
        out,
        b"ABCDEFGHIJKLMNOPQRSTUVWXYZabcdefghijklmnopqrstuvwxyz0123456789",
    )?;
    string_line(
        out,
        b"12345678901234567890123456789012345678901234567890123456789012345678901234567890",
    )
}

// The lengths 0 to 200.
fn short_lengths(out: &mut impl Write, s: &[u8]) -> io::Result<()>
    requires { 200 ≤ length s.now }
{
    for n in 0..=200 {
        length_line(out, first(s, n))?;
    }
    Ok(())
}

fn part_sizes(out: &mut impl Write, s: &[u8]) -> io::Result<()>
    requires { length s.now ≤ 2 ^ 48 }
{
    parts_line(out, s, 1)?;
    parts_line(out, s, 63)?;
    parts_line(out, s, 64)?;
    parts_line(out, s, 65)?;
    parts_line(out, s, 1000)
}

fn lengths(out: &mut impl Write, s: &[u8]) -> io::Result<()>
    requires { length s.now ≡ 1000000 }
{
    short_lengths(out, s)?;
    length_line(out, first(s, 1000))?;
    length_line(out, first(s, 4096))?;
    length_line(out, first(s, 65536))?;
    length_line(out, s)?;
    part_sizes(out, first(s, 1000))?;
    part_sizes(out, first(s, 4096))?;
    part_sizes(out, first(s, 65536))?;
    part_sizes(out, s)
}

// Room for the data.
fn room() -> [u8; 1_000_000]
    ensures { 1000000 ≡ length result }
{
    [0; 1_000_000]
}

fn main(rt: HostRuntime) -> io::Result<()> {
    let mut out = io::writer(&rt);
    strings(&mut out)?;
    let mut data = room();
    fill(&mut data);
    lengths(&mut out, &data)
}
