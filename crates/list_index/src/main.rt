#![tactic(auto)]

// Lists an archive index: standard input as text on standard output.
ghost use Rattle.std.specs.Prelude.{◌≡◌, ◌≤◌, length, IfOk};

use listing_printed::{MOST_PRINTED, print};
use std::io;
use std::io::{Read, Write};

// One byte more than is listed, so that a longer input is seen to be longer.
const MOST_READ: usize = 65_537;

fn input_room() -> [u8; MOST_READ]
    ensures { 65537 ≡ length result }
{
    [0; MOST_READ]
}

fn output_room() -> [u8; MOST_PRINTED]
    ensures { 655360 ≡ length result }
{
    [0; MOST_PRINTED]
}

// Reads until the room is full or the input ends, and tells how many bytes were read.
fn read_full(input: &mut impl Read, room: &mut [u8]) -> io::Result<usize>
    ensures { IfOk result (λ n. n ≤ length room.new) }
{
    let mut at = 0;
    while at < room.len() {
        let n = input.read(&mut room[at..])?;
        if n == 0 {
            break;
        }
        at += n;
    }
    Ok(at)
}

fn main(rt: HostRuntime) -> io::Result<()> {
    let mut input = input_room();
    let read = read_full(&mut rt.reader(), &mut input)?;
    let mut output = output_room();
    let length = print(&input[..read], &mut output);
    io::writer(&rt).write_all(&output[..length])
}
