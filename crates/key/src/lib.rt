#![tactic(auto)]

// The order of keys: unsigned bytes from the left.
ghost use Rattle.std.specs.Prelude.{◌≡◌, ◌+◌, ◌≤◌, length, drop};
ghost use Rattle.parts.specs.Part.{same_bytes};
ghost use Rattle.numbers.specs.Number.{big_at};
ghost use Rattle.key.specs.Order.{compared, is_below};
ghost use Rattle.key.specs.Eight.{eight_at};

use std::cmp::Ordering;

// Eight bytes that are all there, as a big-endian number. The compiler makes one read of it.
fn eight_inside(s: &[u8], at: usize) -> u64
    requires { at + 8 ≤ length s.now }
    ensures { result ≡ big_at s.now at 8 }
{
    u64::from_be_bytes([
        s[at],
        s[at + 1],
        s[at + 2],
        s[at + 3],
        s[at + 4],
        s[at + 5],
        s[at + 6],
        s[at + 7],
    ])
}

// The eight bytes at an offset, as a big-endian number; 0 where fewer are left.
pub fn eight(s: &[u8], at: usize) -> u64
    ensures { result ≡ eight_at s.now at }
{
    if s.len() < 8 {
        return 0;
    }
    if s.len() - 8 < at {
        return 0;
    }
    eight_inside(s, at)
}

// How a stands to b from an offset on, byte by byte.
fn compare_bytes(a: &[u8], b: &[u8], at: usize) -> Ordering
    ensures { result ≡ compared (drop at a.now) (drop at b.now) }
{
    for same in at..a.len() {
        if b.len() <= same {
            return Ordering::Greater;
        }
        let x = a[same];
        let y = b[same];
        if x != y {
            return x.cmp(&y);
        }
    }
    if a.len().max(at) < b.len() {
        Ordering::Less
    } else {
        Ordering::Equal
    }
}

// How a stands to b. Where one is the beginning of the other, the shorter is below. Eight bytes at once while both have eight left,
// then byte by byte.
pub fn compare(a: &[u8], b: &[u8]) -> Ordering
    ensures { result ≡ compared a.now b.now }
{
    let mut same = 0;
    while 8 <= a.len() - same {
        if b.len() - same < 8 {
            return compare_bytes(a, b, same);
        }
        let x = eight_inside(a, same);
        let y = eight_inside(b, same);
        if x != y {
            return x.cmp(&y);
        }
        same += 8;
    }
    compare_bytes(a, b, same)
}

// Whether a is below b.
pub fn rises(a: &[u8], b: &[u8]) -> bool
    ensures { result ≡ is_below (compared a.now b.now) }
{
    compare(a, b).is_lt()
}

// Whether two keys are the same. A loop of its own: the compiler then makes one function of the comparison and `rises`.
pub fn same(a: &[u8], b: &[u8]) -> bool
    ensures { result ≡ same_bytes a.now b.now }
{
    if a.len() != b.len() {
        return false;
    }
    let mut at = 0;
    while 8 <= a.len() - at {
        if eight_inside(a, at) != eight_inside(b, at) {
            return false;
        }
        at += 8;
    }
    compare_bytes(a, b, at).is_eq()
}
