#![tactic(auto)]

// The comparison of keys byte by byte, kept for the benchmark, which times it beside that of the library.
ghost use Rattle.std.specs.Prelude.{◌≡◌};
ghost use Rattle.key.specs.Order.{compared, is_below};
ghost use Rattle.key_bytes.specs.Told.{order_number};

use std::cmp::Ordering;

// How a stands to b. Where one is the beginning of the other, the shorter is below.
pub fn compare(a: &[u8], b: &[u8]) -> Ordering
    ensures { result ≡ compared a.now b.now }
{
    for same in 0..a.len() {
        if b.len() <= same {
            return Ordering::Greater;
        }
        let x = a[same];
        let y = b[same];
        if x != y {
            return x.cmp(&y);
        }
    }
    if a.len() < b.len() {
        Ordering::Less
    } else {
        Ordering::Equal
    }
}

// Whether a is below b.
pub fn rises(a: &[u8], b: &[u8]) -> bool
    ensures { result ≡ is_below (compared a.now b.now) }
{
    compare(a, b).is_lt()
}

// The number of an outcome for C.
pub fn tell_order(order: Ordering) -> u32
    ensures { result ≡ order_number order }
{
    match order {
        Ordering::Less => 0,
        Ordering::Equal => 1,
        Ordering::Greater => 2,
    }
}
