#![tactic(auto)]

// The halving rule over keys that lie in lent bytes, and the binary digits of a number.
ghost use Rattle.std.specs.Prelude.{◌≡◌, Bool, cond, ℕ, ◌+◌, ◌≤◌};
ghost use Rattle.halving.specs.Halving as spec;
ghost use Rattle.halving.specs.Range as range;

use key::{eight, rises};
use parts::part;

// Where the halving ends, and how many keys it compared.
#[derive(Clone, Copy)]
pub struct Halved {
    pub place: u32,
    pub count: u32,
}

// The keys that are left to halve over, and how many were compared.
#[derive(Clone, Copy)]
struct Range {
    start: u32,
    left: u32,
    count: u32,
}

// The first eight bytes of a range's middle key, and of the middle keys of the two ranges that may come next.
#[derive(Clone, Copy)]
struct Fronts {
    middle: u64,
    before: u64,
    after: u64,
}

// The key of a range that is compared.
fn middle(r: Range) -> u32
    requires { range.Holds 0 r }
    ensures { result ≡ range.middle_of r }
{
    r.start + r.left / 2
}

// The range that comes next: after the middle key where that is below the sought one, else before it.
fn next(r: Range, below: bool) -> Range
    requires { range.Holds 1 r }
    ensures { result ≡ range.next_of r below }
{
    let half = r.left / 2;
    if below {
        return Range {
            start: r.start + half + 1,
            left: r.left - half - 1,
            count: r.count + 1,
        };
    }
    Range {
        start: r.start,
        left: half,
        count: r.count + 1,
    }
}

// One of two numbers. Compiled without a branch.
fn pick(test: bool, yes: u64, no: u64) -> u64
    ensures { result ≡ cond test yes no }
{
    if test { yes } else { no }
}

fn pick_fronts(test: bool, yes: Fronts, no: Fronts) -> Fronts
    ensures { result ≡ cond test yes no }
{
    Fronts {
        middle: pick(test, yes.middle, no.middle),
        before: pick(test, yes.before, no.before),
        after: pick(test, yes.after, no.after),
    }
}

fn front(keys: &[u8], stride: u16, r: Range) -> u64
    requires { range.Holds 0 r }
    ensures { result ≡ range.front_of keys.now stride r }
{
    eight(keys, middle(r) as usize * stride as usize)
}

fn read_fronts(keys: &[u8], stride: u16, r: Range) -> Fronts
    requires { range.Holds 1 r }
    ensures { result ≡ range.fronts_of keys.now stride r }
{
    Fronts {
        middle: front(keys, stride, r),
        before: front(keys, stride, next(r, false)),
        after: front(keys, stride, next(r, true)),
    }
}

// Three steps at once, by the first eight bytes of the keys; none where one of the three keys has those of the sought one. All seven
// keys that may be compared are read at the start, so that no read waits for another, and no branch depends on a comparison: which way
// the rule goes on cannot be foreseen.
fn three_steps(keys: &[u8], stride: u16, sought: u64, r: Range) -> Range
    requires { range.Holds 7 r }
    ensures leads { (below : ℕ → Bool) → range.Told keys.now stride sought (r.start + r.left) below → range.Leads below r result }
    ensures less { result.left ≤ r.left }
{
    let x = front(keys, stride, r);
    let before = read_fronts(keys, stride, next(r, false));
    let after = read_fronts(keys, stride, next(r, true));
    if x == sought {
        return r;
    }
    let one = next(r, x < sought);
    let then = pick_fronts(x < sought, after, before);
    let y = then.middle;
    if y == sought {
        return r;
    }
    let z = pick(y < sought, then.after, then.before);
    if z == sought {
        return r;
    }
    next(next(one, y < sought), z < sought)
}

// Halves by the first eight bytes of the keys as long as these tell and seven keys are left.
fn halve_eights(keys: &[u8], stride: u16, count: u32, key: &[u8]) -> Range
    ensures { range.Leads (spec.is_key_below keys.now stride key.now) (range.whole count) result }
{
    let step = stride as usize;
    let mut r = Range {
        start: 0,
        left: count,
        count: 0,
    };
    if key.len() < 8 {
        return r;
    }
    if step < 8 {
        return r;
    }
    if keys.len() < count as usize * step {
        return r;
    }
    let sought = eight(key, 0);
    while 7 <= r.left {
        let to = three_steps(keys, stride, sought, r);
        if to.left == r.left {
            return r;
        }
        r = to;
    }
    r
}

// Halves by whole keys.
fn halve_on(keys: &[u8], stride: u16, key: &[u8], from: Range) -> Halved
    requires { range.Holds 0 from }
    ensures { result ≡ spec.halved_from (spec.is_key_below keys.now stride key.now) from.start from.left from.count }
{
    let step = stride as usize;
    let mut r = from;
    while 0 < r.left {
        let below = rises(part(keys, middle(r) as usize * step, key.len()), key);
        r = next(r, below);
    }
    Halved {
        place: r.start,
        count: r.count,
    }
}

// Halves over `count` keys, as long as the sought one, that stand `stride` bytes apart. At most 32 are compared, as a `u32`
// has at most 32 binary digits.
pub fn halve(keys: &[u8], stride: u16, count: u32, key: &[u8]) -> Halved
    ensures value { result ≡ spec.halve (spec.is_key_below keys.now stride key.now) count }
    ensures count_bound { result.count ≤ 32 }
{
    halve_on(keys, stride, key, halve_eights(keys, stride, count, key))
}

// The binary digits of a number: the width less the leading zeros.
pub fn binary_digits(n: u32) -> u32
    ensures value { result ≡ spec.binary_digits n }
    ensures upper_bound { result ≤ 32 }
{
    32 - u32::leading_zeros(n)
}
