#![tactic(auto)]

// Whether keys that lie a fixed number of bytes apart rise strictly.
ghost use Rattle.std.specs.Prelude.{◌≡◌, ◌-◌, ◌≤◌, ◌<◌};
ghost use Rattle.rising.specs.Fall as spec;
ghost use Rattle.rising.specs.Skipped.{Skipped};

use key::eight;
use parts::part;

// The first key from one on whose first eight bytes are not above those of the key before, or the count. Nearly all
// neighbours among sorted keys are told by these bytes alone.
fn skip(keys: &[u8], stride: u16, width: u8, count: u32, from: u32) -> u32
    requires { (1 ≤ from) × (from < count) }
    ensures { Skipped keys.now stride width count from result }
{
    let step = usize::from(stride);
    if width < 8 || step < 8 || keys.len() < count as usize * step {
        return from;
    }
    let mut at = from as usize * step;
    let mut before = eight(keys, at - step);
    for i in from..count {
        let here = eight(keys, at);
        if here <= before {
            return i;
        }
        before = here;
        at += step;
    }
    count
}

// The number of the first of `count` keys that is not above the one before it; the count or more where all rise. Key i has
// `width` bytes from i * `stride` on.
pub fn fall(keys: &[u8], stride: u16, width: u8, count: u32) -> u32
    ensures { result ≡ spec.fall_from keys.now stride width 1 (count - 1) }
{
    let step = usize::from(stride);
    let bytes = usize::from(width);
    let mut i = 1;
    // A while loop: `skip` goes on by uneven steps.
    while i < count {
        i = skip(keys, stride, width, count, i);
        if count <= i {
            return i;
        }
        let at = i as usize * step;
        if !key::rises(part(keys, at - step, bytes), part(keys, at, bytes)) {
            return i;
        }
        i += 1;
    }
    i
}
