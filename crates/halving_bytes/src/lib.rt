#![tactic(auto)]

// The halving by keys compared byte by byte, kept for the benchmark, which times it beside that of the library.
ghost use Rattle.std.specs.Prelude.{◌≡◌};
ghost use Rattle.halving.specs.Halving as spec;
ghost use Rattle.halving_bytes.specs.Told.{place_of};

use halving::Halved;
use key_bytes::rises;
use parts::part;

// Where a halving ends, and how many keys it compared, as C reads them.
#[repr(C)]
#[derive(Clone, Copy)]
pub struct Place {
    pub place: u32,
    pub count: u32,
}

// Halves over `count` keys, as long as the sought one, that stand `stride` bytes apart.
fn halve(keys: &[u8], stride: u32, count: u32, key: &[u8]) -> Halved
    ensures { result ≡ spec.halve (spec.is_key_below keys.now stride key.now) count }
{
    let step = stride as usize;
    let mut start = 0;
    let mut left = count;
    let mut compared: u32 = 0;
    while 0 < left {
        let half = left / 2;
        let middle = start + half;
        compared += 1;
        if rises(part(keys, middle as usize * step, key.len()), key) {
            start = middle + 1;
            left = left - half - 1;
        } else {
            left = half;
        }
    }
    Halved {
        place: start,
        count: compared,
    }
}

impl From<Halved> for Place {
    ghost from_gives = { λ halved place. place ≡ place_of halved };

    fn from(halved: Halved) -> Place {
        Place {
            place: halved.place,
            count: halved.count,
        }
    }
}

// Halves over `count` keys that stand `stride` bytes apart, byte by byte.
#[unsafe(no_mangle)]
pub extern "C" fn key_bytes_halve(keys: &[u8], stride: u32, count: u32, key: &[u8]) -> Place
    ensures { result ≡ place_of (spec.halve (spec.is_key_below keys.now stride key.now) count) }
{
    Place::from(halve(keys, stride, count, key))
}

// The same by the halving of the library. That takes a stride of 16 bits, and no index has a greater one.
#[unsafe(no_mangle)]
pub extern "C" fn key_eights_halve(keys: &[u8], stride: u32, count: u32, key: &[u8]) -> Place
    ensures { result ≡ place_of (spec.halve (spec.is_key_below keys.now stride key.now) count) }
{
    if 65535 < stride {
        return Place::from(halve(keys, stride, count, key));
    }
    Place::from(halving::halve(keys, stride as u16, count, key))
}
