#![tactic(auto)]

// The page of an encoding file that a lookup searches, by the first keys of the pages' index. Nobody has checked their order, so
// they are read one by one from the last.
ghost use Rattle.std.specs.Prelude.{◌≡◌};
ghost use Rattle.encoding_index.specs.Chosen as spec;

use encoding_header::{Header, Kind, first_key};
use key::eight;
use numbers::big;

// Passes over pages, from the last of `from` on, whose first key is above by its first eight bytes: nearly all are told by these.
fn skip(file: &[u8], h: Header, kind: Kind, key: &[u8], from: u32) -> u32
    ensures { spec.Skipped file.now h kind key.now from result }
{
    if h.table(kind).key_size < 8 {
        return from;
    }
    let sought = big(key, 0, 8);
    for i in (0..from).rev() {
        if eight(file, h.row_at(kind, i)) <= sought {
            return i + 1;
        }
    }
    0
}

// How many pages there are up to the highest-numbered one whose first key is not above a key; 0 where there is none.
pub fn pages_up_to(file: &[u8], h: Header, kind: Kind, key: &[u8]) -> u32
    ensures { result ≡ spec.pages_up_to file.now h kind key.now }
{
    let mut n = h.table(kind).pages;
    // A while loop: `skip` goes on by uneven steps.
    while 0 < n {
        n = skip(file, h, kind, key, n);
        if n == 0 {
            return 0;
        }
        if !key::rises(key, first_key(file, h, kind, n - 1)) {
            return n;
        }
        n -= 1;
    }
    0
}
