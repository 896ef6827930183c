#![tactic(auto)]

// A list of ids: big-endian numbers of four bytes that rise, equal neighbours allowed.
ghost use Rattle.std.specs.Prelude.{◌≡◌, ◌<◌};
ghost use Rattle.refusal.specs.Check.{check_of};
ghost use Rattle.id_list.specs.Ids as spec;
ghost use Rattle.id_list.specs.Place.{Between, Placed, stands_at};

use refusal::{Reason, Refusal};

// The bytes of an id.
pub const ID_SIZE: usize = 4;

// Id i.
fn id_at(ids: &[u8], i: usize) -> u32
    requires { i < spec.id_count ids.now }
    ensures { result ≡ spec.id_at ids.now i }
{
    let at = ID_SIZE * i;
    u32::from_be_bytes([ids[at], ids[at + 1], ids[at + 2], ids[at + 3]])
}

// Refusals 12 and 161.
pub fn check(ids: &[u8]) -> Result<(), Refusal>
    ensures { check_of result ≡ spec.ids_check ids.now }
{
    if ids.len() % ID_SIZE != 0 {
        return Err(Reason::ListLength.at(0));
    }
    for i in 1..ids.len() / ID_SIZE {
        if id_at(ids, i) < id_at(ids, i - 1) {
            return Err(Reason::ListFalls.at(i));
        }
    }
    Ok(())
}

// Where an id stands or would stand, by halving.
fn halve(ids: &[u8], id: u32, from: usize, to: usize) -> usize
    requires { Between ids.now id from to }
    ensures { Placed ids.now id result }
{
    let mut low = from;
    let mut high = to;
    while low < high {
        let middle = low + (high - low) / 2;
        if id_at(ids, middle) < id {
            low = middle + 1;
        } else {
            high = middle;
        }
    }
    low
}

// The same from an id on, in steps that double: near ids are found in few comparisons.
fn ahead(ids: &[u8], id: u32, from: usize) -> usize
    requires { Between ids.now id from (spec.id_count ids.now) }
    ensures { Placed ids.now id result }
{
    let n = ids.len() / ID_SIZE;
    let mut low = from;
    let mut step = 0;
    while step < n - low {
        let near = low + step;
        if id <= id_at(ids, near) {
            return halve(ids, id, low, near);
        }
        low = near + 1;
        step = 2 * step + 1;
    }
    halve(ids, id, low, n)
}

// The first id of a list that rises that is not below the sought one, or the count. A good guess makes the search short, and any
// guess does.
pub fn place(ids: &[u8], id: u32, guess: usize) -> usize
    ensures { Placed ids.now id result }
{
    if 0 < guess && guess <= ids.len() / ID_SIZE && id_at(ids, guess - 1) < id {
        return ahead(ids, id, guess);
    }
    ahead(ids, id, 0)
}

// Whether id i is there and is this one.
#[tactic(auto, unfolding(crate::specs::Place::stands_at))]
pub fn stands(ids: &[u8], i: usize, id: u32) -> bool
    ensures { result ≡ stands_at ids.now i id }
{
    i < ids.len() / ID_SIZE && id_at(ids, i) == id
}
