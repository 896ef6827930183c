#![tactic(auto)]

// From a file number to its place in an archive: the root file tells its content key, the encoding file the encoding key, and the
// index size and location.
ghost use Rattle.std.specs.Prelude.{◌≡◌};
ghost use Rattle.chain.specs.Chain as spec;

use encoding_lookup::find_content;
use index_lookup::Entry;
use parts::part;
use refusal::Refusal;

// The links of the chain, each with a file of its own.
#[derive(Clone, Copy, PartialEq, Eq, Debug)]
pub enum Link {
    Root,
    Encoding,
    Index,
}

// What the chain tells where no link refuses: the entry of the index, or the link that was absent; and how many stored keys were
// compared in the index.
#[derive(Clone, Copy)]
pub struct Resolved {
    pub found: Result<Entry, Link>,
    pub compared: u32,
}

// The link that refused, and its refusal.
#[derive(Clone, Copy, PartialEq, Eq, Debug)]
pub struct LinkRefusal {
    pub link: Link,
    pub refusal: Refusal,
}

impl Link {
    // The number of a link.
    pub fn number(self) -> u32
        ensures { result ≡ spec.link_number self }
    {
        match self {
            Link::Root => 1,
            Link::Encoding => 2,
            Link::Index => 3,
        }
    }

    // What is told where this link, before the index, was absent.
    fn absent(self) -> Resolved
        ensures { spec.found_told result ≡ spec.absent_at (spec.link_number self) 0 }
    {
        Resolved {
            found: Err(self),
            compared: 0,
        }
    }

    // What is told where this link refused.
    fn refused(self, refusal: Refusal) -> LinkRefusal
        ensures { result ≡ record { link = self; refusal = refusal } }
    {
        LinkRefusal {
            link: self,
            refusal,
        }
    }
}

// The first encoding key of the run at a place.
#[tactic(auto, unfolding(crate::specs::Chain::first_of))]
fn first_key(encoding: &[u8], at: usize, length: usize) -> &[u8]
    ensures { result.now ≡ spec.first_of encoding.now at length }
{
    match encoding_header::open(encoding) {
        Ok(h) => part(
            part(encoding, at, length),
            0,
            usize::from(h.encoding.key_size),
        ),
        Err(_) => part(encoding, 0, 0),
    }
}

// The index link, for an encoding key.
#[tactic(auto, unfolding(crate::specs::Chain::index_told, crate::specs::Chain::linked))]
fn resolve_encoding_key(index: &[u8], key: &[u8]) -> Result<Resolved, LinkRefusal>
    ensures { spec.told result ≡ spec.index_told index.now key.now }
{
    match index_lookup::lookup(index, key) {
        Ok(answer) => Ok(Resolved {
            found: answer.found.ok_or(Link::Index),
            compared: answer.compared,
        }),
        Err(r) => Err(Link::Index.refused(r)),
    }
}

// The links from the encoding file on, for a content key.
fn resolve_content_key(encoding: &[u8], index: &[u8], key: &[u8]) -> Result<Resolved, LinkRefusal>
    ensures { spec.told result ≡ spec.encoding_told encoding.now index.now key.now }
{
    match find_content(encoding, key) {
        Ok(Some(e)) => resolve_encoding_key(index, first_key(encoding, e.at, e.length)),
        Ok(None) => Ok(Link::Encoding.absent()),
        Err(r) => Err(Link::Encoding.refused(r)),
    }
}

// Follows a file number. A file is read only where the links before it found.
pub fn resolve(
    root: &[u8],
    encoding: &[u8],
    index: &[u8],
    id: u32,
    locale: u32,
    unwanted: u64,
) -> Result<Resolved, LinkRefusal>
    ensures { spec.told result ≡ spec.resolve root.now encoding.now index.now id locale unwanted }
{
    match root::lookup(root, id, locale, unwanted) {
        Ok(Some(found)) => resolve_content_key(encoding, index, &found.key),
        Ok(None) => Ok(Link::Root.absent()),
        Err(r) => Err(Link::Root.refused(r)),
    }
}
