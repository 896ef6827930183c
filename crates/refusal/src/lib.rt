#![tactic(auto)]

// Refusals: why a call refuses, and where. specs/Number.antt has the number of each reason, under its name in lower case with an
// underscore before each further word.
ghost use Rattle.std.specs.Prelude.{◌≡◌};
ghost use Rattle.refusal.specs.Number.{number_of};

// The reasons of rule N1. Each has its number.
#[derive(Clone, Copy, PartialEq, Eq, Debug)]
pub enum Reason {
    // Archive index.
    IndexShort = 1,
    FooterHash = 3,
    EntryCount = 4,
    IndexLength = 5,
    IndexPageHash = 6,
    IndexPadding = 7,
    IndexOrder = 8,
    LastKey = 9,
    IndexKeyLength = 10,
    Settings = 11,
    ListLength = 12,
    OutputShort = 13,
    // Envelope.
    NotBlte = 20,
    EnvelopeHeader = 21,
    ChunkSizes = 22,
    ChunkHash = 23,
    ChunkMode = 24,
    DecodedSize = 25,
    ContentOutputShort = 26,
    EnvelopeKey = 27,
    // Encoding file.
    NotEncoding = 30,
    EncodingHeader = 31,
    EncodingCut = 32,
    SpecTableOpen = 33,
    EncodingPageHash = 34,
    EntryOverPage = 35,
    EncodingOrder = 36,
    FirstKey = 37,
    SpecNumber = 38,
    EncodingKeyLength = 39,
    // Root file.
    BlockCut = 40,
    IdRange = 41,
    RootHeaderSize = 42,
    RootHeaderCut = 43,
    RootVersion = 44,
    // Hashing.
    HashLimit = 50,
    // Key text.
    KeyTextLength = 60,
    HexDigit = 61,
    // Listing.
    ListingInput = 70,
    // Fields of an index's footer.
    FooterVersion = 102,
    FooterReserved = 103,
    FooterPageSize = 104,
    FooterOffsetWidth = 105,
    FooterSizeWidth = 106,
    FooterKeyLength = 107,
    FooterHashLength = 108,
    // Name hash.
    PathLength = 110,
    // Lists of file numbers.
    ListFalls = 161,
}

// What a refusal gives: its reason, and its place (0 where rule N1 names none).
#[derive(Clone, Copy, PartialEq, Eq, Debug)]
pub struct Refusal {
    pub reason: Reason,
    pub place: usize,
}

impl Reason {
    // The number of the reason, as rule N1 gives it.
    pub fn number(self) -> u32
        ensures { result ≡ number_of self }
    {
        self as u32
    }

    // The refusal for this reason, at a place.
    pub fn at(self, place: usize) -> Refusal
        ensures { result ≡ record { reason = self; place = place } }
    {
        Refusal {
            reason: self,
            place,
        }
    }
}
