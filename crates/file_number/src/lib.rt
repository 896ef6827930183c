#![tactic(auto)]

// File numbers as decimal text. Any bytes are answered for.
ghost use Rattle.std.specs.Prelude.{◌≡◌, ◌≤◌, length, IfOk};
ghost use Rattle.text.specs.Text.{decimal};
ghost use Rattle.file_number.specs.FileNumber as spec;

// The greatest file number.
pub const MOST_NUMBER: u64 = 4_294_967_295;

// What is wrong with a text that is no file number. Each has its number.
#[derive(Clone, Copy, PartialEq, Eq, Debug)]
pub enum Wrong {
    Empty = 1,
    LeadingZero = 2,
    NoDigit = 3,
    TooGreat = 4,
}

// What is wrong, and the byte offset where it is.
#[derive(Clone, Copy, PartialEq, Eq, Debug)]
pub struct Fault {
    pub what: Wrong,
    pub place: usize,
}

impl Wrong {
    // The number of what is wrong, as rule D12 gives it.
    pub fn number(self) -> u32
        ensures { result ≡ spec.number_of self }
    {
        self as u32
    }

    // What is wrong, at a place.
    fn at(self, place: usize) -> Fault
        ensures { result ≡ record { what = self; place = place } }
    {
        Fault { what: self, place }
    }
}

// The bytes before the first that is no digit.
fn digits(text: &[u8]) -> usize
    ensures { result ≡ spec.digits_of text.now }
{
    text.iter()
        .position(|b| !b.is_ascii_digit())
        .unwrap_or(text.len())
}

// The number of a text of digits, which ends at the digit where it is too great.
fn number(text: &[u8]) -> Result<u32, Fault>
    requires { length text.now ≤ spec.digits_of text.now }
    ensures { spec.outcome result ≡ spec.bounded_number text.now }
{
    let mut n: u64 = 0;
    for (at, digit) in text.iter().enumerate() {
        n = n * 10 + u64::from(*digit - 48);
        if MOST_NUMBER < n {
            return Err(Wrong::TooGreat.at(at));
        }
    }
    Ok(n as u32)
}

// The file number that a text tells, or what is wrong with the text. A number's own decimal text is the one that was read.
pub fn read(text: &[u8]) -> Result<u32, Fault>
    ensures told { spec.outcome result ≡ spec.file_number_of text.now }
    ensures own_text { IfOk result (λ n. (decimal n ≡ text.now) × (n ≤ spec.most_number)) }
{
    if text.is_empty() {
        return Err(Wrong::Empty.at(0));
    }
    if 1 < text.len() && text[0] == b'0' {
        return Err(Wrong::LeadingZero.at(0));
    }
    let end = digits(text);
    if end < text.len() {
        return Err(Wrong::NoDigit.at(end));
    }
    number(text)
}
