// Keys.
ghost use Rattle.std.specs.Prelude.{◌≡◌};
ghost use Rattle.refusal.specs.Output.{filled};
ghost use Rattle.key_text.specs.Text.{text_check, text_bytes};
ghost use Rattle.crossing.specs.Crossing.{Crosses};
ghost use Rattle.dwarnizza.specs.Keys.{text_outcome};

use answers::keys::tell_key;
use crossing::narrow;

// The key of `length` bytes that a text tells, in the first bytes of `key`. A refusal leaves the key's bytes.
#[unsafe(no_mangle)]
pub extern "C" fn dwarnizza_key_text(
    text: &[u8],
    length: u32,
    key: &mut [u8; 16],
    answer: &mut [u64; 8],
) -> u32
    ensures crosses { Crosses (text_outcome text.now length) result answer.new }
    ensures key_after { key.new ≡ filled (text_check text.now length) (text_bytes text.now) key.old }
{
    let k = narrow(length);
    tell_key(key_text::from_text(text, k), k, key, answer)
}
