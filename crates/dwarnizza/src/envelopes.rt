// BLTE envelopes.
ghost use Rattle.std.specs.Prelude.{◌≡◌, length};
ghost use Rattle.refusal.specs.Output.{filled};
ghost use Rattle.envelope.specs.Envelope as envelope;
ghost use Rattle.crossing.specs.Crossing.{Crosses, verdict_outcome, lent_after};

use answers::told::tell;
use crossing::tell_sixteen;

// The content of an envelope: the bytes written.
#[unsafe(no_mangle)]
pub extern "C" fn dwarnizza_envelope_open(
    file: &[u8],
    key: &[u8],
    output: &mut [u8],
    answer: &mut [u64; 8],
) -> u32
    ensures crosses { Crosses (envelope.open_outcome file.now key.now (length output.old)) result answer.new }
    ensures output_after { output.new
        ≡ filled (envelope.open_check file.now key.now (length output.old))
        (envelope.content file.now) output.old }
{
    tell(envelope::open(file, key, output), answer)
}

// The length of an envelope's content.
#[unsafe(no_mangle)]
pub extern "C" fn dwarnizza_envelope_length(file: &[u8], key: &[u8], answer: &mut [u64; 8]) -> u32
    ensures { Crosses (envelope.length_outcome file.now key.now) result answer.new }
{
    tell(envelope::content_length(file, key), answer)
}

// The key of an envelope. A refusal leaves the key's bytes.
#[unsafe(no_mangle)]
pub extern "C" fn dwarnizza_envelope_key(
    file: &[u8],
    key: &mut [u8; 16],
    answer: &mut [u64; 8],
) -> u32
    ensures crosses { Crosses (verdict_outcome (envelope.key_of_check file.now)) result answer.new }
    ensures key_after { key.new ≡ lent_after (envelope.key_of_check file.now) (envelope.envelope_key_of file.now) key.old }
{
    tell_sixteen(envelope::envelope_key(file), key, answer)
}
