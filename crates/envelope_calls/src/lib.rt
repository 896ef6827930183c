#![tactic(auto)]

// An envelope that is measured and then opened, one call after the other. What opens (rule B17) is what the function ensures of
// their answers, so that it rests on the contracts of the functions themselves.
ghost use Rattle.std.specs.Prelude.{◌≡◌, length, IfOk};
ghost use Rattle.refusal.specs.Outcome.{written_outcome};
ghost use Rattle.refusal.specs.Output.{filled};
ghost use Rattle.envelope.specs.Envelope as envelopes;
ghost use Rattle.envelope_calls.specs.Opened.{Opened};

use refusal::Refusal;

// What `content_length` and `open` answered.
#[derive(Clone, Copy)]
pub struct Measured {
    pub length: Result<usize, Refusal>,
    pub opened: Result<usize, Refusal>,
}

// Asks for the length of an envelope's content and opens it.
pub fn measure_and_open(file: &[u8], key: &[u8], output: &mut [u8]) -> Measured
    ensures length_value { written_outcome result.length ≡ envelopes.length_outcome file.now key.now }
    ensures opened_value { written_outcome result.opened ≡ envelopes.open_outcome file.now key.now (length output.old) }
    ensures output_after { output.new
        ≡ filled (envelopes.open_check file.now key.now (length output.old))
        (envelopes.content file.now) output.old }
    ensures by_index { IfOk result.length (λ n. Opened file.now key.now output.old output.new n result.opened) }
{
    let length = envelope::content_length(file, key);
    let opened = envelope::open(file, key, output);
    Measured { length, opened }
}
