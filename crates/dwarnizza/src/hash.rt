// MD5.
ghost use Rattle.std.specs.Prelude.{◌≡◌, cond, [], ◌+◌, length, replicate};
ghost use Rattle.refusal.specs.Outcome.{answered};
ghost use Rattle.md5_digest.specs.Message as md5;
ghost use Rattle.crossing.specs.Crossing.{Crosses, verdict_outcome};
ghost use Rattle.answers.specs.Lent.{words_to};
ghost use Rattle.dwarnizza.specs.Md5State.{state_of, words_after};

use answers::hashes::put_state;
use answers::told::tell;
use crossing::{refused, tell_sixteen};
use md5_block::Words;
use md5_digest::Md5;

fn state(words: &[u32; 4], pending: &[u8; 64], count: u64) -> Md5
    ensures { result ≡ state_of words.now pending.now count }
{
    Md5 {
        words: Words {
            a: words[0],
            b: words[1],
            c: words[2],
            d: words[3],
        },
        pending: *pending,
        count,
    }
}

// The digest of a message. A refusal leaves the digest's bytes.
#[unsafe(no_mangle)]
pub extern "C" fn dwarnizza_md5(message: &[u8], digest: &mut [u8; 16], answer: &mut [u64; 8]) -> u32
    ensures crosses { Crosses (verdict_outcome (md5.limited (length message.now))) result answer.new }
    ensures digest_after { digest.new ≡ cond (md5.is_too_long (length message.now)) digest.old (md5.md5 message.now) }
{
    tell_sixteen(md5_digest::digest(message), digest, answer)
}

// The state before the first part.
#[unsafe(no_mangle)]
pub extern "C" fn dwarnizza_md5_start(
    words: &mut [u32; 4],
    pending: &mut [u8; 64],
    count: &mut u64,
    answer: &mut [u64; 8],
) -> u32
    ensures crosses { Crosses (answered []) result answer.new }
    ensures words_after { (words.new ≡ words_to md5.initial) × (pending.new ≡ replicate 64 0) × (count.new ≡ 0) }
{
    put_state(&Md5::new(), words, pending, count);
    tell(Ok(()), answer)
}

// Takes the next part of a message. A refusal leaves the state.
#[unsafe(no_mangle)]
pub extern "C" fn dwarnizza_md5_update(
    part: &[u8],
    words: &mut [u32; 4],
    pending: &mut [u8; 64],
    count: &mut u64,
    answer: &mut [u64; 8],
) -> u32
    ensures crosses { Crosses (verdict_outcome (md5.limited (count.old + length part.now))) result answer.new }
    ensures words_after { words.new ≡ words_after words.old pending.old count.old part.now }
    ensures pending_after { pending.new
        ≡ (md5.updated (state_of words.old pending.old count.old) part.now).pending }
    ensures count_after { count.new ≡ (md5.updated (state_of words.old pending.old count.old) part.now).count }
{
    let (after, taken) = state(words, pending, *count).update(part);
    if let Err(r) = taken {
        return refused(r, answer);
    }
    put_state(&after, words, pending, count);
    tell(Ok(()), answer)
}

// The digest that a state ends in.
#[unsafe(no_mangle)]
pub extern "C" fn dwarnizza_md5_finish(
    words: &[u32; 4],
    pending: &[u8; 64],
    count: u64,
    digest: &mut [u8; 16],
    answer: &mut [u64; 8],
) -> u32
    ensures crosses { Crosses (answered []) result answer.new }
    ensures digest_after { digest.new ≡ md5.finished (state_of words.now pending.now count) }
{
    *digest = state(words, pending, count).finish();
    tell(Ok(()), answer)
}
