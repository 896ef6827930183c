#![tactic(auto, unfolding(refusal::specs::Check::refused_if))]

// A message that is hashed part by part, as a list of lengths cuts it. That its digest is that of the whole is what the function
// ensures, so that it rests on the contracts of the methods of `Md5`.
ghost use Rattle.std.specs.Prelude.{◌≡◌, length, IfOk};
ghost use Rattle.refusal.specs.Check.{check_of};
ghost use Rattle.md5_digest.specs.Message as md5;
ghost use Rattle.md5_calls.specs.Sofar.{Sofar};

use md5_digest::Md5;
use parts::part;
use refusal::Refusal;

// The state after a part of each length, one after the other. A part that is refused is not taken.
fn hash_parts(message: &[u8], lengths: &[usize]) -> Md5
    ensures { Sofar message.now result }
{
    let mut state = Md5::new();
    for n in lengths {
        let at = state.count as usize;
        let (next, _) = state.update(part(message, at, *n));
        state = next;
    }
    state
}

// The digest of a message that is cut into parts of these lengths, and what is left of it.
pub fn digest_of_parts(message: &[u8], lengths: &[usize]) -> Result<[u8; 16], Refusal>
    ensures check { check_of result ≡ md5.limited (length message.now) }
    ensures bytes { IfOk result (λ digest. digest ≡ md5.md5 message.now) }
{
    let state = hash_parts(message, lengths);
    let rest = part(message, state.count as usize, message.len());
    let (state, taken) = state.update(rest);
    taken?;
    Ok(state.finish())
}
