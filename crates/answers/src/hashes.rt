// MD5.
ghost use Rattle.std.specs.Prelude.{◌≡◌};
ghost use Rattle.answers.specs.Lent.{words_to};

use md5_digest::Md5;

// Puts a state where C holds it.
pub fn put_state(state: &Md5, words: &mut [u32; 4], pending: &mut [u8; 64], count: &mut u64)
    ensures words_after { words.new ≡ words_to state.now.words }
    ensures pending_after { pending.new ≡ state.now.pending }
    ensures count_after { count.new ≡ state.now.count }
{
    let w = state.words;
    *words = [w.a, w.b, w.c, w.d];
    *pending = state.pending;
    *count = state.count;
}
