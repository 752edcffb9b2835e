// `set_bytes` of impls.rs with what it is made of, as the routines of `copies8` are.
#![tactic(auto)]

ghost use Rattle.std.specs.Prelude.{◌≡◌, ◌/◌, ◌%◌, length};
ghost use Rattle.model.specs.Fit.{Range};
ghost use Rattle.model.specs.Lists.{stores, fill_list};
ghost use Rattle.model.specs.Perform.{filling};
ghost use Rattle.runs.specs.Ran.{lent, Ran};
ghost use Rattle.words8.specs.Word.{W};

use model::{Log, Work, join, zero};
use words8::access::store;
use words8::bytes::broadcast;
use words8::{WORD_COPY_THRESHOLD, WORD_SIZE, Word};

// Fills chunks of `SIZE` bytes: bytes at the edges (`set_bytes_bytes` of impls.rs), words between them (`set_bytes_words`).
// Stays: `Range` is a clause of every routine: a type that kept it would have to hold the words, which the next routine is lent again.
fn set_chunks<const SIZE: usize>(mem: &mut [Word], log: &mut Log, s: usize, c: u8, n: usize) -> Work
    requires { (Range W (length mem.old) s n) × ((W % SIZE ≡ 0) × (s % SIZE ≡ 0)) }
    ensures { Ran W (filling c) (stores SIZE s (n / SIZE)) (lent mem.old log.old) (lent mem.new log.new) result }
{
    let word = broadcast(c);
    let mut work = zero();
    for i in 0..n / SIZE {
        let turn = store(mem, log, s + SIZE * i, SIZE, word);
        work = join(work, turn);
    }
    work
}

#[inline(always)]
pub fn set_bytes(mem: &mut [Word], log: &mut Log, s: usize, c: u8, n: usize) -> Work
    requires { Range W (length mem.old) s n }
    ensures { Ran W (filling c) (fill_list W s n) (lent mem.old log.old) (lent mem.new log.new) result }
{
    let mut s = s;
    let mut n = n;
    let mut work = zero();
    if n >= WORD_COPY_THRESHOLD {
        // Align s
        // Because of n >= 2 * WORD_SIZE, misalignment < n
        let misalignment = (WORD_SIZE - s % WORD_SIZE) % WORD_SIZE;
        let head = set_chunks::<1>(mem, log, s, c, misalignment);
        s += misalignment;
        n -= misalignment;

        let n_words = n - n % WORD_SIZE;
        let words = set_chunks::<WORD_SIZE>(mem, log, s, c, n_words);
        work = join(head, words);
        s += n_words;
        n -= n_words;
    }
    let tail = set_chunks::<1>(mem, log, s, c, n);
    join(work, tail)
}
