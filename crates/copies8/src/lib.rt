// `copy_forward` and `copy_backward` of impls.rs with what they are made of, in its order; the partial loads stand with the words. Both are
// one text over the direction `UP`, as their access lists are: `copy_forward` is `copy::<FORWARD>`, `copy_backward` is `copy::<BACKWARD>`,
// and so with what is below them. `copy_forward_bytes` is `copy_chunks::<FORWARD, 1>`, and `copy_forward_aligned_words` is
// `copy_chunks::<FORWARD, WORD_SIZE>`. A pointer there is an address here, beside the words that are lent. Each routine passes the log on,
// in which every access is entered where it is made, and hands back the record of its accesses, joined in their order.
#![tactic(auto)]

mod cursors;

ghost use Rattle.std.specs.Prelude.{◌≡◌, not, [], ◌∷◌, ◌++◌, ◌+◌, ◌-◌, ◌/◌, ◌%◌, ◌<◌, length};
ghost use Rattle.model.specs.Access.{load, store};
ghost use Rattle.runs.specs.Asked.{Words, Across, Chunks};
ghost use Rattle.model.specs.Fit.{Fit, Range};
ghost use Rattle.model.specs.Lists.{chunk, past, pairs, misaligned, near, whole_words, along};
ghost use Rattle.model.specs.Memory.{read_le, view};
ghost use Rattle.model.specs.Perform.{moving};
ghost use Rattle.runs.specs.Ran.{lent, Anything, Carried, Pending, Ran, PartFound, part, ordered};
ghost use Rattle.words8.specs.Word.{W};

use cursors::{chunk, cursor, head, past};
use model::{Counted, Log, Work, join, zero};
use words8::access::{load, store};
use words8::bytes::reassembled;
use words8::chunk::copy_chunk;
use words8::partial::{load_aligned_end_partial, load_aligned_partial};
use words8::{WORD_COPY_THRESHOLD, WORD_SIZE, Word};

// The following functions, down to `copy`, take cursors: going down, the addresses past the end instead of those of the start!
// Stays: `dest`, `src` and `n` apart, as impls.rs and the lists (`pairs`, `along`) have them: each contract would take a struct apart.

// Copies chunks of `SIZE` bytes as they stand: single bytes, or words where both sides are aligned.
fn copy_chunks<const UP: bool, const SIZE: usize>(
    mem: &mut [Word],
    log: &mut Log,
    dest: usize,
    src: usize,
    n: usize,
) -> Work
    requires { Chunks UP W SIZE (length mem.old) dest src n }
    ensures { Ran W (moving dest src) (pairs UP SIZE dest src (n / SIZE))
        (lent mem.old log.old)
        (lent mem.new log.new) result }
{
    let mut work = zero();
    for i in 0..n / SIZE {
        let dest = past::<UP>(dest, SIZE * i);
        let src = past::<UP>(src, SIZE * i);
        let dest_chunk = chunk::<UP>(dest, SIZE);
        let src_chunk = chunk::<UP>(src, SIZE);
        let turn = copy_chunk(mem, log, dest_chunk, src_chunk, SIZE);
        work = join(work, turn);
    }
    work
}

// Of two words that were loaded one after the other, the word that begins at byte `offset` of the lower one.
// Stays: 0 < offset < W is a clause, here and below: a type that kept it would be opened at each shift and each address.
fn word_across<const UP: bool>(prev_word: Word, cur_word: Word, offset: usize) -> Word
    requires { (0 < offset) × (offset < W) }
    ensures { result ≡ read_le (view W (ordered UP prev_word cur_word)) offset W }
{
    if UP {
        reassembled(prev_word, cur_word, offset)
    } else {
        reassembled(cur_word, prev_word, offset)
    }
}

// Loads the word that comes after the one at `src_aligned`, and stores the word that the two make at byte `offset`.
fn copy_next_word<const UP: bool>(
    mem: &mut [Word],
    log: &mut Log,
    dest: usize,
    src_aligned: usize,
    offset: usize,
    prev_word: Word,
) -> Counted<Word>
    requires { Across UP W (length mem.old) dest src_aligned offset (W + W) }
    ensures { Carried W (moving dest (src_aligned + offset)) (Pending UP W offset src_aligned prev_word)
        (load W (past UP src_aligned W) ∷ store W (chunk UP dest W) ∷ [])
        (Pending UP W offset (past UP src_aligned W) result.value)
        (lent mem.old log.old)
        (lent mem.new log.new) result.work }
{
    let dest = chunk::<UP>(dest, WORD_SIZE);
    let next_aligned = past::<UP>(src_aligned, WORD_SIZE);
    let next = load(mem, log, next_aligned, WORD_SIZE);
    let cur_word = next.value;
    let word = word_across::<UP>(prev_word, cur_word, offset);
    let stored = store(mem, log, dest, WORD_SIZE, word);
    let work = join(next.work, stored);
    Counted {
        value: cur_word,
        work,
    }
}

// Loads a part of the word at `src_aligned`: its end, from byte `offset` on, or its front, the bytes below it.
// Stays: which part is a parameter, since a const argument cannot be `!UP`.
#[inline(always)]
fn load_part(
    mem: &[Word],
    log: &mut Log,
    src_aligned: usize,
    offset: usize,
    end: bool,
) -> Counted<Word>
    requires { (Fit W (length mem.now) W src_aligned) × ((0 < offset) × (offset < W)) }
    ensures { PartFound end W offset src_aligned mem.now log.old log.new result.value result.work }
{
    if end {
        load_aligned_end_partial(mem, log, src_aligned, WORD_SIZE - offset)
    } else {
        load_aligned_partial(mem, log, src_aligned, offset)
    }
}

// `copy_next_word` where the word that it loads is partly out of bounds: no more of it is loaded than is stored.
#[inline(always)]
fn copy_last_word<const UP: bool>(
    mem: &mut [Word],
    log: &mut Log,
    dest: usize,
    src_aligned: usize,
    offset: usize,
    prev_word: Word,
) -> Work
    requires { Across UP W (length mem.old) dest src_aligned offset W }
    ensures { Carried W (moving dest (src_aligned + offset)) (Pending UP W offset src_aligned prev_word)
        (part (not UP) W (past UP src_aligned W) offset ++ (store W (chunk UP dest W) ∷ []))
        Anything
        (lent mem.old log.old)
        (lent mem.new log.new) result }
{
    let dest = chunk::<UP>(dest, WORD_SIZE);
    let last_aligned = past::<UP>(src_aligned, WORD_SIZE);
    let last = load_part(mem, log, last_aligned, offset, !UP);
    let cur_word = last.value;
    let word = word_across::<UP>(prev_word, cur_word, offset);
    let stored = store(mem, log, dest, WORD_SIZE, word);
    join(last.work, stored)
}

// `n` is in units of bytes, but must be a multiple of the word size and must not be 0.
// `src` must not be aligned.
#[inline(always)]
fn copy_misaligned_words<const UP: bool>(
    mem: &mut [Word],
    log: &mut Log,
    dest: usize,
    src: usize,
    n: usize,
) -> Work
    requires { (Words UP W (length mem.old) dest src n) × ((0 < n) × (0 < src % W)) }
    ensures { Ran W (moving dest src) (misaligned UP W dest src (near UP W (src % W)) (n / W - 1))
        (lent mem.old log.old)
        (lent mem.new log.new) result }
{
    // Since `src` is definitely not aligned, `offset` is in the range 1..WORD_SIZE.
    let offset = src % WORD_SIZE;
    // Realign src
    let src_aligned = src - offset;
    let first = load_part(mem, log, src_aligned, offset, UP);
    let mut prev_word = first.value;
    let mut work = first.work;
    let turns = n / WORD_SIZE - 1;
    for i in 0..turns {
        let dest = past::<UP>(dest, WORD_SIZE * i);
        let src_aligned = past::<UP>(src_aligned, WORD_SIZE * i);
        let turn = copy_next_word::<UP>(mem, log, dest, src_aligned, offset, prev_word);
        work = join(work, turn.work);
        prev_word = turn.value;
    }
    // There's one more element left to go, and we can't use the loop for that as on the `src` side,
    // it is partially out-of-bounds.
    let dest = past::<UP>(dest, WORD_SIZE * turns);
    let src_aligned = past::<UP>(src_aligned, WORD_SIZE * turns);
    let last = copy_last_word::<UP>(mem, log, dest, src_aligned, offset, prev_word);
    join(work, last)
}

// The words, aligned or not. `n` is in units of bytes, but must be a multiple of the word size and must not be 0.
// `src_misalignment` is that of `src`.
#[inline(always)]
fn copy_words<const UP: bool>(
    mem: &mut [Word],
    log: &mut Log,
    dest: usize,
    src: usize,
    n: usize,
    src_misalignment: usize,
) -> Work
    requires words { (Words UP W (length mem.old) dest src n) × (0 < n) }
    requires misalignment { src_misalignment ≡ src % W }
    ensures { Ran W (moving dest src) (whole_words UP W dest src (n / W))
        (lent mem.old log.old)
        (lent mem.new log.new) result }
{
    if src_misalignment == 0 {
        copy_chunks::<UP, WORD_SIZE>(mem, log, dest, src, n)
    } else {
        copy_misaligned_words::<UP>(mem, log, dest, src, n)
    }
}

// `dest` and `src` are the first addresses here, in both directions.
#[inline(always)]
pub fn copy<const UP: bool>(
    mem: &mut [Word],
    log: &mut Log,
    dest: usize,
    src: usize,
    n: usize,
) -> Work
    requires { (Range W (length mem.old) dest n) × (Range W (length mem.old) src n) }
    ensures { Ran W (moving dest src) (along UP W dest src n)
        (lent mem.old log.old)
        (lent mem.new log.new) result }
{
    let dest = cursor::<UP>(dest, n);
    let src = cursor::<UP>(src, n);
    if n < WORD_COPY_THRESHOLD {
        return copy_chunks::<UP, 1>(mem, log, dest, src, n);
    }
    // Align dest
    // Because of n >= 2 * WORD_SIZE, dest_misalignment < n
    let dest_misalignment = head::<UP>(dest);
    let first = copy_chunks::<UP, 1>(mem, log, dest, src, dest_misalignment);
    let dest = past::<UP>(dest, dest_misalignment);
    let src = past::<UP>(src, dest_misalignment);
    let n = n - dest_misalignment;

    let n_words = n - n % WORD_SIZE;
    let src_misalignment = src % WORD_SIZE; // past the head
    let words = copy_words::<UP>(mem, log, dest, src, n_words, src_misalignment);
    let dest = past::<UP>(dest, n_words);
    let src = past::<UP>(src, n_words);

    let tail = copy_chunks::<UP, 1>(mem, log, dest, src, n - n_words);
    let before = join(first, words);
    join(before, tail)
}
