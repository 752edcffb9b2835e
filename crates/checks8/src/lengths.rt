// How many accesses a copy, move or fill will make, by addresses and length alone: what refusal 6 needs before the first access. It is no
// count, and no record is made from it.
ghost use Rattle.std.specs.Prelude.{◌≡◌, true, false, ◌+◌, ◌*◌, ◌-◌, ◌/◌, ◌%◌, ◌^◌, ◌<◌, ◌≤◌, length};
ghost use Rattle.model.specs.Lists.{along, upward, copy_list, move_list, fill_list};
ghost use Rattle.lists.specs.Sizes.{ones, word_accesses};
ghost use Rattle.words8.specs.Word.{W};

use words8::{BACKWARD, FORWARD, WORD_COPY_THRESHOLD, WORD_SIZE};

// A partial load of `m` bytes: one for each of its binary digits.
// Stays: the definition's sum (`ones`), of which `single_bytes_not_foreseen` leaves a part out.
fn ones(m: usize) -> usize
    ensures { result ≡ ones m }
{
    m / 4 % 2 + m / 2 % 2 + m % 2
}

// Words from a source that stands `offset` bytes into its word.
fn word_accesses(offset: usize, words: usize) -> usize
    requires { (offset < W) × ((0 < words) × (words < 2 ^ 60)) }
    ensures { result ≡ word_accesses W offset words }
{
    if offset == 0 {
        return 2 * words;
    }
    ones(offset) + ones(WORD_SIZE - offset) + 2 * (words - 1) + 1
}

// A head of `head` bytes; then the words, where the source stands `offset` bytes into its word; then the tail.
fn phase_accesses(head: usize, offset: usize, n: usize) -> usize
    requires { (head < W) × ((offset < W) × ((W + W ≤ n) × (n < 2 ^ 60))) }
    ensures { result ≡ 2 * head + word_accesses W offset ((n - head) / W) + 2 * ((n - head) % W) }
{
    let rest = n - head;
    2 * head + word_accesses(offset, rest / WORD_SIZE) + 2 * (rest % WORD_SIZE)
}

// A copy or move in one direction.
// Stays: the bounds are of sums of two arguments, in three contracts: a type of them would be made and taken apart at each call.
pub fn along_accesses<const UP: bool>(dest: usize, src: usize, n: usize) -> usize
    requires { (dest + n < 2 ^ 60) × (src + n < 2 ^ 60) }
    ensures { result ≡ length (along UP W dest src n) }
{
    if n < WORD_COPY_THRESHOLD {
        return 2 * n;
    }
    if UP {
        let head = (WORD_SIZE - dest % WORD_SIZE) % WORD_SIZE;
        phase_accesses(head, (src + head) % WORD_SIZE, n)
    } else {
        let head = (dest + n) % WORD_SIZE;
        phase_accesses(head, (src + n - head) % WORD_SIZE, n)
    }
}

pub fn copy_accesses(dest: usize, src: usize, n: usize) -> usize
    requires { (dest + n < 2 ^ 60) × (src + n < 2 ^ 60) }
    ensures { result ≡ length (copy_list W dest src n) }
{
    along_accesses::<FORWARD>(dest, src, n)
}

// Whether a move goes forward: `delta >= n` of mod.rs, whose delta wraps where src is ahead of dest.
pub fn forward(dest: usize, src: usize, n: usize) -> bool
    ensures { result ≡ upward dest src n }
{
    if dest < src {
        return true;
    }
    if dest - src >= n {
        return true;
    }
    false
}

pub fn move_accesses(dest: usize, src: usize, n: usize) -> usize
    requires { (dest + n < 2 ^ 60) × (src + n < 2 ^ 60) }
    ensures { result ≡ length (move_list W dest src n) }
{
    if forward(dest, src, n) {
        copy_accesses(dest, src, n)
    } else {
        along_accesses::<BACKWARD>(dest, src, n)
    }
}

pub fn fill_accesses(s: usize, n: usize) -> usize
    requires { s + n < 2 ^ 60 }
    ensures { result ≡ length (fill_list W s n) }
{
    if n < WORD_COPY_THRESHOLD {
        return n;
    }
    let head = (WORD_SIZE - s % WORD_SIZE) % WORD_SIZE;
    let rest = n - head;
    head + rest / WORD_SIZE + rest % WORD_SIZE
}
