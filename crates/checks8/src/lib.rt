// The refusals of documents 01 and 02 that are known from the number of words, the room of a log, addresses and length, in the order of the
// table.
#![tactic(auto)]

pub mod lengths;

ghost use Rattle.std.specs.Prelude.{◌≡◌, [], ◌∷◌, ◌+◌, ◌*◌, ◌-◌};
ghost use Rattle.model.specs.Answers.{ruling_of, number_of};
ghost use Rattle.model.specs.Lists.{copy_list, move_list, fill_list};
ghost use Rattle.model.specs.Refusals.{ruled, too_large, outside, short_log, ranges_table, copy_table, fill_table, log_table};
ghost use Rattle.words8.specs.Word.{W};

use crate::lengths::{copy_accesses, fill_accesses, move_accesses};
use model::Refusal;
use words8::WORD_SIZE;

// The most words that may be lent: 65,536 bytes of them.
const MOST_WORDS: usize = 65536 / WORD_SIZE;

// Line 2 or 3, as `why` has it: address + n > M. The length is held against what is left of the memory, so that nothing can wrap.
fn check_inside(bytes: usize, address: usize, n: usize, why: Refusal) -> Result<(), Refusal>
    ensures { ruling_of result ≡ ruled (outside (number_of why) bytes address n ∷ []) }
{
    if address > bytes {
        return Err(why);
    }
    if n > bytes - address {
        return Err(why);
    }
    Ok(())
}

// Line 1, and then the range's.
pub fn check_range(k: usize, address: usize, n: usize, why: Refusal) -> Result<(), Refusal>
    ensures { ruling_of result ≡ ruled (too_large W k ∷ outside (number_of why) (W * k) address n ∷ []) }
{
    if k > MOST_WORDS {
        return Err(Refusal::TooLarge);
    }
    check_inside(WORD_SIZE * k, address, n, why)
}

// Lines 1, 2 and 3.
pub fn check_ranges(k: usize, first: usize, second: usize, n: usize) -> Result<(), Refusal>
    ensures { ruling_of result ≡ ruled (ranges_table W k first second n) }
{
    check_range(k, first, n, Refusal::FirstOutside)?;
    check_inside(WORD_SIZE * k, second, n, Refusal::SecondOutside)
}

// Lines 1, 2, 3 and 4.
pub fn check_copy(k: usize, dest: usize, src: usize, n: usize) -> Result<(), Refusal>
    ensures { ruling_of result ≡ ruled (copy_table W k dest src n) }
{
    check_ranges(k, dest, src, n)?;
    // n > 0 and dest < src + n and src < dest + n: the ranges begin less than n apart.
    if dest.abs_diff(src) < n {
        return Err(Refusal::Overlap);
    }
    Ok(())
}

// Line 6: the log is shorter than the list.
fn check_room(room: usize, accesses: usize) -> Result<(), Refusal>
    ensures { ruling_of result ≡ ruled (short_log room accesses ∷ []) }
{
    if room < accesses {
        return Err(Refusal::ShortLog);
    }
    Ok(())
}

// The lines of a copy, a move and a fill, and line 6.
// Stays: three functions: `CopyLogPromise`, `MoveLogPromise` and `FillLogPromise` each ask a table and a list of their own.
pub fn check_copy_logged(
    k: usize,
    room: usize,
    dest: usize,
    src: usize,
    n: usize,
) -> Result<(), Refusal>
    ensures { ruling_of result ≡ ruled (log_table (copy_table W k dest src n) (copy_list W dest src n) room) }
{
    check_copy(k, dest, src, n)?;
    check_room(room, copy_accesses(dest, src, n))
}

pub fn check_move_logged(
    k: usize,
    room: usize,
    dest: usize,
    src: usize,
    n: usize,
) -> Result<(), Refusal>
    ensures { ruling_of result ≡ ruled (log_table (ranges_table W k dest src n) (move_list W dest src n) room) }
{
    check_ranges(k, dest, src, n)?;
    check_room(room, move_accesses(dest, src, n))
}

pub fn check_fill_logged(k: usize, room: usize, s: usize, n: usize) -> Result<(), Refusal>
    ensures { ruling_of result ≡ ruled (log_table (fill_table W k s n) (fill_list W s n) room) }
{
    check_range(k, s, n, Refusal::FirstOutside)?;
    check_room(room, fill_accesses(s, n))
}
