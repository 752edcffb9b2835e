// Copy, move and fill with a log: the same routines, which write the number of each access where it is made. Refusal 6 is checked last.
ghost use Rattle.model.specs.Promises.{CopyLogPromise, MoveLogPromise, FillLogPromise};
ghost use Rattle.words8.specs.Word.{W};

use crate::{fill_byte, move_bytes};
use checks8::{check_copy_logged, check_fill_logged, check_move_logged};
use copies8::copy;
use fills8::set_bytes;
use model::{Answer, Log, Outcome};
use words8::{FORWARD, Word};

// Stays: a function for each, as the plain calls are: each has its own checks, its own routine and its own promise.
#[inline(never)]
pub fn memcpy_logged(mem: &mut [Word], log: &mut [u32], dest: usize, src: usize, n: usize) -> Answer
    ensures { CopyLogPromise W mem.old log.old dest src n result
        mem.new log.new }
{
    if let Err(why) = check_copy_logged(mem.len(), log.len(), dest, src, n) {
        return Answer::refused(why);
    }
    let mut log = Log::new(log);
    let work = copy::<FORWARD>(mem, &mut log, dest, src, n);
    Answer::new(Outcome::Address(dest), work)
}

#[inline(never)]
pub fn memmove_logged(
    mem: &mut [Word],
    log: &mut [u32],
    dest: usize,
    src: usize,
    n: usize,
) -> Answer
    ensures { MoveLogPromise W mem.old log.old dest src n result
        mem.new log.new }
{
    if let Err(why) = check_move_logged(mem.len(), log.len(), dest, src, n) {
        return Answer::refused(why);
    }
    let mut log = Log::new(log);
    let work = move_bytes(mem, &mut log, dest, src, n);
    Answer::new(Outcome::Address(dest), work)
}

#[inline(never)]
pub fn memset_logged(mem: &mut [Word], log: &mut [u32], s: usize, c: i32, n: usize) -> Answer
    ensures { FillLogPromise W mem.old log.old s c n result
        mem.new log.new }
{
    if let Err(why) = check_fill_logged(mem.len(), log.len(), s, n) {
        return Answer::refused(why);
    }
    let mut log = Log::new(log);
    let work = set_bytes(mem, &mut log, s, fill_byte(c), n);
    Answer::new(Outcome::Address(s), work)
}
