// The six calls of mod.rs, in its order and under its names, over lent words. Each checks its input, and then does what
// mod.rs does. None asks anything of its caller. They lend a log of no places: every access is written to it, and none is kept. Their routines
// are inlined into them, since a log behind a reference is asked for its length at every access; they are inlined into no caller, since their
// loops were slower there (`bcmp` only hands on).
#![tactic(auto)]

pub mod logged;

ghost use Rattle.std.specs.Prelude.{◌≡◌, length};
ghost use Rattle.model.specs.Answers.{said_of};
ghost use Rattle.model.specs.Fit.{Range};
ghost use Rattle.model.specs.Lists.{move_list};
ghost use Rattle.model.specs.Memory.{byte_of};
ghost use Rattle.model.specs.Perform.{moving};
ghost use Rattle.model.specs.Promises.{CopyPromise, MovePromise, FillPromise, ComparePromise, BcmpPromise, StringPromise};
ghost use Rattle.runs.specs.Ran.{lent, Ran};
ghost use Rattle.words8.specs.Word.{W};
ghost use Rattle.mem8.specs.Scanned.{scan_said};

use checks8::lengths::forward;
use checks8::{check_copy, check_range, check_ranges};
use copies8::copy;
use fills8::set_bytes;
use model::{Answer, Log, Outcome, Refusal, Work};
use scans8::{c_string_length, compare_bytes};
use words8::{BACKWARD, FORWARD, Word};

// Stays: each call of mod.rs is a function of its own, under its name: its checks, its routine and its promise set it apart.
#[inline(never)]
pub fn memcpy(mem: &mut [Word], dest: usize, src: usize, n: usize) -> Answer
    ensures { CopyPromise W mem.old dest src n result mem.new }
{
    if let Err(why) = check_copy(mem.len(), dest, src, n) {
        return Answer::refused(why);
    }

    let mut log = Log::new(&mut []);
    let work = copy::<FORWARD>(mem, &mut log, dest, src, n);
    Answer::new(Outcome::Address(dest), work)
}

#[inline(always)]
fn move_bytes(mem: &mut [Word], log: &mut Log, dest: usize, src: usize, n: usize) -> Work
    requires { (Range W (length mem.old) dest n) × (Range W (length mem.old) src n) }
    ensures { Ran W (moving dest src) (move_list W dest src n)
        (lent mem.old log.old)
        (lent mem.new log.new) result }
{
    if forward(dest, src, n) {
        // We can copy forwards because either dest is far enough ahead of src, or src is ahead of dest.
        copy::<FORWARD>(mem, log, dest, src, n)
    } else {
        copy::<BACKWARD>(mem, log, dest, src, n)
    }
}

#[inline(never)]
pub fn memmove(mem: &mut [Word], dest: usize, src: usize, n: usize) -> Answer
    ensures { MovePromise W mem.old dest src n result mem.new }
{
    if let Err(why) = check_ranges(mem.len(), dest, src, n) {
        return Answer::refused(why);
    }

    let mut log = Log::new(&mut []);
    let work = move_bytes(mem, &mut log, dest, src, n);
    Answer::new(Outcome::Address(dest), work)
}

// `c as u8` of mod.rs: c mod 256, as mathematics does it, for negative numbers too.
fn fill_byte(c: i32) -> u8
    ensures { result ≡ byte_of c }
{
    (c & 255) as u8
}

#[inline(never)]
pub fn memset(mem: &mut [Word], s: usize, c: i32, n: usize) -> Answer
    ensures { FillPromise W mem.old s c n result mem.new }
{
    if let Err(why) = check_range(mem.len(), s, n, Refusal::FirstOutside) {
        return Answer::refused(why);
    }

    let mut log = Log::new(&mut []);
    let work = set_bytes(mem, &mut log, s, fill_byte(c), n);
    Answer::new(Outcome::Address(s), work)
}

#[inline(never)]
pub fn memcmp(mem: &[Word], s1: usize, s2: usize, n: usize) -> Answer
    ensures { ComparePromise W mem.now s1 s2 n result mem.now }
{
    if let Err(why) = check_ranges(mem.len(), s1, s2, n) {
        return Answer::refused(why);
    }

    let mut log = Log::new(&mut []);
    let compared = compare_bytes(mem, &mut log, s1, s2, n);
    let difference = compared.value;
    Answer::new(Outcome::Number(difference), compared.work)
}

pub fn bcmp(mem: &[Word], s1: usize, s2: usize, n: usize) -> Answer
    ensures { BcmpPromise W mem.now s1 s2 n result mem.now }
{
    memcmp(mem, s1, s2, n)
}

// What a scan found, as an outcome: refusal 5 is the only one that is found by reading.
fn scan_outcome(found: Option<usize>) -> Outcome
    ensures { said_of result ≡ scan_said found }
{
    match found {
        Some(length) => Outcome::Length(length),
        None => Outcome::Refused(Refusal::NoZero),
    }
}

#[inline(never)]
pub fn strlen(mem: &[Word], s: usize) -> Answer
    ensures { StringPromise W mem.now s result mem.now }
{
    // The start lies inside where a range of one byte does.
    if let Err(why) = check_range(mem.len(), s, 1, Refusal::FirstOutside) {
        return Answer::refused(why);
    }

    let mut log = Log::new(&mut []);
    let scanned = c_string_length(mem, &mut log, s);
    Answer::new(scan_outcome(scanned.value), scanned.work)
}
