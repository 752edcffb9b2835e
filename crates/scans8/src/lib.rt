// `compare_bytes` and `c_string_length` of impls.rs, which only load, as the routines of `copies8` are.
#![tactic(auto)]

ghost use Rattle.std.specs.Prelude.{◌≡◌, ◌%◌, ◌<◌, pos, ◌-ℤ◌, length};
ghost use Rattle.model.specs.Fit.{Range};
ghost use Rattle.model.specs.Lists.{compare_list, string_list};
ghost use Rattle.model.specs.Meaning.{memcmp, difference};
ghost use Rattle.model.specs.Memory.{view};
ghost use Rattle.model.specs.Refusals.{to_end, zero_at};
ghost use Rattle.runs.specs.Ran.{Found};
ghost use Rattle.words8.specs.Word.{W};
ghost use Rattle.scans8.specs.Scans.{scan_of};

use model::{Counted, Log, join, zero};
use words8::access::load;
use words8::{WORD_SIZE, Word};

// What is `c_int::from(a) - c_int::from(b)` in impls.rs: bytes are unsigned.
fn byte_difference(a: Word, b: Word) -> i32
    requires { (a < 256) × (b < 256) }
    ensures { result ≡ pos a -ℤ pos b }
{
    a as u8 as i32 - b as u8 as i32
}

pub fn compare_bytes(mem: &[Word], log: &mut Log, s1: usize, s2: usize, n: usize) -> Counted<i32>
    requires { (Range W (length mem.now) s1 n) × (Range W (length mem.now) s2 n) }
    ensures { Found
        (memcmp s1 s2 n (view W mem.now))
        (compare_list s1 s2 n (difference s1 s2 n (view W mem.now)))
        log.old log.new result.value result.work }
{
    let mut work = zero();
    for i in 0..n {
        let first = load(mem, log, s1 + i, 1);
        let second = load(mem, log, s2 + i, 1);
        let pair = join(first.work, second.work);
        work = join(work, pair);
        let a = first.value;
        let b = second.value;
        if a != b {
            let value = byte_difference(a, b);
            return Counted { value, work };
        }
    }
    Counted { value: 0, work }
}

// Scans from byte `s` of these words on, to their end: how many bytes come before the first zero, if there is one.
fn string_scan(words: &[Word], log: &mut Log, s: usize) -> Counted<Option<usize>>
    requires { Range W (length words.now) s (to_end W words.now s) }
    ensures { Found
        (scan_of (zero_at W words.now s) (to_end W words.now s))
        (string_list s (to_end W words.now s) (zero_at W words.now s))
        log.old log.new result.value result.work }
{
    let bytes = WORD_SIZE * words.len() - s;
    let mut work = zero();
    for n in 0..bytes {
        let next = load(words, log, s + n, 1);
        work = join(work, next.work);
        if next.value == 0 {
            let value = Some(n);
            return Counted { value, work };
        }
    }
    Counted { value: None, work }
}

// The scan is handed the words from the one that holds the start, and its addresses count from there (`string_raised`).
pub fn c_string_length(mem: &[Word], log: &mut Log, s: usize) -> Counted<Option<usize>>
    requires { Range W (length mem.now) s (to_end W mem.now s) }
    ensures { Found
        (scan_of (zero_at W mem.now s) (to_end W mem.now s))
        (string_list (s % W) (to_end W mem.now s) (zero_at W mem.now s))
        log.old log.new result.value result.work }
{
    let first = s / WORD_SIZE;
    string_scan(&mem[first..], log, s % WORD_SIZE)
}
