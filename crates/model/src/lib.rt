// What both cores share: the record of accesses, the log that they are written to, and the answer of a call.
#![tactic(auto)]

ghost use Rattle.std.specs.Prelude.{◌≡◌, ℕ, ◌+◌, ◌^◌, ◌%◌, ◌<◌, set, replicate};
ghost use mathlib.Core.List.{[], ◌∷◌, zip_with};
ghost use Rattle.model.specs.Access.{load, store};
ghost use Rattle.model.specs.Log.{per_code, entered, Recorded};
ghost use Rattle.model.specs.Tally.{tally, joined, Summable, Joinable};
ghost use Rattle.model.specs.Answers.{answered, replied, refused, said_of, number_of};

// How many loads of 1, 2, 4 and 8 bytes were made, then how many stores of 1, 2, 4 and 8 bytes.
#[derive(Clone, Copy, Debug, PartialEq, Eq)]
pub struct Counts {
    pub numbers: [u64; 8],
}

// What a routine hands back of the accesses that it made: the record that `join` adds up.
#[derive(Clone, Copy, Debug, PartialEq, Eq)]
pub struct Work {
    pub counts: Counts,
}

// A value, and the record of the accesses that it took.
#[derive(Clone, Copy, Debug, PartialEq, Eq)]
pub struct Counted<T> {
    pub value: T,
    pub work: Work,
}

// No access.
pub fn zero() -> Work
    ensures { result ≡ tally [] }
{
    Work {
        counts: Counts { numbers: [0; 8] },
    }
}

// 0, 1, 2, 3 for 1, 2, 4, 8 bytes.
// Stays: document 02's table of codes (`width_code` of Log.antt), a line for each; `code_of_eight` is one of them.
pub fn width_code(width: usize) -> usize
    requires { 8 % width ≡ 0 }
    ensures { (result < 4) × (2 ^ result ≡ width) }
{
    match width {
        1 => 0,
        2 => 1,
        4 => 2,
        _ => 3,
    }
}

// What a width's code and a store add to the address, in the number of an access.
const PER_CODE: usize = 65536;

const FOR_STORE: usize = 262144;

// A one at a place of the array, which kind and width decide.
fn one_at(place: usize) -> Work
    requires { place < 8 }
    ensures { result.counts.numbers ≡ set (replicate 8 0) place 1 }
{
    let mut numbers = [0u64; 8];
    numbers[place] = 1;
    Work {
        counts: Counts { numbers },
    }
}

// The log that accesses are written to: the numbers that are lent, and the place of the next one. Routines only pass it on (tools/accesses).
#[derive(Drop)]
pub struct Log<'a> {
    pub entries: &'a mut [u32],
    pub place: usize,
}

impl<'a> Log<'a> {
    // An accepted call's numbers stand from the start on. The plain calls lend no places.
    pub fn new(entries: &'a mut [u32]) -> Log<'a>
        ensures place { result.place ≡ 0 }
        ensures entries { result.entries.now ≡ entries.old }
        ensures same_reference { result.entries.ghost_name ≡ entries.entry.ghost_name }
    {
        Log { entries, place: 0 }
    }

    // Writes a number at the place and advances the place; at the end of the log it does nothing, so that no caller needs room in one.
    // Nothing else writes a log.
    fn enter(&mut self, number: usize)
        requires { number < 2 ^ 32 }
        ensures { self.new ≡ entered number self.old }
    {
        // The plain calls lend no places. This test is the same in every turn of a loop, so that the compiler can make it once, before the loop,
        // or not at all: for that the routines are inlined into the calls, where the log is a local (`inline` in `mem8`,
        // `copies8`, `fills8` and `words8`).
        if self.entries.len() == 0 {
            return;
        }
        let at = self.place;
        if at >= self.entries.len() {
            return;
        }
        self.entries[at] = number as u32;
        self.place = at + 1;
    }

    // One load: for the routine that makes it.
    // Stays: a load and a store are two methods, for the edits `store_among_loads` and `store_entered_as_a_load` are of the second alone.
    pub fn load_of(&mut self, at: usize, width: usize) -> Work
        requires { (8 % width ≡ 0) × (at < per_code) }
        ensures { Recorded (load width at ∷ []) self.old self.new result }
    {
        let code = width_code(width);
        self.enter(at + PER_CODE * code);
        one_at(code)
    }

    // One store: for the routine that makes it.
    pub fn store_of(&mut self, at: usize, width: usize) -> Work
        requires { (8 % width ≡ 0) × (at < per_code) }
        ensures { Recorded (store width at ∷ []) self.old self.new result }
    {
        let code = width_code(width);
        self.enter(at + PER_CODE * code + FOR_STORE);
        one_at(4 + code)
    }
}

// The eight sums of two records' counts.
fn sums(a: [u64; 8], b: [u64; 8]) -> [u64; 8]
    requires { Summable a b }
    ensures { result ≡ zip_with ◌+◌ a b }
{
    let mut r = [0u64; 8];
    for i in 0..8 {
        r[i] = a[i] + b[i];
    }
    r
}

// The record of what `a` records, and then what `b` does.
pub fn join(a: Work, b: Work) -> Work
    requires { Joinable a b }
    ensures { result ≡ joined a b }
{
    let before = a.counts.numbers;
    let after = b.counts.numbers;
    let numbers = sums(before, after);
    Work {
        counts: Counts { numbers },
    }
}

// Document 01's refusals, in the order of its table; `number_of` gives the number of each.
#[derive(Clone, Copy, Debug, PartialEq, Eq)]
pub enum Refusal {
    TooLarge,
    FirstOutside,
    SecondOutside,
    Overlap,
    NoZero,
    ShortLog,
}

// Stays: document 01's table of numbers (`number_of`), a line for each; `overlap_has_the_number_of_outside` is one of them.
impl From<Refusal> for u64 {
    ghost from_gives = { λ why number. number ≡ number_of why };

    fn from(why: Refusal) -> u64 {
        match why {
            Refusal::TooLarge => 1,
            Refusal::FirstOutside => 2,
            Refusal::SecondOutside => 3,
            Refusal::Overlap => 4,
            Refusal::NoZero => 5,
            Refusal::ShortLog => 6,
        }
    }
}

// Stays: document 01 names this form, an enum of address, signed number, length and refusal; no `?` would hand a refusal on by it.
#[derive(Clone, Copy, Debug, PartialEq, Eq)]
pub enum Outcome {
    Address(usize),
    Number(i32),
    Length(usize),
    Refused(Refusal),
}

#[derive(Clone, Copy, Debug, PartialEq, Eq)]
pub struct Answer {
    pub outcome: Outcome,
    pub counts: Counts,
}

impl Answer {
    // The outcome of a call, with the counts of the work that it did.
    pub fn new(outcome: Outcome, work: Work) -> Answer
        ensures { answered result ≡ replied (said_of outcome) work }
    {
        let counts = work.counts;
        Answer { outcome, counts }
    }

    // A refusal counts nothing. (The string refusal, which counts what it read, is a `new` answer.)
    pub fn refused(why: Refusal) -> Answer
        ensures { answered result ≡ refused (number_of why) }
    {
        Answer::new(Outcome::Refused(why), zero())
    }
}
