// The accesses. Inside a call these two routines, and no others, touch the words, and each writes its access into the log that was lent, at
// its place. (tools/accesses holds the source to the first: a contract, which speaks of values alone, would not see it.)
ghost use Rattle.std.specs.Prelude.{[], ◌∷◌, length};
ghost use Rattle.model.specs.Access.{load, store};
ghost use Rattle.model.specs.Fit.{Fit};
ghost use Rattle.model.specs.Memory.{read_le, view};
ghost use Rattle.runs.specs.Ran.{lent, Found, Stored};
ghost use Rattle.words8.specs.Word.{W};

use crate::bytes::{part, with_part};
use crate::{WORD_SIZE, Word};
use model::{Counted, Log, Work};

// Loads `width` bytes, as a number.
// Stays: `mem` and `log` apart, here and in all routines: a scan is lent the words to be read alone, and a copy to be written.
pub fn load(mem: &[Word], log: &mut Log, at: usize, width: usize) -> Counted<Word>
    requires { Fit W (length mem.now) width at }
    ensures { Found (read_le (view W mem.now) at width) (load width at ∷ [])
        log.old log.new result.value result.work }
{
    let value = part(mem[at / WORD_SIZE], at % WORD_SIZE, width);
    let work = log.load_of(at, width);
    Counted { value, work }
}

// Stores the lowest `width` bytes of `value`. The word's other bytes are put back as they were: that is no load, since an access is
// what the record says, and the machine's own way to change a part of a word is not spoken of.
pub fn store(mem: &mut [Word], log: &mut Log, at: usize, width: usize, value: Word) -> Work
    requires { Fit W (length mem.old) width at }
    ensures { Stored W width at value (lent mem.old log.old)
        (lent mem.new log.new) result }
{
    mem[at / WORD_SIZE] = with_part(mem[at / WORD_SIZE], at % WORD_SIZE, width, value);
    log.store_of(at, width)
}
