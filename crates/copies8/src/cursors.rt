// The cursors of a copy. A cursor stands where impls.rs has its pointer: at the start of what is left going up, past its end going down.
ghost use Rattle.std.specs.Prelude.{◌≡◌, ◌+◌, ◌^◌, ◌<◌};
ghost use Rattle.model.specs.Lists.{cursor, chunk, past, head};
ghost use Rattle.words8.specs.Word.{W};

use words8::WORD_SIZE;

// The cursor of the `n` bytes at `a`.
pub(crate) fn cursor<const UP: bool>(a: usize, n: usize) -> usize
    requires { a + n < 2 ^ 64 }
    ensures { result ≡ cursor UP a n }
{
    if UP { a } else { a + n }
}

// Where the next `m` bytes at a cursor begin.
pub(crate) fn chunk<const UP: bool>(c: usize, m: usize) -> usize
    requires { cursor UP (chunk UP c m) m ≡ c }
    ensures { result ≡ chunk UP c m }
{
    if UP { c } else { c - m }
}

// The cursor past them.
pub(crate) fn past<const UP: bool>(c: usize, m: usize) -> usize
    requires { (cursor UP (chunk UP c m) m ≡ c) × (c + m < 2 ^ 64) }
    ensures { result ≡ past UP c m }
{
    if UP { c + m } else { c - m }
}

// How many bytes there are from a cursor of the destination to the next boundary of a word.
pub(crate) fn head<const UP: bool>(dest: usize) -> usize
    ensures { result ≡ head UP W dest }
{
    let dest_misalignment = dest % WORD_SIZE;
    if UP {
        (WORD_SIZE - dest_misalignment) % WORD_SIZE
    } else {
        dest_misalignment
    }
}
