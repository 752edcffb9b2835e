// What both directions of a copy are made of: a chunk copied as it stands.
ghost use Rattle.std.specs.Prelude.{[], ◌∷◌, length};
ghost use Rattle.model.specs.Access.{load, store};
ghost use Rattle.model.specs.Fit.{Fit};
ghost use Rattle.model.specs.Perform.{moving};
ghost use Rattle.runs.specs.Ran.{lent, Ran};
ghost use Rattle.words8.specs.Word.{W};

use crate::Word;
use crate::access::{load, store};
use model::{Log, Work, join};

// Copies a chunk of `chunk_sz` bytes: what is `*dest = *src` in impls.rs, at a byte's width or at a word's.
pub fn copy_chunk(mem: &mut [Word], log: &mut Log, dest: usize, src: usize, chunk_sz: usize) -> Work
    requires { (Fit W (length mem.old) chunk_sz dest) × (Fit W (length mem.old) chunk_sz src) }
    ensures { Ran W (moving dest src) (load chunk_sz src ∷ store chunk_sz dest ∷ [])
        (lent mem.old log.old)
        (lent mem.new log.new) result }
{
    let loaded = load(mem, log, src, chunk_sz);
    let value = loaded.value;
    let stored = store(mem, log, dest, chunk_sz, value);
    join(loaded.work, stored)
}
