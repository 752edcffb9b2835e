// Partial loads: fewer bytes than a word, at one end of a word, by aligned accesses that touch no other byte of it.
ghost use Rattle.std.specs.Prelude.{◌+◌, ◌*◌, ◌-◌, ◌^◌, length};
ghost use Rattle.model.specs.Lists.{front_partial, end_partial};
ghost use Rattle.model.specs.Memory.{read_le, view};
ghost use Rattle.runs.specs.Ran.{Found};
ghost use Rattle.words8.specs.Word.{W};
ghost use Rattle.words8.specs.Partials.{ChunkAsked, ChunkDone, PartOf};

use crate::access::load;
use crate::bytes::bits;
use crate::{WORD_SIZE, Word};
use model::{Counted, Log, Work, join, zero};

// A partial load under way: the bytes loaded so far, how many they are, and the record of their loads.
#[derive(Clone, Copy)]
pub struct Loading {
    pub out: Word,
    pub offset: usize,
    pub work: Work,
}

// Loads a chunk of `chunk_sz` bytes at the offset from `src` on into `out`, at the offset from its byte `dst` on, if that does not
// exceed `load_sz`: if `load_sz` has that binary digit. The address must then be a multiple of `chunk_sz`, and the offset advances.
// Stays: what it takes apart, since a struct of it would serve this one contract, which would take it apart again.
#[inline(always)]
pub fn load_chunk_aligned(
    mem: &[Word],
    log: &mut Log,
    chunk_sz: usize,
    src: usize,
    dst: usize,
    load_sz: usize,
    part: Loading,
) -> Loading
    requires { ChunkAsked mem.now chunk_sz src dst load_sz log.old part }
    ensures { ChunkDone (view W mem.now) chunk_sz src dst load_sz
        log.old log.new part result }
{
    if load_sz & chunk_sz == 0 {
        return part;
    }
    let offset = part.offset;
    let chunk = load(mem, log, src + offset, chunk_sz);
    let value = chunk.value;
    let placed = value << bits(dst + offset);
    let next = offset + chunk_sz;
    let before = part.work;
    let joined = join(before, chunk.work);
    Loading {
        out: part.out | placed,
        offset: next,
        work: joined,
    }
}

// Loads the first `load_sz` bytes of the word at `src`, fewer than a word. Acts as if the whole word was loaded, its other bytes
// being 0.
// Stays: two functions: the orders of the widths differ, which is what keeps the accesses aligned, and the values by `256 ^ (W - load_sz)`.
#[inline(always)]
pub fn load_aligned_partial(
    mem: &[Word],
    log: &mut Log,
    src: usize,
    load_sz: usize,
) -> Counted<Word>
    requires { PartOf (length mem.now) src 0 load_sz }
    ensures { Found
        (read_le (view W mem.now) src load_sz)
        (front_partial src load_sz)
        log.old log.new result.value result.work }
{
    let mut part = Loading {
        out: 0,
        offset: 0,
        work: zero(),
    };
    // We load in decreasing order, so the addresses remain sufficiently aligned for the next step.
    part = load_chunk_aligned(mem, log, 4, src, 0, load_sz, part);
    part = load_chunk_aligned(mem, log, 2, src, 0, load_sz, part);
    part = load_chunk_aligned(mem, log, 1, src, 0, load_sz, part);
    let value = part.out;
    let work = part.work;
    Counted { value, work }
}

// Loads the last `load_sz` bytes of the word at `src`, fewer than a word. Acts as if the whole word was loaded, its other bytes
// being 0: what is loaded stands at the end of the result.
#[inline(always)]
pub fn load_aligned_end_partial(
    mem: &[Word],
    log: &mut Log,
    src: usize,
    load_sz: usize,
) -> Counted<Word>
    requires { PartOf (length mem.now) src (W - load_sz) load_sz }
    ensures { Found
        (read_le (view W mem.now) (src + (W - load_sz)) load_sz * 256 ^ (W - load_sz))
        (end_partial (src + (W - load_sz)) load_sz)
        log.old log.new result.value result.work }
{
    let mut part = Loading {
        out: 0,
        offset: 0,
        work: zero(),
    };
    let dst = WORD_SIZE - load_sz;
    let src_shifted = src + dst;
    // We load in increasing order, so by the time we reach 2 bytes things are 2-aligned, and so on.
    part = load_chunk_aligned(mem, log, 1, src_shifted, dst, load_sz, part);
    part = load_chunk_aligned(mem, log, 2, src_shifted, dst, load_sz, part);
    part = load_chunk_aligned(mem, log, 4, src_shifted, dst, load_sz, part);
    let value = part.out;
    let work = part.work;
    Counted { value, work }
}
