// The bytes of words, by shifts. No memory is touched here.
ghost use Rattle.std.specs.Prelude.{◌≡◌, [], ◌∷◌, ◌+◌, ◌*◌, ◌<◌, ◌≤◌};
ghost use Rattle.words8.specs.Word.{W};
ghost use Rattle.model.specs.Memory.{byte, read_le, view, over, laid};

use crate::{WORD_SIZE, Word};

// A shift by so many bits moves `count` bytes.
pub fn bits(count: usize) -> Word
    requires { count ≤ W }
    ensures { result ≡ 8 * count }
{
    (8 * count) as Word
}

// The `width` bytes of `word` from byte `offset` on, as a number: what is above them is shifted out first, then what is below.
pub fn part(word: Word, offset: usize, width: usize) -> Word
    requires { (offset + width ≤ W) × (0 < width) }
    ensures { result ≡ read_le (byte word) offset width }
{
    word << bits(WORD_SIZE - width - offset) >> bits(WORD_SIZE - width)
}

// `word` with its `width` bytes from byte `offset` on replaced by the lowest bytes of `value`.
pub fn with_part(word: Word, offset: usize, width: usize, value: Word) -> Word
    requires { (offset + width ≤ W) × (0 < width) }
    ensures { byte result ≡ over offset width (laid value offset) (byte word) }
{
    let place = bits(offset);
    let old = part(word, offset, width) << place;
    let new = part(value, 0, width) << place;
    word - old + new
}

// Of two neighbouring words, the word that begins at byte `offset` of the lower one, which is not its first byte.
pub fn reassembled(low: Word, high: Word, offset: usize) -> Word
    requires { (0 < offset) × (offset < W) }
    ensures { result ≡ read_le (view W (low ∷ high ∷ [])) offset W }
{
    let shift = bits(offset);
    low >> shift | high << (bits(WORD_SIZE) - shift)
}

// A word of which every byte is `c`.
pub fn broadcast(c: u8) -> Word
    ensures { result ≡ read_le (λ x. c) 0 W }
{
    let word_bits = bits(WORD_SIZE);
    let mut broadcast = c as Word;
    // Stays: the bits double from turn to turn, which no range does (`broadcast_leaves_a_gap`).
    let mut bits: Word = 8;
    while bits < word_bits {
        broadcast |= broadcast << bits;
        bits *= 2;
    }
    broadcast
}
