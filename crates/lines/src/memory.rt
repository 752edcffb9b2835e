// The memory of the test program as text: bytes set and shown. These are no calls: what they touch is counted nowhere.
ghost use Rattle.std.specs.Prelude.{◌≡◌, true, ◌+◌, ◌*◌, ◌/◌, ◌<◌, ◌≤◌, length, replicate};
ghost use Rattle.model.specs.Fit.{Fit, Range};
ghost use Rattle.model.specs.Memory.{view, read_le};
ghost use Rattle.show.specs.Written.{Room, Wrote};
ghost use Rattle.texts.specs.Digits.{digit_of, all_digits};
ghost use Rattle.words8.specs.Word.{W};
ghost use Rattle.lines.specs.Bytes.{hex_text, hex_number, hex_at, Laid, Put, PutNext};

use model::Log;
use show::Out;
use texts::digit_value;
use words8::access::{load, store};
use words8::{WORD_SIZE, Word};

// A byte. No call loads it, so it is lent a log of no places, which keeps nothing.
fn byte_at(mem: &[Word], at: usize) -> u8
    requires { Fit W (length mem.now) 1 at }
    ensures { result ≡ view W mem.now at }
{
    let mut log = Log::new(&mut []);
    load(mem, &mut log, at, 1).value as u8
}

// The bytes from an address on, as hexadecimal digits.
pub fn write_bytes(mem: &[Word], address: usize, count: usize, out: &mut Out)
    requires { (Range W (length mem.now) address count) × (Room (2 * count) out.old) }
    ensures { Wrote (hex_text (view W mem.now) address count) out.old out.new }
{
    for i in 0..count {
        out.write_byte(byte_at(mem, address + i));
    }
}

// Two hexadecimal digits, as a number.
fn two_digits(high: u8, low: u8) -> Word
    requires { (digit_of high < 16) × (digit_of low < 16) }
    ensures { result ≡ hex_number high low }
{
    16 * digit_value(high) as Word + digit_value(low) as Word
}

// The word that the next bytes of a text make, from byte i on.
fn next_word(hex: &[u8], i: usize) -> Word
    requires { (i + W ≤ length hex.now / 2) × (all_digits hex.now ≡ true) }
    ensures { result ≡ read_le (hex_at hex.now) i W }
{
    let mut word: Word = 0;
    for left in (0..WORD_SIZE).rev() {
        let at = 2 * (i + left);
        word = word * 256 + two_digits(hex[at], hex[at + 1]);
    }
    word
}

// Sets the `width` bytes from an address on. No call stores them either.
fn set(mem: &mut [Word], at: usize, width: usize, value: Word)
    requires { Fit W (length mem.old) width at }
    ensures { Laid W width at value mem.old mem.new }
{
    let mut log = Log::new(&mut []);
    store(mem, &mut log, at, width, value);
}

// Puts what comes next of a text, from byte i on: a whole word where it can be one, else a byte. Hands back how much of it is put then.
fn put_next(mem: &mut [Word], address: usize, hex: &[u8], i: usize) -> usize
    requires { (Range W (length mem.old) address (length hex.now / 2)) × (all_digits hex.now ≡ true) × (i < length hex.now / 2) }
    ensures { PutNext W hex.now address i mem.old mem.new result }
{
    let at = address + i;
    if at % WORD_SIZE == 0 && i + WORD_SIZE <= hex.len() / 2 {
        set(mem, at, WORD_SIZE, next_word(hex, i));
        return i + WORD_SIZE;
    }
    set(mem, at, 1, two_digits(hex[2 * i], hex[2 * i + 1]));
    i + 1
}

// Sets the bytes from an address on, two digits for each.
// Stays: that a text is digits is a clause: what is handed in is a field of the line as it stands, and `Fine` says so of it.
pub fn put_bytes(mem: &mut [Word], address: usize, hex: &[u8])
    requires { (Range W (length mem.old) address (length hex.now / 2)) × (all_digits hex.now ≡ true) }
    ensures { Put W hex.now address (length hex.now / 2) mem.old mem.new }
{
    // Stays: a turn puts 8 bytes or 1 and goes on by as many, which no range does.
    let mut i = 0;
    while i < hex.len() / 2 {
        i = put_next(mem, address, hex, i);
    }
}

pub fn clear(mem: &mut [Word])
    ensures { mem.new ≡ replicate (length mem.old) 0 }
{
    mem.fill(0);
}
