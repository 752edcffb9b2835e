// Texts and numbers, written behind what stands in the buffer.
ghost use Rattle.std.specs.Prelude.{◌≡◌, ◌++◌, ◌+◌, ◌<◌, length};
ghost use Rattle.io.specs.Digits.{hex_digit_ascii};
ghost use Rattle.show.specs.Written.{Room, Wrote};
ghost use Rattle.show.specs.Numbers.{decimal, hex_byte};

use crate::Out;

// Stays: not by std's `write!`: its `fmt::Write` may answer an Err, and says nothing of the buffer then, while `Wrote` always holds.
#[tactic(auto, using(crate::proofs::TextLengths::rooms))]
impl Out<'_> {
    // The text as it stands.
    pub fn write_text(&mut self, text: &[u8])
        requires { Room (length text.now) self.old }
        ensures { Wrote text.now self.old self.new }
    {
        let end = self.end + text.len();
        self.bytes[self.end..end].copy_from_slice(text);
        self.end = end;
    }

    // A number's digits.
    pub fn write_decimal(&mut self, n: u64)
        requires { Room (length (decimal n)) self.old }
        ensures { Wrote (decimal n) self.old self.new }
    {
        let mut digits = [0; 20];
        let k = io::decimal(n, &mut digits);
        self.write_text(&digits[..k]);
    }

    // A word, and a number behind it.
    pub(crate) fn write_worded(&mut self, word: &[u8], number: u64)
        requires { Room (length (word.now ++ decimal number)) self.old }
        ensures { Wrote (word.now ++ decimal number) self.old self.new }
    {
        self.write_text(word);
        self.write_decimal(number);
    }

    // A byte as two hexadecimal digits.
    pub fn write_byte(&mut self, byte: u8)
        requires { Room 2 self.old }
        ensures { Wrote (hex_byte byte) self.old self.new }
    {
        self.write_text(&[hex_digit(byte / 16), hex_digit(byte % 16)]);
    }
}

fn hex_digit(digit: u8) -> u8
    requires { digit < 16 }
    ensures { result ≡ hex_digit_ascii digit }
{
    char::from_digit(u32::from(digit), 16).unwrap() as u8
}
