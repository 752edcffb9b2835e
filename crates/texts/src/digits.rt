// Digits.
ghost use Rattle.std.specs.Prelude.{◌≡◌, ◌<◌, SomeIff};
ghost use Rattle.texts.specs.Digits.{digit_of, all_digits};

// The value of a digit.
// Stays: std's `to_digit` is of a char and gives a u32: with two conversions it is no plainer, and `digit_a_is_eleven` is an arm of this.
#[tactic(auto, using(std::proofs::lemmas::Bool::Decides::nat_tests), unfolding(crate::specs::Digits::digit_of))]
pub fn digit(byte: u8) -> Option<u8>
    ensures { SomeIff result (digit_of byte < 16) (digit_of byte) }
{
    match byte {
        b'0'..=b'9' => Some(byte - b'0'),
        b'A'..=b'F' => Some(byte - b'A' + 10),
        b'a'..=b'f' => Some(byte - b'a' + 10),
        _ => None,
    }
}

// The value of a byte that is known to be a digit, with no test: `A` and `a` stand one past a multiple of 16, and only letters are 64 or
// above.
// Stays: std's `to_digit` is of a char and gives an Option of a u32: with two conversions and an `unwrap` it is no plainer.
#[tactic(auto, using(std::proofs::lemmas::Bool::Decides::nat_tests), unfolding(crate::specs::Digits::digit_of))]
pub fn digit_value(byte: u8) -> u8
    requires { digit_of byte < 16 }
    ensures { result ≡ digit_of byte }
{
    byte % 16 + 9 * (byte / 64)
}

// Whether every byte is a digit. No byte ends the walk: a long HEX is mostly good, and a branch at each of its digits, which are as good as
// random, takes longer.
pub fn all_digits(text: &[u8]) -> bool
    ensures { result ≡ all_digits text.now }
{
    text.iter()
        .fold(true, |all, byte| all & byte.is_ascii_hexdigit())
}
