// Numbers from text.
ghost use Rattle.std.specs.Prelude.{◌≡◌, ◌≤◌, IfSome};
ghost use Rattle.texts.specs.Numbers.{Base, digits_in, number_of, value_of};

use crate::digits::digit;

// The number that digits make in a base, where it is at most `most`.
// Stays: std's `from_str_radix` takes a sign before the digits, also a `+`, which `read_on` takes for no digit.
#[tactic(auto, using(crate::proofs::NumberLaws::digit_rules))]
fn digits(s: &[u8], base: usize, most: usize) -> Option<usize>
    requires { Base base most }
    ensures value { result ≡ digits_in base most s.now }
    ensures within { IfSome result (λ n. n ≤ most) }
{
    if s.is_empty() {
        return None;
    }
    let mut value = 0;
    for &byte in s {
        let next = usize::from(digit(byte)?);
        if next >= base {
            return None;
        }
        // value * base + next > most, with nothing that can wrap.
        if value > (most - next) / base {
            return None;
        }
        value = value * base + next;
    }
    Some(value)
}

// A number of 64 bits: decimal digits, or 0x and hexadecimal ones.
#[tactic(auto, using(crate::proofs::Fronts::starts_prefix), unfolding(crate::specs::Numbers::number_of))]
pub fn number_of(s: &[u8]) -> Option<usize>
    ensures { result ≡ number_of s.now }
{
    match s.strip_prefix(b"0x") {
        Some(hex) => digits(hex, 16, usize::MAX),
        None => digits(s, 10, usize::MAX),
    }
}

// A decimal number of 32 bits with a sign.
#[tactic(auto, using(std::proofs::lemmas::Int::ints, crate::proofs::Fronts::starts_prefix), unfolding(crate::specs::Numbers::value_of))]
pub fn value_of(s: &[u8]) -> Option<i32>
    ensures { result ≡ value_of s.now }
{
    match s.strip_prefix(b"-") {
        // In 64 bits, since the least i32 has no opposite in 32.
        Some(below) => digits(below, 10, 2147483648).map(|n| -(n as i64) as i32),
        None => digits(s, 10, 2147483647).map(|n| n as i32),
    }
}
