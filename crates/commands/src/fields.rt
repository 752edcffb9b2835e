// The fields of a line.
ghost use Rattle.std.specs.Prelude.{◌≡◌, ◌≤◌, ℕ, Bool, length};
ghost use Rattle.texts.specs.Texts.{front};
ghost use Rattle.commands.specs.Fields.{blank, belongs, AnswersAs, after_fields, field_at, Spans};

use std::ops::Range;

// A space, a tab or a carriage return.
fn is_blank(byte: u8) -> bool
    ensures { result ≡ blank byte }
{
    matches!(byte, b' ' | b'\t' | b'\r')
}

// A byte of a field. Most are a digit or a letter, and those stand above `#`.
fn belongs(byte: u8) -> bool
    ensures { result ≡ belongs byte }
{
    byte > b'#' || byte != b'#' && !is_blank(byte)
}

// How many bytes in front pass a test.
fn count_front<F: Fn(u8) -> bool>(s: &[u8], test: F) -> usize
    requires { F.IsAlwaysCallable test }
    ensures value { (passes : ℕ → Bool) → AnswersAs (F.post test) passes → result ≡ front passes s.now }
    ensures within { result ≤ length s.now }
{
    s.iter().position(|byte| !test(*byte)).unwrap_or(s.len())
}

// Where the first field stands: it is empty where there is none.
// Stays: no Option, as the definition `field_of` says: a field that is missing is read as an empty one, and `operand_of` refuses it.
pub fn first_field(s: &[u8]) -> Range<usize>
    ensures { Spans s.now result }
{
    let start = count_front(s, is_blank);
    start..start + count_front(&s[start..], belongs)
}

// What comes after the first i fields of a line.
fn after_fields(line: &[u8], i: usize) -> &[u8]
    ensures { result.now ≡ after_fields line.now i }
{
    let mut s = line;
    for _ in 0..i {
        s = &s[first_field(s).end..];
    }
    s
}

// Field i of a line, counted from 0: empty where the line has no such field.
pub fn field_at(line: &[u8], i: usize) -> &[u8]
    ensures { result.now ≡ field_at line.now i }
{
    let s = after_fields(line, i);
    &s[first_field(s)]
}

// Field i of a line, whose length is known: it is not looked through again.
pub fn field_of(line: &[u8], i: usize, size: usize) -> &[u8]
    requires { length (field_at line.now i) ≡ size }
    ensures { result.now ≡ field_at line.now i }
{
    let s = after_fields(line, i);
    let t = &s[count_front(s, is_blank)..];
    &t[..size]
}
