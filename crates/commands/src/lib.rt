// What a line of text says: docs/TEXT-FORM.md, as functions on slices.
#![tactic(auto)]

mod fields;

ghost use Rattle.std.specs.Prelude.{◌≡◌, ◌<◌, ◌≤◌, length, SomeIff};
ghost use Rattle.texts.specs.Texts.{number_in};
ghost use Rattle.commands.specs.Fields.{field_end};
ghost use Rattle.commands.specs.Commands.{number_field, limited_field, value_field, hex_field, operand_of, read_from, within, inside, value_at, read_by, command_of};
ghost use Rattle.commands.specs.Sizes.{most_fields, row_count};
ghost use Rattle.commands.specs.Tables.{word_table, listed, reported, row_at};

use crate::fields::{field_at, first_field};
pub use fields::field_of;
use texts::{all_digits, number_in, number_of, text_at, value_of};

// The most bytes of a line.
pub const MOST_LINE: usize = 16383;

// The bytes of the memory.
const MEMORY_BYTES: usize = 65536;

// The most numbers of a log.
pub const MOST_ROOM: usize = 40960;

// The most fields of a command, its word apart.
const MOST_FIELDS: usize = 5;

// The number of commands.
const ROWS: usize = 12;

// Why a line is bad.
#[derive(Clone, Copy, Debug, PartialEq, Eq)]
pub enum Why {
    TooLong,
    UnknownWord,
    WrongFields,
    NoNumber,
    TooManyWords,
    TooMuchRoom,
    OddDigits,
    OutsideMemory,
}

// The calls that take two ranges.
#[derive(Clone, Copy, Debug, PartialEq, Eq)]
pub enum Call {
    Copy,
    Move,
    Compare,
    Bcmp,
}

// Stays: fields by their place: `say` fills them from five numbers in their order, and `lines` hands them on in it.
#[derive(Clone, Copy, Debug, PartialEq, Eq)]
pub enum Command {
    // A line with no field.
    Nothing,
    // The call, how many words are lent, the two addresses and the length.
    Ranges(Call, usize, usize, usize, usize),
    // How many words are lent, the address, the value and the length.
    Fill(usize, usize, i32, usize),
    // How many words are lent, and the start.
    Strlen(usize, usize),
    // As `Ranges` and `Fill`, and the numbers that are lent for a log.
    CopyLog(usize, usize, usize, usize, usize),
    MoveLog(usize, usize, usize, usize, usize),
    FillLog(usize, usize, i32, usize, usize),
    // The address, and how many bytes. Their digits stand in the line.
    Put(usize, usize),
    // The address, and how many bytes.
    Get(usize, usize),
    Clear,
}

#[tactic(auto, unfolding(crate::specs::Commands::number_field))]
fn number_field(text: &[u8]) -> Result<usize, Why>
    ensures { result ≡ number_field text.now }
{
    number_of(text).ok_or(Why::NoNumber)
}

// A number of at most so many; there is a reason for more.
#[tactic(auto, using(std::proofs::lemmas::Bool::Decides::nat_tests), unfolding(crate::specs::Commands::limited_field))]
fn limited_field(text: &[u8], most: usize, many: Why) -> Result<usize, Why>
    ensures { result ≡ limited_field many most text.now }
{
    let n = number_field(text)?;
    if n > most {
        return Err(many);
    }
    Ok(n)
}

// A value is taken from the line where it is used, and stands for no number here.
// Stays: 0 for a value that is good: the numbers of the fields are one array (`read_fields`), and an Option in it would be no plainer.
#[tactic(auto, unfolding(crate::specs::Commands::value_field))]
fn value_field(text: &[u8]) -> Result<usize, Why>
    ensures { result ≡ value_field text.now }
{
    value_of(text).map(|_| 0).ok_or(Why::NoNumber)
}

#[tactic(auto, using(std::proofs::lemmas::Bool::Decides::nat_tests), unfolding(crate::specs::Commands::hex_field))]
fn hex_field(text: &[u8]) -> Result<usize, Why>
    ensures { result ≡ hex_field text.now }
{
    if text.len() % 2 == 1 {
        return Err(Why::OddDigits);
    }
    if !all_digits(text) {
        return Err(Why::NoNumber);
    }
    Ok(text.len() / 2)
}

// A field by the letter of its kind.
// Stays: a letter, as the definitions' `rows` write kinds: an enum of kinds would be made of these letters by one more match like this.
#[tactic(auto, using(std::proofs::lemmas::Bool::Decides::nat_tests), unfolding(crate::specs::Commands::operand_of))]
fn operand_of(text: &[u8], kind: u8, most: usize) -> Result<usize, Why>
    ensures { result ≡ operand_of most kind text.now }
{
    if text.is_empty() {
        return Err(Why::WrongFields);
    }
    match kind {
        b'k' => limited_field(text, most, Why::TooManyWords),
        b'r' => limited_field(text, MOST_ROOM, Why::TooMuchRoom),
        b'v' => value_field(text),
        b'h' => hex_field(text),
        _ => number_field(text),
    }
}

// Reads the fields of `s` by their kinds, from left to right, up to the first thing wrong.
#[tactic(auto, using(crate::proofs::Rows::reading_rules))]
fn read_fields(s: &[u8], kinds: &[u8], most: usize) -> Result<[usize; MOST_FIELDS], Why>
    requires { length kinds.now ≤ most_fields }
    ensures { read_from most s.now 0 (λ i. 0) kinds.now ≡ reported result }
{
    let mut numbers = [0; MOST_FIELDS];
    let mut rest = s;
    for (i, &kind) in kinds.iter().enumerate() {
        let field = first_field(rest);
        numbers[i] = operand_of(&rest[field.start..field.end], kind, most)?;
        rest = &rest[field.end..];
    }
    if first_field(rest).is_empty() {
        Ok(numbers)
    } else {
        Err(Why::WrongFields)
    }
}

// Whether bytes lie inside the memory. The count is held against what is left, so that nothing can wrap.
#[tactic(auto, using(std::proofs::lemmas::Bool::Decides::nat_tests), unfolding(crate::specs::Commands::within))]
fn is_inside(address: usize, count: usize) -> bool
    ensures { result ≡ within address count }
{
    address <= MEMORY_BYTES && count <= MEMORY_BYTES - address
}

#[tactic(auto, unfolding(crate::specs::Commands::inside, crate::specs::Commands::choose))]
fn inside_memory(address: usize, count: usize, command: Command) -> Result<Command, Why>
    ensures { result ≡ inside address count command }
{
    if is_inside(address, count) {
        Ok(command)
    } else {
        Err(Why::OutsideMemory)
    }
}

// The value of field i; 0 where it is none.
// Stays: 0, as the definition `value_at` says: the field has been read before, and is known to be a value wherever this is used.
#[tactic(auto, unfolding(crate::specs::Commands::value_at))]
fn value_at(line: &[u8], i: usize) -> i32
    ensures { result ≡ value_at line.now i }
{
    value_of(field_at(line, i)).unwrap_or(0)
}

// What a row says of the numbers of its fields.
// Stays: a row by its number, as `number_in` finds it: an enum of rows would be made of that number by one more match like this.
fn say(line: &[u8], row: usize, numbers: [usize; MOST_FIELDS]) -> Result<Command, Why>
    requires { row < row_count }
    ensures { result ≡ (row_at line.now row).says (listed numbers) }
{
    let [a, b, c, d, e] = numbers;
    match row {
        0 => Ok(Command::Ranges(Call::Copy, a, b, c, d)),
        1 => Ok(Command::Ranges(Call::Move, a, b, c, d)),
        2 => Ok(Command::Fill(a, b, value_at(line, 3), d)),
        3 => Ok(Command::Ranges(Call::Compare, a, b, c, d)),
        4 => Ok(Command::Ranges(Call::Bcmp, a, b, c, d)),
        5 => Ok(Command::Strlen(a, b)),
        6 => Ok(Command::CopyLog(a, b, c, d, e)),
        7 => Ok(Command::MoveLog(a, b, c, d, e)),
        8 => Ok(Command::FillLog(a, b, value_at(line, 3), d, e)),
        9 => inside_memory(a, b, Command::Put(a, b)),
        10 => inside_memory(a, b, Command::Get(a, b)),
        _ => Ok(Command::Clear),
    }
}

// The commands' words, in the order of docs/TEXT-FORM.md. The kinds of their fields stand in `known`, in the same order.
// Stays: a text of words, and a row by its number, as the definition `word_table` says; `words_exchanged` exchanges two words of this text.
fn row_of(word: &[u8]) -> Option<usize>
    ensures { SomeIff result (number_in row_count word_table word.now < row_count) (number_in row_count word_table word.now) }
{
    number_in(
        b"copy;move;fill;compare;bcmp;strlen;copy-log;move-log;fill-log;put;get;clear;",
        ROWS,
        word,
    )
}

// What the line of a row says. Its word ends at `end`.
// Stays: a text of kinds beside the text of words, as the definition `kind_table` says.
fn known(line: &[u8], row: usize, end: usize, most: usize) -> Result<Command, Why>
    requires { (row < row_count) × (end ≡ field_end line.now) × (end ≤ length line.now) }
    ensures { result ≡ read_by most line.now (row_at line.now row) }
{
    let kinds = text_at(
        b"knnn;knnn;knvn;knnn;knnn;kn;knnnr;knnnr;knvnr;nh;nn;;",
        row,
    );
    let numbers = read_fields(&line[end..], kinds, most)?;
    say(line, row, numbers)
}

// What a line says. Of a line that is too long, any part that is too long will do. There are `most` words to lend.
#[tactic(auto, using(crate::proofs::Tables::command_rules), unfolding(crate::specs::Commands::command_of, crate::specs::Commands::choose))]
pub fn command_of(line: &[u8], most: usize) -> Result<Command, Why>
    ensures { result ≡ command_of most line.now }
{
    if line.len() > MOST_LINE {
        return Err(Why::TooLong);
    }
    let word = first_field(line);
    if word.is_empty() {
        return Ok(Command::Nothing);
    }
    let Some(row) = row_of(&line[word.start..word.end]) else {
        return Err(Why::UnknownWord);
    };
    known(line, row, word.end, most)
}
