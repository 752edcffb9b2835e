// A line of text is answered: what it says is done to the memory, and the answer is written as a line of text.
#![tactic(auto)]

mod memory;

ghost use Rattle.std.specs.Prelude.{true, ◌≡◌, ℕ, ◌≤◌, ◌*◌, ◌+◌, ◌/◌, length, take, replicate};
ghost use Rattle.model.specs.Answers.{fill_answer, fill_words, string_answer};
ghost use Rattle.model.specs.Fit.{Range};
ghost use Rattle.model.specs.Memory.{view};
ghost use Rattle.show.specs.AnswerText.{answer_text};
ghost use Rattle.show.specs.Sizes.{most_answer, most_logged};
ghost use Rattle.show.specs.Written.{Room, Wrote};
ghost use Rattle.texts.specs.Digits.{all_digits};
ghost use Rattle.commands.specs.Commands.{command_of};
ghost use Rattle.commands.specs.Fine.{Fine};
ghost use Rattle.commands.specs.Sizes.{most_room};
ghost use Rattle.words8.specs.Word.{W};
ghost use Rattle.lines.specs.Bytes.{Put};
ghost use Rattle.lines.specs.Lines.{ranges_answer, ranges_words, put_text, get_text, clear_text, why_text, error_text, Answered};
ghost use Rattle.lines.specs.Sizes.{memory_words, most_put, most_error, longest_answer};

use crate::memory::{clear, put_bytes, write_bytes};
use commands::{Call, Command, MOST_ROOM, Why, command_of, field_of};
use mem8::logged::{memcpy_logged, memmove_logged, memset_logged};
use mem8::{bcmp, memcmp, memcpy, memmove, memset, strlen};
use show::Out;
use words8::Word;

// The words of the memory.
pub const MEMORY_WORDS: usize = 8192;

// The most bytes of an answer: what a call says, ` log` and the newline, and 11 for each number of a log, with the space before it.
pub const LONGEST_ANSWER: usize = 214 + 11 * MOST_ROOM;

fn answer_ranges(
    mem: &mut [Word],
    call: Call,
    k: usize,
    first: usize,
    second: usize,
    n: usize,
    out: &mut Out,
)
    requires { (k ≤ length mem.old) × (Room most_answer out.old) }
    ensures { (mem.new ≡ ranges_words call mem.old k first second n)
        × (Wrote (answer_text (ranges_answer call mem.old k first second n)) out.old out.new) }
{
    let lent = &mut mem[..k];
    match call {
        Call::Copy => out.write_answer(memcpy(lent, first, second, n)),
        Call::Move => out.write_answer(memmove(lent, first, second, n)),
        Call::Compare => out.write_answer(memcmp(lent, first, second, n)),
        Call::Bcmp => out.write_answer(bcmp(lent, first, second, n)),
    }
}

fn answer_put(mem: &mut [Word], address: usize, hex: &[u8], out: &mut Out)
    requires { (Range W (length mem.old) address (length hex.now / 2)) × (all_digits hex.now ≡ true) × (Room most_put out.old) }
    ensures { (Put W hex.now address (length hex.now / 2) mem.old mem.new)
        × (Wrote (put_text (length hex.now / 2)) out.old out.new) }
{
    put_bytes(mem, address, hex);
    out.write_text(b"put ");
    out.write_decimal((hex.len() / 2) as u64);
    out.write_text(b"\n");
}

fn answer_get(mem: &[Word], address: usize, count: usize, out: &mut Out)
    requires { (Range W (length mem.now) address count) × (Room (2 * count + 7) out.old) }
    ensures { Wrote (get_text (view W mem.now) address count) out.old out.new }
{
    out.write_text(b"bytes");
    if count > 0 {
        out.write_text(b" ");
        write_bytes(mem, address, count, out);
    }
    out.write_text(b"\n");
}

fn answer_clear(mem: &mut [Word], out: &mut Out)
    requires { Room (length clear_text) out.old }
    ensures { (mem.new ≡ replicate (length mem.old) 0) × (Wrote clear_text out.old out.new) }
{
    clear(mem);
    out.write_text(b"clear\n");
}

#[tactic(auto, unfolding(crate::specs::Lines::why_text, texts::specs::Texts::text_at, texts::specs::Texts::front))]
fn reason(why: Why) -> &'static [u8]
    ensures { result.now ≡ why_text why }
{
    match why {
        Why::TooLong => b"a line above 16,383 bytes",
        Why::UnknownWord => b"unknown word",
        Why::WrongFields => b"wrong number of fields",
        Why::NoNumber => b"no number or one too large",
        Why::TooManyWords => b"k above 8192",
        Why::TooMuchRoom => b"a log above 40960 numbers",
        Why::OddDigits => b"an odd number of hex digits",
        Why::OutsideMemory => b"a byte outside the memory",
    }
}

fn answer_bad(number: u64, why: Why, out: &mut Out)
    requires { Room most_error out.old }
    ensures { Wrote (error_text number why) out.old out.new }
{
    out.write_text(b"error ");
    out.write_decimal(number);
    out.write_text(b" ");
    out.write_text(reason(why));
    out.write_text(b"\n");
}

// Answers a command: what it says is done to the memory, and the answer is written. `log` is for the calls with a log: what stands in it
// before a call is not shown.
// Stays: an arm for each call with a log. One function over a closure would have to say what all three promise, and its uses be no shorter.
#[tactic(auto, using(show::proofs::Writing::wrote_none), unfolding(crate::specs::Lines::answer_of, crate::specs::Lines::LeftBy))]
fn answer_command(mem: &mut [Word], log: &mut [u32], line: &[u8], command: Command, out: &mut Out)
    requires { (length mem.old ≡ memory_words) × (Room longest_answer out.old) × (Fine memory_words line.now command)
        × (length log.old ≡ most_room) }
    ensures { (number : ℕ) → Answered mem.old number line.now (Ok command) mem.new out.old out.new }
{
    match command {
        Command::Nothing => {}
        Command::Ranges(call, k, first, second, n) => {
            answer_ranges(mem, call, k, first, second, n, out)
        }
        Command::Fill(k, dest, c, n) => out.write_answer(memset(&mut mem[..k], dest, c, n)),
        Command::Strlen(k, start) => out.write_answer(strlen(&mem[..k], start)),
        Command::CopyLog(k, dest, src, n, room) => {
            let log = &mut log[..room];
            let answer = memcpy_logged(&mut mem[..k], log, dest, src, n);
            out.write_logged(answer, log)
        }
        Command::MoveLog(k, dest, src, n, room) => {
            let log = &mut log[..room];
            let answer = memmove_logged(&mut mem[..k], log, dest, src, n);
            out.write_logged(answer, log)
        }
        Command::FillLog(k, dest, c, n, room) => {
            let log = &mut log[..room];
            let answer = memset_logged(&mut mem[..k], log, dest, c, n);
            out.write_logged(answer, log)
        }
        Command::Put(address, count) => {
            answer_put(mem, address, field_of(line, 2, 2 * count), out)
        }
        Command::Get(address, count) => answer_get(mem, address, count, out),
        Command::Clear => answer_clear(mem, out),
    }
}

// Answers line `number`.
pub fn answer_line(mem: &mut [Word], log: &mut [u32], line: &[u8], number: u64, out: &mut Out)
    requires { (length mem.old ≡ memory_words) × (Room longest_answer out.old) × (length log.old ≡ most_room) }
    ensures { Answered mem.old number line.now (command_of memory_words line.now) mem.new out.old out.new }
{
    match command_of(line, MEMORY_WORDS) {
        Ok(command) => answer_command(mem, log, line, command, out),
        Err(why) => answer_bad(number, why, out),
    }
}
