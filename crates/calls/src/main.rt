// The test program: commands in, answers out, as docs/TEXT-FORM.md has them. What a line says and how it is answered is the crate
// `lines`; here lines are cut out of the input as it streams in, and answers are gathered before they are printed.
#![tactic(auto)]

mod streams;

ghost use Rattle.std.specs.Prelude.{◌≡◌, ◌+◌, ◌≤◌, ◌<◌, ◌^◌, length, IfOk, is_err};
ghost use Rattle.calls.specs.Streams.{zeros, between, unread_bytes, index_of, Roomy, Took, Joined, Unanswered, OneTurn, Ended};

use commands::{MOST_LINE, MOST_ROOM};
use lines::{LONGEST_ANSWER, MEMORY_WORDS, answer_line};
use show::Out;
use std::fmt;
use std::io::Read;
use streams::Stream;
use words8::Word;

// Room for two of the longest answers.
const MOST_OUTPUT: usize = 2 * LONGEST_ANSWER;

// The most input that is held at once.
const MOST_INPUT: usize = 65536;

// What the program works on, from the first line to the last.
#[derive(Drop)]
struct Session {
    mem: [Word; MEMORY_WORDS],
    // For the calls with a log. A log is a part of it.
    log: [u32; MOST_ROOM],
    // What of these two is unread, and what waits to be printed, the stream says.
    // Stays: fixed arrays with their ends in `stream`: this project uses no heap, and a field such as `Out` cannot borrow another.
    input: [u8; MOST_INPUT],
    output: [u8; MOST_OUTPUT],
    stream: Stream,
}

// What ends a run before its time. No more is answered then, and nothing more is printed.
#[derive(Clone, Copy, Debug, PartialEq, Eq)]
enum Failure {
    Output,
    Input,
}

impl fmt::Display for Failure {
    fn fmt<W: fmt::Write>(&self, f: &mut fmt::Formatter<W>) -> fmt::Result {
        match self {
            Failure::Output => write!(f, "standard output cannot be written"),
            Failure::Input => write!(f, "standard input cannot be read"),
        }
    }
}

fn print(rt: &impl Print, waiting: &[u8]) -> Result<(), Failure> {
    rt.write_all(waiting).map_err(|_| Failure::Output)
}

// What waits is printed where it leaves too little room for an answer. Hands back where the next answer goes.
fn make_room(rt: &impl Print, waiting: &[u8]) -> Result<usize, Failure>
    ensures { Roomy (length waiting.now) result }
{
    if waiting.len() <= LONGEST_ANSWER {
        return Ok(waiting.len());
    }
    print(rt, waiting)?;
    Ok(0)
}

// Prints what waits, for whoever types the commands, and then reads into `room`. Hands back how many bytes came.
fn read_more(rt: &(impl Input + Print), waiting: &[u8], room: &mut [u8]) -> Result<usize, Failure>
    ensures { IfOk result (λ came. came ≤ length room.new) }
{
    print(rt, waiting)?;
    rt.reader().read(room).map_err(|_| Failure::Input)
}

// Where the first newline stands; how many the bytes are where none does.
// Stays: no Option, as the definitions `index_of` and `newline_at` say: a line ends there in both cases, and `turn` tests once which it is.
fn newline_in(bytes: &[u8]) -> usize
    ensures place { result ≡ index_of 10 bytes.now }
    ensures within { result ≤ length bytes.now }
{
    bytes
        .iter()
        .position(|byte| *byte == b'\n')
        .unwrap_or(bytes.len())
}

impl Session {
    fn new() -> Self
        ensures memory { result.mem ≡ zeros }
        ensures number { result.stream.number ≡ 0 }
    {
        Session {
            mem: [0; MEMORY_WORDS],
            log: [0; MOST_ROOM],
            input: [0; MOST_INPUT],
            output: [0; MOST_OUTPUT],
            stream: Stream {
                start: 0,
                end: 0,
                written: 0,
                number: 0,
                skipping: false,
                more: true,
                failed: false,
            },
        }
    }

    // Stays: three methods ask that one line more can be counted. That holds only while turns are left, so no `Stream` can keep it.

    // Answers the line that ends before place `end` of the input: the next unread byte is the one at `next`, and what comes of the line
    // after it is passed over if `skipping`. Where what waited cannot be printed, the line is answered all the same, and no other is.
    fn take_line(
        &mut self,
        rt: &impl Print,
        end: usize,
        next: usize,
        skipping: bool,
    ) -> Result<(), Failure>
        requires line { (self.old.stream.start ≤ end) × (end ≤ next) × (next ≤ self.old.stream.end) }
        requires counts { self.old.stream.number + 1 < 2 ^ 64 }
        ensures took { Took (between self.old.stream.start end self.old.input) next self.old self.new result }
        ensures skipping { self.new.stream.skipping ≡ skipping }
    {
        let Session {
            mem,
            log,
            input,
            output,
            stream,
        } = self;
        // Lent to be read alone: so it is known to stay as it is.
        let input = &*input;
        let line = &input[stream.start..end];
        let number = stream.number + 1;
        let room = make_room(rt, &output[..stream.written]);
        let mut out = Out {
            bytes: output,
            end: room.unwrap_or(0),
        };
        answer_line(mem, log, line, number, &mut out);
        stream.written = out.end;
        stream.start = next;
        stream.number = number;
        stream.skipping = skipping;
        stream.failed = room.is_err();
        room.map(|_| ())
    }

    // Reads on. What is left of a line is kept in front of what comes; what waits is printed first.
    fn read_on(&mut self, rt: &(impl Input + Print)) -> Result<(), Failure>
        ensures unanswered { Unanswered self.old self.new }
        ensures joined { Joined (unread_bytes self.old) self.new }
        ensures failed { self.new.stream.failed ≡ is_err result }
    {
        let Session {
            input,
            output,
            stream,
            ..
        } = self;
        let kept = stream.end - stream.start;
        input.copy_within(stream.start..stream.end, 0);
        let got = read_more(rt, &output[..stream.written], &mut input[kept..]);
        let came = got.unwrap_or(0);
        stream.start = 0;
        stream.end = kept + came;
        stream.written = 0;
        stream.more = came > 0;
        stream.failed = got.is_err();
        got.map(|_| ())
    }

    // One turn: a line, or what comes next of the input. Without a newline, a line that is too long is answered by what there is of it, and
    // the rest of it is passed over.
    fn turn(&mut self, rt: &(impl Input + Print)) -> Result<(), Failure>
        requires { self.old.stream.number + 1 < 2 ^ 64 }
        ensures { OneTurn self.old self.new result }
    {
        let start = self.stream.start;
        let end = self.stream.end;
        let newline = start + newline_in(&self.input[start..end]);
        if self.stream.skipping {
            if newline == end {
                self.stream.start = end;
                return self.read_on(rt);
            }
            self.stream.start = newline + 1;
            self.stream.skipping = false;
            return Ok(());
        }
        if newline < end {
            return self.take_line(rt, newline, newline + 1, false);
        }
        if end - start <= MOST_LINE {
            return self.read_on(rt);
        }
        self.take_line(rt, end, end, true)
    }

    // The input has ended: a last line without a newline is answered too, unless something failed.
    fn last_line(&mut self, rt: &impl Print) -> Result<(), Failure>
        requires { self.old.stream.number + 1 < 2 ^ 64 }
        ensures { Ended self.old self.new result }
    {
        let start = self.stream.start;
        let end = self.stream.end;
        if self.stream.failed || self.stream.skipping || start == end {
            return Ok(());
        }
        self.take_line(rt, end, end, false)
    }

    // Answers all the input, from a memory that is all zero. A proved loop has to end, and nothing says that the input does. So the turns
    // are counted, up to a number that no run reaches.
    fn run(&mut self, rt: &(impl Input + Print)) -> Result<(), Failure>
        requires memory { self.old.mem ≡ zeros }
        requires number { self.old.stream.number ≡ 0 }
    {
        for _turn in 0..u64::MAX - 1 {
            if !self.stream.more {
                break;
            }
            self.turn(rt)?;
        }
        self.last_line(rt)?;
        print(rt, &self.output[..self.stream.written])
    }
}

fn main(rt: HostRuntime) {
    let mut session = Session::new();
    if let Err(failure) = session.run(&rt) {
        let _ = eprintln!(rt; "calls: {failure}");
    }
}
