// How an answer is written as text: into a buffer that is lent, behind what stands there.
#![tactic(auto)]

mod write;

ghost use Rattle.std.specs.Prelude.{◌≡◌, ◌++◌, ◌+◌, ◌*◌, ◌^◌, ◌<◌, ◌≤◌, length};
ghost use Rattle.model.specs.Answers.{answered, said_of, a_number};
ghost use Rattle.show.specs.Written.{Room, Wrote};
ghost use Rattle.show.specs.AnswerText.{four_counts, said_text, reply_text, answer_text};
ghost use Rattle.show.specs.LoggedText.{sum_of, written, list_text, logged_text};
ghost use Rattle.show.specs.Sizes.{most_outcome, most_counts, most_reply, most_answer, most_spaced, most_logged};

use model::{Answer, Outcome};
use std::io;

// A buffer that is lent, and where what is written there ends: what comes next stands from there on.
// Stays: how much room is asked is each function's own (`Room`); and no twin of `Log`, which drops what finds no room.
#[derive(Drop)]
pub struct Out<'a> {
    pub bytes: &'a mut [u8],
    pub end: usize,
}

// The longest answer, with its newline.
const MOST_ANSWER: usize = 210;

#[tactic(auto, using(crate::proofs::TextLengths::rooms))]
impl Out<'_> {
    fn write_number(&mut self, number: i32)
        requires { Room most_outcome self.old }
        ensures { Wrote (said_text (a_number number)) self.old self.new }
    {
        let distance = number.unsigned_abs() as u64;
        if number < 0 {
            self.write_worded(b"number -", distance);
        } else {
            self.write_worded(b"number ", distance);
        }
    }

    #[tactic(auto, using(crate::proofs::TextLengths::rooms), unfolding(crate::specs::AnswerText::said_text))]
    fn write_outcome(&mut self, outcome: Outcome)
        requires { Room most_outcome self.old }
        ensures { Wrote (said_text (said_of outcome)) self.old self.new }
    {
        match outcome {
            Outcome::Address(address) => self.write_worded(b"address ", address as u64),
            Outcome::Number(number) => self.write_number(number),
            Outcome::Length(length) => self.write_worded(b"length ", length as u64),
            Outcome::Refused(why) => self.write_worded(b"refusal ", u64::from(why)),
        }
    }

    // A word, and the counts of 1, 2, 4 and 8 bytes.
    fn write_counts(&mut self, word: &[u8], counts: &[u64])
        requires { (Room (length word.now + most_counts) self.old) × (length counts.now ≡ 4) }
        ensures { Wrote (word.now ++ four_counts counts.now 0) self.old self.new }
    {
        self.write_worded(word, counts[0]);
        for count in &counts[1..] {
            self.write_worded(b"/", *count);
        }
    }

    // The outcome, and what was counted: four counts of loads, and then four of stores.
    fn write_reply(&mut self, answer: Answer)
        requires { Room most_reply self.old }
        ensures { Wrote (reply_text (answered answer)) self.old self.new }
    {
        let numbers = answer.counts.numbers;
        self.write_outcome(answer.outcome);
        self.write_counts(b" loads ", &numbers[..4]);
        self.write_counts(b" stores ", &numbers[4..]);
    }

    // The answer, and the end of the line.
    pub fn write_answer(&mut self, answer: Answer)
        requires { Room most_answer self.old }
        ensures { Wrote (answer_text (answered answer)) self.old self.new }
    {
        self.write_reply(answer);
        self.write_text(b"\n");
    }

    // Numbers, each after a space.
    fn write_log(&mut self, log: &[u32])
        requires { Room (length log.now * most_spaced) self.old }
        ensures { Wrote (list_text log.now) self.old self.new }
    {
        for number in log {
            self.write_worded(b" ", *number as u64);
        }
    }

    // The answer of a logged call: the plain one, and the numbers that it wrote into its log, one for each access.
    pub fn write_logged(&mut self, answer: Answer, log: &[u32])
        requires { (written (answered answer) ≤ length log.now) × (Room (most_logged (length log.now)) self.old) }
        ensures { Wrote (logged_text (answered answer) log.now) self.old self.new }
    {
        let count = sum(answer.counts.numbers) as usize;
        self.write_reply(answer);
        self.write_text(b" log");
        self.write_log(&log[..count]);
        self.write_text(b"\n");
    }
}

// How many accesses were counted.
fn sum(numbers: [u64; 8]) -> u64
    requires { sum_of numbers 8 < 2 ^ 64 }
    ensures { result ≡ sum_of numbers 8 }
{
    numbers.iter().sum()
}

// The name of a call, and its answer: a line for each call.
pub fn print_answer(rt: &impl Print, name: &[u8], answer: Answer) -> io::Result<()> {
    // The space behind the name is the first byte, which stays as it is.
    let mut line = [b' '; 1 + MOST_ANSWER];
    let mut out = Out {
        bytes: &mut line,
        end: 1,
    };
    out.write_answer(answer);
    let end = out.end;
    rt.write_all(name)?;
    rt.write_all(&line[..end])
}
