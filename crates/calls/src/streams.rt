// What is kept from turn to turn, beside the buffers. It stands in a file of its own, since the definitions that the clauses of `main.rt`
// cite name it.
ghost use Rattle.std.specs.Prelude.{◌≤◌};
ghost use Rattle.calls.specs.Sizes.{most_output, most_input};

// Of the input, the bytes from `start` up to `end` are unread; of the output, the first `written` bytes are not printed yet.
// Stays: three flags, and no enum of states. A line may be passed over when the input ends, and `Unanswered` then keeps `skipping`.
#[derive(Drop)]
pub struct Stream {
    pub start: usize,
    pub end: usize,
    pub written: usize,
    // How many lines have been answered.
    pub number: u64,
    // The line that is being read is too long, and is answered already.
    pub skipping: bool,
    // More input may come.
    pub more: bool,
    // In the last step the output could not be written or the input not be read. That is handed back too; it stands here so that `last_line`
    // answers nothing then, whatever became of what was handed back.
    pub failed: bool,
    ghost ordered: { start ≤ end },
    ghost in_input: { end ≤ most_input },
    ghost in_output: { written ≤ most_output },
}
