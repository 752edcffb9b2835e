// The lent words: inside a call the only code that touches them, and what is done with the bytes of one word or two.
#![tactic(auto)]

pub mod access;
pub mod bytes;
pub mod chunk;
pub mod partial;

pub type Word = u64;

pub const WORD_SIZE: usize = 8;

// If the number of bytes reaches this threshold, whole words are copied. It is the larger of two words and 16.
// * We need at least two words of bytes to guarantee that at least one word is copied as a word.
// * On words of 4 bytes, so many more are needed to outweigh the checks.
pub const WORD_COPY_THRESHOLD: usize = 16;

// The directions of a copy: upward from the first addresses, or downward from the ends.
pub const FORWARD: bool = true;

pub const BACKWARD: bool = false;
