// Texts: a text by its number in a table, and what number a text is.
#![tactic(auto)]

mod digits;
mod numbers;
mod tables;

pub use digits::{all_digits, digit_value};
pub use numbers::{number_of, value_of};
pub use tables::{number_in, text_at};
