// Refusal 1 from both sides of its edge: each of the six calls refuses 8,193 lent words, and copy takes the first 8,192 of them.
// Addresses and lengths are such that no call has another reason to refuse; strlen finds a zero at once.
#![tactic(auto)]

use mem8::{bcmp, memcmp, memcpy, memmove, memset, strlen};
use show::print_answer;
use std::io;
use words8::Word;

fn main(rt: HostRuntime) -> io::Result<()> {
    let mut memory: [Word; 8193] = [0; 8193];
    print_answer(&rt, b"memcpy", memcpy(&mut memory, 0, 8, 8))?;
    print_answer(&rt, b"memmove", memmove(&mut memory, 0, 8, 8))?;
    print_answer(&rt, b"memset", memset(&mut memory, 0, 0, 8))?;
    print_answer(&rt, b"memcmp", memcmp(&memory, 0, 8, 8))?;
    print_answer(&rt, b"bcmp", bcmp(&memory, 0, 8, 8))?;
    print_answer(&rt, b"strlen", strlen(&memory, 0))?;
    print_answer(&rt, b"memcpy-8192", memcpy(&mut memory[0..8192], 0, 8, 8))
}
