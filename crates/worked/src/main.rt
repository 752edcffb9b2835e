// Document 01's worked numbers P1 to P12, the calls that it wants run beside them, and two more: a line for each call, and the bytes that
// P3 copied.
#![tactic(auto)]

ghost use Rattle.model.specs.Fit.{Range};
ghost use Rattle.words8.specs.Word.{W};

use mem8::{bcmp, memcmp, memcpy, memmove, memset, strlen};
use model::Answer;
use show::print_answer;
use std::io;
use words8::bytes::part;
use words8::{WORD_SIZE, Word};

// The memory that each row starts from and leaves: document 01's k is 16.
type Memory = [Word; 16];

// The byte at each address is that address, so that a copied byte shows where it stood, and the only zero stands at 0.
fn fresh() -> Memory {
    // Bytes 0 to 7, lowest first, and 8 more in each byte for each word below: no byte carries into the next.
    std::array::from_fn(|i| 0x0706050403020100 + 0x0808080808080808 * i as Word)
}

// A line for one call. Hands back the memory, since the bytes of one row are shown too.
fn row<F: FnOnce(&mut Memory) -> Answer>(
    rt: &impl Print,
    name: &[u8],
    call: F,
) -> io::Result<Memory>
    requires { F.IsAlwaysCallable call }
{
    let mut memory = fresh();
    print_answer(rt, name, call(&mut memory))?;
    Ok(memory)
}

// The `n` bytes from address 0 on.
fn print_bytes(rt: &impl Print, name: &[u8], memory: Memory, n: usize) -> io::Result<()>
    requires { Range W 16 0 n }
{
    rt.write_all(name)?;
    rt.write_all(b" bytes")?;
    for at in 0..n {
        let byte = part(memory[at / WORD_SIZE], at % WORD_SIZE, 1);
        print!(rt; " {byte:02x}")?;
    }
    rt.write_all(b"\n")
}

// The least byte at address 0 and the greatest at 8.
fn put_extremes(memory: &mut Memory) {
    memset(memory, 0, 0, 1);
    memset(memory, 8, -1, 1);
}

fn worked_rows(rt: &impl Print) -> io::Result<()> {
    row(rt, b"P1", |memory| memcpy(memory, 0, 32, 15))?;
    row(rt, b"P2", |memory| memcpy(memory, 0, 32, 16))?;
    let memory = row(rt, b"P3", |memory| memcpy(memory, 0, 33, 16))?;
    print_bytes(rt, b"P3", memory, 16)?;
    row(rt, b"P4", |memory| memcpy(memory, 3, 40, 30))?;
    row(rt, b"P5", |memory| memcpy(memory, 1, 40, 30))?;
    row(rt, b"P6", |memory| memmove(memory, 8, 8, 0))?;
    row(rt, b"P7", |memory| memmove(memory, 8, 8, 16))?;
    row(rt, b"P8", |memory| memmove(memory, 9, 8, 16))?;
    row(rt, b"P9", |memory| memmove(memory, 8, 9, 16))?;
    // The byte is 0, and no count depends on it.
    row(rt, b"P10", |memory| memset(memory, 1, 0, 16))?;
    row(rt, b"P11", |memory| {
        put_extremes(memory);
        memcmp(memory, 0, 8, 1)
    })?;
    row(rt, b"P12", |memory| strlen(memory, 128))?;
    Ok(())
}

fn main(rt: HostRuntime) -> io::Result<()> {
    worked_rows(&rt)?;
    // Document 01's "also run". In the first no words are lent.
    row(&rt, b"empty", |memory| memcpy(&mut memory[0..0], 0, 0, 0))?;
    row(&rt, b"overlap", |memory| memcpy(memory, 0, 0, 1))?;
    row(&rt, b"far", |memory| memcpy(memory, usize::MAX, 0, 1))?;
    row(&rt, b"both", |memory| memcpy(memory, 128, 136, 8))?;
    row(&rt, b"zero", |memory| strlen(memory, 0))?;
    // The refusal that counts what it read, and bcmp, which is to answer as P11 does.
    row(&rt, b"no-zero", |memory| strlen(memory, 1))?;
    row(&rt, b"bcmp", |memory| {
        put_extremes(memory);
        bcmp(memory, 0, 8, 1)
    })?;
    Ok(())
}
