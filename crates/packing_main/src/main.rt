// Packs and unpacks what each line of its input gives, a name and the digits of a batch: 64 for two blocks, 128 for four.
// It prints the line; the words that packing gives, and the bytes that unpacking gives of those; then, of the same digits as eight
// words, the bytes that unpacking gives, and the words that packing gives of those. tools/packing_expected.py says what is right.
#![tactic(auto)]

mod both_ways;

use both_ways::both_ways;
use std::io;

// A line with what ends it, where anything does.
fn one(rt: &impl Print, text: &[u8]) -> io::Result<()> {
    rt.write_all(text)?;
    let line = match text.strip_suffix(b"\n") {
        Some(line) => line,
        None => {
            rt.write_all(b"\n")?;
            text
        }
    };
    let digits = hex_text::field(line, 1);
    // The number of digits is all that the file says of the width.
    match digits.len() {
        64 => both_ways::<u32>(rt, digits),
        128 => both_ways::<u64>(rt, digits),
        _ => rt.write_all(b"neither 64 digits nor 128\n"),
    }
}

fn all(rt: &impl Print, text: &[u8]) -> io::Result<()> {
    for line in text.split_inclusive(|byte| *byte == b'\n') {
        one(rt, line)?;
    }
    Ok(())
}

fn main(rt: HostRuntime) -> io::Result<()> {
    // Room on the stack, of which the front is read: a program has no heap.
    let mut space = [0u8; 4096];
    let n = hex_text::read_full(&mut rt.stdin(), &mut space)?;
    all(&rt, &space[..n])
}
