// Words of a schedule or a state as hex digits, the same at both widths.
ghost use Rattle.std.specs.Prelude.{◌≡◌, ◌<◌, ◌≤◌, ◌*◌, ◌%◌, ◌^◌, ℕ};
ghost use Rattle.std.specs.Mem.{type_size};
ghost use Rattle.std.proofs.Math.Dec.{lit<, lit≤};

use std::io;

// A word by its digits, the first the highest.
pub trait HexWord: Copy + PartialEq {
    const DIGITS: usize;

    ghost DIGITS: { ℕ };

    // The number that it is.
    ghost value: { Self → ℕ };

    // The low digits of a number.
    fn from_number(number: u64) -> Self
        ensures { value result ≡ number % 2 ^ (4 * DIGITS) };

    fn number(self) -> u64
        ensures { result ≡ value self };

    ghost some_digits: { 0 < DIGITS };

    // It is of eight bytes at most, so that a generic function may have a room of words in a variable.
    ghost small: { type_size Self.row ≤ 8 };
}

impl HexWord for u32 {
    const DIGITS: usize = 8;

    ghost DIGITS = { 8 };

    ghost value = { λ x. x };

    fn from_number(number: u64) -> u32 {
        (number % 0x1_0000_0000) as u32
    }

    fn number(self) -> u64 {
        self as u64
    }

    ghost some_digits = { lit< tt };

    ghost small = { lit≤ tt };
}

impl HexWord for u64 {
    const DIGITS: usize = 16;

    ghost DIGITS = { 16 };

    ghost value = { λ x. x };

    fn from_number(number: u64) -> u64 {
        number
    }

    fn number(self) -> u64 {
        self
    }

    ghost some_digits = { lit< tt };

    ghost small = { lit≤ tt };
}

// Words from their digits, with nothing between; words stay as they were where the digits end.
pub fn read<W: HexWord>(digits: &[u8], words: &mut [W]) {
    for (word, text) in words.iter_mut().zip(digits.chunks_exact(W::DIGITS)) {
        *word = W::from_number(super::number(text));
    }
}

// What stands after word number i of a schedule that is printed: eight words make a line.
fn gap(i: usize) -> &'static str {
    if i % 8 == 7 { "\n" } else { " " }
}

// Prints words, eight a line.
pub fn print<W: HexWord>(rt: &impl Print, words: &[W]) -> io::Result<()> {
    for (i, word) in words.iter().enumerate() {
        print!(rt; "{:01$x}", word.number(), W::DIGITS)?;
        rt.print(gap(i))?;
    }
    Ok(())
}
