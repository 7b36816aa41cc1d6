// What the programs share: their input; the fields of a line and their hex digits; and printing. No contract says more than its callers need.
#![tactic(auto)]

pub mod words;

ghost use Rattle.std.specs.Prelude.{◌≡◌, ◌<◌, ◌≤◌, ◌/◌, ◌↔◌, length, IfOk, IfSome, IsSome};

use std::io::Read;
use std::{fmt, io};

// Reads until the space is full or the input ends, and says how many bytes came. std's `read_exact` refuses a shorter input, and `read_to_end` needs the heap.
pub fn read_full<R: Read>(input: &mut R, space: &mut [u8]) -> io::Result<usize>
    ensures { IfOk result (λ n. n ≤ length space.new) }
{
    let mut done = 0;
    while done < space.len() {
        let n = input.read(&mut space[done..])?;
        if n == 0 {
            break;
        }
        done += n;
    }
    Ok(done)
}

// Field number k of a line, from 0, between single spaces; empty where the line has fewer, as a field of no digits is read.
pub fn field(line: &[u8], k: usize) -> &[u8] {
    line.split(|byte| *byte == b' ').nth(k).unwrap_or(b"")
}

// The value of a digit. `char::to_digit` takes upper case too.
fn digit(byte: u8) -> Option<u8>
    ensures { IfSome result (λ d. d < 16) }
{
    match byte {
        b'0'..=b'9' => Some(byte - b'0'),
        b'a'..=b'f' => Some(byte - b'a' + 10),
        _ => None,
    }
}

// The number that digits spell, up to sixteen of them; what is no digit counts as 0. (`from_str_radix` takes a sign and upper case, and refuses all for one.)
pub fn number(digits: &[u8]) -> u64 {
    digits.iter().fold(
        0,
        |value, byte| (value << 4) | u64::from(digit(*byte).unwrap_or(0)),
    )
}

// The byte that the first two digits spell; what is none, or is not there, counts as 0.
fn byte(digits: &[u8]) -> u8 {
    let nibble = |k: usize| digits.get(k).and_then(|byte| digit(*byte)).unwrap_or(0);
    (nibble(0) << 4) | nibble(1)
}

// Bytes from their digits, two each; bytes stay as they were where the digits end.
fn read(digits: &[u8], bytes: &mut [u8]) {
    for (to, pair) in bytes.iter_mut().zip(digits.chunks(2)) {
        *to = byte(pair);
    }
}

// N bytes from their digits; zeros where these end before.
pub fn array<const N: usize>(digits: &[u8]) -> [u8; N] {
    let mut bytes = [0; N];
    read(digits, &mut bytes);
    bytes
}

// As many bytes as digits have pairs, N at most. (Room and a length: a Vec asks for the heap, which the programs do not.)
#[derive(Drop)]
pub struct Bytes<const N: usize> {
    space: [u8; N],
    len: usize,
    ghost fits: { len ≤ N },
}

impl<const N: usize> Bytes<N> {
    // None where there are more.
    pub fn read(digits: &[u8]) -> Option<Bytes<N>>
        ensures { IsSome result ↔ (length digits.now / 2 ≤ N) }
    {
        let len = digits.len() / 2;
        if len > N {
            return None;
        }
        let mut space = [0; N];
        read(digits, &mut space[..len]);
        Some(Bytes { space, len })
    }

    pub fn as_slice(&self) -> &[u8]
        ensures { length result.now ≤ N }
    {
        &self.space[..self.len]
    }
}

// Bytes that are printed as their digits, two each.
#[derive(Clone, Copy)]
pub struct Hex<'a>(pub &'a [u8]);

impl fmt::Display for Hex<'_> {
    fn fmt<W: fmt::Write>(&self, f: &mut fmt::Formatter<W>) -> fmt::Result {
        for byte in self.0 {
            write!(f, "{byte:02x}")?;
        }
        Ok(())
    }
}
