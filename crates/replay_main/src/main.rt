// Replays the Rust's answers through the public calls, and below them where a key is zeros, and prints how many records agreed.
// tests/oracle/sample.sh made its input and has the format.
#![tactic(auto)]

mod from_digits;

ghost use Rattle.std.specs.Prelude.{◌≡◌, ◌+◌, ◌^◌, ◌<◌, ◌≤◌};

use hex_text::Bytes;
use hex_text::words::HexWord;
use std::io;
use word::packed::Packed;

#[derive(Clone, Copy)]
pub enum Call {
    Encrypt,
    Decrypt,
    CheckValue,
}

// The width of a record's words.
#[derive(Clone, Copy)]
enum Width {
    W32,
    W64,
}

// A line, and the number of the field that has the schedule: before it kinds a to d have a key, and A to D none. A field is looked for where it is asked
// for, so that a record that fails early is not read to its end.
#[derive(Clone, Copy)]
struct Record<'a> {
    width: Width,
    line: &'a [u8],
    at: usize,
    ghost few: { at ≤ 2 },
}

// Whether these digits are those of the bytes. (A call of its own: a record that was refused does not come to it.)
#[inline(never)]
fn spells(digits: &[u8], bytes: &[u8]) -> bool {
    Bytes::<64>::read(digits).is_some_and(|right| right.as_slice()[..] == bytes[..])
}

impl<'a> Record<'a> {
    // None where the kind is none of these. (The kinds are letters of the file; here they become a width and whether a key stands before.)
    fn parse(line: &'a [u8]) -> Option<Record<'a>> {
        let (width, at) = match *line.first()? {
            b'a' | b'b' => (Width::W32, 2),
            b'c' | b'd' => (Width::W64, 2),
            b'A' | b'B' => (Width::W32, 1),
            b'C' | b'D' => (Width::W64, 1),
            _ => return None,
        };
        Some(Record { width, line, at })
    }

    // Whether a key has the record's schedule; None where it is longer than any.
    fn expands<W: Packed + HexWord>(&self, key: &[u8]) -> Option<bool> {
        let key = Bytes::<32>::read(key)?;
        let schedule = hex_text::field(self.line, self.at);
        Some(from_digits::expands::<W>(key.as_slice(), schedule))
    }

    // Whether a call answers 0 and writes what the record has; None where that or the input is longer than a batch, or a field is not there.
    fn gives<W: Packed + HexWord>(&self, call: Call) -> Option<bool> {
        let mut fields = self.line.split(|byte| *byte == b' ').skip(self.at);
        let schedule = fields.next()?;
        let input = Bytes::<64>::read(fields.next()?)?;
        let from = match call {
            Call::Encrypt => 0,
            Call::Decrypt => 1,
            Call::CheckValue => 2,
        };
        let right = fields.nth(from)?;
        let mut space = [0u8; 64]; // for an output of any length, of which the front is lent
        let output = space.get_mut(..right.len() / 2)?;
        let answer = from_digits::call::<W>(schedule, call, input.as_slice(), output);
        Some(answer.is_ok() && spells(right, output))
    }

    // Whether all that the record has is so.
    fn agrees_over<W: Packed + HexWord>(&self) -> Option<bool> {
        if self.at == 2 && !self.expands::<W>(hex_text::field(self.line, 1))? {
            return Some(false);
        }
        Some(
            self.gives::<W>(Call::Encrypt)?
                && self.gives::<W>(Call::Decrypt)?
                && self.gives::<W>(Call::CheckValue)?,
        )
    }

    // A width is a type from here on.
    fn agrees(&self) -> Option<bool> {
        match self.width {
            Width::W32 => self.agrees_over::<u32>(),
            Width::W64 => self.agrees_over::<u64>(),
        }
    }
}

// What the records gave so far: so many, those that agreed, and the number, from 1, of the first to differ.
#[derive(Drop)]
struct Tally {
    records: usize,
    agreed: usize,
    failing: Option<usize>,
    ghost one_each: { agreed ≤ records },
}

impl Tally {
    fn of(text: &[u8]) -> Tally {
        let mut tally = Tally {
            records: 0,
            agreed: 0,
            failing: None,
        };
        for line in text.split_inclusive(|byte| *byte == b'\n') {
            tally.count(line.strip_suffix(b"\n").unwrap_or(line));
        }
        tally
    }

    fn count(&mut self, line: &[u8])
        requires { self.old.records + 1 < 2 ^ 63 }
        ensures { self.new.records ≡ self.old.records + 1 }
    {
        self.records += 1;
        if Record::parse(line).and_then(|record| record.agrees()) == Some(true) {
            self.agreed += 1;
        } else if self.failing.is_none() {
            self.failing = Some(self.records);
        }
    }

    fn report(&self, rt: &impl Print) -> io::Result<()> {
        println!(rt; "records {}", self.records)?;
        println!(rt; "agreed {}", self.agreed)?;
        if let Some(record) = self.failing {
            println!(rt; "first to differ: record {record}")?;
        }
        Ok(())
    }
}

fn main(rt: HostRuntime) -> io::Result<()> {
    // Room on the stack, of which the front is read: a program has no heap.
    let mut space = [0u8; 65536];
    let n = hex_text::read_full(&mut rt.stdin(), &mut space)?;
    Tally::of(&space[..n]).report(&rt)
}
