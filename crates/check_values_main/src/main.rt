// Compares key check values with those that another implementation gave: a line of the input is `KEY VALUE` (tools/check_values.py made it). Each key
// goes through the public calls at both widths; how many values agreed is printed.
#![tactic(auto)]

ghost use Rattle.std.specs.Prelude.{◌≡◌, ◌+◌, ◌*◌, ◌^◌, ◌<◌, ◌≤◌};

use aes::refusal::Refusal;
use below::{blank, words_for};
use hex_text::Bytes;
use std::io;
use word::packed::Packed;

// A key's check value by the public calls, over a word of either width.
fn check_value<W: Packed>(key: &[u8]) -> Result<[u8; 3], Refusal> {
    let mut room = blank::<W>();
    let schedule = &mut room[..words_for(key.len())];
    aes::expand(key, schedule)?;
    let mut value = [0u8; 3];
    aes::check_value(schedule, &mut value)?;
    Ok(value)
}

#[derive(Drop)]
struct Record {
    key: Bytes<32>,
    value: [u8; 3],
}

impl Record {
    // None where the key is longer than any, or the value is not of three bytes.
    fn parse(line: &[u8]) -> Option<Record> {
        let mut fields = line.split(|byte| *byte == b' ');
        let key = fields.next()?;
        let digits = fields.next()?;
        if digits.len() != 6 {
            return None;
        }
        Some(Record {
            key: Bytes::read(key)?,
            value: hex_text::array(digits),
        })
    }

    // At how many of the two widths the key has this check value.
    fn agreed(&self) -> usize
        ensures { result ≤ 2 }
    {
        let key = self.key.as_slice();
        let values = [check_value::<u32>(key), check_value::<u64>(key)];
        values
            .iter()
            .filter(|value| **value == Ok(self.value))
            .count()
    }
}

// What the records gave so far: so many keys, the values that agreed, and the number, from 1, of the first key to differ.
#[derive(Drop)]
struct Tally {
    keys: usize,
    agreed: usize,
    failing: Option<usize>,
    ghost two_each: { agreed ≤ 2 * keys },
}

impl Tally {
    fn of(text: &[u8]) -> Tally {
        let mut tally = Tally {
            keys: 0,
            agreed: 0,
            failing: None,
        };
        for line in text.split_inclusive(|byte| *byte == b'\n') {
            tally.count(line.strip_suffix(b"\n").unwrap_or(line));
        }
        tally
    }

    fn count(&mut self, line: &[u8])
        requires { self.old.keys + 1 < 2 ^ 63 }
        ensures { self.new.keys ≡ self.old.keys + 1 }
    {
        let agreed = Record::parse(line).map_or(0, |record| record.agreed());
        self.keys += 1;
        self.agreed += agreed;
        if agreed < 2 && self.failing.is_none() {
            self.failing = Some(self.keys);
        }
    }

    fn report(&self, rt: &impl Print) -> io::Result<()> {
        println!(rt; "keys {}", self.keys)?;
        println!(rt; "values that agreed, two of a key {}", self.agreed)?;
        if let Some(key) = self.failing {
            println!(rt; "first to differ: key {key}")?;
        }
        Ok(())
    }
}

fn main(rt: HostRuntime) -> io::Result<()> {
    // Room on the stack, of which the front is read: a program has no heap.
    let mut space = [0u8; 65536];
    let n = hex_text::read_full(&mut rt.stdin(), &mut space)?;
    Tally::of(&space[..n]).report(&rt)
}
