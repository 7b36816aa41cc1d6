// Runs the published known answers of its input, a line `KEY PLAINTEXT CIPHERTEXT` for each block (tools/vectors.py made it), at both
// widths and in both directions, and prints how many of the four checks of each record passed. Where the key is zeros the schedule is made below
// the public call (crate below), which refuses that key; how many it refused is printed too.
#![tactic(auto)]

mod any_key;

ghost use Rattle.std.specs.Prelude.{◌≡◌, ◌+◌, ◌*◌, ◌^◌, ◌<◌, ◌≤◌, length};
ghost use Rattle.lanes.specs.Layout.{slots};

use aes::refusal::Refusal;
use hex_text::Bytes;
use std::io;
use word::packed::Packed;

#[derive(Clone, Copy)]
pub enum Call {
    Encrypt,
    Decrypt,
}

#[derive(Drop)]
struct Record {
    key: Bytes<32>,
    plaintext: [u8; 16],
    ciphertext: [u8; 16],
}

impl Record {
    // None where the key is longer than any.
    fn parse(line: &[u8]) -> Option<Record> {
        Some(Record {
            key: Bytes::read(hex_text::field(line, 0))?,
            plaintext: hex_text::array(hex_text::field(line, 1)),
            ciphertext: hex_text::array(hex_text::field(line, 2)),
        })
    }

    // Whether one block comes out as the other, in a slot of a batch with other bytes elsewhere.
    fn passes<W: Packed>(&self, call: Call, slot: usize) -> bool
        requires { slot < slots W.width }
    {
        let (from, right) = match call {
            Call::Encrypt => (&self.plaintext, &self.ciphertext),
            Call::Decrypt => (&self.ciphertext, &self.plaintext),
        };
        let at = 16 * slot;
        let mut input = [0xa5u8; 64];
        input[at..at + 16].copy_from_slice(from);
        let mut output = [0x5au8; 64];
        let answer = any_key::crypt::<W>(
            self.key.as_slice(),
            call,
            &input[..W::BATCH],
            &mut output[..W::BATCH],
        );
        answer.is_ok() && output[at..at + 16] == right[..]
    }

    // How many of the four checks pass. The slot goes round with the record's number.
    fn passed(&self, number: usize) -> usize
        ensures { result ≤ 4 }
    {
        let checks = [
            self.passes::<u32>(Call::Encrypt, number % 2),
            self.passes::<u32>(Call::Decrypt, number % 2),
            self.passes::<u64>(Call::Encrypt, number % 4),
            self.passes::<u64>(Call::Decrypt, number % 4),
        ];
        checks.iter().filter(|passes| **passes).count()
    }

    // Whether the public calls refuse the key as zeros, at both widths.
    fn refused(&self) -> bool {
        let key = self.key.as_slice();
        any_key::expand::<u32>(key) == Err(Refusal::ZeroKey)
            && any_key::expand::<u64>(key) == Err(Refusal::ZeroKey)
    }
}

// What the records gave so far: so many, the checks that passed, the keys refused, and the number, from 1, of the first record to fail.
#[derive(Drop)]
struct Tally {
    records: usize,
    passed: usize,
    zeros: usize,
    failing: Option<usize>,
    ghost four_each: { passed ≤ 4 * records },
    ghost one_each: { zeros ≤ records },
}

impl Tally {
    fn of(text: &[u8]) -> Tally
        requires { length text.now ≤ 131072 }
        ensures { result.records ≤ length text.now }
    {
        let mut tally = Tally {
            records: 0,
            passed: 0,
            zeros: 0,
            failing: None,
        };
        for line in text.split_inclusive(|byte| *byte == b'\n') {
            tally.count(line.strip_suffix(b"\n").unwrap_or(line));
        }
        tally
    }

    fn count(&mut self, line: &[u8])
        requires { self.old.records < 131072 }
        ensures { self.new.records ≡ self.old.records + 1 }
    {
        let (passed, refused) = match Record::parse(line) {
            Some(record) => (record.passed(self.records), record.refused()),
            None => (0, false),
        };
        self.records += 1;
        self.passed += passed;
        self.zeros += usize::from(refused);
        if passed < 4 && self.failing.is_none() {
            self.failing = Some(self.records);
        }
    }

    fn report(&self, rt: &impl Print) -> io::Result<()>
        requires { self.now.records < 2 ^ 32 }
    {
        println!(rt; "records {}", self.records)?;
        println!(rt; "checks {}", 4 * self.records)?;
        println!(rt; "passed {}", self.passed)?;
        println!(rt; "keys of zeros, refused by the public call {}", self.zeros)?;
        if let Some(record) = self.failing {
            println!(rt; "first to fail: record {record}")?;
        }
        Ok(())
    }
}

fn main(rt: HostRuntime) -> io::Result<()> {
    // Room on the stack, of which the front is read: a program has no heap.
    let mut space = [0u8; 131072];
    let n = hex_text::read_full(&mut rt.stdin(), &mut space)?;
    Tally::of(&space[..n]).report(&rt)
}
