// One line for each public call, over a word of either width, on buffers of the lengths that are given, which are the front of longer ones.
ghost use Rattle.std.specs.Prelude.{◌≡◌, ◌≤◌, length};

use aes::refusal::number;
use hex_text::words::HexWord;
use std::{fmt, io};
use word::packed::Packed;

// So many bytes x. A call, so that a goal says its result and not every byte.
fn bytes(x: u8) -> [u8; 65570] {
    [x; 65570]
}

// Words that no call makes by chance.
fn filled<W: Packed + HexWord>() -> [W; 122] {
    [W::from_number(0x01234567); 122]
}

// What a call left of a buffer that it was lent, and of what lies past it.
#[derive(Clone, Copy)]
enum Left {
    Kept,
    Written,
    Spilled,
}

impl Left {
    // The buffer was the first n of these: behind it is looked at too, so a slice of n would not do.
    fn of<T: PartialEq>(space: &[T], before: &[T], n: usize) -> Left
        requires { (n ≤ length space.now) × (n ≤ length before.now) }
    {
        if space[n..] != before[n..] {
            Left::Spilled
        } else if space[..n] == before[..n] {
            Left::Kept
        } else {
            Left::Written
        }
    }
}

impl fmt::Display for Left {
    fn fmt<W: fmt::Write>(&self, f: &mut fmt::Formatter<W>) -> fmt::Result {
        match *self {
            Left::Kept => write!(f, "kept"),
            Left::Written => write!(f, "written"),
            Left::Spilled => write!(f, "spilled"),
        }
    }
}

// So many bytes x as the key: of zeros that is told.
#[derive(Clone, Copy)]
pub struct Key {
    pub byte: u8,
    pub len: usize,
    ghost fits: { len ≤ 40 },
}

impl fmt::Display for Key {
    fn fmt<W: fmt::Write>(&self, f: &mut fmt::Formatter<W>) -> fmt::Result {
        let zero = if self.byte == 0 { "zero " } else { "" };
        write!(f, "{zero}key {}", self.len)
    }
}

// (That there is room for the words stands at three functions: a type for one number that nothing else has would say no more.)
pub fn expand<W: Packed + HexWord>(rt: &impl Print, key: Key, words: usize) -> io::Result<()>
    requires { words ≤ 121 }
{
    let secret = [key.byte; 40];
    let mut space = filled::<W>();
    let answer = aes::expand(&secret[..key.len], &mut space[..words]);
    let left = Left::of(&space, &filled::<W>(), words);
    println!(rt;
        "expand{} {key} schedule {words} -> {} {left}",
        W::BITS,
        number(answer)
    )
}

#[derive(Clone, Copy)]
pub enum Call {
    Encrypt,
    Decrypt,
}

impl fmt::Display for Call {
    fn fmt<W: fmt::Write>(&self, f: &mut fmt::Formatter<W>) -> fmt::Result {
        match *self {
            Call::Encrypt => write!(f, "encrypt"),
            Call::Decrypt => write!(f, "decrypt"),
        }
    }
}

// How many bytes are lent of blocks, and how many for what comes of them.
#[derive(Clone, Copy)]
pub struct Lent {
    pub input: usize,
    pub output: usize,
    ghost fits: { (input ≤ 65552) × (output ≤ 65568) },
}

impl fmt::Display for Lent {
    fn fmt<W: fmt::Write>(&self, f: &mut fmt::Formatter<W>) -> fmt::Result {
        write!(f, "input {} output {}", self.input, self.output)
    }
}

pub fn crypt<W: Packed + HexWord>(
    rt: &impl Print,
    call: Call,
    words: usize,
    lent: Lent,
) -> io::Result<()>
    requires { words ≤ 121 }
{
    let room = filled::<W>();
    let blocks = bytes(0x22);
    let mut space = bytes(0x5a);
    let schedule = &room[..words];
    let input = &blocks[..lent.input];
    let output = &mut space[..lent.output];
    // The call comes from a table of all of them.
    let answer = match call {
        Call::Encrypt => aes::encrypt(schedule, input, output),
        Call::Decrypt => aes::decrypt(schedule, input, output),
    };
    let left = Left::of(&space, &bytes(0x5a), lent.output);
    println!(rt;
        "{call}{} schedule {words} {lent} -> {} {left}",
        W::BITS,
        number(answer)
    )
}

pub fn check_value<W: Packed + HexWord>(
    rt: &impl Print,
    words: usize,
    output: usize,
) -> io::Result<()>
    requires { (output ≤ 65) × (words ≤ 121) }
{
    let schedule = filled::<W>();
    let mut space = bytes(0x5a);
    let answer = aes::check_value(&schedule[..words], &mut space[..output]);
    let left = Left::of(&space, &bytes(0x5a), output);
    println!(rt;
        "check_value{} schedule {words} output {output} -> {} {left}",
        W::BITS,
        number(answer)
    )
}

// A call of the door, with the number of a direction as C hands it in: two of those tried name none.
pub fn door(rt: &impl Print, direction: u32, key: Key, lent: Lent) -> io::Result<()> {
    let secret = [key.byte; 40];
    let blocks = bytes(0x22);
    let mut space = bytes(0x5a);
    let number = host::locker_aes(
        direction,
        &secret[..key.len],
        &blocks[..lent.input],
        &mut space[..lent.output],
    );
    let left = Left::of(&space, &bytes(0x5a), lent.output);
    println!(rt; "locker_aes direction {direction} {key} {lent} -> {number} {left}")
}
