// A batch packed and unpacked, and the same digits as words unpacked and packed, over a word of either width.
use hex_text::words::HexWord;
use hex_text::{Hex, words};
use std::io;
use word::packed::Packed;

// The bytes of the larger batch.
const MOST: usize = 64;

// A batch packed, and unpacked again.
fn packed<W: Packed + HexWord>(rt: &impl Print, digits: &[u8]) -> io::Result<()> {
    let mut space: [u8; MOST] = hex_text::array(digits);
    let bytes = &mut space[..W::BATCH];
    let state = word::bitslice::<W>(bytes);
    words::print(rt, &state)?;
    word::inv_bitslice(state, bytes);
    println!(rt; "{}", Hex(bytes))
}

// Eight words unpacked, and packed again.
fn unpacked<W: Packed + HexWord>(rt: &impl Print, digits: &[u8]) -> io::Result<()> {
    let mut state = [W::from_number(0); 8];
    words::read(digits, &mut state);
    let mut space = [0u8; MOST];
    let bytes = &mut space[..W::BATCH];
    word::inv_bitslice(state, bytes);
    println!(rt; "{}", Hex(bytes))?;
    words::print(rt, &word::bitslice::<W>(bytes))
}

pub fn both_ways<W: Packed + HexWord>(rt: &impl Print, digits: &[u8]) -> io::Result<()> {
    packed::<W>(rt, digits)?;
    unpacked::<W>(rt, digits)
}
