// A batch through the public calls, or below them where the key is zeros, over a word of either width.
use crate::Call;
use aes::refusal::Refusal;
use below::{blank, expands, words_for};
use word::packed::Packed;

pub fn crypt<W: Packed>(
    key: &[u8],
    call: Call,
    input: &[u8],
    output: &mut [u8],
) -> Result<(), Refusal> {
    let mut room = blank::<W>();
    let schedule = &mut room[..words_for(key.len())];
    if !expands(key, schedule) {
        return Err(Refusal::Key); // stands for whatever expands refused
    }
    // The call comes from the record that was read.
    match call {
        Call::Encrypt => aes::encrypt(schedule, input, output),
        Call::Decrypt => aes::decrypt(schedule, input, output),
    }
}

// What the public call answers for a key.
pub fn expand<W: Packed>(key: &[u8]) -> Result<(), Refusal> {
    let mut room = blank::<W>();
    aes::expand(key, &mut room[..words_for(key.len())])
}
