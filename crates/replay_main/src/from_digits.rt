// The public calls under a schedule that is read from its digits; and the schedule of a key, a key of zeros too. Over a word of either width.
use crate::Call;
use aes::refusal::Refusal;
use below::blank;
use hex_text::words;
use hex_text::words::HexWord;
use word::packed::Packed;

// The words of these digits at the front of a room; None where they are more than any schedule has.
fn read<'a, W: HexWord>(digits: &[u8], room: &'a mut [W; 120]) -> Option<&'a mut [W]> {
    let schedule = room.get_mut(..digits.len() / W::DIGITS)?;
    words::read(digits, schedule);
    Some(schedule)
}

pub fn call<W: Packed + HexWord>(
    digits: &[u8],
    call: Call,
    input: &[u8],
    output: &mut [u8],
) -> Result<(), Refusal> {
    let mut room = blank::<W>();
    let schedule = read(digits, &mut room).ok_or(Refusal::Schedule)?;
    // The call comes from the record that was read.
    match call {
        Call::Encrypt => aes::encrypt(schedule, input, output),
        Call::Decrypt => aes::decrypt(schedule, input, output),
        Call::CheckValue => aes::check_value(schedule, output),
    }
}

// Whether a key has the schedule of these digits.
pub fn expands<W: Packed + HexWord>(key: &[u8], digits: &[u8]) -> bool {
    let mut room = blank::<W>();
    let mut space = blank::<W>();
    let Some(right) = read(digits, &mut room) else {
        return false;
    };
    let Some(made) = space.get_mut(..right.len()) else {
        return false;
    };
    below::expands(key, made) && made[..] == right[..]
}
