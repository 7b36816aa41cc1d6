// The public calls, over words of either width: expand a key, encrypt and decrypt blocks, key check value. Block j is in slot j mod 2 at 32 bits and j mod 4 at
// 64. Each makes its own tests, in the order of docs/SCOPE.md, and has no precondition.
#![tactic(auto)]

pub mod refusal;

ghost use Rattle.std.specs.Prelude.{◌≡◌, map};
ghost use Rattle.outcome.specs.Outcome.{answers};
ghost use Rattle.calls.specs.Calls.{zero_key, whole_blocks, expand_outcome, crypt_outcome, encrypt_outcome, decrypt_outcome, check_outcome};
ghost use Rattle.aes.specs.KeySize.{size_for, rounds_for};
ghost use Rattle.aes.specs.Refusal.{number};

use cipher::direction::{Crypt, Decrypt, Encrypt};
use cipher::schedule::Schedule;
use cmac::tag_of_block;
use refusal::Refusal;
use schedule::key_schedule;
use word::packed::Packed;

// The size of a key: the number of rounds, and the words of its schedule.
#[derive(Clone, Copy, Debug, PartialEq, Eq)]
pub struct Size {
    pub rounds: usize,
    pub words: usize,
}

// What the length of a key says.
#[tactic(auto, unfolding(lanes::specs::Sizes::key_size, crate::specs::KeySize::size_for))]
pub fn key_size(bytes: usize) -> Result<Size, Refusal>
    ensures { result ≡ size_for bytes }
{
    match bytes {
        16 => Ok(Size {
            rounds: 10,
            words: 88,
        }),
        32 => Ok(Size {
            rounds: 14,
            words: 120,
        }),
        _ => Err(Refusal::Key),
    }
}

// Whether a key is all zeros. Every byte is read and there is no branch on one: the bit that is answered is the only one that the calls go by.
pub fn zero_key(key: &[u8]) -> bool
    ensures { result ≡ zero_key key.now }
{
    let mut joined = 0u8;
    for byte in key {
        joined |= *byte;
    }
    joined == 0
}

// Whether so many bytes are taken as blocks in one call: 16 to 65,536, a multiple of 16.
#[tactic(auto, using(calls::proofs::WholeBlocks::too_short, calls::proofs::WholeBlocks::too_long, calls::proofs::WholeBlocks::by_rest))]
pub fn whole_blocks(bytes: usize) -> bool
    ensures { result ≡ whole_blocks bytes }
{
    if bytes < 16 {
        return false;
    }
    if bytes > 65536 {
        return false;
    }
    bytes % 16 == 0
}

// The number of rounds of a schedule of so many words.
#[tactic(auto, unfolding(lanes::specs::Sizes::schedule_size, crate::specs::KeySize::rounds_for))]
pub fn rounds_of(words: usize) -> Result<usize, Refusal>
    ensures { result ≡ rounds_for words }
{
    match words {
        88 => Ok(10),
        120 => Ok(14),
        _ => Err(Refusal::Schedule),
    }
}

// Expands a key into its schedule.
pub fn expand<W: Packed>(key: &[u8], schedule: &mut [W]) -> Result<(), Refusal>
    ensures { answers (number result) (map W.value schedule.new) ≡ expand_outcome W.width key.now (map W.value schedule.old) }
{
    let size = key_size(key.len())?;
    if zero_key(key) {
        return Err(Refusal::ZeroKey);
    }
    if schedule.len() != size.words {
        return Err(Refusal::Schedule);
    }
    key_schedule(key, schedule);
    Ok(())
}

// Blocks in either direction. (Input and output are C's two slices.)
fn crypt<C: Crypt, W: Packed>(
    schedule: &[W],
    input: &[u8],
    output: &mut [u8],
) -> Result<(), Refusal>
    ensures { answers (number result) output.new ≡ crypt_outcome C.crypt W.width (map W.value schedule.now) input.now output.old }
{
    let rounds = rounds_of(schedule.len())?;
    if !whole_blocks(input.len()) {
        return Err(Refusal::Input);
    }
    if output.len() != input.len() {
        return Err(Refusal::Output); // blocks
    }
    let schedule = Schedule {
        words: schedule,
        rounds,
    };
    blocks::crypt::<C, W>(&schedule, input, output);
    Ok(()) // blocks
}

// Encrypts blocks.
pub fn encrypt<W: Packed>(schedule: &[W], input: &[u8], output: &mut [u8]) -> Result<(), Refusal>
    ensures { answers (number result) output.new ≡ encrypt_outcome W.width (map W.value schedule.now) input.now output.old }
{
    crypt::<Encrypt, W>(schedule, input, output)
}

// Decrypts blocks.
pub fn decrypt<W: Packed>(schedule: &[W], input: &[u8], output: &mut [u8]) -> Result<(), Refusal>
    ensures { answers (number result) output.new ≡ decrypt_outcome W.width (map W.value schedule.now) input.now output.old }
{
    crypt::<Decrypt, W>(schedule, input, output)
}

// The key check value: the first three bytes of the CMAC, in slot 0, of sixteen zero bytes.
pub fn check_value<W: Packed>(schedule: &[W], output: &mut [u8]) -> Result<(), Refusal>
    ensures { answers (number result) output.new ≡ check_outcome W.width (map W.value schedule.now) output.old }
{
    let rounds = rounds_of(schedule.len())?; // check
    if output.len() != 3 {
        return Err(Refusal::Output); // check
    }
    let schedule = Schedule {
        words: schedule,
        rounds,
    };
    let tag = tag_of_block(&schedule, [0u8; 16]);
    output.copy_from_slice(&tag[..3]);
    Ok(())
}
