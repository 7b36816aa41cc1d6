// Any number of blocks under any words as a schedule, over full batches: what is left after these is worked on in a batch of its own.
#![tactic(auto)]

ghost use Rattle.std.specs.Prelude.{◌≡◌, ◌*◌, ◌%◌, ◌≤◌, map, length};
ghost use Rattle.fips197.specs.Aes.{cipher};
ghost use Rattle.lanes.specs.Layout.{slots};
ghost use Rattle.lanes.specs.Schedule.{reading, crypted};

use cipher::crypt_batches;
use cipher::direction::{Crypt, Encrypt};
use cipher::schedule::Schedule;
use word::copy16;
use word::packed::Packed;

// Eight bytes by one store.
fn copy8(from: &[u8], part: &mut [u8])
    requires { (length from.now ≡ 8) × (length part.old ≡ 8) }
    ensures { part.new ≡ from.now }
{
    *part.as_mut_array::<8>().unwrap() = *from.as_array::<8>().unwrap();
}

// A block by its halves: of a loop that copies each block by one store clang makes a call of memcpy, which the library asks nobody for.
fn copy_halves(from: &[u8], part: &mut [u8])
    requires { (length from.now ≡ 16) × (length part.old ≡ 16) }
    ensures { part.new ≡ from.now }
{
    copy8(&from[0..8], &mut part[0..8]);
    copy8(&from[8..16], &mut part[8..16]);
}

// Copies whole blocks.
fn copy_blocks(from: &[u8], to: &mut [u8])
    requires whole { length from.now % 16 ≡ 0 }
    requires room { length to.old ≡ length from.now }
    ensures { to.new ≡ from.now }
{
    for (i, block) in from.as_chunks::<16>().0.iter().enumerate() {
        let at = 16 * i;
        copy_halves(block, &mut to[at..at + 16]);
    }
}

// At most a batch, in a batch that is lent: the slots that are left hold zeros, and what becomes of these is dropped.
// (What is asked of input and output stands at each function: in one struct with both the answer would be hidden from the caller.)
fn crypt_in<C: Crypt, W: Packed>(
    schedule: &Schedule<W>,
    input: &[u8],
    output: &mut [u8],
    batch: &mut [u8],
    out: &mut [u8],
)
    requires whole { length input.now % 16 ≡ 0 }
    requires most { length input.now ≤ 16 * slots W.width }
    requires output { length output.old ≡ length input.now }
    requires batch { length batch.old ≡ 16 * slots W.width }
    requires out { length out.old ≡ 16 * slots W.width }
    ensures { output.new ≡ crypted C.crypt W.width schedule.now.rounds (map W.value schedule.now.words.now) input.now }
{
    copy_blocks(input, &mut batch[0..input.len()]);
    crypt_batches::<C, W>(schedule, batch, out);
    copy_blocks(&out[0..input.len()], output);
}

// At most a batch, in one of its own. (Of 64 bytes, of which the front is lent: an array's length cannot be W::BATCH. A call of its own, so that these lie on
// the stack of a part only: docs/DECISIONS.md, 48.)
#[inline(never)]
fn crypt_part<C: Crypt, W: Packed>(schedule: &Schedule<W>, input: &[u8], output: &mut [u8])
    requires whole { length input.now % 16 ≡ 0 }
    requires most { length input.now ≤ 16 * slots W.width }
    requires output { length output.old ≡ length input.now }
    ensures { output.new ≡ crypted C.crypt W.width schedule.now.rounds (map W.value schedule.now.words.now) input.now }
{
    let mut batch = [0u8; 64];
    let mut out = [0u8; 64];
    crypt_in::<C, W>(
        schedule,
        input,
        output,
        &mut batch[0..W::BATCH],
        &mut out[0..W::BATCH],
    );
}

// Any number of blocks: the full batches, and then the part of one that is left. (Less than one at once: docs/DECISIONS.md, 48.)
pub fn crypt<C: Crypt, W: Packed>(schedule: &Schedule<W>, input: &[u8], output: &mut [u8])
    requires whole { length input.now % 16 ≡ 0 }
    requires output { length output.old ≡ length input.now }
    ensures { output.new ≡ crypted C.crypt W.width schedule.now.rounds (map W.value schedule.now.words.now) input.now }
{
    let len = input.len();
    let batch = W::BATCH;
    if len < batch {
        crypt_part::<C, W>(schedule, input, output);
        return;
    }
    let full = batch * (len / batch);
    crypt_batches::<C, W>(schedule, &input[0..full], &mut output[0..full]);
    if full == len {
        return;
    }
    crypt_part::<C, W>(schedule, &input[full..len], &mut output[full..len]);
}

// One block under the round keys of slot 0, in a batch that is lent, without the loops of a part.
fn block_in<W: Packed>(
    schedule: &Schedule<W>,
    block: [u8; 16],
    batch: &mut [u8],
    out: &mut [u8],
) -> [u8; 16]
    requires batch { length batch.old ≡ 16 * slots W.width }
    requires out { length out.old ≡ 16 * slots W.width }
    ensures { result ≡ cipher (reading W.width schedule.now.rounds (map W.value schedule.now.words.now) 0) block }
{
    copy16(block, &mut batch[0..16]);
    crypt_batches::<Encrypt, W>(schedule, batch, out);
    *out[0..16].as_array().unwrap()
}

// One block under the round keys of slot 0, in a batch of its own, as in crypt_part.
pub fn encrypt_block<W: Packed>(schedule: &Schedule<W>, block: [u8; 16]) -> [u8; 16]
    ensures { result ≡ cipher (reading W.width schedule.now.rounds (map W.value schedule.now.words.now) 0) block }
{
    let mut batch = [0u8; 64];
    let mut out = [0u8; 64];
    block_in(
        schedule,
        block,
        &mut batch[0..W::BATCH],
        &mut out[0..W::BATCH],
    )
}
