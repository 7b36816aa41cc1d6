// aes128.rs and aes256.rs of the Rust: full batches under any words as a schedule, once over the width, the number of rounds and the direction.
#![tactic(auto)]

pub mod direction;
pub mod schedule;

ghost use Rattle.std.specs.Prelude.{◌≡◌, ◌*◌, ◌%◌, map, length};
ghost use Rattle.lanes.specs.Layout.{slots};
ghost use Rattle.lanes.specs.Schedule.{crypted};

use direction::Crypt;
use schedule::Schedule;
use word::packed::Packed;

// Full batches, one after the other: in a loop round the round loop clang inlines the S-box (docs/SPEED.md). (An index, since std does not say what a slice
// has become behind chunks_exact_mut. Input and output are two slices: in one struct with both the answer would be hidden from the caller.)
pub fn crypt_batches<C: Crypt, W: Packed>(schedule: &Schedule<W>, input: &[u8], output: &mut [u8])
    requires whole { length input.now % (16 * slots W.width) ≡ 0 }
    requires output { length output.old ≡ length input.now }
    ensures { output.new ≡ crypted C.crypt W.width schedule.now.rounds (map W.value schedule.now.words.now) input.now }
{
    let batch = W::BATCH;
    for i in 0..input.len() / batch {
        let at = batch * i;
        let end = at + batch;
        C::batch(schedule, &input[at..end], &mut output[at..end]);
    }
}
