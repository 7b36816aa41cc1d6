// What the programs share over schedules: room for one; and, below the public call, the schedules of keys of zeros, which published vectors and the Rust's
// answers have. The library has none of this.
#![tactic(auto)]

ghost use Rattle.std.specs.Prelude.{◌≤◌};

use aes::refusal::Refusal;
use aes::{expand, key_size, zero_key};
use schedule::key_schedule;
use word::packed::Packed;

// The schedule's words for a key of so many bytes. Other lengths are the calls' to refuse. (Room is an array for either length, of which the front is lent.)
pub fn words_for(key: usize) -> usize
    ensures { result ≤ 120 }
{
    if key == 16 { 88 } else { 120 }
}

// Room for the longest schedule, whose front is lent: an array's length cannot go by a key. A call, so that a goal says its result and not 120 zeros.
pub fn blank<W: Packed>() -> [W; 120] {
    [W::byte_repeat(0); 120]
}

// The schedule of any key, by the function that the public call rests on.
fn inner<W: Packed>(key: &[u8], schedule: &mut [W]) -> Result<(), Refusal> {
    if schedule.len() != key_size(key.len())?.words {
        return Err(Refusal::Schedule);
    }
    key_schedule(key, schedule);
    Ok(())
}

// Expands a key by the public call, and one of zeros, which that call must refuse, by the inner function. Whether all went so: that a
// call did not refuse, no refusal says.
pub fn expands<W: Packed>(key: &[u8], schedule: &mut [W]) -> bool {
    let answer = expand(key, schedule);
    if zero_key(key) {
        return answer == Err(Refusal::ZeroKey) && inner(key, schedule).is_ok();
    }
    answer.is_ok()
}
