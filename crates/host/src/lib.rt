// What C calls, by way of crate host_c: include/locker_aes.h declares these nine functions. The door makes its schedule inside and leaves nothing
// of it behind; the others are thin and have the promise of the call they pass on. Refusals and directions are numbers here, and a call stands once
// for each width and direction, because C reads and names them so.
#![tactic(auto)]

ghost use Rattle.std.specs.Prelude.{◌≡◌, ◌<◌, length, replicate};
ghost use Rattle.lanes.specs.Layout.{w32, w64};
ghost use Rattle.outcome.specs.Outcome.{answers};
ghost use Rattle.calls.specs.Calls.{expand_outcome, encrypt_outcome, decrypt_outcome, check_outcome, door_outcome};
ghost use Rattle.aes.specs.Refusal.{number, direction_number};
ghost use Rattle.host.specs.Door.{Ready, under_key};

use aes::refusal::{Direction, Refusal, number};
use aes::{key_size, whole_blocks, zero_key};
use cipher::direction::{Decrypt, Encrypt};
use cipher::schedule::Schedule;
use schedule::key_schedule;

// Room for the longest schedule, whose front is lent: an array's length cannot go by a key. A call, so that a goal says its result and not 120 zeros.
fn blank() -> [u64; 120]
    ensures { result ≡ replicate 120 0 }
{
    [0u64; 120]
}

// Zeros on the stack below the caller, n + 1 times the room of a schedule. It calls itself so that it is not inlined, and a word is read back
// so that the zeros are kept; that a compiler does keep them is seen by tests/stack alone.
fn burn(n: usize, at: usize) -> u64
    requires { at < 120 }
    ensures { result ≡ 0 }
{
    let room = blank();
    if n == 0 {
        return room[at];
    }
    let below = burn(n - 1, at);
    if below == 0 {
        return room[at];
    }
    below
}

// The door behind its tests: the schedule is made in the words lent here, and used. (C's number chose the direction; the rounds are of the key's size, of
// which the words lent are the other half.)
fn crypt_with(
    direction: Direction,
    key: &[u8],
    rounds: usize,
    schedule: &mut [u64],
    input: &[u8],
    output: &mut [u8],
)
    requires { Ready (direction_number direction) rounds key.now (length schedule.old) (length input.now) (length output.old) }
    ensures { output.new ≡ under_key (direction_number direction) key.now input.now }
{
    key_schedule(key, schedule);
    let schedule = Schedule {
        words: schedule,
        rounds,
    };
    match direction {
        Direction::Encrypt => blocks::crypt::<Encrypt, u64>(&schedule, input, output),
        Direction::Decrypt => blocks::crypt::<Decrypt, u64>(&schedule, input, output),
    }
}

// The door with its tests. The schedule does not leave it, and is erased.
fn crypt(direction: u32, key: &[u8], input: &[u8], output: &mut [u8]) -> Result<(), Refusal>
    ensures { answers (number result) output.new ≡ door_outcome direction key.now input.now output.old }
{
    let size = key_size(key.len())?;
    if zero_key(key) {
        return Err(Refusal::ZeroKey);
    }
    if !whole_blocks(input.len()) {
        return Err(Refusal::Input);
    }
    if output.len() != input.len() {
        return Err(Refusal::Output);
    }
    let way = Direction::try_from(direction)?;
    let mut schedule = blank();
    crypt_with(
        way,
        key,
        size.rounds,
        &mut schedule[..size.words],
        input,
        output,
    );
    // The answers below are never given: the words are zero. To ask keeps the compiler from leaving the erasing out.
    schedule = blank();
    if schedule[direction as usize] != 0 {
        return Err(Refusal::Key); // never
    }
    if burn(direction as usize, direction as usize) != 0 {
        return Err(Refusal::Key); // never
    }
    Ok(())
}

// The door: a key, blocks and a direction, 0 to encrypt and 1 to decrypt.
pub fn locker_aes(direction: u32, key: &[u8], input: &[u8], output: &mut [u8]) -> u32
    ensures { answers result output.new ≡ door_outcome direction key.now input.now output.old }
{
    number(crypt(direction, key, input, output))
}

pub fn locker_aes_expand32(key: &[u8], schedule: &mut [u32]) -> u32
    ensures { answers result schedule.new ≡ expand_outcome w32 key.now schedule.old }
{
    number(aes::expand(key, schedule))
}

pub fn locker_aes_encrypt32(schedule: &[u32], input: &[u8], output: &mut [u8]) -> u32
    ensures { answers result output.new ≡ encrypt_outcome w32 schedule.now input.now output.old }
{
    number(aes::encrypt(schedule, input, output))
}

pub fn locker_aes_decrypt32(schedule: &[u32], input: &[u8], output: &mut [u8]) -> u32
    ensures { answers result output.new ≡ decrypt_outcome w32 schedule.now input.now output.old }
{
    number(aes::decrypt(schedule, input, output)) // 32 bits
}

pub fn locker_aes_check32(schedule: &[u32], output: &mut [u8]) -> u32
    ensures { answers result output.new ≡ check_outcome w32 schedule.now output.old }
{
    number(aes::check_value(schedule, output))
}

pub fn locker_aes_expand64(key: &[u8], schedule: &mut [u64]) -> u32
    ensures { answers result schedule.new ≡ expand_outcome w64 key.now schedule.old }
{
    number(aes::expand(key, schedule))
}

pub fn locker_aes_encrypt64(schedule: &[u64], input: &[u8], output: &mut [u8]) -> u32
    ensures { answers result output.new ≡ encrypt_outcome w64 schedule.now input.now output.old }
{
    number(aes::encrypt(schedule, input, output))
}

pub fn locker_aes_decrypt64(schedule: &[u64], input: &[u8], output: &mut [u8]) -> u32
    ensures { answers result output.new ≡ decrypt_outcome w64 schedule.now input.now output.old }
{
    number(aes::decrypt(schedule, input, output))
}

pub fn locker_aes_check64(schedule: &[u64], output: &mut [u8]) -> u32
    ensures { answers result output.new ≡ check_outcome w64 schedule.now output.old }
{
    number(aes::check_value(schedule, output))
}
