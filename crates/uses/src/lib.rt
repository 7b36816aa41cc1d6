// Functions over the calls of host, as a C program would write them: with C's numbers, and its names for each width. What they promise follows from the
// contracts of crate host and from nothing else: a contract that lost its meaning would leave this crate unproved.
#![tactic(auto)]

pub mod by_schedule;
pub mod schedule_calls;

ghost use Rattle.std.specs.Prelude.{◌≡◌, replicate};
ghost use Rattle.uses.specs.Promises.{DoorBack, Alone, Refused, Destroyed};

use host::locker_aes;

// Encrypts blocks through the door and decrypts them again.
pub fn door_and_back(key: &[u8], input: &[u8], sealed: &mut [u8], opened: &mut [u8]) -> u32
    ensures { DoorBack key.now input.now sealed.old opened.old result opened.new }
{
    let number = locker_aes(0, key, input, sealed);
    if number != 0 {
        return number;
    }
    locker_aes(1, key, sealed, opened)
}

// Decrypts headers by the door: all of them in one call, and one of them alone. (A header is asked for by its number, as a C program would.)
pub fn header_alone(
    key: &[u8],
    sealed: &[u8],
    opened: &mut [u8],
    at: usize,
    alone: &mut [u8],
) -> u32
    ensures { Alone key.now sealed.now opened.old at alone.old result opened.new alone.new }
{
    let number = locker_aes(1, key, sealed, opened);
    if number != 0 {
        return number;
    }
    if at >= sealed.len() / 16 {
        return 3;
    }
    locker_aes(1, key, &sealed[16 * at..16 * at + 16], alone)
}

// Asks the door for a direction that it does not have.
pub fn refused(key: &[u8], input: &[u8], output: &mut [u8]) -> u32
    ensures { Refused output.old result output.new }
{
    locker_aes(2, key, input, output)
}

// Asks the door for blocks under a key that may have been destroyed.
pub fn destroyed(direction: u32, key: &[u8], input: &[u8], output: &mut [u8]) -> u32
    ensures { Destroyed key.now output.old result output.new }
{
    locker_aes(direction, key, input, output)
}

// A block of zeros. A call, so that a goal says its result and not every byte.
fn zeros() -> [u8; 16]
    ensures { result ≡ replicate 16 0 }
{
    [0u8; 16]
}
