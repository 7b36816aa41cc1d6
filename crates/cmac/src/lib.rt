// CMAC, NIST SP 800-38B, of a message of one complete block, by the cipher of slot 0, under any words as a schedule.
#![tactic(auto)]

ghost use Rattle.std.specs.Prelude.{◌≡◌, map};
ghost use Rattle.fips197.specs.Aes.{cipher};
ghost use Rattle.lanes.specs.Schedule.{reading};
ghost use Rattle.sp800_38b.specs.Cmac.{xors, double as doubled, subkey1, subkey2, cmac_of_block};

use blocks::encrypt_block;
use cipher::schedule::Schedule;
use word::packed::Packed;

// SP 800-38B's K1 and K2.
#[derive(Drop)]
pub struct Subkeys {
    pub k1: [u8; 16],
    pub k2: [u8; 16],
}

// A block doubled: shifted left by one bit, and 87 hex XORed into the last byte where a bit falls out at the first. That bit is a factor, so that there is no
// branch on it.
pub fn double(block: [u8; 16]) -> [u8; 16]
    ensures { result ≡ doubled block }
{
    let mut shifted = (u128::from_be_bytes(block) << 1).to_be_bytes();
    shifted[15] ^= 0x87 * (block[0] >> 7);
    shifted
}

// The XOR of two blocks.
pub fn xor(x: [u8; 16], y: [u8; 16]) -> [u8; 16]
    ensures { result ≡ xors x y }
{
    let mut sum = x;
    for (i, byte) in sum.iter_mut().enumerate() {
        *byte ^= y[i];
    }
    sum
}

// SUBK, 6.1, of the round keys of slot 0: twice the encryption of zeros, and twice that.
pub fn subk<W: Packed>(schedule: &Schedule<W>) -> Subkeys
    ensures k1 { result.k1 ≡ subkey1 (cipher (reading W.width schedule.now.rounds (map W.value schedule.now.words.now) 0)) }
    ensures k2 { result.k2 ≡ subkey2 (cipher (reading W.width schedule.now.rounds (map W.value schedule.now.words.now) 0)) }
{
    let k1 = double(encrypt_block(schedule, [0u8; 16]));
    Subkeys { k1, k2: double(k1) }
}

// The tag of a message of one complete block, in full length.
pub fn tag_of_block<W: Packed>(schedule: &Schedule<W>, message: [u8; 16]) -> [u8; 16]
    ensures { result ≡ cmac_of_block (cipher (reading W.width schedule.now.rounds (map W.value schedule.now.words.now) 0)) message }
{
    let subkeys = subk(schedule);
    let k1 = subkeys.k1;
    encrypt_block(schedule, xor(k1, message))
}
