// The two directions: what is done to one batch is all that differs between them.
ghost use Rattle.std.specs.Prelude.{◌≡◌, ◌∷◌, ◌*◌, ◌%◌, List, ℕ, map, length};
ghost use Rattle.fips197.specs.Aes.{cipher, inv_cipher};
ghost use Rattle.lanes.specs.Layout.{slots};
ghost use Rattle.lanes.specs.Schedule.{rows_shifted, crypted_batch};
ghost use Rattle.lanes.specs.Leaves.{Does, all};
ghost use Rattle.fips197.proofs.Ciphers.{cipher_long, inv_cipher_long};

use crate::schedule::Schedule;
use sbox::{inv_sub_bytes, sub_bytes};
use shift_rows::{inv_shift_rows, shift_rows};
use word::packed::Packed;
use word::{bitslice, inv_bitslice};

pub trait Crypt {
    // What becomes of a block under its slot's round keys: FIPS-197's Cipher or InvCipher.
    ghost crypt: { List (List ℕ) → List ℕ → List ℕ };

    // A full batch.
    fn batch<W: Packed>(schedule: &Schedule<W>, input: &[u8], output: &mut [u8])
        requires input { length input.now ≡ 16 * slots W.width }
        requires output { length output.old ≡ 16 * slots W.width }
        ensures { output.new ≡ crypted_batch crypt W.width schedule.now.rounds (map W.value schedule.now.words.now) input.now };

    // A block becomes a block.
    ghost long: { (key : List ℕ) (keys : List (List ℕ)) (block : List ℕ) → length (crypt (key ∷ keys) block) ≡ 16 };
}

// ShiftRows n times, n being even: what the rounds left out. (A switch, since n is known at run time only.)
fn rows_left_out<W: Packed>(state: [W; 8], n: usize) -> [W; 8]
    requires { n % 2 ≡ 0 }
    ensures { Does W.width (all (rows_shifted (n % 4))) (map W.value state) (map W.value result) }
{
    if n % 4 == 2 {
        shift_rows::<W, 2>(state)
    } else {
        state
    }
}

pub struct Encrypt;

impl Crypt for Encrypt {
    ghost crypt = { cipher };

    fn batch<W: Packed>(schedule: &Schedule<W>, input: &[u8], output: &mut [u8]) {
        let n = schedule.rounds;
        let s0 = schedule.add_key(bitslice(input), 0);
        let s1 = schedule.do_rounds(s0);
        let s2 = rows_left_out(s1, n);
        let s3 = schedule.add_key(sub_bytes(s2), n);
        inv_bitslice(s3, output);
    }

    ghost long = { cipher_long };
}

pub struct Decrypt;

impl Crypt for Decrypt {
    ghost crypt = { inv_cipher };

    // The mirror of encryption.
    fn batch<W: Packed>(schedule: &Schedule<W>, input: &[u8], output: &mut [u8]) {
        let n = schedule.rounds;
        let s0 = inv_sub_bytes(schedule.add_key(bitslice(input), n));
        let s1 = schedule.undo_rounds(inv_shift_rows(s0, n % 4));
        let s2 = schedule.add_key(s1, 0);
        inv_bitslice(s2, output);
    }

    ghost long = { inv_cipher_long };
}
