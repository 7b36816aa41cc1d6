// The four calls of host that go by a schedule, at the width of their words: the functions over them are written once. Each impl stands by itself, since
// host has a name for each width. (A trait of its own, and not over utils' Word: this crate sees the calls of host and nothing else of the code.)
#![tactic(auto)]

ghost use Rattle.std.specs.Prelude.{◌≡◌, ◌<◌, ◌%◌, ◌^◌, ℕ, map};
ghost use Rattle.std.proofs.Math.Nat.{mod-lt};
ghost use Rattle.std.proofs.Math.Dec.{lit<};
ghost use Rattle.lanes.specs.Layout.{Width, w32, w64, bits};
ghost use Rattle.outcome.specs.Outcome.{answers};
ghost use Rattle.calls.specs.Calls.{expand_outcome, encrypt_outcome, decrypt_outcome, check_outcome};

use host::{
    locker_aes_check32, locker_aes_check64, locker_aes_decrypt32, locker_aes_decrypt64,
    locker_aes_encrypt32, locker_aes_encrypt64, locker_aes_expand32, locker_aes_expand64,
};

// What each promises is what the call of host does, over the numbers that the words are.
pub trait Calls: Copy {
    // The width of a word, and the number that it is.
    ghost width: { Width };

    ghost value: { Self → ℕ };

    fn expand(key: &[u8], schedule: &mut [Self]) -> u32
        ensures { answers result (map value schedule.new) ≡ expand_outcome width key.now (map value schedule.old) };

    fn encrypt(schedule: &[Self], input: &[u8], output: &mut [u8]) -> u32
        ensures { answers result output.new ≡ encrypt_outcome width (map value schedule.now) input.now output.old };

    fn decrypt(schedule: &[Self], input: &[u8], output: &mut [u8]) -> u32
        ensures { answers result output.new ≡ decrypt_outcome width (map value schedule.now) input.now output.old };

    fn check_value(schedule: &[Self], output: &mut [u8]) -> u32
        ensures { answers result output.new ≡ check_outcome width (map value schedule.now) output.old };

    ghost fits: { (x : Self) → value x < 2 ^ bits width };
}

impl Calls for u32 {
    ghost width = { w32 };

    ghost value = { λ x. x % 2 ^ 32 };

    fn expand(key: &[u8], schedule: &mut [u32]) -> u32 {
        locker_aes_expand32(key, schedule)
    }

    fn encrypt(schedule: &[u32], input: &[u8], output: &mut [u8]) -> u32 {
        locker_aes_encrypt32(schedule, input, output)
    }

    fn decrypt(schedule: &[u32], input: &[u8], output: &mut [u8]) -> u32 {
        locker_aes_decrypt32(schedule, input, output)
    }

    fn check_value(schedule: &[u32], output: &mut [u8]) -> u32 {
        locker_aes_check32(schedule, output)
    }

    ghost fits = { λ x. mod-lt x (lit< tt) };
}

impl Calls for u64 {
    ghost width = { w64 };

    ghost value = { λ x. x % 2 ^ 64 };

    fn expand(key: &[u8], schedule: &mut [u64]) -> u32 {
        locker_aes_expand64(key, schedule)
    }

    fn encrypt(schedule: &[u64], input: &[u8], output: &mut [u8]) -> u32 {
        locker_aes_encrypt64(schedule, input, output)
    }

    fn decrypt(schedule: &[u64], input: &[u8], output: &mut [u8]) -> u32 {
        locker_aes_decrypt64(schedule, input, output)
    }

    fn check_value(schedule: &[u64], output: &mut [u8]) -> u32 {
        locker_aes_check64(schedule, output)
    }

    ghost fits = { λ x. mod-lt x (lit< tt) };
}
