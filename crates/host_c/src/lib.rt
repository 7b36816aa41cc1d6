// The library that C links: include/locker_aes.h declares these nine functions, which are crate host's under the names that C calls:
// so each stands by itself, with C's numbers.
#![tactic(auto)]

ghost use Rattle.std.specs.Prelude.{◌≡◌};
ghost use Rattle.lanes.specs.Layout.{w32, w64};
ghost use Rattle.outcome.specs.Outcome.{answers};
ghost use Rattle.calls.specs.Calls.{expand_outcome, encrypt_outcome, decrypt_outcome, check_outcome, door_outcome};

#[unsafe(no_mangle)]
pub extern "C" fn locker_aes(direction: u32, key: &[u8], input: &[u8], output: &mut [u8]) -> u32
    ensures { answers result output.new ≡ door_outcome direction key.now input.now output.old }
{
    host::locker_aes(direction, key, input, output)
}

#[unsafe(no_mangle)]
pub extern "C" fn locker_aes_expand32(key: &[u8], schedule: &mut [u32]) -> u32
    ensures { answers result schedule.new ≡ expand_outcome w32 key.now schedule.old }
{
    host::locker_aes_expand32(key, schedule)
}

#[unsafe(no_mangle)]
pub extern "C" fn locker_aes_encrypt32(schedule: &[u32], input: &[u8], output: &mut [u8]) -> u32
    ensures { answers result output.new ≡ encrypt_outcome w32 schedule.now input.now output.old }
{
    host::locker_aes_encrypt32(schedule, input, output)
}

#[unsafe(no_mangle)]
pub extern "C" fn locker_aes_decrypt32(schedule: &[u32], input: &[u8], output: &mut [u8]) -> u32
    ensures { answers result output.new ≡ decrypt_outcome w32 schedule.now input.now output.old }
{
    host::locker_aes_decrypt32(schedule, input, output)
}

#[unsafe(no_mangle)]
pub extern "C" fn locker_aes_check32(schedule: &[u32], output: &mut [u8]) -> u32
    ensures { answers result output.new ≡ check_outcome w32 schedule.now output.old }
{
    host::locker_aes_check32(schedule, output)
}

#[unsafe(no_mangle)]
pub extern "C" fn locker_aes_expand64(key: &[u8], schedule: &mut [u64]) -> u32
    ensures { answers result schedule.new ≡ expand_outcome w64 key.now schedule.old }
{
    host::locker_aes_expand64(key, schedule)
}

#[unsafe(no_mangle)]
pub extern "C" fn locker_aes_encrypt64(schedule: &[u64], input: &[u8], output: &mut [u8]) -> u32
    ensures { answers result output.new ≡ encrypt_outcome w64 schedule.now input.now output.old }
{
    host::locker_aes_encrypt64(schedule, input, output)
}

#[unsafe(no_mangle)]
pub extern "C" fn locker_aes_decrypt64(schedule: &[u64], input: &[u8], output: &mut [u8]) -> u32
    ensures { answers result output.new ≡ decrypt_outcome w64 schedule.now input.now output.old }
{
    host::locker_aes_decrypt64(schedule, input, output)
}

#[unsafe(no_mangle)]
pub extern "C" fn locker_aes_check64(schedule: &[u64], output: &mut [u8]) -> u32
    ensures { answers result output.new ≡ check_outcome w64 schedule.now output.old }
{
    host::locker_aes_check64(schedule, output)
}
