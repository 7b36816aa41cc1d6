// Functions over the calls that go by a schedule, at either width.
#![tactic(auto)]

ghost use Rattle.std.specs.Prelude.{map};
ghost use Rattle.uses.specs.Promises.{ScheduleBack, Destroyed, Agrees};

use crate::schedule_calls::Calls;

// Expands a key, encrypts blocks under its schedule and decrypts them again.
pub fn schedule_and_back<W: Calls>(
    key: &[u8],
    schedule: &mut [W],
    input: &[u8],
    sealed: &mut [u8],
    opened: &mut [u8],
) -> u32
    ensures { ScheduleBack key.now (map W.value schedule.old) input.now sealed.old opened.old result opened.new }
{
    let made = W::expand(key, schedule);
    if made != 0 {
        return made;
    }
    let number = W::encrypt(schedule, input, sealed);
    if number != 0 {
        return number;
    }
    W::decrypt(schedule, sealed, opened)
}

// Expands a key that may have been destroyed.
pub fn destroyed<W: Calls>(key: &[u8], schedule: &mut [W]) -> u32
    ensures { Destroyed key.now (map W.value schedule.old) result (map W.value schedule.new) }
{
    W::expand(key, schedule)
}

// The key check value, and the two encryptions that it is made of: of a block of zeros, and of one that is to be twice what came of it.
pub fn check_agrees<W: Calls>(
    schedule: &[W],
    three: &mut [u8],
    first: &mut [u8],
    twice: &[u8],
    second: &mut [u8],
) -> u32
    ensures { Agrees (map W.value schedule.now) three.old first.old twice.now second.old
        result three.new first.new second.new }
{
    let number = W::check_value(schedule, three);
    if number != 0 {
        return number;
    }
    let made = W::encrypt(schedule, &super::zeros(), first);
    if made != 0 {
        return made;
    }
    W::encrypt(schedule, twice, second)
}
