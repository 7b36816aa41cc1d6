// Why a call refuses, its number for C (docs/SCOPE.md), and the direction of the door.
ghost use Rattle.std.specs.Prelude.{◌≡◌};
ghost use Rattle.aes.specs.Refusal.{refusal_number, number, direction_of};

// What a call finds wrong, in the order of the numbers.
#[derive(Clone, Copy, Debug, PartialEq, Eq)]
pub enum Refusal {
    Key,
    Schedule,
    Input,
    Output,
    Direction,
    ZeroKey,
}

impl From<Refusal> for u32 {
    ghost from_gives = { λ refusal n. n ≡ refusal_number refusal };

    fn from(refusal: Refusal) -> u32 {
        match refusal {
            Refusal::Key => 1,
            Refusal::Schedule => 2,
            Refusal::Input => 3,
            Refusal::Output => 4,
            Refusal::Direction => 5,
            Refusal::ZeroKey => 6,
        }
    }
}

// What C is answered: 0, or the refusal's number.
pub fn number(answer: Result<(), Refusal>) -> u32
    ensures { result ≡ number answer }
{
    match answer {
        Ok(()) => 0,
        Err(refusal) => u32::from(refusal),
    }
}

// Whether blocks are encrypted or decrypted.
#[derive(Clone, Copy, Debug, PartialEq, Eq)]
pub enum Direction {
    Encrypt,
    Decrypt,
}

impl TryFrom<u32> for Direction {
    type Error = Refusal;

    ghost try_from_gives = { λ n r. r ≡ direction_of n };

    fn try_from(direction: u32) -> Result<Self, Refusal> {
        match direction {
            0 => Ok(Direction::Encrypt),
            1 => Ok(Direction::Decrypt),
            _ => Err(Refusal::Direction),
        }
    }
}
