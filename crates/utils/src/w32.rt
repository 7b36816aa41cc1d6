// Words of 32 bits: two blocks in eight of them. A row has 8 bits, a column of it 2. (The methods stand for each width: the operators are each type's own,
// and rt ci refuses an impl that a macro of this repository writes.)
ghost use Rattle.std.specs.Prelude.{◌%◌, ◌^◌, refl};
ghost use Rattle.std.proofs.Math.Nat.{mod-lt};
ghost use Rattle.std.proofs.Math.Dec.{lit<, lit≤};
ghost use Rattle.lanes.specs.Layout.{w32};

use super::word::Word;

impl Word for u32 {
    ghost width = { w32 };

    ghost value = { λ x. x % 2 ^ 32 };

    const BITS: u32 = 32;

    ghost BITS = { 32 };

    fn xor(self, other: u32) -> u32 {
        self ^ other
    }

    fn and(self, other: u32) -> u32 {
        self & other
    }

    fn or(self, other: u32) -> u32 {
        self | other
    }

    fn not(self) -> u32 {
        !self
    }

    fn shl(self, n: u32) -> u32 {
        self << n
    }

    fn shr(self, n: u32) -> u32 {
        self >> n
    }

    fn times(self, bit: u8) -> u32 {
        self * (bit as u32)
    }

    fn pack_rows(r0: u8, r1: u8, r2: u8, r3: u8) -> u32 {
        u32::from_le_bytes([r0, r1, r2, r3])
    }

    fn uniform_row(byte: u8) -> u32 {
        u32::from_le_bytes([byte; 4])
    }

    fn byte_repeat(byte: u8) -> u32 {
        u32::from_le_bytes([byte; 4])
    }

    ghost bits_is = { refl };

    ghost fits = { λ x. mod-lt x (lit< tt) };

    ghost small = { lit≤ tt };
}
