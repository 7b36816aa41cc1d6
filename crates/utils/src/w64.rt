// Words of 64 bits: four blocks in eight of them. A row has 16 bits, a column of it 4.
ghost use Rattle.std.specs.Prelude.{◌≡◌, ◌<◌, ◌%◌, ◌^◌, refl};
ghost use Rattle.std.proofs.Math.Nat.{mod-lt};
ghost use Rattle.std.proofs.Math.Dec.{lit<, lit≤};
ghost use Rattle.lanes.specs.Layout.{w64};
ghost use Rattle.lanes.specs.Masks.{double_bits};

use super::word::Word;

impl Word for u64 {
    ghost width = { w64 };

    ghost value = { λ x. x % 2 ^ 64 };

    const BITS: u32 = 64;

    ghost BITS = { 64 };

    fn xor(self, other: u64) -> u64 {
        self ^ other
    }

    fn and(self, other: u64) -> u64 {
        self & other
    }

    fn or(self, other: u64) -> u64 {
        self | other
    }

    fn not(self) -> u64 {
        !self
    }

    fn shl(self, n: u32) -> u64 {
        self << n
    }

    fn shr(self, n: u32) -> u64 {
        self >> n
    }

    fn times(self, bit: u8) -> u64 {
        self * (bit as u64)
    }

    fn pack_rows(r0: u8, r1: u8, r2: u8, r3: u8) -> u64 {
        double_bits(r0)
            + double_bits(r1) * 0x10000
            + double_bits(r2) * 0x100000000
            + double_bits(r3) * 0x1000000000000
    }

    fn uniform_row(byte: u8) -> u64 {
        double_bits(byte) * 0x0001000100010001
    }

    fn byte_repeat(byte: u8) -> u64 {
        u64::from_le_bytes([byte; 8])
    }

    ghost bits_is = { refl };

    ghost fits = { λ x. mod-lt x (lit< tt) };

    ghost small = { lit≤ tt };
}

// Bit i becomes bits 2i and 2i + 1: the bits are spread to the even places in three steps, and each is then doubled.
fn double_bits(byte: u8) -> u64
    ensures doubled { result ≡ double_bits byte }
    ensures fits { result < 2 ^ 16 }
{
    let a = byte as u64;
    let b = (a | (a << 4)) & 0x0f0f;
    let c = (b | (b << 2)) & 0x3333;
    let d = (c | (c << 1)) & 0x5555;
    d | (d << 1)
}
