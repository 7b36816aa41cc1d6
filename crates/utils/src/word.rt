// What the leaves ask of a word, as the Rust's trait Word does: they are written once, over any word, and used at u32 and u64.
ghost use Rattle.std.specs.Prelude.{◌≡◌, ◌<◌, ◌≤◌, ◌-◌, ◌*◌, ◌^◌, ℕ};
ghost use Rattle.std.specs.Mem.{type_size};
ghost use Rattle.std.specs.Int.Bits.{bit_xor, bit_and, bit_or};
ghost use Rattle.lanes.specs.Layout.{Width, bits};
ghost use Rattle.lanes.specs.Masks.{pack_rows, uniform_row, byte_repeat};
ghost use Rattle.lanes.specs.Programs.{words};

pub trait Word: Copy {
    // Its width, and the number that it is. Contracts speak of these alone.
    ghost width: { Width };

    ghost value: { Self → ℕ };

    const BITS: u32;

    ghost BITS: { ℕ };

    // The operators of Rust's words, whose own traits do not say what they give in a form that a proof over any word finds.
    fn xor(self, other: Self) -> Self
        ensures { value result ≡ bit_xor (value self) (value other) };

    fn and(self, other: Self) -> Self
        ensures { value result ≡ bit_and (value self) (value other) };

    fn or(self, other: Self) -> Self
        ensures { value result ≡ bit_or (value self) (value other) };

    fn not(self) -> Self
        ensures { value result ≡ bit_xor (value self) (2 ^ bits width - 1) };

    fn shl(self, n: u32) -> Self
        requires { n < bits width }
        ensures { value result ≡ (words width).shl (value self) n };

    fn shr(self, n: u32) -> Self
        requires { n < bits width }
        ensures { value result ≡ (words width).shr (value self) n };

    // The word where the bit is one, and otherwise zero.
    fn times(self, bit: u8) -> Self
        requires { bit < 2 }
        ensures { value result ≡ bit * value self };

    // A byte's pattern to each of the four rows, row 0 lowest.
    fn pack_rows(r0: u8, r1: u8, r2: u8, r3: u8) -> Self
        ensures { value result ≡ pack_rows width r0 r1 r2 r3 };

    // The same to every row.
    fn uniform_row(byte: u8) -> Self
        ensures { value result ≡ uniform_row width byte };

    // A byte to every byte of the word.
    fn byte_repeat(byte: u8) -> Self
        ensures { value result ≡ byte_repeat width byte };

    ghost bits_is: { BITS ≡ bits width };

    ghost fits: { (x : Self) → value x < 2 ^ bits width };

    // Eight fit in memory, which a generic function that has a state in a variable has to know.
    ghost small: { type_size Self.row ≤ 8 };
}
