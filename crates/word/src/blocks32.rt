// Between the bytes of two blocks and the words of 32 bits before the swaps: what is by the width in packing.
ghost use Rattle.std.specs.Prelude.{◌≡◌, [], ◌∷◌, ◌+◌, ◌≤◌, length, get_or, map, refl, ◌%◌, ◌^◌};
ghost use Rattle.lanes.specs.Layout.{w32, each_slot, join};
ghost use Rattle.lanes.specs.Programs.{words, load_word, load_program, broadcast_program, block_bytes, store_program};

use super::packed::Packed;

impl Packed for u32 {
    const BATCH: usize = 32;

    ghost BATCH = { 32 };

    // The columns are interleaved on input (note the order of input):
    //     b0 c1 c0 __ __ __ __ __ => c1 c0 b0 __ __ __ __ __
    fn load_blocks(input: &[u8]) -> [u32; 8] {
        [
            read_column(input, 0),
            read_column(input, 16),
            read_column(input, 4),
            read_column(input, 20),
            read_column(input, 8),
            read_column(input, 24),
            read_column(input, 12),
            read_column(input, 28),
        ]
    }

    // The same words where both blocks are one block.
    fn load_repeated(block: &[u8]) -> [u32; 8] {
        let c0 = read_column(block, 0);
        let c1 = read_column(block, 4);
        let c2 = read_column(block, 8);
        let c3 = read_column(block, 12);
        [c0, c0, c1, c1, c2, c2, c3, c3]
    }

    // The columns are de-interleaved on output (note the order of output):
    //     c1 c0 b0 __ __ __ __ __ => b0 c1 c0 __ __ __ __ __
    fn store_blocks(t: [u32; 8], output: &mut [u8])
        requires { length output.old ≡ 32 }
        ensures { output.new ≡ join (each_slot w32 (store_program (words w32) w32 (λ p. get_or (map (λ x. x % 2 ^ 32) t) p 0))) }
    {
        super::copy16(block_bytes(t[0], t[2], t[4], t[6]), &mut output[0..16]);
        super::copy16(block_bytes(t[1], t[3], t[5], t[7]), &mut output[16..32]);
    }

    ghost batch_is = { refl };
}

// A column of a block. (Its place is handed in: eight slices in load_blocks would each have the place twice.)
fn read_column(input: &[u8], at: usize) -> u32
    requires { at + 4 ≤ length input.now }
    ensures { result ≡ load_word (words w32) w32 (λ i. get_or input.now i 0) at }
{
    u32::from_le_bytes(*input[at..at + 4].as_array().unwrap())
}

// The bytes of a block from its four words. (No method of std joins arrays without the heap.)
fn block_bytes(a: u32, b: u32, c: u32, d: u32) -> [u8; 16]
    ensures { result ≡ block_bytes (words w32) w32 (λ p. get_or (a ∷ b ∷ c ∷ d ∷ []) p 0) }
{
    let [a0, a1, a2, a3] = a.to_le_bytes();
    let [b0, b1, b2, b3] = b.to_le_bytes();
    let [c0, c1, c2, c3] = c.to_le_bytes();
    let [d0, d1, d2, d3] = d.to_le_bytes();
    [
        a0, a1, a2, a3, b0, b1, b2, b3, c0, c1, c2, c3, d0, d1, d2, d3,
    ]
}
