// Between the bytes of four blocks and the words of 64 bits before the swaps: what is by the width in packing. Bytes are read and written in their
// order, eight to a word; only words are swapped.
ghost use Rattle.std.specs.Prelude.{◌≡◌, [], ◌∷◌, ◌+◌, ◌≤◌, length, get_or, map, refl, ◌%◌, ◌^◌};
ghost use Rattle.lanes.specs.Layout.{w64, each_slot, join};
ghost use Rattle.lanes.specs.Programs.{words, load_word, block_word, load_program, broadcast_program, le_bytes, block_bytes, store_program};

use super::packed::Packed;
use utils::delta_swap_2;

// The lower of every two bytes, of every two pairs of bytes, and of the two halves of a word.
const LOW_8: u64 = 0x00ff00ff00ff00ff;

const LOW_16: u64 = 0x0000ffff0000ffff;

const LOW_32: u64 = 0x00000000ffffffff;

impl Packed for u64 {
    const BATCH: usize = 64;

    ghost BATCH = { 64 };

    // Every block by itself, reordered by relabelling (note the order of the words):
    //     b1 b0 c0 __ __ __ __ __ __ => c0 b1 b0 __ __ __ __ __ __
    fn load_blocks(input: &[u8]) -> [u64; 8] {
        let a = load_block(input, 0);
        let b = load_block(input, 16);
        let c = load_block(input, 32);
        let d = load_block(input, 48);
        [a.1, b.1, c.1, d.1, a.0, b.0, c.0, d.0]
    }

    // The same words where all four blocks are one block.
    fn load_repeated(block: &[u8]) -> [u64; 8] {
        let a = load_block(block, 0);
        [a.1, a.1, a.1, a.1, a.0, a.0, a.0, a.0]
    }

    // Reordered by relabelling (note the order of the words):
    //     c0 b1 b0 __ __ __ __ __ __ => b1 b0 c0 __ __ __ __ __ __
    fn store_blocks(t: [u64; 8], output: &mut [u8])
        requires { length output.old ≡ 64 }
        ensures { output.new ≡ join (each_slot w64 (store_program (words w64) w64 (λ p. get_or (map (λ x. x % 2 ^ 64) t) p 0))) }
    {
        super::copy16(block_bytes(t[0], t[4]), &mut output[0..16]);
        super::copy16(block_bytes(t[1], t[5]), &mut output[16..32]);
        super::copy16(block_bytes(t[2], t[6]), &mut output[32..48]);
        super::copy16(block_bytes(t[3], t[7]), &mut output[48..64]);
    }

    ghost batch_is = { refl };
}

// Half a block. (At a place, as in blocks32. By `as_array` in place of eight bytes the proof stays open: tried.)
fn read_half(input: &[u8], at: usize) -> u64
    requires { at + 8 ≤ length input.now }
    ensures { result ≡ load_word (words w64) w64 (λ i. get_or input.now i 0) at }
{
    u64::from_le_bytes([
        input[at],
        input[at + 1],
        input[at + 2],
        input[at + 3],
        input[at + 4],
        input[at + 5],
        input[at + 6],
        input[at + 7],
    ])
}

// The two words of a block: the bytes of its halves in turns, 0 8 1 9 2 10 3 11 and 4 12 5 13 6 14 7 15, which the Rust reads reordered:
//     __ __ c1 c0 r1 r0 __ __ __ => __ __ c0 r1 r0 c1 __ __ __
// Here the halves, which c1 tells apart, are read as they stand, and three bit index swaps between them take the bytes there:
//     6 <-> 3:  __ __ c1 c0 r1 r0 __ __ __ => __ __ r0 c0 r1 c1 __ __ __
//     6 <-> 4:  __ __ r0 c0 r1 c1 __ __ __ => __ __ r1 c0 r0 c1 __ __ __
//     6 <-> 5:  __ __ r1 c0 r0 c1 __ __ __ => __ __ c0 r1 r0 c1 __ __ __
fn load_block(input: &[u8], at: usize) -> (u64, u64)
    requires { at + 16 ≤ length input.now }
    ensures { (result.0 ≡ block_word (words w64) w64 (λ i. get_or input.now i 0) at 1)
        × (result.1 ≡ block_word (words w64) w64 (λ i. get_or input.now i 0) at 0) }
{
    let a = delta_swap_2(read_half(input, at + 8), read_half(input, at), 8, LOW_8);
    let b = delta_swap_2(a.0, a.1, 16, LOW_16);
    delta_swap_2(b.0, b.1, 32, LOW_32)
}

// The bytes of both halves.
fn halves_bytes(lo: u64, hi: u64) -> [u8; 16]
    ensures { result ≡ le_bytes (words w64) w64 (λ p. get_or (lo ∷ hi ∷ []) p 0) }
{
    let [a0, a1, a2, a3, a4, a5, a6, a7] = lo.to_le_bytes();
    let [b0, b1, b2, b3, b4, b5, b6, b7] = hi.to_le_bytes();
    [
        a0, a1, a2, a3, a4, a5, a6, a7, b0, b1, b2, b3, b4, b5, b6, b7,
    ]
}

// The bytes of a block from its two words: load_block backwards, since each swap undoes itself.
//     __ __ c0 r1 r0 c1 __ __ __ => __ __ c1 c0 r1 r0 __ __ __
fn block_bytes(lo: u64, hi: u64) -> [u8; 16]
    ensures { result ≡ block_bytes (words w64) w64 (λ p. get_or (lo ∷ hi ∷ []) p 0) }
{
    let a = delta_swap_2(hi, lo, 32, LOW_32);
    let b = delta_swap_2(a.0, a.1, 16, LOW_16);
    let c = delta_swap_2(b.0, b.1, 8, LOW_8);
    halves_bytes(c.1, c.0)
}
