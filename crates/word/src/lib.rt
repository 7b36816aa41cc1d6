// word.rs of the Rust: packing blocks into a bitsliced state and back, over a word of either width. Bitslicing is a bit index manipulation: each bit
// has an index ([b]lock, [c]olumn, [r]ow, [p]osition), a block being a matrix of bytes, column after column.
// Two blocks in eight words of 32 bits, 256 bits with an index of eight bits:
//     in blocks  b0 c1 c0 r1 r0 p2 p1 p0
//     in words   p2 p1 p0 r1 r0 c1 c0 b0
// Four blocks in eight words of 64 bits, 512 bits with an index of nine bits:
//     in blocks  b1 b0 c1 c0 r1 r0 p2 p1 p0
//                b1 b0 c0 r1 r0 c1 p2 p1 p0    load_block: bit index swaps 6 <-> 3, 6 <-> 4, 6 <-> 5
//                c0 b1 b0 r1 r0 c1 p2 p1 p0    load_blocks: the order of the words
//                c0 b1 p0 r1 r0 c1 p2 p1 b0    swaps_1: 6 <-> 0
//                c0 p1 p0 r1 r0 c1 p2 b1 b0    swaps_2: 7 <-> 1
//     in words   p2 p1 p0 r1 r0 c1 c0 b1 b0    swaps_4: 8 <-> 2
#![tactic(auto)]

mod blocks32;
mod blocks64;
pub mod packed;

ghost use Rattle.std.specs.Prelude.{◌≡◌, ℕ, ◌*◌, ◌<◌, map, length, get_or};
ghost use Rattle.lanes.specs.Layout.{slot, slots};
ghost use Rattle.lanes.specs.Leaves.{Packs, unpacked};
ghost use Rattle.lanes.specs.Programs.{words, on8, swaps1, swaps2, swaps4, swaps_program};

use packed::Packed;
use utils::delta_swap_2;
use utils::word::Word;

// The diagrams of the swaps are those of 32 bits, with rows of 8 bits; at 64 bits each bit position widens by one, and the swaps are the same.
// Bit index swap 5 <-> 0:
//     __ __ b0 __ __ __ __ p0 => __ __ p0 __ __ __ __ b0
fn swaps_1<W: Word>(t: [W; 8]) -> [W; 8]
    ensures { map W.value result ≡ on8 (swaps1 (words W.width) W.width) (λ p. get_or (map W.value t) p 0) }
{
    let mask = W::byte_repeat(0x55);
    let a = delta_swap_2(t[1], t[0], 1, mask);
    let b = delta_swap_2(t[3], t[2], 1, mask);
    let c = delta_swap_2(t[5], t[4], 1, mask);
    let d = delta_swap_2(t[7], t[6], 1, mask);
    [a.1, a.0, b.1, b.0, c.1, c.0, d.1, d.0]
}

// Bit index swap 6 <-> 1:
//     __ c0 __ __ __ __ p1 __ => __ p1 __ __ __ __ c0 __
fn swaps_2<W: Word>(t: [W; 8]) -> [W; 8]
    ensures { map W.value result ≡ on8 (swaps2 (words W.width) W.width) (λ p. get_or (map W.value t) p 0) }
{
    let mask = W::byte_repeat(0x33);
    let a = delta_swap_2(t[2], t[0], 2, mask);
    let b = delta_swap_2(t[3], t[1], 2, mask);
    let c = delta_swap_2(t[6], t[4], 2, mask);
    let d = delta_swap_2(t[7], t[5], 2, mask);
    [a.1, b.1, a.0, b.0, c.1, d.1, c.0, d.0]
}

// Bit index swap 7 <-> 2:
//     c1 __ __ __ __ p2 __ __ => p2 __ __ __ __ c1 __ __
fn swaps_4<W: Word>(t: [W; 8]) -> [W; 8]
    ensures { map W.value result ≡ on8 (swaps4 (words W.width) W.width) (λ p. get_or (map W.value t) p 0) }
{
    let mask = W::byte_repeat(0x0f);
    let a = delta_swap_2(t[4], t[0], 4, mask);
    let b = delta_swap_2(t[5], t[1], 4, mask);
    let c = delta_swap_2(t[6], t[2], 4, mask);
    let d = delta_swap_2(t[7], t[3], 4, mask);
    [a.1, b.1, c.1, d.1, a.0, b.0, c.0, d.0]
}

// The three swaps undo themselves, so packing and unpacking use them alike.
fn bitslice_swaps<W: Word>(t: [W; 8]) -> [W; 8]
    ensures { map W.value result ≡ swaps_program (words W.width) W.width (λ p. get_or (map W.value t) p 0) }
{
    swaps_4(swaps_2(swaps_1(t)))
}

// As many blocks as there are slots, into a state.
pub fn bitslice<W: Packed>(input: &[u8]) -> [W; 8]
    requires { length input.now ≡ 16 * slots W.width }
    ensures { Packs W.width input.now (map W.value result) }
{
    bitslice_swaps(W::load_blocks(input))
}

// One block into every slot of a state.
pub fn broadcast<W: Packed>(block: &[u8]) -> [W; 8]
    requires { length block.now ≡ 16 }
    ensures { (b : ℕ) → b < slots W.width → slot W.width (map W.value result) b ≡ block.now }
{
    bitslice_swaps(W::load_repeated(block))
}

// A state into as many blocks as there are slots.
pub fn inv_bitslice<W: Packed>(state: [W; 8], output: &mut [u8])
    requires { length output.old ≡ 16 * slots W.width }
    ensures { output.new ≡ unpacked W.width (map W.value state) }
{
    W::store_blocks(bitslice_swaps(state), output);
}

// The bytes of a block into a part of a buffer. (Of copy_from_slice a test would stay whether the two overlap.)
pub fn copy16(from: [u8; 16], part: &mut [u8])
    requires { length part.old ≡ 16 }
    ensures { part.new ≡ from }
{
    *part.as_mut_array().unwrap() = from;
}
