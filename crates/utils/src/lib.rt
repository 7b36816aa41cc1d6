// What the other crates share: a word of either width, the swaps of the Rust's utils.rs, its rotations, and eight words of a schedule as one value.
#![tactic(auto)]

mod w32;
mod w64;
pub mod word;

ghost use Rattle.std.specs.Prelude.{◌≡◌, ◌<◌, ◌≤◌, ◌+◌, map, length};
ghost use Rattle.lanes.specs.Layout.{bits};
ghost use Rattle.lanes.specs.Schedule.{words_at};
ghost use Rattle.lanes.specs.Leaves.{put};
ghost use Rattle.lanes.specs.Programs.{words, ror as ror_word, distance, delta_swap1, upper, lower};

use word::Word;

// How far a word turns right for so many rows and columns.
pub fn ror_distance<W: Word>(rows: u32, cols: u32) -> u32
    requires { (rows < 4) × (cols < 4) }
    ensures { result ≡ distance (words W.width) W.width rows cols }
{
    W::BITS / 4 * rows + W::BITS / 16 * cols
}

// A word rotated right. Every distance lies strictly between 0 and the width.
pub fn ror<W: Word>(x: W, n: u32) -> W
    requires { (0 < n) × (n < bits W.width) }
    ensures { W.value result ≡ ror_word (words W.width) W.width (W.value x) n }
{
    x.shr(n).or(x.shl(W::BITS - n))
}

pub fn delta_swap_1<W: Word>(a: W, shift: u32, mask: W) -> W
    requires { shift < bits W.width }
    ensures { W.value result ≡ delta_swap1 (words W.width) W.width shift (W.value mask) (W.value a) }
{
    let t = a.xor(a.shr(shift)).and(mask);
    a.xor(t.xor(t.shl(shift)))
}

// Both words after the swap.
pub fn delta_swap_2<W: Word>(a: W, b: W, shift: u32, mask: W) -> (W, W)
    requires { shift < bits W.width }
    ensures first { W.value result.0 ≡ upper (words W.width) W.width shift (W.value mask) (W.value a) (W.value b) }
    ensures second { W.value result.1 ≡ lower (words W.width) W.width shift (W.value mask) (W.value a) (W.value b) }
{
    let t = a.xor(b.shr(shift)).and(mask);
    (a.xor(t), b.xor(t.shl(shift)))
}

// The eight words at an offset of a schedule as one value. (With the offset here no caller has a part with a length of its own to state.)
pub fn load<W: Word>(rkeys: &[W], at: usize) -> [W; 8]
    requires { at + 8 ≤ length rkeys.now }
    ensures { map W.value result ≡ words_at (map W.value rkeys.now) at }
{
    *rkeys[at..at + 8].as_array().unwrap()
}

// One value into eight words: one store, where copy_from_slice would test for an overlap.
fn store_eight<W: Word>(part: &mut [W], state: [W; 8])
    requires { length part.old ≡ 8 }
    ensures { part.new ≡ state }
{
    *part.as_mut_array().unwrap() = state;
}

// One value into the eight words at an offset of a schedule. Nothing else changes.
pub fn store<W: Word>(rkeys: &mut [W], at: usize, state: [W; 8])
    requires { at + 8 ≤ length rkeys.old }
    ensures long { length rkeys.new ≡ length rkeys.old }
    ensures put { map W.value rkeys.new ≡ put (map W.value rkeys.old) at (map W.value state) }
{
    store_eight(&mut rkeys[at..at + 8], state);
}
