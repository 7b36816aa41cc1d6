// The row shifts of the Rust's utils.rs, over any word.
#![tactic(auto)]

ghost use Rattle.std.specs.Prelude.{◌≡◌, ◌<◌, ◌*◌, map};
ghost use Rattle.lanes.specs.Schedule.{rows_shifted, rows_unshifted};
ghost use Rattle.lanes.specs.Leaves.{Does, all};
ghost use Rattle.lanes.specs.Layout.{quarter_row};
ghost use Rattle.lanes.specs.Masks.{pack_rows};
ghost use Rattle.lanes.specs.Programs.{words, delta_swap1, shift_word};

use utils::delta_swap_1;
use utils::word::Word;

// Swaps the halves of rows by a mask, and then the quarters of every half of the odd rows.
fn swap_twice<W: Word>(x: W, mask: W) -> W
    ensures { W.value result ≡ delta_swap1 (words W.width) W.width (quarter_row W.width) (pack_rows W.width 0 0x33 0 0x33)
        (delta_swap1 (words W.width) W.width (quarter_row W.width * 2) (W.value mask) (W.value x)) }
{
    delta_swap_1(
        delta_swap_1(x, W::BITS / 8, mask),
        W::BITS / 16,
        W::pack_rows(0x00, 0x33, 0x00, 0x33),
    )
}

// ShiftRows N times on one word. (N is a constant, so no switch is left when this is compiled.)
fn shift_word<W: Word, const N: usize>(x: W) -> W
    requires { N < 4 }
    ensures { W.value result ≡ shift_word (words W.width) W.width N (W.value x) }
{
    match N {
        0 => x,
        1 => swap_twice(x, W::pack_rows(0x00, 0x03, 0x0f, 0x0c)),
        2 => delta_swap_1(x, W::BITS / 8, W::pack_rows(0x00, 0x0f, 0x00, 0x0f)),
        _ => swap_twice(x, W::pack_rows(0x00, 0x0c, 0x0f, 0x03)),
    }
}

// ShiftRows N times on an AES state (or key).
#[inline(always)]
pub fn shift_rows<W: Word, const N: usize>(state: [W; 8]) -> [W; 8]
    requires { N < 4 }
    ensures { Does W.width (all (rows_shifted N)) (map W.value state) (map W.value result) }
{
    [
        shift_word::<W, N>(state[0]),
        shift_word::<W, N>(state[1]),
        shift_word::<W, N>(state[2]),
        shift_word::<W, N>(state[3]),
        shift_word::<W, N>(state[4]),
        shift_word::<W, N>(state[5]),
        shift_word::<W, N>(state[6]),
        shift_word::<W, N>(state[7]),
    ]
}

// Its inverse: four row shifts are none. (How often goes by the round, so it is no constant.)
#[inline(always)]
pub fn inv_shift_rows<W: Word>(state: [W; 8], times: usize) -> [W; 8]
    requires { times < 4 }
    ensures { Does W.width (all (rows_unshifted times)) (map W.value state) (map W.value result) }
{
    match times {
        1 => shift_rows::<W, 3>(state),
        2 => shift_rows::<W, 2>(state),
        3 => shift_rows::<W, 1>(state),
        _ => state,
    }
}
