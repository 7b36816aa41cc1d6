// What the Rust's utils.rs does with round keys, over any word: adding one to a state, and the steps of the key expansion.
#![tactic(auto)]

ghost use Rattle.std.specs.Prelude.{◌≡◌, ◌+◌, ◌-◌, ◌<◌, ◌≤◌, map, length};
ghost use Rattle.std.specs.Int.Bits.{bit_xor};
ghost use Rattle.lanes.specs.Masks.{pack_rows};
ghost use Rattle.lanes.specs.Schedule.{words_at};
ghost use Rattle.lanes.specs.Leaves.{Does, all, add_key_of, add_constant, put, Changes, next_key_of};
ghost use Rattle.lanes.specs.Programs.{words, column_word};

use utils::word::Word;
use utils::{load, ror, ror_distance, store};

// XORs the round key into the state.
pub fn add_round_key<W: Word>(state: [W; 8], rkey: [W; 8]) -> [W; 8]
    ensures { Does W.width (add_key_of W.width (map W.value rkey)) (map W.value state) (map W.value result) }
{
    [
        state[0].xor(rkey[0]),
        state[1].xor(rkey[1]),
        state[2].xor(rkey[2]),
        state[3].xor(rkey[3]),
        state[4].xor(rkey[4]),
        state[5].xor(rkey[5]),
        state[6].xor(rkey[6]),
        state[7].xor(rkey[7]),
    ]
}

// Copies the eight words at an offset to the eight after them; nothing else changes. (Offsets here and in xor_columns are the Rust's.)
pub fn memshift32<W: Word>(rkeys: &mut [W], off: usize)
    requires { off + 16 ≤ length rkeys.old }
    ensures long { length rkeys.new ≡ length rkeys.old }
    ensures copied { map W.value rkeys.new ≡ put (map W.value rkeys.old) (off + 8) (words_at (map W.value rkeys.old) off) }
{
    let s = load(rkeys, off);
    store(rkeys, off + 8, s);
}

// One word of the next round key: `prev` of the key before, `cur` after the S-box pass, rotated by three columns and `rows` rows. (A number of rows, as
// ror_distance takes it, and no kind of step: a type of its own would be made a number again here.)
fn xor_column<W: Word>(prev: W, cur: W, rows: u32) -> W
    requires { rows < 2 }
    ensures { W.value result ≡ column_word (words W.width) W.width rows (W.value prev) (W.value cur) }
{
    let rk = prev.xor(ror(cur, ror_distance::<W>(rows, 3)).and(W::uniform_row(0x03)));
    rk.xor(rk.shl(ror_distance::<W>(0, 1)).and(W::uniform_row(0xfc)))
        .xor(rk.shl(ror_distance::<W>(0, 2)).and(W::uniform_row(0xf0)))
        .xor(rk.shl(ror_distance::<W>(0, 3)).and(W::uniform_row(0xc0)))
}

fn xor_states<W: Word>(prev: [W; 8], cur: [W; 8], rows: u32) -> [W; 8]
    requires { rows < 2 }
    ensures { Does W.width (next_key_of W.width rows (map W.value prev)) (map W.value cur) (map W.value result) }
{
    [
        xor_column(prev[0], cur[0], rows),
        xor_column(prev[1], cur[1], rows),
        xor_column(prev[2], cur[2], rows),
        xor_column(prev[3], cur[3], rows),
        xor_column(prev[4], cur[4], rows),
        xor_column(prev[5], cur[5], rows),
        xor_column(prev[6], cur[6], rows),
        xor_column(prev[7], cur[7], rows),
    ]
}

// The next round key's columns, in place: the words at `off` have been through the S-box, `idx_xor` words before them stands the key to add.
pub fn xor_columns<W: Word>(rkeys: &mut [W], off: usize, idx_xor: usize, rows: u32)
    requires { (8 ≤ idx_xor) × (idx_xor ≤ off) × (off + 8 ≤ length rkeys.old) × (rows < 2) }
    ensures long { length rkeys.new ≡ length rkeys.old }
    ensures changed { Changes W.width (next_key_of W.width rows (words_at (map W.value rkeys.old) (off - idx_xor))) off
        (map W.value rkeys.old) (map W.value rkeys.new) }
{
    let p = load(rkeys, off - idx_xor);
    let s = load(rkeys, off);
    store(rkeys, off, xor_states(p, s, rows));
}

// A word of the state with a bit of a round constant in row 1, column 3, all slots: xor_columns rotates it to row 0.
fn add_round_constant_bit<W: Word>(word: W, constant: u8, bit: u32) -> W
    requires { bit < 8 }
    ensures { W.value result ≡ bit_xor (W.value word) ((words W.width).bit_times bit (pack_rows W.width 0 0xc0 0 0) constant) }
{
    word.xor(W::pack_rows(0x00, 0xc0, 0x00, 0x00).times((constant >> bit) % 2))
}

// A round constant: its set bits choose the words to flip.
pub fn add_round_constant<W: Word>(state: [W; 8], constant: u8) -> [W; 8]
    ensures { Does W.width (all (add_constant constant)) (map W.value state) (map W.value result) }
{
    [
        add_round_constant_bit(state[0], constant, 0),
        add_round_constant_bit(state[1], constant, 1),
        add_round_constant_bit(state[2], constant, 2),
        add_round_constant_bit(state[3], constant, 3),
        add_round_constant_bit(state[4], constant, 4),
        add_round_constant_bit(state[5], constant, 5),
        add_round_constant_bit(state[6], constant, 6),
        add_round_constant_bit(state[7], constant, 7),
    ]
}
