// key_schedule of the Rust's aes128.rs and aes256.rs: a key into the words of its schedule. Each round key is eight words, the same block in every slot
// (docs/SCOPE.md, "Reading a schedule").
#![tactic(auto)]

ghost use Rattle.std.specs.Prelude.{◌≡◌, ◌+◌, ◌*◌, ◌/◌, ◌<◌, ◌≤◌, map, length};
ghost use Rattle.lanes.specs.Sizes.{key_size};
ghost use Rattle.lanes.specs.Schedule.{add63, rows_unshifted, write_key, schedule_of};
ghost use Rattle.lanes.specs.Leaves.{Does, all, Changes};
ghost use Rattle.schedule.specs.Steps.{SizedFor, Expands, Follows, key_pass, next_of, step_constant, step_rows, Loaded, Grows, Adjusted};

use round_keys::{add_round_constant, memshift32, xor_columns};
use sbox::{sub_bytes, sub_bytes_nots};
use shift_rows::inv_shift_rows;
use utils::word::Word;
use utils::{load, store};
use word::broadcast;
use word::packed::Packed;

// The ten round constants; their set bits choose the words to flip. AES-256 uses the first seven.
const ROUND_CONSTANTS: [u8; 10] = [0x01, 0x02, 0x04, 0x08, 0x10, 0x20, 0x40, 0x80, 0x1b, 0x36];

// What step p of a round constant's adds: only the first adds the constant.
fn step_constant(rcon: usize, p: usize) -> u8
    requires { rcon < 10 }
    ensures { result ≡ step_constant rcon p }
{
    if p == 0 { ROUND_CONSTANTS[rcon] } else { 0 }
}

// The rows by which it rotates the last column: the others rotate columns only.
fn step_rows(p: usize) -> u32
    ensures { result ≡ step_rows p }
{
    if p == 0 { 1 } else { 0 }
}

// The blocks of the key, each into every slot of a round key.
fn load_key<W: Packed>(rkeys: &mut [W], key: &[u8])
    requires { 8 * (length key.now / 16) ≤ length rkeys.old }
    ensures { Loaded W.width (length key.now / 16) key.now (map W.value rkeys.new) }
{
    for (i, block) in key.as_chunks::<16>().0.iter().enumerate() {
        store(rkeys, 8 * i, broadcast(block));
    }
}

// SubBytes on a round key: the S-box pass and its NOTs; and a round constant.
fn key_pass<W: Word>(rkey: [W; 8], constant: u8) -> [W; 8]
    ensures { Does W.width (all (key_pass constant)) (map W.value rkey) (map W.value result) }
{
    add_round_constant(sub_bytes_nots(sub_bytes(rkey)), constant)
}

// Round key r, from the one before it, whose last column is rotated by `rows`, and from the one m before it. A step without a constant adds 0.
// (By number, since two keys are read, and one written, in one array. `rows`, and `times` below, are counts, as in round_keys and shift_rows.)
fn next_key<W: Word>(rkeys: &mut [W], r: usize, m: usize, constant: u8, rows: u32)
    requires { Follows m r (length rkeys.old) × (rows < 2) }
    ensures { Changes W.width (next_of W.width rows (key_pass constant) (map W.value rkeys.old) r m) (8 * r)
        (map W.value rkeys.old) (map W.value rkeys.new) }
{
    memshift32(rkeys, 8 * r - 8);
    let rkey = load(rkeys, 8 * r);
    store(rkeys, 8 * r, key_pass(rkey, constant));
    xor_columns(rkeys, 8 * r, 8 * m, rows);
}

// All further round keys from the first m: m is 1 in AES-128 and 2 in AES-256. A round constant has m steps, until the schedule ends. The steps are a
// loop in a loop, so that clang inlines the S-box (docs/SPEED.md).
fn expand_keys<W: Word>(rkeys: &mut [W], m: usize)
    requires { Expands m (length rkeys.old) }
    ensures { Grows W.width (4 * m) m (4 * m + 7) (map W.value rkeys.old) (map W.value rkeys.new) }
{
    let end = rkeys.len() / 8;
    // A count, since the steps of a constant and the keys they make go by it, and only the first step reads the constant.
    for rcon in 0..10 {
        for p in 0..m {
            let r = m * (rcon + 1) + p;
            if r < end {
                let constant = step_constant(rcon, p);
                let rows = step_rows(p);
                next_key(rkeys, r, m, constant, rows);
            }
        }
    }
}

// A round key as it is held: by so many inverse row shifts, and with the NOTs that the S-box leaves out.
fn write_key<W: Word>(rkey: [W; 8], times: usize) -> [W; 8]
    requires { times < 4 }
    ensures { Does W.width (all (λ k. add63 (rows_unshifted times k))) (map W.value rkey) (map W.value result) }
{
    sub_bytes_nots(inv_shift_rows(rkey, times))
}

// Adjusts round keys 1 to n, the number of rounds, to the fixsliced format: key r by r mod 4 inverse row shifts, the last by none.
// (An index: std does not say what a slice has become behind as_chunks_mut. n is twice named in the promise, so it is a parameter.)
fn write_keys<W: Word>(rkeys: &mut [W], n: usize)
    requires { (1 ≤ n) × (8 * n + 8 ≤ length rkeys.old) }
    ensures { Adjusted W.width (write_key n) (n + 1) (map W.value rkeys.old) (map W.value rkeys.new) }
{
    for r in 1..n {
        let rkey = load(rkeys, 8 * r);
        store(rkeys, 8 * r, write_key(rkey, r % 4));
    }
    let last = load(rkeys, 8 * n);
    store(rkeys, 8 * n, sub_bytes_nots(last));
}

// The schedule of a key, by the key's length: 88 words for 16 bytes, 120 for 32.
pub fn key_schedule<W: Packed>(key: &[u8], rkeys: &mut [W])
    requires { SizedFor (length key.now) (length rkeys.old) }
    ensures { map W.value rkeys.new ≡ schedule_of W.width (key_size (length key.now)).nk key.now }
{
    let m = key.len() / 16;
    let n = rkeys.len() / 8 - 1;
    load_key(rkeys, key);
    expand_keys(rkeys, m);
    write_keys(rkeys, n);
}
