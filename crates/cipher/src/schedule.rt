// Any words of the right number as a schedule: they are read as docs/SCOPE.md says.
ghost use Rattle.std.specs.Prelude.{◌≡◌, ◌<◌, ◌≤◌, ◌-◌, map, length};
ghost use Rattle.lanes.specs.Leaves.{Does};
ghost use Rattle.cipher.specs.Fixslice.{Scheduled, add_key_in, rounds_in, undone_in};

use mix_columns::{inv_mix_columns, mix_columns};
use round_keys::add_round_key;
use sbox::{inv_sub_bytes, sub_bytes};
use utils::load;
use utils::word::Word;

// The words, and the number of rounds that they are for.
#[derive(Drop)]
pub struct Schedule<'a, W: Word> {
    pub words: &'a [W],
    pub rounds: usize,
    ghost scheduled: { Scheduled rounds (length words.now) },
}

impl<'a, W: Word> Schedule<'a, W> {
    // XORs round key r, the eight words that start at offset 8r of the schedule, into the state.
    pub(crate) fn add_key(&self, state: [W; 8], r: usize) -> [W; 8]
        requires { r ≤ self.now.rounds }
        ensures { Does W.width (add_key_in W.width (map W.value self.now.words.now) r) (map W.value state) (map W.value result) }
    {
        add_round_key(state, load(self.words, 8 * r))
    }

    // Rounds 1 to n - 1, four forms to a turn: ShiftRows is left out, and form i of MixColumns accounts for i of them. The loop is left from its
    // middle, with the state before the key at offset 8n: after form 1 or, where n is a multiple of four, after form 3. (No `for` yields a value
    // from its middle.)
    pub(crate) fn do_rounds(&self, first: [W; 8]) -> [W; 8]
        ensures { Does W.width (rounds_in W.width (map W.value self.now.words.now) (self.now.rounds - 1)) (map W.value first) (map W.value result) }
    {
        let n = self.rounds;
        let mut state = first;
        let mut r: usize = 1;
        loop {
            let s1 = self.add_key(mix_columns::<W, 1>(sub_bytes(state)), r);
            r += 1;
            if r == n {
                break s1;
            }
            let s2 = self.add_key(mix_columns::<W, 2>(sub_bytes(s1)), r);
            r += 1;
            let s3 = self.add_key(mix_columns::<W, 3>(sub_bytes(s2)), r);
            r += 1;
            if r == n {
                break s3;
            }
            let s4 = self.add_key(mix_columns::<W, 0>(sub_bytes(s3)), r);
            r += 1;
            state = s4;
        }
    }

    // Rounds n - 1 to 1 undone, the forms in the opposite order. The loop is entered at form 1 or, where n is a multiple of four, at form 3.
    // (Two or four rounds to a turn: no step of a `for`.)
    pub(crate) fn undo_rounds(&self, first: [W; 8]) -> [W; 8]
        ensures { Does W.width (undone_in W.width (map W.value self.now.words.now) (self.now.rounds - 1)) (map W.value first) (map W.value result) }
    {
        let mut state = first;
        let mut r: usize = self.rounds - 1;
        loop {
            if r % 4 == 3 {
                let t3 = inv_sub_bytes(inv_mix_columns::<W, 3>(self.add_key(state, r)));
                r -= 1;
                let t2 = inv_sub_bytes(inv_mix_columns::<W, 2>(self.add_key(t3, r)));
                r -= 1;
                state = t2;
            }
            let t1 = inv_sub_bytes(inv_mix_columns::<W, 1>(self.add_key(state, r)));
            r -= 1;
            if r == 0 {
                break t1;
            }
            let t0 = inv_sub_bytes(inv_mix_columns::<W, 0>(self.add_key(t1, r)));
            r -= 1;
            state = t0;
        }
    }
}
