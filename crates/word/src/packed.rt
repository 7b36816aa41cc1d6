// What packing asks of a word beyond the trait Word: how many bytes fill eight words, and the way between these bytes and the words before the swaps.
ghost use Rattle.std.specs.Prelude.{◌≡◌, ℕ, ◌*◌, map, length, get_or};
ghost use Rattle.lanes.specs.Layout.{slots, each_slot, join};
ghost use Rattle.lanes.specs.Programs.{words, load_program, broadcast_program, store_program};

use utils::word::Word;

pub trait Packed: Word {
    // The bytes of as many blocks as there are slots.
    const BATCH: usize;

    ghost BATCH: { ℕ };

    // A batch into the words before the swaps.
    fn load_blocks(input: &[u8]) -> [Self; 8]
        requires { length input.now ≡ 16 * slots Self.width }
        ensures { map Self.value result ≡ load_program (words Self.width) Self.width (λ i. get_or input.now i 0) };

    // The same words where all blocks are one block.
    fn load_repeated(block: &[u8]) -> [Self; 8]
        requires { length block.now ≡ 16 }
        ensures { map Self.value result ≡ broadcast_program (words Self.width) Self.width (λ i. get_or block.now i 0) };

    // The words after the swaps into a batch.
    fn store_blocks(t: [Self; 8], output: &mut [u8])
        requires { length output.old ≡ 16 * slots Self.width }
        ensures { output.new ≡ join (each_slot Self.width (store_program (words Self.width) Self.width (λ p. get_or (map Self.value t) p 0))) };

    ghost batch_is: { BATCH ≡ 16 * slots Self.width };
}
