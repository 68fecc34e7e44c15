// What is sent of a block, put into the store.
ghost use Rattle.std.specs.Prelude.{length};
ghost use Rattle.laws.specs.Rows.{Put};
ghost use Rattle.quantiser.specs.Level.{bytes_from};
ghost use Rattle.quantiser.specs.Sample.{sample_of};
ghost use Rattle.samples.specs.Content.{difference_of, unless_intra};
ghost use Rattle.samples.specs.Wrote.{block_from};
ghost use Rattle.samples.specs.Ready.{Sent};

use crate::{blocks, levels};

// "prediction (0 for INTRA) plus transform output": the store holds the prediction, and keeps it where every level is 0.
pub fn draw(
    store: &mut [u8],
    to: usize,
    stride: usize,
    intra: bool,
    quantiser: u8,
    levels: &[u8],
    at: usize,
)
    requires { Sent to stride at quantiser (length store.old) (length levels.now) }
    ensures { Put 8 8 to stride (λ i j. sample_of (unless_intra intra (block_from store.old to stride) i j) (difference_of (bytes_from levels.now at) intra quantiser i j)) store.old store.new }
{
    if intra {
        let output = levels::output(levels, at, true, quantiser);
        blocks::put(store, to, stride, &output);
        return;
    }
    if levels::empty(levels, at) {
        return;
    }
    let output = levels::output(levels, at, false, quantiser);
    blocks::add(store, to, stride, &output);
}
