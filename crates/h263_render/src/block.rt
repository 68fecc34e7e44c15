// One block of a macroblock that is sent.
ghost use Rattle.std.specs.Prelude.{◌≡◌, ◌≤◌, pos, length};
ghost use Rattle.laws.specs.Rows.{Put};
ghost use Rattle.quantiser.specs.Level.{bytes_from};
ghost use Rattle.quantiser.specs.Sample.{sample_of};
ghost use Rattle.samples.specs.Content.{difference_of};
ghost use Rattle.samples.specs.Wrote.{Wrote};
ghost use Rattle.layout.specs.Flat.{number_of, byte_vector};
ghost use Rattle.h263_description.specs.Moved.{in_plane, half_place};
ghost use Rattle.h263_render.specs.Sample.{source, predictions_from};
ghost use Rattle.h263_render.specs.Turn.{Moves, PredictionOf, BlockOf};

use size::Size;

// How far a component of so many half samples goes in a plane: in CB and CR half as far, in half samples, where quarters go to the half between.
fn halved(plane: usize, count: usize) -> usize
    requires { count ≤ 128 }
    ensures { in_plane plane (pos count) ≡ pos result }
{
    if plane == 0 {
        count
    } else {
        count / 4 + (count + 3) / 4
    }
}

// A row or column of a plane, moved by a component of a vector, in half samples.
fn half_place(plane: usize, place: usize, component: u8) -> usize
    requires { Moves plane place (number_of component) }
    ensures { result ≡ half_place plane place (number_of component) }
{
    if component < 128 {
        place * 2 + halved(plane, component as usize)
    } else {
        place * 2 - halved(plane, 256 - (component as usize))
    }
}

// A block of the reference, moved by its vector, put where the block lies.
fn predict(
    size: Size,
    reference: &[u8],
    store: &mut [u8],
    to: usize,
    start: usize,
    stride: usize,
    plane: usize,
    y: usize,
    x: usize,
    horizontal: u8,
    vertical: u8,
)
    requires { PredictionOf size plane y x to start stride (byte_vector horizontal vertical) (length reference.now) (length store.old) }
    ensures { Put 8 8 to stride (source size reference.now (byte_vector horizontal vertical) plane y x) store.old store.new }
{
    let down = half_place(plane, y * 8, vertical);
    let along = half_place(plane, x * 8, horizontal);
    let from = samples::rows::place_from(size, plane, start, stride, down / 2, along / 2);
    h263_halves::put(reference, from, store, to, stride, along % 2, down % 2);
}

// Block row y, block column x of a plane: the prediction is put there first, and what is sent added to it.
pub fn block(
    size: Size,
    reference: &[u8],
    store: &mut [u8],
    plane: usize,
    y: usize,
    x: usize,
    intra: bool,
    horizontal: u8,
    vertical: u8,
    quantiser: u8,
    levels: &[u8],
    at: usize,
)
    requires { BlockOf size plane y x intra (byte_vector horizontal vertical) at quantiser (length reference.now) (length store.old) (length levels.now) }
    ensures { Wrote size plane y x (λ i j. sample_of (predictions_from size reference.now intra (byte_vector horizontal vertical) plane y x i j) (difference_of (bytes_from levels.now at) intra quantiser i j)) store.old store.new }
{
    let start = size::place::start(size, plane);
    let stride = size::place::stride(size, plane);
    let to = samples::rows::place_from(size, plane, start, stride, y * 8, x * 8);
    if intra {
        samples::draw::draw(store, to, stride, true, quantiser, levels, at);
        return;
    }
    predict(
        size, reference, store, to, start, stride, plane, y, x, horizontal, vertical,
    );
    samples::draw::draw(store, to, stride, false, quantiser, levels, at);
}
