// One block of a macroblock that is sent.
ghost use Rattle.std.specs.Prelude.{◌≡◌, true, false, ◌≤◌, pos, length};
ghost use Rattle.laws.specs.Rows.{Put, Room};
ghost use Rattle.laws.specs.Block.{Is};
ghost use Rattle.quantiser.specs.Level.{bytes_from};
ghost use Rattle.quantiser.specs.Sample.{Samples, sample_of};
ghost use Rattle.samples.specs.Content.{difference_of};
ghost use Rattle.samples.specs.Wrote.{block_from, Wrote};
ghost use Rattle.h261_groups.specs.Format.{size_of};
ghost use Rattle.h261_description.specs.Vector.{ahead, back};
ghost use Rattle.layout.specs.Flat.{number_of};
ghost use Rattle.h261_description.specs.Moved.{halved_place, moved_place};
ghost use Rattle.h261_render.specs.Sample.{predicted, predictions_from};
ghost use Rattle.h261_render.specs.Turn.{intra_of, vector_from, BlockAt, BlockOf};

use crate::Prediction;
use h261_groups::Format;

// How far a component goes on, and how far back, in a plane: halved towards zero in CB and CR.
fn forth(plane: usize, component: u8) -> usize
    ensures { result ≡ halved_place plane (ahead (number_of component)) }
{
    if component < 128 {
        if plane == 0 {
            component as usize
        } else {
            (component as usize) / 2
        }
    } else {
        0
    }
}

fn behind(plane: usize, component: u8) -> usize
    ensures { result ≡ halved_place plane (back (number_of component)) }
{
    if component < 128 {
        0
    } else {
        if plane == 0 {
            256 - (component as usize)
        } else {
            (256 - (component as usize)) / 2
        }
    }
}

// A row or column of a plane, moved by a component of a vector.
fn moved(plane: usize, place: usize, component: u8) -> usize
    requires { (place ≤ 65535) × (halved_place plane (back (number_of component)) ≤ place) }
    ensures { result ≡ moved_place plane place (number_of component) }
{
    place + forth(plane, component) - behind(plane, component)
}

// The reference's block, filtered.
fn filtered(reference: &[u8], from: usize, stride: usize) -> [[i32; 8]; 8]
    requires { Room 8 8 from stride (length reference.now) }
    ensures is { Is (pos 0) (predicted Prediction.Filtered (block_from reference.now from stride)) result }
    ensures samples { Samples result }
{
    h261_filter::filter(samples::blocks::fetch(reference, from, stride))
}

// The block at one place of the store, predicted from another of the reference: the prediction is put there first, and what is sent added to it.
fn draw(
    reference: &[u8],
    from: usize,
    store: &mut [u8],
    to: usize,
    stride: usize,
    prediction: Prediction,
    quantiser: u8,
    levels: &[u8],
    at: usize,
)
    requires { BlockAt from to stride at quantiser (length reference.now) (length store.old) (length levels.now) }
    ensures { Put 8 8 to stride (λ i j. sample_of (predicted prediction (block_from reference.now from stride) i j) (difference_of (bytes_from levels.now at) (intra_of prediction) quantiser i j)) store.old store.new }
{
    match prediction {
        Prediction::Intra => {
            samples::draw::draw(store, to, stride, true, quantiser, levels, at);
        }
        Prediction::Inter => {
            samples::rows::copy(8, reference, from, store, to, stride);
            samples::draw::draw(store, to, stride, false, quantiser, levels, at);
        }
        Prediction::Filtered => {
            let block = filtered(reference, from, stride);
            samples::blocks::put(store, to, stride, &block);
            samples::draw::draw(store, to, stride, false, quantiser, levels, at);
        }
    }
}

// Block row y, block column x of a plane.
pub fn block(
    format: Format,
    reference: &[u8],
    store: &mut [u8],
    plane: usize,
    y: usize,
    x: usize,
    prediction: Prediction,
    horizontal: u8,
    vertical: u8,
    quantiser: u8,
    levels: &[u8],
    at: usize,
)
    requires { BlockOf format plane y x (vector_from horizontal vertical) at quantiser (length reference.now) (length store.old) (length levels.now) }
    ensures { Wrote (size_of format) plane y x (λ i j. sample_of (predictions_from format reference.now prediction (vector_from horizontal vertical) plane y x i j) (difference_of (bytes_from levels.now at) (intra_of prediction) quantiser i j)) store.old store.new }
{
    let size = h261_groups::size_of(format);
    let down = moved(plane, y * 8, vertical);
    let along = moved(plane, x * 8, horizontal);
    let from = samples::rows::place(size, plane, down, along);
    let to = samples::rows::place(size, plane, y * 8, x * 8);
    let stride = size::place::stride(size, plane);
    draw(
        reference, from, store, to, stride, prediction, quantiser, levels, at,
    );
}
