// Bits and a reference to a store: reading, then the mark, then rendering. Acceptance is settled before the first sample is written.
#![tactic(auto)]

ghost use Rattle.std.specs.Prelude.{◌≡◌, ◌^◌, ◌<◌, true};
ghost use Rattle.refusals.specs.Told.{found_or};
ghost use Rattle.layout.specs.Flat.{flat};
ghost use Rattle.coding.specs.Kind.{coding_of};
ghost use Rattle.coding.specs.Described.{RoomIn};
ghost use Rattle.decoder.specs.Decoded.{true_mark, told_drawn, marked_tr, marked_store, DecodeSays, DecodeLeaves, Drawing, Decodable};

use coding::Kind;
use refusals::{Reason, Refusal};
use size::Size;

// Whether the refresh mark that the picture came with, if it came with one, stands exactly on a refresh.
fn is_true(kind: Kind, mark: Option<bool>, head: &[u8], macroblocks: &[u8], levels: &[u8]) -> bool
    requires { (coding_of kind).valid (flat head.now macroblocks.now levels.now) ≡ true }
    ensures { result ≡ true_mark (coding_of kind) mark (flat head.now macroblocks.now levels.now) }
{
    match mark {
        None => true,
        Some(marked) => {
            let refreshed = coding::is_refresh(kind, head, macroblocks, levels);
            refreshed == marked
        }
    }
}

// The description is read into lent scratch and its mark judged, then it is rendered: the TR of the picture that was drawn, or the refusal.
fn draw_in(
    bytes: &[u8],
    count: usize,
    kind: Kind,
    mark: Option<bool>,
    head: &mut [u8],
    macroblocks: &mut [u8],
    levels: &mut [u8],
    reference: &[u8],
    store: &mut [u8],
) -> Result<u32, Refusal>
    requires { Decodable kind head.old macroblocks.old levels.old reference.now store.old }
    ensures answer { told_drawn result ≡ marked_tr kind mark bytes.now count }
    ensures samples { store.new ≡ found_or store.old (marked_store kind mark bytes.now count reference.now) }
{
    let verdict = coding::parse(kind, bytes, count, head, macroblocks, levels);
    match verdict {
        Err(why) => Err(why),
        Ok(()) => {
            if is_true(kind, mark, head, macroblocks, levels) {
                coding::render(kind, head, macroblocks, levels, reference, store);
                let tr = coding::tr_of(kind, head, macroblocks, levels);
                return Ok(tr);
            }
            Err(Refusal {
                reason: Reason::UntrueMark,
                place: 0,
            })
        }
    }
}

// ---- scratch by size: a picture clears no more than its own size needs

// Scratch of these lengths, which have room for the kind.
fn draw_with<const HEAD: usize, const MACROBLOCKS: usize, const LEVELS: usize>(
    bytes: &[u8],
    count: usize,
    kind: Kind,
    mark: Option<bool>,
    reference: &[u8],
    store: &mut [u8],
) -> Result<u32, Refusal>
    requires room { RoomIn HEAD MACROBLOCKS LEVELS kind }
    requires drawing { Drawing kind reference.now store.old }
    // An array of a parameter's length has to have a size.
    requires sizes { (HEAD < 2 ^ 20) × (MACROBLOCKS < 2 ^ 20) × (LEVELS < 2 ^ 20) }
    ensures answer { told_drawn result ≡ marked_tr kind mark bytes.now count }
    ensures samples { store.new ≡ found_or store.old (marked_store kind mark bytes.now count reference.now) }
{
    let mut head = [0u8; HEAD];
    let mut macroblocks = [0u8; MACROBLOCKS];
    let mut levels = [0u8; LEVELS];
    let heads = coding::head_length(kind);
    let fields = coding::macroblocks_length(kind);
    let coefficients = coding::levels_length(kind);
    draw_in(
        bytes,
        count,
        kind,
        mark,
        &mut head[..heads],
        &mut macroblocks[..fields],
        &mut levels[..coefficients],
        reference,
        store,
    )
}

// The verdict of the rules, then of the mark; on acceptance the picture's TR. Then every byte of the store is the sample that the rules give over the reference; on a refusal it is unchanged.
pub fn draw(
    bytes: &[u8],
    count: usize,
    kind: Kind,
    mark: Option<bool>,
    reference: &[u8],
    store: &mut [u8],
) -> Result<u32, Refusal>
    requires { Drawing kind reference.now store.old }
    ensures answer { told_drawn result ≡ marked_tr kind mark bytes.now count }
    ensures samples { store.new ≡ found_or store.old (marked_store kind mark bytes.now count reference.now) }
{
    let size = coding::size_of(kind);
    match size {
        Size::SubQcif => draw_with::<14, 396, 38016>(bytes, count, kind, mark, reference, store),
        Size::Qcif => draw_with::<14, 396, 38016>(bytes, count, kind, mark, reference, store),
        Size::Cif => draw_with::<23, 1584, 152064>(bytes, count, kind, mark, reference, store),
    }
}

// The verdict of the rules. On acceptance every byte of the store is the sample that the rules give over the reference; on a refusal it is unchanged.
pub fn decode(
    bytes: &[u8],
    count: usize,
    kind: Kind,
    reference: &[u8],
    store: &mut [u8],
) -> Result<(), Refusal>
    ensures verdict { DecodeSays kind bytes.now count reference.now store.old result }
    ensures samples { DecodeLeaves kind bytes.now count reference.now store.old store.new }
{
    let size = coding::size_of(kind);
    let named = size::store_length(size);
    let unfit = Refusal {
        reason: Reason::Length,
        place: 0,
    };
    if reference.len() != named {
        return Err(unfit);
    }
    if store.len() != named {
        return Err(unfit);
    }
    let drawn = draw(bytes, count, kind, None, reference, store);
    match drawn {
        Ok(_) => Ok(()),
        Err(why) => Err(why),
    }
}
