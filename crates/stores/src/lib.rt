// A finished picture in two lent stores: it is drawn into the one that doesn't hold the last finished picture, over the other.
#![tactic(auto)]

ghost use Rattle.std.specs.Prelude.{◌≡◌};
ghost use Rattle.layout.specs.Flat.{flat};
ghost use Rattle.coding.specs.Kind.{coding_of};
ghost use Rattle.coding.specs.Described.{Drawable};
ghost use Rattle.standing.specs.Stores.{stores, reference, stores_with};
ghost use Rattle.decoder.specs.Decoded.{told_drawn, marked_tr, marked_store, Drawing};
ghost use Rattle.stores.specs.Kept.{stores_or};

use coding::Kind;
use refusals::Refusal;
use standing::Holder;

// The picture of a valid description goes into the store that doesn't hold the last finished one, over the other.
pub fn keep(
    kind: Kind,
    holder: Holder,
    head: &[u8],
    macroblocks: &[u8],
    levels: &[u8],
    first: &mut [u8],
    second: &mut [u8],
)
    requires { Drawable kind (flat head.now macroblocks.now levels.now) first.old second.old }
    ensures { stores first.new second.new ≡ stores_with holder ((coding_of kind).render (flat head.now macroblocks.now levels.now) (reference holder (stores first.old second.old))) (stores first.old second.old) }
{
    match holder {
        Holder::Neither => coding::render(kind, head, macroblocks, levels, second, first),
        Holder::First => coding::render(kind, head, macroblocks, levels, first, second),
        Holder::Second => coding::render(kind, head, macroblocks, levels, second, first),
    }
}

// The picture that lent bits are goes there likewise, if the rules accept it and the mark that it came with is true; else neither store changes.
pub fn keep_read(
    kind: Kind,
    holder: Holder,
    bytes: &[u8],
    count: usize,
    mark: Option<bool>,
    first: &mut [u8],
    second: &mut [u8],
) -> Result<u32, Refusal>
    requires { Drawing kind first.old second.old }
    ensures answer { told_drawn result ≡ marked_tr kind mark bytes.now count }
    ensures samples { stores first.new second.new ≡ stores_or holder (stores first.old second.old) (marked_store kind mark bytes.now count (reference holder (stores first.old second.old))) }
{
    match holder {
        Holder::Neither => decoder::draw(bytes, count, kind, mark, second, first),
        Holder::First => decoder::draw(bytes, count, kind, mark, first, second),
        Holder::Second => decoder::draw(bytes, count, kind, mark, second, first),
    }
}
