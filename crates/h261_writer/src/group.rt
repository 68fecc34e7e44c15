// The group layer.
ghost use Rattle.bits.specs.Appended.{WroteBits};
ghost use Rattle.h261_description.specs.Vector.{at_start};
ghost use Rattle.layout.specs.Flat.{macroblocks_in};
ghost use Rattle.h261_writer.specs.Write.{macroblocks_of, group_of};
ghost use Rattle.h261_writer.specs.Sound.{group_in};
ghost use Rattle.h261_writer.specs.Asked.{MacroblocksAsked, GroupAsked};

use crate::macroblock;
use h261_words::WordTables;

// The macroblocks of a group that are sent; the slices begin with its 33.
fn macroblocks(
    tables: &WordTables,
    fields: &[u8],
    levels: &[u8],
    out: &mut [u8],
    at: usize,
) -> usize
    requires { MacroblocksAsked tables.now fields.now levels.now at }
    ensures { WroteBits (macroblocks_of at_start (macroblocks_in 33 1 fields.now levels.now)) out.old at out.new result }
{
    let mut last: usize = 0;
    let mut horizontal: u8 = 0;
    let mut vertical: u8 = 0;
    let mut place = at;
    for k in 0..33 {
        let a = k * 4;
        let b = k * 384;
        if fields[a] == 0 {
            continue;
        }
        let address = k + 1;
        place = macroblock::macroblock(
            tables,
            &fields[a..a + 4],
            &levels[b..b + 384],
            last,
            horizontal,
            vertical,
            address,
            out,
            place,
        );
        last = address;
        horizontal = fields[a + 2];
        vertical = fields[a + 3];
    }
    place
}

// GBSC, GN, GQUANT, GEI 0, and the macroblocks.
pub fn group(
    tables: &WordTables,
    number: usize,
    gquant: u8,
    fields: &[u8],
    levels: &[u8],
    out: &mut [u8],
    at: usize,
) -> usize
    requires { GroupAsked tables.now number gquant fields.now levels.now at }
    ensures { WroteBits (group_of number (group_in gquant fields.now levels.now)) out.old at out.new result }
{
    let started = bits::append(out, at, 16, 1);
    let numbered = bits::append(out, started, 4, number as u32);
    let quantised = bits::append(out, numbered, 5, gquant as u32);
    let ready = bits::append(out, quantised, 1, 0);
    macroblocks(tables, fields, levels, out, ready)
}
