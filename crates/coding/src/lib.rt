// What a clip is opened with, and what is done by it: a picture read, judged, written and drawn.
#![tactic(auto)]

ghost use Rattle.std.specs.Prelude.{◌≡◌, ◌^◌, ◌<◌, true, length};
ghost use Rattle.refusals.specs.Told.{told_verdict, verdict_on, found_or};
ghost use Rattle.bits.specs.Appended.{WroteBits};
ghost use Rattle.layout.specs.Flat.{flat, zeros};
ghost use Rattle.layout.specs.Valid.{has_lengths, Lengths};
ghost use Rattle.coding.specs.Kind.{kind_size, kind_standard, kind_in, shape_of, head_length_of, macroblocks_length_of, levels_length_of, coding_of, reads_of};
ghost use Rattle.coding.specs.Described.{ReadSays, ReadLeaves, ReadCounts, RoomIn, WriteSays, WriteLeaves, output_with, Writing, Writable, Drawable};

use fields::PictureRead;
use h261_groups::Format;
use refusals::{Reason, Refusal};
use size::Size;
use vault::Standard;

// A standard, with the size of its pictures.
#[derive(Clone, Copy)]
pub enum Kind {
    H261(Format),
    H263(Size),
}

pub fn size_of(kind: Kind) -> Size
    ensures { result ≡ kind_size kind }
{
    match kind {
        Kind::H261(format) => h261_groups::size_of(format),
        Kind::H263(size) => size,
    }
}

pub fn standard_of(kind: Kind) -> Standard
    ensures { result ≡ kind_standard kind }
{
    match kind {
        Kind::H261(_) => Standard::H261,
        Kind::H263(_) => Standard::H263,
    }
}

// A standard's kind of this size, if it has one: there is no sub-QCIF of H.261.
pub fn kind_in(standard: Standard, size: Size) -> Option<Kind>
    ensures { result ≡ kind_in standard size }
{
    match standard {
        Standard::H263 => Some(Kind::H263(size)),
        Standard::H261 => match size {
            Size::SubQcif => None,
            Size::Qcif => Some(Kind::H261(Format::Qcif)),
            Size::Cif => Some(Kind::H261(Format::Cif)),
        },
    }
}

// ---- the lengths of a description's three slices

pub fn head_length(kind: Kind) -> usize
    ensures { result ≡ head_length_of kind }
{
    match kind {
        Kind::H261(format) => h261_groups::head_length(format),
        Kind::H263(size) => h263_description::head_length(size),
    }
}

pub fn macroblocks_length(kind: Kind) -> usize
    ensures { result ≡ macroblocks_length_of kind }
{
    match kind {
        Kind::H261(format) => h261_groups::macroblocks_length(format),
        Kind::H263(size) => h263_description::macroblocks_length(size),
    }
}

pub fn levels_length(kind: Kind) -> usize
    ensures { result ≡ levels_length_of kind }
{
    match kind {
        Kind::H261(format) => h261_groups::levels_length(format),
        Kind::H263(size) => h263_description::levels_length(size),
    }
}

// ---- a picture's bits to its description

// The verdict of the rules, and how many fields and codewords were read. On acceptance the slices, lent as zeros, hold the description; on a refusal they are as they were.
pub fn parse_counted(
    kind: Kind,
    bytes: &[u8],
    count: usize,
    head: &mut [u8],
    macroblocks: &mut [u8],
    levels: &mut [u8],
) -> PictureRead
    requires { flat head.old macroblocks.old levels.old ≡ zeros (shape_of kind) }
    ensures verdict { told_verdict result.verdict ≡ verdict_on ((coding_of kind).read bytes.now count) }
    ensures buffers { flat head.new macroblocks.new levels.new ≡ found_or (flat head.old macroblocks.old levels.old) ((coding_of kind).read bytes.now count) }
    ensures reads { result.reads ≡ reads_of kind bytes.now count }
{
    match kind {
        Kind::H261(format) => {
            h261_reader::parse_counted(bytes, count, format, head, macroblocks, levels)
        }
        Kind::H263(size) => {
            h263_reader::parse_counted(bytes, count, size, head, macroblocks, levels)
        }
    }
}

// The verdict alone.
pub fn parse(
    kind: Kind,
    bytes: &[u8],
    count: usize,
    head: &mut [u8],
    macroblocks: &mut [u8],
    levels: &mut [u8],
) -> Result<(), Refusal>
    requires { flat head.old macroblocks.old levels.old ≡ zeros (shape_of kind) }
    ensures verdict { told_verdict result ≡ verdict_on ((coding_of kind).read bytes.now count) }
    ensures buffers { flat head.new macroblocks.new levels.new ≡ found_or (flat head.old macroblocks.old levels.old) ((coding_of kind).read bytes.now count) }
{
    let read = parse_counted(kind, bytes, count, head, macroblocks, levels);
    read.verdict
}

// ---- the same into buffers that hold anything: parsed in scratch, and copied once it is accepted

fn read_in(
    kind: Kind,
    bytes: &[u8],
    count: usize,
    header: &mut [u8],
    fields: &mut [u8],
    coefficients: &mut [u8],
    head: &mut [u8],
    macroblocks: &mut [u8],
    levels: &mut [u8],
) -> PictureRead
    requires { (flat header.old fields.old coefficients.old ≡ zeros (shape_of kind)) × (Lengths (shape_of kind) (flat head.old macroblocks.old levels.old)) }
    ensures verdict { told_verdict result.verdict ≡ verdict_on ((coding_of kind).read bytes.now count) }
    ensures buffers { flat head.new macroblocks.new levels.new ≡ found_or (flat head.old macroblocks.old levels.old) ((coding_of kind).read bytes.now count) }
    ensures reads { result.reads ≡ reads_of kind bytes.now count }
{
    let read = parse_counted(kind, bytes, count, header, fields, coefficients);
    let verdict = read.verdict;
    match verdict {
        Err(_) => read,
        Ok(()) => {
            head.copy_from_slice(header);
            macroblocks.copy_from_slice(fields);
            levels.copy_from_slice(coefficients);
            read
        }
    }
}

// Scratch of these lengths, which have room for the kind.
fn read_with<const HEAD: usize, const MACROBLOCKS: usize, const LEVELS: usize>(
    kind: Kind,
    bytes: &[u8],
    count: usize,
    head: &mut [u8],
    macroblocks: &mut [u8],
    levels: &mut [u8],
) -> PictureRead
    requires room { RoomIn HEAD MACROBLOCKS LEVELS kind }
    requires lengths { Lengths (shape_of kind) (flat head.old macroblocks.old levels.old) }
    // An array of a parameter's length has to have a size.
    requires sizes { (HEAD < 2 ^ 20) × (MACROBLOCKS < 2 ^ 20) × (LEVELS < 2 ^ 20) }
    ensures verdict { told_verdict result.verdict ≡ verdict_on ((coding_of kind).read bytes.now count) }
    ensures buffers { flat head.new macroblocks.new levels.new ≡ found_or (flat head.old macroblocks.old levels.old) ((coding_of kind).read bytes.now count) }
    ensures reads { result.reads ≡ reads_of kind bytes.now count }
{
    let mut header = [0u8; HEAD];
    let mut fields = [0u8; MACROBLOCKS];
    let mut coefficients = [0u8; LEVELS];
    let heads = head_length(kind);
    let fours = macroblocks_length(kind);
    let numbers = levels_length(kind);
    read_in(
        kind,
        bytes,
        count,
        &mut header[..heads],
        &mut fields[..fours],
        &mut coefficients[..numbers],
        head,
        macroblocks,
        levels,
    )
}

// Whether the three slices have the lengths of the kind's descriptions.
fn has_lengths(kind: Kind, head: &[u8], macroblocks: &[u8], levels: &[u8]) -> bool
    ensures { result ≡ has_lengths (shape_of kind) (flat head.now macroblocks.now levels.now) }
{
    match kind {
        Kind::H261(format) => h261_validity::lengths(head, macroblocks, levels, format),
        Kind::H263(size) => h263_validity::lengths(head, macroblocks, levels, size),
    }
}

// Nothing is asked of the buffers, and a refusal leaves them as they were.
pub fn read(
    kind: Kind,
    bytes: &[u8],
    count: usize,
    head: &mut [u8],
    macroblocks: &mut [u8],
    levels: &mut [u8],
) -> PictureRead
    ensures verdict { ReadSays kind bytes.now count (flat head.old macroblocks.old levels.old) result.verdict }
    ensures buffers { ReadLeaves kind bytes.now count (flat head.old macroblocks.old levels.old) (flat head.new macroblocks.new levels.new) }
    ensures reads { ReadCounts kind bytes.now count (flat head.old macroblocks.old levels.old) result.reads }
{
    if !has_lengths(kind, head, macroblocks, levels) {
        return PictureRead {
            verdict: Err(Refusal {
                reason: Reason::Length,
                place: 0,
            }),
            reads: 0,
        };
    }
    let size = size_of(kind);
    match size {
        Size::SubQcif => {
            read_with::<14, 396, 38016>(kind, bytes, count, head, macroblocks, levels)
        }
        Size::Qcif => read_with::<14, 396, 38016>(kind, bytes, count, head, macroblocks, levels),
        Size::Cif => read_with::<23, 1584, 152064>(kind, bytes, count, head, macroblocks, levels),
    }
}

// ---- a description judged

// Whether the three slices have named lengths.
pub fn named(kind: Kind, head: &[u8], macroblocks: &[u8], levels: &[u8]) -> bool
    ensures { result ≡ (coding_of kind).named (flat head.now macroblocks.now levels.now) }
{
    match kind {
        Kind::H261(_) => h261_validity::one_format(head, macroblocks, levels),
        Kind::H263(_) => h263_validity::one_size(head, macroblocks, levels),
    }
}

pub fn valid(kind: Kind, head: &[u8], macroblocks: &[u8], levels: &[u8]) -> bool
    ensures { result ≡ (coding_of kind).valid (flat head.now macroblocks.now levels.now) }
{
    match kind {
        Kind::H261(format) => h261_validity::valid(head, macroblocks, levels, format),
        Kind::H263(size) => h263_validity::valid(head, macroblocks, levels, size),
    }
}

// Whether a valid description is a refresh.
pub fn is_refresh(kind: Kind, head: &[u8], macroblocks: &[u8], levels: &[u8]) -> bool
    requires { (coding_of kind).valid (flat head.now macroblocks.now levels.now) ≡ true }
    ensures { result ≡ (coding_of kind).refresh (flat head.now macroblocks.now levels.now) }
{
    match kind {
        Kind::H261(format) => h261_validity::refresh::is_refresh(format, macroblocks),
        Kind::H263(_) => h263_validity::is_refresh(head),
    }
}

// ---- TR

// TR, which stands first in a description's head.
pub fn tr_of(kind: Kind, head: &[u8], macroblocks: &[u8], levels: &[u8]) -> u32
    ensures { result ≡ (coding_of kind).tr (flat head.now macroblocks.now levels.now) }
{
    if head.len() == 0 {
        return 0;
    }
    head[0] as u32
}

// The number that TR is counted modulo.
pub fn modulus(kind: Kind) -> u32
    ensures { result ≡ (coding_of kind).modulus }
{
    match kind {
        Kind::H261(_) => 32,
        Kind::H263(_) => 256,
    }
}

// ---- a description written and drawn

// The bits of a valid description's picture from the output's first on, as far as it has room for them, and how many they are.
pub fn append_picture(
    kind: Kind,
    head: &[u8],
    macroblocks: &[u8],
    levels: &[u8],
    out: &mut [u8],
) -> usize
    requires { (coding_of kind).valid (flat head.now macroblocks.now levels.now) ≡ true }
    ensures { WroteBits ((coding_of kind).written (flat head.now macroblocks.now levels.now)) out.old 0 out.new result }
{
    match kind {
        Kind::H261(format) => h261_writer::append_picture(head, macroblocks, levels, format, out),
        Kind::H263(size) => h263_writer::append_picture(head, macroblocks, levels, size, out),
    }
}

// They are made in scratch that has room for the limit, and counted on where it ends, so that a picture above the limit touches nothing. Of a copied one the last started byte is
// filled with zeros, and nothing after it is touched.
fn write_in(
    kind: Kind,
    head: &[u8],
    macroblocks: &[u8],
    levels: &[u8],
    scratch: &mut [u8],
    out: &mut [u8],
) -> usize
    requires { Writing kind (flat head.now macroblocks.now levels.now) (length scratch.old) (length out.old) }
    ensures count { result ≡ length ((coding_of kind).written (flat head.now macroblocks.now levels.now)) }
    ensures bytes { out.new ≡ output_with (kind_size kind) ((coding_of kind).written (flat head.now macroblocks.now levels.now)) out.old }
{
    let count = append_picture(kind, head, macroblocks, levels, scratch);
    let size = size_of(kind);
    let most = size::limit(size);
    if most < count {
        return count;
    }
    let started = (count + 7) / 8;
    out[..started].copy_from_slice(&scratch[..started]);
    count
}

// Scratch of this length, which is that of the output.
fn write_with<const BYTES: usize>(
    kind: Kind,
    head: &[u8],
    macroblocks: &[u8],
    levels: &[u8],
    out: &mut [u8],
) -> usize
    requires writing { Writing kind (flat head.now macroblocks.now levels.now) BYTES (length out.old) }
    // An array of a parameter's length has to have a size.
    requires sized { BYTES < 2 ^ 20 }
    ensures count { result ≡ length ((coding_of kind).written (flat head.now macroblocks.now levels.now)) }
    ensures bytes { out.new ≡ output_with (kind_size kind) ((coding_of kind).written (flat head.now macroblocks.now levels.now)) out.old }
{
    let mut scratch = [0u8; BYTES];
    write_in(kind, head, macroblocks, levels, &mut scratch, out)
}

// How many bits a valid description's picture has. They are in the output, unless they are above the limit.
fn write_valid(kind: Kind, head: &[u8], macroblocks: &[u8], levels: &[u8], out: &mut [u8]) -> usize
    requires { Writable kind (flat head.now macroblocks.now levels.now) out.old }
    ensures count { result ≡ length ((coding_of kind).written (flat head.now macroblocks.now levels.now)) }
    ensures bytes { out.new ≡ output_with (kind_size kind) ((coding_of kind).written (flat head.now macroblocks.now levels.now)) out.old }
{
    let size = size_of(kind);
    match size {
        Size::SubQcif => write_with::<8192>(kind, head, macroblocks, levels, out),
        Size::Qcif => write_with::<8192>(kind, head, macroblocks, levels, out),
        Size::Cif => write_with::<32768>(kind, head, macroblocks, levels, out),
    }
}

// The bits of the described picture in the output, or the refusal, which touches nothing.
pub fn write(
    kind: Kind,
    head: &[u8],
    macroblocks: &[u8],
    levels: &[u8],
    out: &mut [u8],
) -> Result<usize, Refusal>
    ensures write_says { WriteSays kind (flat head.now macroblocks.now levels.now) out.old result }
    ensures write_leaves { WriteLeaves kind (flat head.now macroblocks.now levels.now) out.old out.new }
{
    let size = size_of(kind);
    if !named(kind, head, macroblocks, levels) {
        return refusals::not_written(Reason::Length);
    }
    if out.len() != size::output_length(size) {
        return refusals::not_written(Reason::Length);
    }
    if !valid(kind, head, macroblocks, levels) {
        return refusals::not_written(Reason::Invalid);
    }
    let count = write_valid(kind, head, macroblocks, levels, out);
    if size::limit(size) < count {
        return refusals::not_written(Reason::AboveLimit);
    }
    Ok(count)
}

// Every sample of the store is the one that the description gives over the reference.
pub fn render(
    kind: Kind,
    head: &[u8],
    macroblocks: &[u8],
    levels: &[u8],
    reference: &[u8],
    store: &mut [u8],
)
    requires { Drawable kind (flat head.now macroblocks.now levels.now) reference.now store.old }
    ensures { store.new ≡ (coding_of kind).render (flat head.now macroblocks.now levels.now) reference.now }
{
    match kind {
        Kind::H261(format) => {
            h261_render::render(format, head, macroblocks, levels, reference, store)
        }
        Kind::H263(size) => h263_render::render(size, head, macroblocks, levels, reference, store),
    }
}
