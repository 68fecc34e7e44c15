// A sender of one clip: state by value, in and out.
#![tactic(auto)]

ghost use Rattle.std.specs.Prelude.{◌≡◌, ◌^◌, ◌<◌, eqb, length};
ghost use Rattle.laws.specs.Choice.{both, either, opposite};
ghost use Rattle.refusals.specs.Number.{refusal};
ghost use Rattle.refusals.specs.Told.{numbers_of, refused_by};
ghost use Rattle.size.specs.Size.{output_length};
ghost use Rattle.layout.specs.Flat.{flat};
ghost use Rattle.coding.specs.Kind.{kind_size, coding_of};
ghost use Rattle.vault.specs.Block.{pictures};
ghost use Rattle.sender.specs.Sending.{SendDoes, Passed, Encoded};
ghost use Rattle.sender.specs.Send.{opened_sender, told_opened, buffers, lent_lengths, reply, told_sent, sends, next_sender, outcome, came_to, ShowHands};

use coding::Kind;
use refusals::{Reason, Refusal};
use size::Size;
use standing::Holder;

#[derive(Clone, Copy)]
pub struct Sender {
    pub clip: u16,
    pub kind: Kind,
    // The number of the next picture.
    pub picture: u32,
    // Which store holds the last picture sent.
    pub holder: Holder,
}

#[derive(Clone, Copy)]
pub struct Sent {
    // How many blocks were written, or the refusal.
    pub answer: Result<usize, Refusal>,
    pub next: Sender,
}

pub fn open(clip: u16, kind: Kind) -> Result<Sender, Refusal>
    ensures { told_opened result ≡ opened_sender clip kind }
{
    if clip == 0 {
        return Err(Refusal {
            reason: Reason::BlockField,
            place: 0,
        });
    }
    Ok(Sender {
        clip,
        kind,
        picture: 0,
        holder: Holder::Neither,
    })
}

// ---- judging a call

// Whether every lent buffer has its named length.
fn named(
    kind: Kind,
    head: &[u8],
    macroblocks: &[u8],
    levels: &[u8],
    out: &[u8],
    first: &[u8],
    second: &[u8],
) -> bool
    ensures { result ≡ both ((coding_of kind).named (flat head.now macroblocks.now levels.now)) (lent_lengths (kind_size kind) (buffers out.now first.now second.now)) }
{
    if !coding::named(kind, head, macroblocks, levels) {
        return false;
    }
    let size = coding::size_of(kind);
    if out.len() != size::blocks_length(size) {
        return false;
    }
    standing::sized(size, first.len(), second.len())
}

// Picture 0 must be a refresh.
fn begins(picture: u32, refresh: bool) -> bool
    ensures { result ≡ either (opposite (eqb picture 0)) refresh }
{
    if picture == 0 {
        return refresh;
    }
    true
}

fn refused(sender: Sender, reason: Reason) -> Sent
    ensures { told_sent result ≡ reply (refused_by (numbers_of (refusal reason 0))) sender }
{
    Sent {
        answer: Err(Refusal { reason, place: 0 }),
        next: sender,
    }
}

// ---- a picture that is sent

fn number_on(sender: Sender) -> Sender
    requires { sender.picture < pictures }
    ensures { result ≡ next_sender sender }
{
    let kind = sender.kind;
    let held = sender.holder;
    let holder = standing::goes_into(held);
    Sender {
        clip: sender.clip,
        kind,
        picture: sender.picture + 1,
        holder,
    }
}

// Its bits are cut into blocks, and its samples go into a store.
fn put(
    sender: Sender,
    refresh: bool,
    head: &[u8],
    macroblocks: &[u8],
    levels: &[u8],
    bytes: &[u8],
    count: usize,
    out: &mut [u8],
    first: &mut [u8],
    second: &mut [u8],
) -> Sent
    requires { Encoded coding_of sender refresh (flat head.now macroblocks.now levels.now) (buffers out.old first.old second.old) bytes.now count }
    ensures { outcome result (buffers out.new first.new second.new) ≡ came_to coding_of sender (flat head.now macroblocks.now levels.now) (buffers out.old first.old second.old) sends }
{
    let kind = sender.kind;
    let holder = sender.holder;
    let clip = sender.clip;
    let picture = sender.picture;
    let standard = coding::standard_of(kind);
    let blocks = vault::blocks(standard, clip, picture, refresh, bytes, count, out);
    stores::keep(kind, holder, head, macroblocks, levels, first, second);
    let next = number_on(sender);
    Sent {
        answer: Ok(blocks),
        next,
    }
}

// Its bits are written into the lent scratch; only the limit is left to be judged.
fn send_in(
    sender: Sender,
    refresh: bool,
    head: &[u8],
    macroblocks: &[u8],
    levels: &[u8],
    scratch: &mut [u8],
    out: &mut [u8],
    first: &mut [u8],
    second: &mut [u8],
) -> Sent
    requires { (Passed coding_of sender refresh (flat head.now macroblocks.now levels.now) (buffers out.old first.old second.old)) × (length scratch.old ≡ output_length (kind_size sender.kind)) }
    ensures { SendDoes sender (flat head.now macroblocks.now levels.now) (buffers out.old first.old second.old) result (buffers out.new first.new second.new) }
{
    let kind = sender.kind;
    let count = coding::append_picture(kind, head, macroblocks, levels, scratch);
    let size = coding::size_of(kind);
    if size::limit(size) < count {
        return refused(sender, Reason::AboveLimit);
    }
    let bytes = (count + 7) / 8;
    put(
        sender,
        refresh,
        head,
        macroblocks,
        levels,
        &scratch[..bytes],
        count,
        out,
        first,
        second,
    )
}

// ---- scratch by size

// Scratch of this length, which is that of the output.
fn send_with<const BYTES: usize>(
    sender: Sender,
    refreshed: bool,
    head: &[u8],
    macroblocks: &[u8],
    levels: &[u8],
    out: &mut [u8],
    first: &mut [u8],
    second: &mut [u8],
) -> Sent
    requires passed { Passed coding_of sender refreshed (flat head.now macroblocks.now levels.now) (buffers out.old first.old second.old) }
    requires long { output_length (kind_size sender.kind) ≡ BYTES }
    // An array of a parameter's length has to have a size.
    requires sized { BYTES < 2 ^ 20 }
    ensures { SendDoes sender (flat head.now macroblocks.now levels.now) (buffers out.old first.old second.old) result (buffers out.new first.new second.new) }
{
    let mut scratch = [0u8; BYTES];
    send_in(
        sender,
        refreshed,
        head,
        macroblocks,
        levels,
        &mut scratch,
        out,
        first,
        second,
    )
}

// A description comes: the answer and the next state; the picture's blocks in the output, its samples in a store. A refusal changes nothing.
pub fn send(
    sender: Sender,
    head: &[u8],
    macroblocks: &[u8],
    levels: &[u8],
    out: &mut [u8],
    first: &mut [u8],
    second: &mut [u8],
) -> Sent
    ensures { SendDoes sender (flat head.now macroblocks.now levels.now) (buffers out.old first.old second.old) result (buffers out.new first.new second.new) }
{
    let kind = sender.kind;
    if !named(kind, head, macroblocks, levels, out, first, second) {
        return refused(sender, Reason::Length);
    }
    if vault::PICTURES <= sender.picture {
        return refused(sender, Reason::AllSent);
    }
    if !coding::valid(kind, head, macroblocks, levels) {
        return refused(sender, Reason::Invalid);
    }
    let refreshed = coding::is_refresh(kind, head, macroblocks, levels);
    if !begins(sender.picture, refreshed) {
        return refused(sender, Reason::NotRefresh);
    }
    let size = coding::size_of(kind);
    match size {
        Size::SubQcif => send_with::<8192>(
            sender,
            refreshed,
            head,
            macroblocks,
            levels,
            out,
            first,
            second,
        ),
        Size::Qcif => send_with::<8192>(
            sender,
            refreshed,
            head,
            macroblocks,
            levels,
            out,
            first,
            second,
        ),
        Size::Cif => send_with::<32768>(
            sender,
            refreshed,
            head,
            macroblocks,
            levels,
            out,
            first,
            second,
        ),
    }
}

// The store of the last picture sent, not copied; before the first, or where a store hasn't its named length, an empty part of the first.
pub fn show<'a>(sender: Sender, first: &'a [u8], second: &'a [u8]) -> &'a [u8]
    ensures { ShowHands sender first.entry second.entry result }
{
    let kind = sender.kind;
    let holder = sender.holder;
    let size = coding::size_of(kind);
    standing::store_shown(size, holder, first, second)
}
