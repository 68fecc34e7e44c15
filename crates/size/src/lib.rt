// Sub-QCIF, QCIF and CIF: what a picture's size decides, for both standards: limits, lengths of lent buffers, and where everything lies in a store.
#![tactic(auto)]

ghost use Rattle.std.specs.Prelude.{◌≡◌};
ghost use Rattle.size.specs.Size.{width, height, limit, store_length, output_length, collection_length, blocks_length};

pub mod place;

#[derive(Clone, Copy, PartialEq, Eq, Debug)]
pub enum Size {
    SubQcif,
    Qcif,
    Cif,
}

pub fn width(size: Size) -> usize
    ensures { result ≡ width size }
{
    match size {
        Size::SubQcif => 128,
        Size::Qcif => 176,
        Size::Cif => 352,
    }
}

pub fn height(size: Size) -> usize
    ensures { result ≡ height size }
{
    match size {
        Size::SubQcif => 96,
        Size::Qcif => 144,
        Size::Cif => 288,
    }
}

// The most bits of a picture.
pub fn limit(size: Size) -> usize
    ensures { result ≡ limit size }
{
    match size {
        Size::SubQcif => 65536,
        Size::Qcif => 65536,
        Size::Cif => 262144,
    }
}

pub fn store_length(size: Size) -> usize
    ensures { result ≡ store_length size }
{
    match size {
        Size::SubQcif => 18432,
        Size::Qcif => 38016,
        Size::Cif => 152064,
    }
}

// The writer's output.
pub fn output_length(size: Size) -> usize
    ensures { result ≡ output_length size }
{
    match size {
        Size::SubQcif => 8192,
        Size::Qcif => 8192,
        Size::Cif => 32768,
    }
}

// The receiver's collection buffer.
pub fn collection_length(size: Size) -> usize
    ensures { result ≡ collection_length size }
{
    match size {
        Size::SubQcif => 8500,
        Size::Qcif => 8500,
        Size::Cif => 33000,
    }
}

// The sender's blocks of one picture.
pub fn blocks_length(size: Size) -> usize
    ensures { result ≡ blocks_length size }
{
    match size {
        Size::SubQcif => 8704,
        Size::Qcif => 8704,
        Size::Cif => 33792,
    }
}
