// The sides of an image: which are refused, and how many blocks cover them.
#![tactic(auto)]

ghost use Rattle.std.specs.Prelude.{◌≡◌, ◌/◌, ◌%◌, ◌≤◌, ◌<◌};
ghost use Rattle.reason.specs.Numbers.{refusal_told};
ghost use Rattle.image_size.specs.Sides.{bad_side, blocks_across, blocks_of, size_refusal};

use reason::Refusal;

// The longest side that is taken.
const SIDE_LIMIT: u32 = 16384;

// A side of 0, or above the limit.
pub fn bad_side(n: u32) -> bool
    ensures { result ≡ bad_side n }
{
    n == 0 || SIDE_LIMIT < n
}

// Refuses a footprint above 13, then a width or a height.
pub fn check_size(footprint: u8, width: u32, height: u32) -> Result<(), Refusal>
    ensures { refusal_told result ≡ size_refusal footprint width height }
{
    if footprint > 13 {
        return Err(Refusal::Footprint);
    }
    if bad_side(width) {
        return Err(Refusal::Side);
    }
    if bad_side(height) {
        return Err(Refusal::Side);
    }
    Ok(())
}

// A quotient by the side of a block: by each side of a flat footprint the compiler makes it a product, which takes less time.
fn quotient(n: u32, side: u8) -> u32
    requires { 0 < side }
    ensures { result ≡ n / side }
{
    match side {
        4 => n / 4,
        5 => n / 5,
        6 => n / 6,
        8 => n / 8,
        10 => n / 10,
        12 => n / 12,
        _ => n / (side as u32),
    }
}

// Where a texel of an image's side lies: the number of its block along that side, and its place in it.
#[derive(Clone, Copy)]
pub struct InBlock {
    pub block: u32,
    pub texel: u8,
}

pub fn in_block(at: u32, side: u8) -> InBlock
    requires { 0 < side }
    ensures { (result.block ≡ at / side) × (result.texel ≡ at % side) }
{
    let block = quotient(at, side);
    InBlock {
        block,
        texel: (at - block * (side as u32)) as u8,
    }
}

// Blocks of n texels that cover a side.
pub fn blocks_across(side: u32, n: u8) -> u32
    requires { (0 < n) × (side ≤ 16384) }
    ensures { (result ≡ blocks_across side n) × (result ≤ 16384) }
{
    quotient(side + (n as u32) - 1, n)
}

// How many blocks an image has.
pub fn blocks_of(footprint: u8, width: u32, height: u32) -> u32
    requires { size_refusal footprint width height ≡ 0 }
    ensures { (result ≡ blocks_of footprint width height) × (0 < result) × (result ≤ 268435456) }
{
    let columns = footprint::width(footprint);
    let rows = footprint::height(footprint);
    blocks_across(height, rows) * blocks_across(width, columns)
}
