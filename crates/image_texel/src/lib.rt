// One texel of an image, asked with plain numbers and the lent blocks: a view (crate `view`) is taken apart for it.
#![tactic(auto)]

ghost use Rattle.std.specs.Prelude.{◌≡◌, ◌<◌, length, Ok};
ghost use Rattle.reason.specs.Numbers.{refusal_told};
ghost use Rattle.image_texel.specs.Making.{view_refusal, view_sides, sides_told};
ghost use Rattle.image_texel.specs.Asking.{asked_of, asked_in, asked_at};
ghost use Rattle.image_texel.specs.inner.Fits.{shown_texel, Fits};

use interpolation::{Kind, Texel};
use one_texel::OneTexel;
use reason::Refusal;

// The sides that a view is made with, and why making it is refused, if it is.
#[derive(Clone, Copy)]
pub struct Sides {
    pub width: u32,
    pub height: u32,
    pub refusal: Option<Refusal>,
}

// Refuses a footprint, then a side, then so many block bytes.
pub fn check_view(bytes: usize, footprint: u8, width: u32, height: u32) -> Result<(), Refusal>
    ensures { refusal_told result ≡ view_refusal footprint width height bytes }
{
    image_size::check_size(footprint, width, height)?;
    let count = image_size::blocks_of(footprint, width, height);
    if bytes != 16 * (count as usize) {
        return Err(Refusal::Bytes);
    }
    Ok(())
}

// The sides of a view: those given, or 0 where it is refused.
pub fn sides_for(blocks: &[u8], footprint: u8, width: u32, height: u32) -> Sides
    ensures { sides_told result ≡ view_sides (length blocks.now) footprint width height }
{
    match check_view(blocks.len(), footprint, width, height) {
        Err(refusal) => Sides {
            width: 0,
            height: 0,
            refusal: Some(refusal),
        },
        Ok(()) => Sides {
            width,
            height,
            refusal: None,
        },
    }
}

// What a kind shows of a texel's numbers.
fn shown(kind: Kind, t: Texel) -> Texel
    ensures { (result ≡ shown_texel kind t) × Fits kind result }
{
    match kind {
        Kind::Unorm16 => t,
        Kind::Srgb8 => Texel {
            r: t.r / 256,
            g: t.g / 256,
            b: t.b / 256,
            a: t.a / 256,
        },
        Kind::Float16 => t,
    }
}

// The texel in column x and row y, inside an image that is not refused.
fn asked_in(
    blocks: &[u8],
    footprint: u8,
    width: u32,
    height: u32,
    kind: Kind,
    x: u32,
    y: u32,
) -> OneTexel
    requires blocks_value { view_refusal footprint width height (length blocks.now) ≡ 0 }
    requires x_lt_width { (x < width) × (y < height) }
    ensures { (asked_of (Ok result) ≡ asked_in footprint width blocks.now kind x y) × Fits kind result.texel }
{
    let columns = footprint::width(footprint);
    let rows = footprint::height(footprint);
    let across = image_size::blocks_across(width, columns);
    let column = image_size::in_block(x, columns);
    let row = image_size::in_block(y, rows);
    let b = row.block * across + column.block;
    let block = image_parts::block_of(blocks, b as usize);
    let t = one_texel::texel_of(block, footprint, kind, column.texel, row.texel);
    OneTexel {
        fault: t.fault,
        texel: shown(kind, t.texel),
    }
}

// The texel in column x and row y of an image as its kind shows it, and its block's fault; refused where there is none to be asked, before any
// block is read.
pub fn asked_at(
    blocks: &[u8],
    footprint: u8,
    width: u32,
    height: u32,
    kind: Kind,
    x: u32,
    y: u32,
) -> Result<OneTexel, Refusal>
    ensures { (asked_of result ≡ asked_at footprint width height blocks.now kind x y) × Fits kind (asked_of result).texel }
{
    if check_view(blocks.len(), footprint, width, height).is_err() {
        return Err(Refusal::Place);
    }
    if width <= x {
        return Err(Refusal::Place);
    }
    if height <= y {
        return Err(Refusal::Place);
    }
    Ok(asked_in(blocks, footprint, width, height, kind, x, y))
}

// The same, as a view asks it.
pub fn texel_at(
    blocks: &[u8],
    footprint: u8,
    width: u32,
    height: u32,
    kind: Kind,
    x: u32,
    y: u32,
) -> Result<OneTexel, Refusal>
    ensures { asked_of result ≡ asked_at footprint width height blocks.now kind x y }
{
    asked_at(blocks, footprint, width, height, kind, x, y)
}
