// A view of an image: it keeps the lent blocks beside footprint and sides. Its functions are thin: each puts the view together or
// takes it apart around a function of `image_texel` on plain numbers and a slice.
#![tactic(auto)]

ghost use Rattle.std.specs.Prelude.{◌≡◌};
ghost use Rattle.image_texel.specs.Asking.{asked_of, asked_at};
ghost use Rattle.image_texel.specs.Making.{sides_told};
ghost use Rattle.view.specs.View.{view_with, view_of, view_told, checked_told};

use image_texel::Sides;
use interpolation::Kind;
use one_texel::OneTexel;
use reason::Refusal;

// The lent blocks, the footprint and the sides; both sides are 0 in a view that making refused, and `refusal` says why.
#[derive(Clone, Copy)]
pub struct View<'a> {
    pub blocks: &'a [u8],
    pub footprint: u8,
    pub width: u32,
    pub height: u32,
    pub refusal: Option<Refusal>,
}

// The view of these sides.
fn with_sides<'a>(blocks: &'a [u8], footprint: u8, s: Sides) -> View<'a>
    ensures { view_told result ≡ view_with blocks.entry footprint (sides_told s) }
{
    View {
        blocks,
        footprint,
        width: s.width,
        height: s.height,
        refusal: s.refusal,
    }
}

// A view of an image; refused by its footprint, a side or its block bytes, it has both sides 0.
pub fn make<'a>(blocks: &'a [u8], footprint: u8, width: u32, height: u32) -> View<'a>
    ensures { view_told result ≡ view_of blocks.entry footprint width height }
{
    with_sides(
        blocks,
        footprint,
        image_texel::sides_for(blocks, footprint, width, height),
    )
}

// The same for a caller that has no use for a refused view.
pub fn make_checked<'a>(
    blocks: &'a [u8],
    footprint: u8,
    width: u32,
    height: u32,
) -> Result<View<'a>, Refusal>
    ensures { checked_told blocks.entry footprint result ≡ view_of blocks.entry footprint width height }
{
    let view = make(blocks, footprint, width, height);
    match view.refusal {
        Some(refusal) => Err(refusal),
        None => Ok(view),
    }
}

// The texel in column x and row y of a view, whoever made it.
pub fn ask<'a>(v: View<'a>, kind: Kind, x: u32, y: u32) -> Result<OneTexel, Refusal>
    ensures { asked_of result ≡ asked_at v.entry.footprint v.entry.width v.entry.height v.entry.blocks.now kind x y }
{
    image_texel::texel_at(v.blocks, v.footprint, v.width, v.height, kind, x, y)
}
