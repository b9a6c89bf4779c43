// A whole image of best grey captions: wanted greys to blocks in raster order.
#![tactic(auto)]

ghost use Rattle.std.specs.Prelude.{◌≡◌, ◌+◌, ◌*◌, ◌/◌, ◌%◌, ◌≤◌, ◌<◌, length};
ghost use Rattle.laws.specs.Table.{tab};
ghost use Rattle.reason.specs.Numbers.{refusal_told};
ghost use Rattle.image_size.specs.Sides.{blocks_across, blocks_of};
ghost use Rattle.caption_image.specs.Image.{caption_image_refusal, nearest, wanted_at, caption_blocks, caption_image_out, caption_block_refusal, caption_block_out};
ghost use Rattle.caption_image.specs.inner.Places.{Lent};

use reason::Refusal;

// The refusals in their order.
fn check(width: u32, height: u32, bytes: usize, greys: usize) -> Result<(), Refusal>
    ensures { refusal_told result ≡ caption_image_refusal width height bytes greys }
{
    image_size::check_size(0, width, height)?;
    let blocks = image_size::blocks_of(0, width, height);
    if bytes != 16 * (blocks as usize) {
        return Err(Refusal::Bytes);
    }
    if greys != (height as usize) * (width as usize) {
        return Err(Refusal::Places);
    }
    Ok(())
}

// The nearest place within a side.
fn nearest(side: usize, x: usize) -> usize
    requires { 0 < side }
    ensures { (result ≡ nearest side x) × (result < side) }
{
    if x < side { x } else { side - 1 }
}

// The wanted grey in column x of row y, or the nearest one.
fn grey_at(wanted: &[u8], width: usize, height: usize, x: usize, y: usize) -> u8
    requires { Lent width height wanted.now }
    ensures { result ≡ wanted_at width height wanted.now x y }
{
    let row = nearest(height, y);
    let column = nearest(width, x);
    wanted[row * width + column]
}

// The sixteen wanted greys of the block whose first texel stands in column x of row y.
fn gather(wanted: &[u8], width: usize, height: usize, x: usize, y: usize) -> [u8; 16]
    requires lent { Lent width height wanted.now }
    requires x_bound { (x ≤ 16384) × (y ≤ 16384) }
    ensures { result ≡ tab (λ i. wanted_at width height wanted.now (x + i % 4) (y + i / 4)) 16 }
{
    let mut out = [0u8; 16];
    for i in 0..16usize {
        out[i] = grey_at(wanted, width, height, x + i % 4, y + i / 4);
    }
    out
}

// Every block, in raster order.
fn fill(e0: u8, e1: u8, width: usize, height: usize, across: usize, wanted: &[u8], out: &mut [u8])
    requires lent { Lent width height wanted.now }
    requires across_value { across ≡ blocks_across width 4 }
    requires out_len { length out.old ≡ 16 * blocks_of 0 width height }
    ensures { out.new ≡ caption_blocks e0 e1 width height wanted.now }
{
    let n = out.len() / 16;
    for b in 0..n {
        let greys = gather(wanted, width, height, 4 * (b % across), 4 * (b / across));
        block_store::put(out, 16 * b, caption_block::caption(e0, e1, greys));
    }
}

// The blocks of an image with two grey ends, one wanted grey for each texel.
pub fn caption_image(
    e0: u8,
    e1: u8,
    width: u32,
    height: u32,
    wanted: &[u8],
    blocks: &mut [u8],
) -> Result<(), Refusal>
    ensures value { refusal_told result ≡ caption_image_refusal width height (length blocks.old) (length wanted.now) }
    ensures blocks_after { blocks.new ≡ caption_image_out e0 e1 width height wanted.now blocks.old }
{
    check(width, height, blocks.len(), wanted.len())?;
    let across = image_size::blocks_across(width, 4) as usize;
    fill(
        e0,
        e1,
        width as usize,
        height as usize,
        across,
        wanted,
        blocks,
    );
    Ok(())
}

// One block over lent lists, refused where a list is not of sixteen.
pub fn caption_into(e0: u8, e1: u8, wanted: &[u8], block: &mut [u8]) -> Result<(), Refusal>
    ensures value { refusal_told result ≡ caption_block_refusal (length block.old) (length wanted.now) }
    ensures block_after { block.new ≡ caption_block_out e0 e1 wanted.now block.old }
{
    if block.len() != 16 {
        return Err(Refusal::Bytes);
    }
    if wanted.len() != 16 {
        return Err(Refusal::Places);
    }
    let greys = gather(wanted, 4, 4, 0, 0);
    block_store::put(block, 0, caption_block::caption(e0, e1, greys));
    Ok(())
}
