// Images of blocks in raster order: types, definitions and laws, and the refusals of an image call.
#![tactic(auto)]

ghost use Rattle.std.specs.Prelude.{◌≡◌, false, ◌^◌, ◌≤◌, ◌<◌};
ghost use Rattle.reason.specs.Answers.{Answers};
ghost use Rattle.image_size.specs.Sides.{bad_side};
ghost use Rattle.image_layout.specs.Call.{image_refusal};
ghost use Rattle.image_layout.specs.inner.Grid.{image_grid};
ghost use Rattle.image_layout.specs.inner.Noted.{noted};

use reason::Refusal;

// The layout of an image: its footprint, its sides in texels, a block's sides in texels, and how many blocks lie across and down.
#[derive(Clone, Copy)]
pub struct ImageGrid {
    pub footprint: u8,
    pub width: usize,
    pub height: usize,
    pub columns: usize,
    pub rows: usize,
    pub across: usize,
    pub down: usize,
}

// The part of an image that a block covers, cropped at the image's edge: the place of its first texel, and its sides.
#[derive(Clone, Copy)]
pub struct Part {
    pub x: usize,
    pub y: usize,
    pub columns: usize,
    pub rows: usize,
}

// A row of such a part: n numbers from place `from` of the block, for place `at` of the image.
#[derive(Clone, Copy)]
pub struct Run {
    pub from: usize,
    pub at: usize,
    pub n: usize,
}

// How many blocks have a fault, and the raster index and fault of the first one (both 0 where there is none).
#[derive(Clone, Copy)]
pub struct Tally {
    pub count: u64,
    pub first: u64,
    pub fault: u8,
}

// The layout of an image.
fn grid_of(footprint: u8, width: u32, height: u32) -> ImageGrid
    requires { (footprint < 14) × (bad_side width ≡ false) × (bad_side height ≡ false) }
    ensures { result ≡ image_grid footprint width height }
{
    let w = width as usize;
    let h = height as usize;
    let columns = footprint::width(footprint);
    let rows = footprint::height(footprint);
    let across = image_size::blocks_across(width, columns);
    let down = image_size::blocks_across(height, rows);
    ImageGrid {
        footprint,
        width: w,
        height: h,
        columns: columns as usize,
        rows: rows as usize,
        across: across as usize,
        down: down as usize,
    }
}

// The refusals in their order, or the image's layout.
pub fn check_image(
    footprint: u8,
    width: u32,
    height: u32,
    bytes: usize,
    places: usize,
) -> Result<ImageGrid, Refusal>
    ensures { Answers (image_refusal footprint width height bytes places) (image_grid footprint width height) result }
{
    image_size::check_size(footprint, width, height)?;
    let g = grid_of(footprint, width, height);
    if bytes != 16 * (g.down * g.across) {
        return Err(Refusal::Bytes);
    }
    if places != 4 * (g.height * g.width) {
        return Err(Refusal::Places);
    }
    Ok(g)
}

// One block more in the tally.
pub fn note(t: Tally, b: u64, e: u8) -> Tally
    requires { (t.count ≤ b) × (b < 2 ^ 63) }
    ensures { result ≡ noted t b e }
{
    if e == 0 {
        return t;
    }
    if t.count == 0 {
        return Tally {
            count: 1,
            first: b,
            fault: e,
        };
    }
    Tally {
        count: t.count + 1,
        first: t.first,
        fault: t.fault,
    }
}
