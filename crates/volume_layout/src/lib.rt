// Volume pictures: where their blocks and texels lie, their numbers, and the refusals of a call: types, definitions and laws.
#![tactic(auto)]

ghost use Rattle.std.specs.Prelude.{◌≡◌, false, ◌*◌, ◌≤◌, ◌<◌};
ghost use Rattle.reason.specs.Answers.{Answers};
ghost use Rattle.volume_layout.specs.Call.{bad_depth, bad_sizes, volume_blocks, volume_places, volume_refusal};
ghost use Rattle.volume_layout.specs.inner.Grid.{volume_grid};

use reason::Refusal;

// The layout of a volume: its footprint, its sides in texels, a block's sides in texels, and how many blocks lie across, down and deep.
#[derive(Clone, Copy)]
pub struct VolumeGrid {
    pub footprint: u8,
    pub width: usize,
    pub height: usize,
    pub depth: usize,
    pub columns: usize,
    pub rows: usize,
    pub layers: usize,
    pub across: usize,
    pub down: usize,
    pub deep: usize,
}

// The part of a volume that a block covers, cropped at the volume's edges: the place of its first texel, and its sides.
#[derive(Clone, Copy)]
pub struct VolumePart {
    pub x: usize,
    pub y: usize,
    pub z: usize,
    pub columns: usize,
    pub rows: usize,
    pub layers: usize,
}

// The greatest depth that is taken.
const DEPTH_LIMIT: u32 = 2048;

pub fn bad_depth(n: u32) -> bool
    ensures { result ≡ bad_depth n }
{
    n == 0 || DEPTH_LIMIT < n
}

// A width, height or depth that is refused by 3.
pub fn bad_sizes(width: u32, height: u32, depth: u32) -> bool
    ensures { result ≡ bad_sizes width height depth }
{
    if image_size::bad_side(width) {
        return true;
    }
    if image_size::bad_side(height) {
        return true;
    }
    bad_depth(depth)
}

// The layout of a volume.
fn grid_of(footprint: u8, width: u32, height: u32, depth: u32) -> VolumeGrid
    requires { (footprint < 24) × (bad_sizes width height depth ≡ false) }
    ensures { result ≡ volume_grid footprint width height depth }
{
    let w = width as usize;
    let h = height as usize;
    let d = depth as usize;
    let columns = footprint::width(footprint);
    let rows = footprint::height(footprint);
    let layers = footprint::depth(footprint);
    let across = image_size::blocks_across(width, columns);
    let down = image_size::blocks_across(height, rows);
    let deep = image_size::blocks_across(depth, layers);
    VolumeGrid {
        footprint,
        width: w,
        height: h,
        depth: d,
        columns: columns as usize,
        rows: rows as usize,
        layers: layers as usize,
        across: across as usize,
        down: down as usize,
        deep: deep as usize,
    }
}

// A product of three sides: 2^39 at most.
fn product(deep: usize, down: usize, across: usize) -> usize
    requires { (deep ≤ 2048) × (down ≤ 16384) × (across ≤ 16384) }
    ensures { (result ≡ deep * down * across) × (result ≤ 549755813888) }
{
    deep * down * across
}

// The refusals in their order, or the volume's layout.
pub fn check_volume(
    footprint: u8,
    width: u32,
    height: u32,
    depth: u32,
    bytes: usize,
    places: usize,
) -> Result<VolumeGrid, Refusal>
    ensures { Answers (volume_refusal footprint width height depth bytes places) (volume_grid footprint width height depth) result }
{
    if footprint > 23 {
        return Err(Refusal::Footprint);
    }
    if bad_sizes(width, height, depth) {
        return Err(Refusal::Side);
    }
    let g = grid_of(footprint, width, height, depth);
    let blocks = product(g.deep, g.down, g.across);
    if bytes != 16 * blocks {
        return Err(Refusal::Bytes);
    }
    let texels = product(g.depth, g.height, g.width);
    if places != 4 * texels {
        return Err(Refusal::Places);
    }
    Ok(g)
}

// How many blocks a volume has: 0 where its footprint or a size is refused.
pub fn volume_blocks(footprint: u8, width: u32, height: u32, depth: u32) -> usize
    ensures { result ≡ volume_blocks footprint width height depth }
{
    if footprint > 23 {
        return 0;
    }
    if bad_sizes(width, height, depth) {
        return 0;
    }
    let g = grid_of(footprint, width, height, depth);
    product(g.deep, g.down, g.across)
}

// How many numbers a volume's result buffer takes: 0 where a size is refused.
pub fn volume_places(width: u32, height: u32, depth: u32) -> usize
    ensures { result ≡ volume_places width height depth }
{
    if bad_sizes(width, height, depth) {
        return 0;
    }
    4 * product(depth as usize, height as usize, width as usize)
}
