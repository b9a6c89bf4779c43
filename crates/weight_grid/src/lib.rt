// The weight of a texel, from the weights of a grid that may be smaller than the block.
#![tactic(auto)]

ghost use Rattle.std.specs.Prelude.{◌≡◌, ℕ, ◌+◌, ◌-◌, ◌*◌, ◌%◌, ◌≤◌, ◌<◌, length, get_or};
ghost use Rattle.weight_grid.specs.Place.{scale_of, grid_place};
ghost use Rattle.encoding.specs.inner.Levels.{first_level, second_level, BytePair};
ghost use Rattle.weight_grid.specs.Bilinear.{blend_of};
ghost use Rattle.weight_grid.specs.inner.Points.{both_of, neighbour_step};
ghost use Rattle.weight_grid.specs.inner.Columns.{grid_column, no_column};
ghost use Rattle.weight_grid.specs.inner.Pairs.{OnePlane, point_pair, pairs_of, upper_pair, lower_pair, pair_blend};
ghost use Rattle.laws.specs.Table.{tab, padded};

use encoding::LevelPair;

fn less_one(n: u8) -> u32
    ensures { result ≡ n - 1 }
{
    if n == 0 { 0 } else { (n as u32) - 1 }
}

// The scale factor of a side of the block; 0 where the side is below 2.
fn scale_quotient(side: u8) -> u16
    ensures { result ≡ scale_of side }
{
    if side < 2 {
        0
    } else {
        (1024 + (side as u16) / 2) / ((side as u16) - 1)
    }
}

// The same, from constant memory for the sides of footprints: a quotient takes longer.
pub fn scale(side: u8) -> u16
    ensures { result ≡ scale_of side }
{
    match side {
        2 => 1025,
        3 => 512,
        4 => 342,
        5 => 256,
        6 => 205,
        7 => 171,
        8 => 146,
        9 => 128,
        10 => 114,
        11 => 102,
        12 => 93,
        _ => scale_quotient(side),
    }
}

// The place on the grid, in sixteenths of a step, of texel i on a side of this scale, where the grid has so many points.
pub fn grid_place(scale: u16, i: u8, points: u8) -> u32
    ensures { result ≡ grid_place scale i points }
{
    ((scale as u32) * (i as u32) * less_one(points) + 32) / 64
}

// How far the next point lies, from a place on an axis of so many points; 0 at the last one, whose neighbour is not read.
pub fn step(place: u32, points: u8, size: usize) -> usize
    ensures { result ≡ neighbour_step place points size }
{
    if place / 16 + 1 < (points as u32) {
        size
    } else {
        0
    }
}

// A column of texels on the grid: the points beside it and its way between them, once for all rows of a block. At the last point it stands for its
// right neighbour.
#[derive(Clone, Copy)]
pub struct Column {
    pub at: u8,
    pub next: u8,
    pub part: u8,
}

fn column_at(scale: u16, x: u8, points: u8) -> Column
    requires { (grid_place scale x points ≤ 16 * (points - 1)) × (points ≤ 12) }
    ensures { result ≡ grid_column scale points x }
{
    let place = grid_place(scale, x, points);
    let at = (place / 16) as usize;
    Column {
        at: at as u8,
        next: (at + step(place, points, 1)) as u8,
        part: (place % 16) as u8,
    }
}

// The columns of a block of this width.
pub fn columns(scale: u16, points: u8, width: u8) -> [Column; 12]
    requires by_index { (x : ℕ) → x < width → grid_place scale x points ≤ 16 * (points - 1) }
    requires points_bound { (points ≤ 12) × (width ≤ 12) }
    ensures { result ≡ padded 12 width (grid_column scale points) no_column }
{
    let none = Column {
        at: 0,
        next: 0,
        part: 0,
    };
    let mut out = [none; 12];
    for x in 0..width {
        out[x as usize] = column_at(scale, x, points);
    }
    out
}

// Two points beside each other on a grid of one plane: the right one's level, and the left one's from bit 11 on. So one product weighs both.
#[derive(Clone, Copy)]
pub struct PointPair(pub u32);

fn pair_of(left: LevelPair, right: LevelPair) -> PointPair
    requires { (left.0 ≤ 64) × (right.0 ≤ 64) }
    ensures { result ≡ point_pair left right }
{
    PointPair(right.0 + 2048 * left.0)
}

// Each point of a grid of one plane with the next one of the list: past the end of a row its factor is 0.
pub fn pairs(points: [LevelPair; 64]) -> [PointPair; 64]
    requires { OnePlane points }
    ensures { result ≡ pairs_of points }
{
    let none = PointPair(0);
    let mut out = [none; 64];
    for i in 0..63 {
        out[i] = pair_of(points[i], points[i + 1]);
    }
    out[63] = pair_of(points[63], LevelPair(0));
    out
}

// The places on the grid of a block's columns, this many, once for all rows; 16 of them, so that a row's factors are made side by side.
pub fn places(scale: u16, points: u8, width: u8) -> [u16; 16]
    requires by_index { (x : ℕ) → x < width → grid_place scale x points ≤ 16 * (points - 1) }
    requires points_bound { (points ≤ 12) × (width ≤ 12) }
    ensures { result ≡ padded 16 width (λ x. grid_place scale x points) 0 }
{
    let mut out: [u16; 16] = [0; 16];
    for i in 0..width {
        out[i as usize] = grid_place(scale, i, points) as u16;
    }
    out
}

// The factors of the lower two of four neighbours, the left one's below: so a product with their pair has both in its middle.
fn lower_pair(fs: u16, ft: u16) -> u16
    requires { (fs < 16) × (ft < 16) }
    ensures { result ≡ lower_pair fs ft }
{
    let w11 = (fs * ft + 8) / 16;
    (ft - w11) + 2048 * w11
}

// Those of the upper two, from those of the lower two: what both come to is one number for a column.
fn upper_pair(fs: u16, ft: u16, below: u16) -> u16
    requires fs_bound { (fs < 16) × (ft < 16) }
    requires below_value { below ≡ lower_pair fs ft }
    ensures { result ≡ upper_pair fs ft }
{
    16 + 2047 * fs - below
}

// Both for a row of texels that lies at gt of the grid.
pub fn factor_pairs(places: &[u16; 16], gt: u32, upper: &mut [u16; 16], lower: &mut [u16; 16])
    ensures upper_after { length upper.old ≡ 16 → upper.new ≡ tab (λ x. upper_pair (get_or places.now x 0 % 16) (gt % 16)) 16 }
    ensures lower_after { length lower.old ≡ 16 → lower.new ≡ tab (λ x. lower_pair (get_or places.now x 0 % 16) (gt % 16)) 16 }
{
    let ft = (gt % 16) as u16;
    for x in 0..16 {
        let fs = places[x] % 16;
        let below = lower_pair(fs, ft);
        lower[x] = below;
        upper[x] = upper_pair(fs, ft, below);
    }
}

// The weight between two pairs of neighbours, by their factors: the middle of two products, in sixteenths.
pub fn infill_pairs(upper: u16, lower: u16, above: PointPair, below: PointPair) -> LevelPair
    requires { above.0 * upper + below.0 * lower ≤ 4278190079 }
    ensures { result.0 ≡ pair_blend upper lower above.0 below.0 }
{
    LevelPair((above.0 * (upper as u32) + below.0 * (lower as u32) + 16384) / 32768 % 128)
}

// The factors of four neighbours, and the sum of their packed weights in sixteenths: both planes at once. 16711935 is 255 in each.
fn blend_both(fs: u32, ft: u32, p00: u32, p01: u32, p10: u32, p11: u32) -> u32
    requires fs_bound { (fs < 16) × (ft < 16) }
    requires p00_bound { (p00 ≤ 16711935) × (p01 ≤ 16711935) × (p10 ≤ 16711935) × (p11 ≤ 16711935) }
    ensures { result ≡ both_of fs ft p00 p01 p10 p11 }
{
    let w11 = (fs * ft + 8) / 16;
    let w10 = ft - w11;
    let w01 = fs - w11;
    let w00 = 16 - ft - w01;
    (p00 * w00 + p01 * w01 + p10 * w10 + p11 * w11 + 524296) / 16
}

// The weights of both planes at gs, gt of a grid, from those of its four neighbours there.
pub fn infill_both(
    gs: u32,
    gt: u32,
    p00: LevelPair,
    p01: LevelPair,
    p10: LevelPair,
    p11: LevelPair,
) -> LevelPair
    requires { BytePair p00 × BytePair p01 × BytePair p10 × BytePair p11 }
    ensures result_value { first_level result ≡ blend_of (gs % 16) (gt % 16) (first_level p00) (first_level p01) (first_level p10) (first_level p11) }
    ensures result_value_2 { second_level result ≡ blend_of (gs % 16) (gt % 16) (second_level p00) (second_level p01) (second_level p10) (second_level p11) }
{
    LevelPair(blend_both(gs % 16, gt % 16, p00.0, p01.0, p10.0, p11.0))
}
