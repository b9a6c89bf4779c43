// The weight of a texel of a volume, from the weights of its grid: simplex infill (02, h).
#![tactic(auto)]

ghost use Rattle.std.specs.Prelude.{◌≡◌, ◌+◌, ◌*◌, ◌≤◌, ◌<◌};
ghost use Rattle.encoding.specs.inner.Levels.{first_level, second_level, BytePair};
ghost use Rattle.volume_infill.specs.Simplex.{simplex_sum};
ghost use Rattle.volume_infill.specs.inner.Way.{walk_of, route_of, both_four, volume_read, WithinGrid, ByteLevels};

use encoding::LevelPair;

// The way from a point of the grid to the far corner of its cube: two steps, and the factors of the four points on it.
#[derive(Clone, Copy)]
pub struct Walk {
    pub first: usize,
    pub second: usize,
    pub w0: u32,
    pub w1: u32,
    pub w2: u32,
    pub w3: u32,
}

// The numbers of the four points that are read, and their factors.
#[derive(Clone, Copy)]
pub struct Route {
    pub n0: usize,
    pub n1: usize,
    pub n2: usize,
    pub n3: usize,
    pub w0: u32,
    pub w1: u32,
    pub w2: u32,
    pub w3: u32,
}

// The larger a fraction, the sooner the step along its axis.
fn way(fs: u32, ft: u32, fr: u32, right: usize, below: usize, behind: usize) -> Walk
    requires { (fs < 16) × (ft < 16) × (fr < 16) }
    ensures { result ≡ walk_of fs ft fr right below behind }
{
    if ft < fs {
        if fr < ft {
            return Walk {
                first: right,
                second: below,
                w0: 16 - fs,
                w1: fs - ft,
                w2: ft - fr,
                w3: fr,
            };
        }
        if fr < fs {
            return Walk {
                first: right,
                second: behind,
                w0: 16 - fs,
                w1: fs - fr,
                w2: fr - ft,
                w3: ft,
            };
        }
        return Walk {
            first: behind,
            second: right,
            w0: 16 - fr,
            w1: fr - fs,
            w2: fs - ft,
            w3: ft,
        };
    }
    if fr < fs {
        return Walk {
            first: below,
            second: right,
            w0: 16 - ft,
            w1: ft - fs,
            w2: fs - fr,
            w3: fr,
        };
    }
    if fr < ft {
        return Walk {
            first: below,
            second: behind,
            w0: 16 - ft,
            w1: ft - fr,
            w2: fr - fs,
            w3: fs,
        };
    }
    Walk {
        first: behind,
        second: below,
        w0: 16 - fr,
        w1: fr - ft,
        w2: ft - fs,
        w3: fs,
    }
}

// The sum of four packed weights in sixteenths: both planes at once. 16711935 is 255 in each.
fn blend_four(w0: u32, w1: u32, w2: u32, w3: u32, p0: u32, p1: u32, p2: u32, p3: u32) -> u32
    requires w3_value { w0 + w1 + w2 + w3 ≡ 16 }
    requires p0_bound { (p0 ≤ 16711935) × (p1 ≤ 16711935) × (p2 ≤ 16711935) × (p3 ≤ 16711935) }
    ensures { result ≡ both_four w0 w1 w2 w3 p0 p1 p2 p3 }
{
    (p0 * w0 + p1 * w1 + p2 * w2 + p3 * w3 + 524296) / 16
}

// The blend of four pairs of weights.
pub fn blend_pairs(
    w0: u32,
    w1: u32,
    w2: u32,
    w3: u32,
    p0: LevelPair,
    p1: LevelPair,
    p2: LevelPair,
    p3: LevelPair,
) -> LevelPair
    requires w3_value { w0 + w1 + w2 + w3 ≡ 16 }
    requires byte_pair { BytePair p0 × BytePair p1 × BytePair p2 × BytePair p3 }
    ensures result_value { first_level result ≡ simplex_sum w0 w1 w2 w3 (first_level p0) (first_level p1) (first_level p2) (first_level p3) }
    ensures result_value_2 { second_level result ≡ simplex_sum w0 w1 w2 w3 (second_level p0) (second_level p1) (second_level p2) (second_level p3) }
{
    LevelPair(blend_four(w0, w1, w2, w3, p0.0, p1.0, p2.0, p3.0))
}

// How many points a layer has.
fn layer_size(width: u8, height: u8) -> usize
    ensures { result ≡ width * height }
{
    (width as usize) * (height as usize)
}

// The number of the point in column x, row y, layer z.
fn point_at(width: u8, height: u8, x: u32, y: u32, z: u32) -> usize
    requires { (x ≤ 255) × (y ≤ 255) × (z ≤ 255) }
    ensures { result ≡ (z * height + y) * width + x }
{
    let row = (z as usize) * (height as usize) + y as usize;
    row * (width as usize) + x as usize
}

// Which points are read at gs, gt, gr of a volume's grid: at the last column, row or layer a point stands for its neighbour outside.
pub fn route_at(width: u8, height: u8, depth: u8, gs: u32, gt: u32, gr: u32) -> Route
    requires { WithinGrid width height depth gs gt gr }
    ensures { result ≡ route_of width height depth gs gt gr }
{
    let layer = layer_size(width, height);
    let right = weight_grid::step(gs, width, 1);
    let below = weight_grid::step(gt, height, width as usize);
    let behind = weight_grid::step(gr, depth, layer);
    let n = point_at(width, height, gs / 16, gt / 16, gr / 16);
    let k = way(gs % 16, gt % 16, gr % 16, right, below, behind);
    let first = n + k.first;
    let second = first + k.second;
    let far = n + right + below + behind;
    Route {
        n0: n,
        n1: first,
        n2: second,
        n3: far,
        w0: k.w0,
        w1: k.w1,
        w2: k.w2,
        w3: k.w3,
    }
}

// The weights of both planes at gs, gt, gr of a volume's grid. Only points of the grid are read.
pub fn infill_volume(
    points: [LevelPair; 64],
    width: u8,
    height: u8,
    depth: u8,
    gs: u32,
    gt: u32,
    gr: u32,
) -> LevelPair
    requires within_grid { WithinGrid width height depth gs gt gr }
    requires byte_levels { ByteLevels points }
    ensures result_value { first_level result ≡ volume_read first_level points width height depth gs gt gr }
    ensures result_value_2 { second_level result ≡ volume_read second_level points width height depth gs gt gr }
{
    let k = route_at(width, height, depth, gs, gt, gr);
    let n0 = k.n0;
    let n1 = k.n1;
    let n2 = k.n2;
    let n3 = k.n3;
    let p0 = points[n0];
    let p1 = points[n1];
    let p2 = points[n2];
    let p3 = points[n3];
    blend_pairs(k.w0, k.w1, k.w2, k.w3, p0, p1, p2, p3)
}
