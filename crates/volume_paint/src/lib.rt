// All texels of a volume's block, from levels, lines and a partition index that are prepared once for each block.
#![tactic(auto)]

ghost use Rattle.std.specs.Prelude.{◌≡◌, ◌+◌, ◌*◌, ◌≤◌, length};
ghost use Rattle.volume_infill.specs.inner.Way.{ByteLevels};
ghost use Rattle.block_buffer.specs.inner.Painted.{painted};
ghost use Rattle.volume_paint.specs.inner.Volume.{volume_texel, InVolume};
ghost use Rattle.laws.specs.Table.{by_rows};

use block_buffer::{place, put};
use encoding::LevelPair;
use interpolation::Kind;

// A volume's sides and the scale factors of a weight grid along them.
#[derive(Clone, Copy)]
pub struct VolumeFrame {
    pub width: u8,
    pub height: u8,
    pub depth: u8,
    pub across: u16,
    pub down: u16,
    pub inward: u16,
}

// Row y of layer z, in layers of `height` rows.
fn row_of(height: u8, y: u8, z: u8) -> u8
    requires { z * height + y ≤ 255 }
    ensures { result ≡ z * height + y }
{
    z * height + y
}

// Layer by layer and row by row: a layer's seeds and a row's partitions are found at once. A grid of width x height x depth points, of which
// only those of the grid are read.
pub fn paint_volume(
    kind: Kind,
    width: u8,
    height: u8,
    depth: u8,
    component: u8,
    points: [LevelPair; 64],
    lines: &[[u16; 10]; 4],
    index: u16,
    partitions: u8,
    small: bool,
    f: VolumeFrame,
    out: &mut [u16; 864],
)
    requires in_volume { InVolume width height depth f }
    requires byte_levels { ByteLevels points }
    ensures { length out.old ≡ 864 → out.new ≡ painted f.width (by_rows f.height (volume_texel kind width height depth component points lines.now index partitions small f)) (f.depth * f.height * f.width) out.old }
{
    for z in 0..f.depth {
        let gr = weight_grid::grid_place(f.inward, z, depth);
        let seeds = partition::layer_seeds(index, partitions, small, z);
        for y in 0..f.height {
            let gt = weight_grid::grid_place(f.down, y, height);
            let which = partition::row_partitions(seeds, partitions, y);
            let q = row_of(f.height, y, z);
            for x in 0..f.width {
                let gs = weight_grid::grid_place(f.across, x, width);
                let k = volume_infill::route_at(width, height, depth, gs, gt, gr);
                let n0 = k.n0;
                let n1 = k.n1;
                let n2 = k.n2;
                let n3 = k.n3;
                let p0 = points[n0];
                let p1 = points[n1];
                let p2 = points[n2];
                let p3 = points[n3];
                let both = volume_infill::blend_pairs(k.w0, k.w1, k.w2, k.w3, p0, p1, p2, p3);
                let line = lines[which[x as usize] as usize];
                let t = half_line::mix(kind, line, both, component);
                put(out, place(f.width, x, q), t.r, t.g, t.b, t.a);
            }
        }
    }
}
