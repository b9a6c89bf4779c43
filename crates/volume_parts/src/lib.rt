// The parts of a volume picture that its blocks cover, and their rows.
#![tactic(auto)]

ghost use Rattle.std.specs.Prelude.{◌*◌, ◌<◌};
ghost use Rattle.volume_layout.specs.inner.Parts.{SoundGrid, PartFits, PartOf, RunOf};

use image_layout::Run;
use volume_layout::{VolumeGrid, VolumePart};

// The part of the volume that block b covers.
pub fn part_of(g: VolumeGrid, b: usize) -> VolumePart
    requires sound_grid { SoundGrid g }
    requires b_bound { b < g.deep * g.down * g.across }
    ensures { PartOf g b result }
{
    let row = b / g.across;
    let x = b % g.across * g.columns;
    let y = row % g.down * g.rows;
    let z = row / g.down * g.layers;
    let columns = image_parts::crop(g.width, x, g.columns);
    let rows = image_parts::crop(g.height, y, g.rows);
    let layers = image_parts::crop(g.depth, z, g.layers);
    VolumePart {
        x,
        y,
        z,
        columns,
        rows,
        layers,
    }
}

// Row dy of layer dz of a part.
pub fn run_of(g: VolumeGrid, p: VolumePart, dy: usize, dz: usize) -> Run
    requires sound_grid { SoundGrid g }
    requires part_fits { PartFits g p }
    requires dy_lt_rows { (dy < p.rows) × (dz < p.layers) }
    ensures { RunOf g p dy dz result }
{
    let x = p.x;
    let y = p.y;
    let z = p.z;
    let columns = p.columns;
    let width = g.width;
    let height = g.height;
    let step = g.columns;
    let rows = g.rows;
    Run {
        from: 4 * ((dz * rows + dy) * step),
        at: 4 * (((z + dz) * height + (y + dy)) * width + x),
        n: 4 * columns,
    }
}
