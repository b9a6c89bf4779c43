// The parts of an image that its blocks cover, and a block of its bytes: for every format whose blocks are of sixteen bytes. The copying of a
// block's numbers, for flat pictures and volumes.
#![tactic(auto)]

ghost use Rattle.std.specs.Prelude.{◌≡◌, ◌+◌, ◌*◌, ◌≤◌, ◌<◌, length};
ghost use Rattle.bits.specs.Block.{block_number};
ghost use Rattle.image_layout.specs.Numbers.{block_at};
ghost use Rattle.interpolation.specs.Expansion.{shown_of};
ghost use Rattle.interpolation.specs.declared.Kind.TheVariants.{Unorm16, Srgb8};
ghost use Rattle.picture_regions.specs.inner.Regions.{Pasted, Cropped};
ghost use Rattle.image_layout.specs.inner.Parts.{SoundGrid, PartFits, PartOf, RunOf, RunFits};

use bits::PhysicalBlock;
use image_layout::{ImageGrid, Part, Run};

// How many of n places from `at` on are within a side.
pub fn crop(side: usize, at: usize, n: usize) -> usize
    requires { at < side }
    ensures { Cropped side at n result }
{
    if n <= side - at { n } else { side - at }
}

// The part of the image that block b covers.
pub fn part_of(g: ImageGrid, b: usize) -> Part
    requires sound_grid { SoundGrid g }
    requires b_bound { b < g.down * g.across }
    ensures { PartOf g b result }
{
    let x = b % g.across * g.columns;
    let y = b / g.across * g.rows;
    let columns = crop(g.width, x, g.columns);
    let rows = crop(g.height, y, g.rows);
    Part {
        x,
        y,
        columns,
        rows,
    }
}

// Row dy of a part.
pub fn run_of(g: ImageGrid, p: Part, dy: usize) -> Run
    requires sound_grid { SoundGrid g }
    requires part_fits { PartFits g p }
    requires dy_lt_rows { dy < p.rows }
    ensures { RunOf g p dy result }
{
    let x = p.x;
    let y = p.y;
    let columns = p.columns;
    let width = g.width;
    let step = g.columns;
    Run {
        from: 4 * (dy * step),
        at: 4 * ((y + dy) * width + x),
        n: 4 * columns,
    }
}

// Block b of the bytes.
pub fn block_of(s: &[u8], b: usize) -> PhysicalBlock
    requires { 16 * b + 16 ≤ length s.now }
    ensures { block_number result ≡ block_at s.now b }
{
    let at = 16 * b;
    bits::load(&s[at..at + 16])
}

// Room for the numbers of the largest block.
pub fn blank() -> [u16; 864]
    ensures { length result ≡ 864 }
{
    [0u16; 864]
}

// Copies a run of a block's numbers.
pub fn copy_numbers(src: &[u16; 864], r: Run, out: &mut [u16])
    requires { RunFits r 864 (length out.old) }
    ensures { Pasted (shown_of Unorm16) src.now r.from r.n out.old r.at out.new }
{
    let from = r.from;
    let at = r.at;
    for i in 0..r.n {
        out[at + i] = src[from + i];
    }
}

// Copies the top bytes of a run of a block's numbers.
pub fn copy_bytes(src: &[u16; 864], r: Run, out: &mut [u8])
    requires { RunFits r 864 (length out.old) }
    ensures { Pasted (shown_of Srgb8) src.now r.from r.n out.old r.at out.new }
{
    let from = r.from;
    let at = r.at;
    for i in 0..r.n {
        out[at + i] = interpolation::top_byte(src[from + i]);
    }
}
