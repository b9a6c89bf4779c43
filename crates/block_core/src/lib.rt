// One block to texels of 16 bits in a lent buffer: its settings are read once, its numbers unquantised once.
#![tactic(auto)]

ghost use Rattle.std.specs.Prelude.{◌≡◌, ℕ, ◌*◌, ◌/◌, ◌%◌, ◌≤◌, ◌<◌, eqb, length, false, not, List};
ghost use Rattle.laws.specs.Choice.{pick, both};
ghost use Rattle.bits.specs.Block.{block_number};
ghost use Rattle.footprint.specs.Footprint.{width_of, texels_of, is_volume};
ghost use Rattle.block_header.specs.Counts.{weight_count, endpoint_count, endpoint_range_of};
ghost use Rattle.block_mode.specs.Back2D.{Limits};
ghost use Rattle.interpolation.specs.Expansion.{takes_hdr};
ghost use Rattle.texel.specs.Meaning.{error_texel, texel_from};
ghost use Rattle.texel.specs.BlockTexel.{in_row, block_into};
ghost use Rattle.block_fault.specs.Bits.{endpoint_at, weight_at};
ghost use Rattle.block_fault.specs.Faults.{fault_of};
ghost use Rattle.block_buffer.specs.inner.Painted.{painted};
ghost use Rattle.block_core.specs.inner.Shows.{Shows};
ghost use Rattle.block_core.specs.inner.Prepared.{frame_of, volume_frame_of, prepared_texel, single_texel, point_texel, Inside, halves};
ghost use Rattle.volume_infill.specs.inner.Way.{ByteLevels};
ghost use Rattle.weight_grid.specs.inner.Pairs.{OnePlane};

use bits::PhysicalBlock;
use block_buffer::{place, put};
use block_fault::{Contents, Settings};
use block_mode::WeightGrid;
use encoding::LevelPair;
use interpolation::{Kind, Texel};
use partition::Seeds;
use volume_paint::VolumeFrame;

// A footprint's sides and the scale factors of a weight grid along them, once for each block.
#[derive(Clone, Copy)]
struct FlatFrame {
    width: u8,
    height: u8,
    across: u16,
    down: u16,
}

fn frame_of(fp: u8) -> FlatFrame
    ensures { result ≡ frame_of fp }
{
    let width = footprint::width(fp);
    let height = footprint::height(fp);
    FlatFrame {
        width,
        height,
        across: weight_grid::scale(width),
        down: weight_grid::scale(height),
    }
}

// The same of a volume.
fn volume_frame(fp: u8) -> VolumeFrame
    ensures { result ≡ volume_frame_of fp }
{
    let width = footprint::width(fp);
    let height = footprint::height(fp);
    let depth = footprint::depth(fp);
    VolumeFrame {
        width,
        height,
        depth,
        across: weight_grid::scale(width),
        down: weight_grid::scale(height),
        inward: weight_grid::scale(depth),
    }
}

// The component that takes the second weight, 4 for none.
pub fn second_component(planes: u8, component: u8) -> u8
    ensures { result ≡ pick (eqb planes 2) component 4 }
{
    if planes == 2 { component } else { 4 }
}

// What every texel of a block with a fault is.
pub fn error_texel(kind: Kind) -> Texel
    ensures { result ≡ error_texel kind }
{
    let half = interpolation::takes_hdr(kind);
    Texel {
        r: 65535,
        g: if half { 65535 } else { 0 },
        b: 65535,
        a: 65535,
    }
}

// All texels of a flat block, row by row; the row's partitions are found at once. Only points of the grid are read: at the last column or row a
// point stands for its neighbour outside, whose factor is 0.
fn paint(
    kind: Kind,
    g: WeightGrid,
    component: u8,
    points: [LevelPair; 64],
    lines: &[[u16; 10]; 4],
    seeds: Seeds,
    partitions: u8,
    f: FlatFrame,
    out: &mut [u16; 864],
)
    requires inside { Inside g f }
    requires byte_levels { ByteLevels points }
    ensures { length out.old ≡ 864 → out.new ≡ painted f.width (prepared_texel kind g component points lines.now seeds partitions f) (f.height * f.width) out.old }
{
    let row = g.width as usize;
    let columns = weight_grid::columns(f.across, g.width, f.width);
    for y in 0..f.height {
        let gt = weight_grid::grid_place(f.down, y, g.height);
        let upper = ((gt / 16) as usize) * row;
        let lower = upper + weight_grid::step(gt, g.height, row);
        let which = partition::row_partitions(seeds, partitions, y);
        for x in 0..f.width {
            let c = columns[x as usize];
            let left = c.at as usize;
            let right = c.next as usize;
            let p00 = points[upper + left];
            let p01 = points[upper + right];
            let p10 = points[lower + left];
            let p11 = points[lower + right];
            let both = weight_grid::infill_both(c.part as u32, gt, p00, p01, p10, p11);
            let line = lines[which[x as usize] as usize];
            let t = half_line::mix(kind, line, both, component);
            put(out, place(f.width, x, y), t.r, t.g, t.b, t.a);
        }
    }
}

// The same of a block of one partition and one plane, as most blocks of a photograph are: no partition is asked, and no second weight, and two
// points beside each other are weighed by one product.
fn paint_single(
    kind: Kind,
    g: WeightGrid,
    points: [LevelPair; 64],
    lines: &[[u16; 10]; 4],
    f: FlatFrame,
    out: &mut [u16; 864],
)
    requires inside { Inside g f }
    requires one_plane { OnePlane points }
    ensures { length out.old ≡ 864 → out.new ≡ painted f.width (single_texel kind g points lines.now f) (f.height * f.width) out.old }
{
    let row = g.width as usize;
    let places = weight_grid::places(f.across, g.width, f.width);
    let pairs = weight_grid::pairs(points);
    let line = lines[0];
    for y in 0..f.height {
        let gt = weight_grid::grid_place(f.down, y, g.height);
        let from = ((gt / 16) as usize) * row;
        let next = from + weight_grid::step(gt, g.height, row);
        let mut upper: [u16; 16] = [0; 16];
        let mut lower: [u16; 16] = [0; 16];
        weight_grid::factor_pairs(&places, gt, &mut upper, &mut lower);
        for x in 0..f.width {
            let i = x as usize;
            let at = (places[i] / 16) as usize;
            let above = pairs[from + at];
            let below = pairs[next + at];
            let weight = weight_grid::infill_pairs(upper[i], lower[i], above, below);
            let texel = half_line::mix(kind, line, weight, 4);
            put(
                out,
                place(f.width, x, y),
                texel.r,
                texel.g,
                texel.b,
                texel.a,
            );
        }
    }
}

// Whether a block has one partition and one plane.
fn is_single(partitions: u8, planes: u8) -> bool
    ensures { result ≡ both (eqb partitions 1) (not (eqb planes 2)) }
{
    if partitions != 1 {
        return false;
    }
    planes != 2
}

// Whether a block has one partition and its grid a point for each texel.
fn on_points(g: WeightGrid, f: FlatFrame, partitions: u8) -> bool
    ensures { result ≡ both (eqb partitions 1) (both (eqb g.width f.width) (eqb g.height f.height)) }
{
    if partitions != 1 {
        return false;
    }
    if g.width != f.width {
        return false;
    }
    g.height == f.height
}

// So many texels of one partition, row by row, each at the weights of the point of its number.
fn paint_points(
    kind: Kind,
    component: u8,
    points: [LevelPair; 64],
    lines: &[[u16; 10]; 4],
    count: usize,
    out: &mut [u16; 864],
)
    requires { count ≤ 64 }
    ensures { (width : ℕ) (texel : ℕ → ℕ → Texel) → ((t : ℕ) → t < count → point_texel kind component points lines.now t ≡ texel (t % width) (t / width)) → length out.old ≡ 864 → out.new ≡ painted width texel count out.old }
{
    let line = lines[0];
    for i in 0..count {
        let t = half_line::mix(kind, line, points[i], component);
        put(out, 4 * i, t.r, t.g, t.b, t.a);
    }
}

// One texel everywhere.
pub fn flood(t: Texel, fp: u8, out: &mut [u16; 864])
    ensures { length out.old ≡ 864 → out.new ≡ painted (width_of fp) (λ x y. t) (texels_of fp) out.old }
{
    block_buffer::flood(t, footprint::texels(fp) as usize, out);
}

// The texels of a coded block. Whether the footprint is a volume is said beside it: for a caller that knows, nothing of the other is left.
fn paint_coded(
    block: PhysicalBlock,
    s: Settings,
    fp: u8,
    volume: bool,
    kind: Kind,
    out: &mut [u16; 864],
)
    requires volume_value { volume ≡ is_volume fp }
    requires grid_bound { (weight_count s.header.grid ≤ 64) × (endpoint_count s.header ≤ 18) }
    requires numbers_value { (s.numbers ≡ endpoint_count s.header) × (s.range ≡ endpoint_range_of s.header) }
    requires limits { Limits s.header.grid × (is_volume fp ≡ false → s.header.grid.depth ≡ 1) }
    ensures { length out.old ≡ 864 → out.new ≡ painted (width_of fp) (in_row fp (texel_from fp kind s.header (endpoint_at (block_number block) s.header) (weight_at (block_number block) s.header))) (texels_of fp) out.old }
{
    let h = s.header;
    let g = h.grid;
    let points = block_levels::points_of(block, g);
    let lines = block_levels::lines_of(block, h, kind, s.numbers, s.range);
    let small = footprint::is_small(fp);
    let component = second_component(g.planes, h.component);
    if volume {
        let frame = volume_frame(fp);
        volume_paint::paint_volume(
            kind,
            g.width,
            g.height,
            g.depth,
            component,
            points,
            &lines,
            h.index,
            h.partitions,
            small,
            frame,
            out,
        );
        return;
    }
    let seeds = partition::partition_seeds(h.index, h.partitions, small);
    let frame = frame_of(fp);
    if on_points(g, frame, h.partitions) {
        let count = (frame.height as usize) * (frame.width as usize);
        if g.planes == 2 {
            paint_points(kind, component, points, &lines, count, out);
        } else {
            paint_points(kind, 4, points, &lines, count, out);
        }
    } else if is_single(h.partitions, g.planes) {
        paint_single(kind, g, points, &lines, frame, out);
    } else {
        paint(
            kind,
            g,
            component,
            points,
            &lines,
            seeds,
            h.partitions,
            frame,
            out,
        );
    }
}

// A block that shows one texel everywhere: a void extent, or one with a fault, whose number is told (0 for none).
#[derive(Clone, Copy)]
pub struct UniformBlock {
    pub texel: Texel,
    pub fault: u8,
}

// What a block is decoded to: one texel for all places, or the numbers in the buffer.
#[derive(Clone, Copy)]
pub enum Decoded {
    Uniform(UniformBlock),
    Buffered,
}

// What `decode_some` does, from the halves of a block: as two numbers they need no copy in memory.
fn decode_halves(
    lo: u64,
    hi: u64,
    fp: u8,
    volume: bool,
    kind: Kind,
    out: &mut [u16; 864],
) -> Decoded
    requires { volume ≡ is_volume fp }
    ensures { Shows (fault_of (takes_hdr kind) fp (block_number (halves lo hi))) (block_into fp kind (block_number (halves lo hi))) fp result out.old out.new }
{
    let block = PhysicalBlock { lo, hi };
    match block_fault::read_settings(interpolation::takes_hdr(kind), volume, block, fp) {
        Err(fault) => Decoded::Uniform(UniformBlock {
            texel: error_texel(kind),
            fault: fault.into(),
        }),
        Ok(Contents::VoidExtent) => Decoded::Uniform(UniformBlock {
            texel: block_levels::colours(kind, block),
            fault: 0,
        }),
        Ok(Contents::Coded(s)) => {
            paint_coded(block, s, fp, volume, kind, out);
            Decoded::Buffered
        }
    }
}

// A block: the texel of all its places, or its numbers in the first 4 * texels places of a lent buffer. Whether the footprint is a volume is
// said beside it.
pub fn decode_some(
    block: PhysicalBlock,
    fp: u8,
    volume: bool,
    kind: Kind,
    out: &mut [u16; 864],
) -> Decoded
    requires { volume ≡ is_volume fp }
    ensures { Shows (fault_of (takes_hdr kind) fp (block_number block)) (block_into fp kind (block_number block)) fp result out.old out.new }
{
    decode_halves(block.lo, block.hi, fp, volume, kind, out)
}

// The numbers of a block that was decoded are all in the buffer; answers its fault, 0 for none.
pub fn buffered(d: Decoded, fp: u8, out: &mut [u16; 864]) -> u8
    ensures { (fault : ℕ) (into : List ℕ → List ℕ) (old : List ℕ) → Shows fault into fp d old out.old → (result ≡ fault) × (length old ≡ 864 → out.new ≡ into old) }
{
    match d {
        Decoded::Uniform(u) => {
            flood(u.texel, fp, out);
            u.fault
        }
        Decoded::Buffered => 0,
    }
}

// The numbers of a block, 16 bits each, into the first 4 * texels places of a lent buffer, whose other places stay as they were (all of
// them at a footprint above 23, which has no texels); answers its fault, 0 for none.
pub fn decode_into(
    block: PhysicalBlock,
    fp: u8,
    volume: bool,
    kind: Kind,
    out: &mut [u16; 864],
) -> u8
    requires { volume ≡ is_volume fp }
    ensures value { result ≡ fault_of (takes_hdr kind) fp (block_number block) }
    ensures out_after { length out.old ≡ 864 → out.new ≡ block_into fp kind (block_number block) out.old }
{
    let d = decode_halves(block.lo, block.hi, fp, volume, kind, out);
    buffered(d, fp, out)
}
