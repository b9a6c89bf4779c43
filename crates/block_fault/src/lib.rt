// What a block's bits say: its fault, or its settings, read once.
#![tactic(auto)]

ghost use Rattle.std.specs.Prelude.{◌≡◌, ◌+◌, ◌*◌, ◌≤◌, ◌<◌, not, eqb, ltb};
ghost use Rattle.laws.specs.Choice.{pick, both};
ghost use Rattle.laws.specs.Table.{padded};
ghost use Rattle.bits.specs.Block.{block_number};
ghost use Rattle.block_header.specs.Counts.{weight_bits};
ghost use Rattle.block_mode.specs.declared.BlockMode.TheVariants.{Grid};
ghost use Rattle.laws.specs.Reasons.{first_of};
ghost use Rattle.block_fault.specs.Bits.{mode_at, mode_of, header_with, selector_at, endpoints_from};
ghost use Rattle.block_fault.specs.Faults.{void_reasons, fault_of};
ghost use Rattle.footprint.specs.Footprint.{is_volume};
ghost use Rattle.void_extent.specs.Layout.{hdr_void_extent};
ghost use Rattle.reason.specs.Numbers.{fault_found};
ghost use Rattle.reason.specs.Answers.{Finds};
ghost use Rattle.block_fault.specs.inner.Settings.{settings_of, contents_of};

use bits::PhysicalBlock;
use block_header::BlockHeader;
use block_mode::{BlockMode, WeightGrid};
use reason::Fault;

// What the bits of a coded block without fault say: its settings, how many endpoint numbers it has and their quantisation range.
#[derive(Clone, Copy)]
pub struct Settings {
    pub header: BlockHeader,
    pub numbers: u8,
    pub range: u8,
}

// A block without fault: of one colour everywhere, or coded.
#[derive(Clone, Copy)]
pub enum Contents {
    VoidExtent,
    Coded(Settings),
}

// Whether a void extent is refused for its bit 9, HDR taken or not.
fn hdr_refused(hdr: bool, b: PhysicalBlock) -> bool
    ensures { result ≡ both (not hdr) (hdr_void_extent (block_number b)) }
{
    if hdr {
        return false;
    }
    void_extent::hdr_void_extent(b)
}

// What makes a void extent faulty: 12, then 13.
fn void_stage(hdr: bool, volume: bool, b: PhysicalBlock, fp: u8) -> Result<(), Fault>
    requires { volume ≡ is_volume fp }
    ensures { fault_found result ≡ first_of (void_reasons hdr fp (block_number b)) }
{
    if void_extent::bad_void_extent(volume, b) {
        return Err(Fault::VoidExtent);
    }
    if hdr_refused(hdr, b) {
        return Err(Fault::HdrVoidExtent);
    }
    Ok(())
}

// The mode of partition i, of the mode bits past the selector; 0 past the last partition.
fn mode_for(partitions: u8, selector: u8, code: u32, i: u8) -> u8
    requires { (partitions ≤ 4) × (selector ≤ 3) × (i ≤ 3) × (selector ≡ 0 → code < 16) }
    ensures { result ≡ pick (ltb i partitions) (mode_of partitions selector code i) 0 }
{
    if partitions <= i {
        return 0;
    }
    if selector == 0 {
        return code as u8;
    }
    let class = (code >> i) % 2;
    let low = (code >> (partitions + 2 * i)) % 4;
    (4 * (wide(selector) - 1 + class) + low) as u8
}

fn wide(x: u8) -> u32
    ensures { (result ≡ x) × (result ≤ 255) }
{
    x as u32
}

// The four modes of a header.
fn modes_for(partitions: u8, selector: u8, code: u32) -> [u8; 4]
    requires { (partitions ≤ 4) × (selector ≤ 3) × (selector ≡ 0 → code < 16) }
    ensures { result ≡ padded 4 partitions (mode_of partitions selector code) 0 }
{
    let m0 = mode_for(partitions, selector, code, 0);
    let m1 = mode_for(partitions, selector, code, 1);
    let m2 = mode_for(partitions, selector, code, 2);
    let m3 = mode_for(partitions, selector, code, 3);
    [m0, m1, m2, m3]
}

// Where the endpoint numbers begin.
pub fn endpoints_from(partitions: u8) -> u8
    ensures { result ≡ endpoints_from partitions }
{
    if partitions == 1 { 17 } else { 29 }
}

// The settings, once the grid, its weight bits, the partitions and the selector are known.
fn header_with(
    b: PhysicalBlock,
    g: WeightGrid,
    weights: u32,
    partitions: u8,
    selector: u8,
) -> BlockHeader
    requires { (partitions ≤ 4) × (selector ≤ 3) × (g.planes ≤ 2) × (weights ≡ weight_bits g) × (weights ≤ 96) }
    ensures { result ≡ header_with (block_number b) g partitions selector }
{
    let extra_width = block_header::extra_bits(partitions, selector);
    let component_width = block_header::component_bits(g.planes);
    let index_width = block_header::index_bits(partitions);
    let selector_width = block_header::selector_bits(partitions);
    let extra_from = 128 - weights - extra_width;
    let extra = bits::field_at(b, extra_from, extra_width) as u32;
    let base = bits::field_at(b, 13 + index_width + selector_width, 4) as u32;
    let component = bits::field_at(b, extra_from - component_width, component_width) as u8;
    let index = bits::field_at(b, 13, index_width) as u16;
    let modes = modes_for(partitions, selector, extra * 16 + base);
    BlockHeader {
        grid: g,
        component,
        partitions,
        index,
        selector,
        modes,
    }
}

// 17: two planes with four partitions.
fn planes_stage(planes: u8, partitions: u8) -> Result<(), Fault>
    ensures { fault_found result ≡ pick (both (eqb planes 2) (eqb partitions 4)) 17 0 }
{
    if (planes == 2) & (partitions == 4) {
        return Err(Fault::FourWithTwoPlanes);
    }
    Ok(())
}

// The header of a block whose mode is the grid g.
fn header_at(b: PhysicalBlock, g: WeightGrid, weights: u32, partitions: u8) -> BlockHeader
    requires { (partitions ≤ 4) × (g.planes ≤ 2) × (weights ≡ weight_bits g) × (weights ≤ 96) }
    ensures { result ≡ header_with (block_number b) g partitions (selector_at (block_number b) partitions) }
{
    let from = 13 + block_header::index_bits(partitions);
    let selector = bits::field_at(b, from, block_header::selector_bits(partitions)) as u8;
    header_with(b, g, weights, partitions, selector)
}

// The settings of a block whose mode is the grid g: the first stage that stops tells its fault.
fn coded(hdr: bool, b: PhysicalBlock, fp: u8, g: WeightGrid) -> Result<Settings, Fault>
    requires { mode_at fp (block_number b) ≡ Grid g }
    ensures { Finds (fault_of hdr fp (block_number b)) (settings_of fp (block_number b)) result }
{
    let weights = block_header::weight_bits(g);
    let grid = block_header::grid_stage(fp, g, weights);
    let Ok(()) = grid else {
        return Err(grid.unwrap_err());
    };
    let partitions = bits::field_at(b, 11, 2) as u8 + 1;
    let planes = planes_stage(g.planes, partitions);
    let Ok(()) = planes else {
        return Err(planes.unwrap_err());
    };
    let header = header_at(b, g, weights as u32, partitions);
    let count = block_header::endpoint_count(header);
    let left = block_header::bits_left_with(header, weights);
    let ends = block_header::endpoint_stage(hdr, header, count, left);
    let Ok(()) = ends else {
        return Err(ends.unwrap_err());
    };
    Ok(Settings {
        header,
        numbers: count as u8,
        range: quantization::endpoint_range(count, left),
    })
}

// What a block comes to, HDR taken or not, read once. Whether the footprint is a volume is said beside it: a caller that knows says so once.
pub fn read_settings(hdr: bool, volume: bool, b: PhysicalBlock, fp: u8) -> Result<Contents, Fault>
    requires { volume ≡ is_volume fp }
    ensures { Finds (fault_of hdr fp (block_number b)) (contents_of fp (block_number b)) result }
{
    match volume_mode::block_mode_in(volume, bits::field_at(b, 0, 11) as u16) {
        BlockMode::Reserved => Err(Fault::ReservedMode),
        BlockMode::VoidExtent => {
            let void = void_stage(hdr, volume, b, fp);
            let Ok(()) = void else {
                return Err(void.unwrap_err());
            };
            Ok(Contents::VoidExtent)
        }
        BlockMode::Grid(g) => Ok(Contents::Coded(coded(hdr, b, fp, g)?)),
    }
}
