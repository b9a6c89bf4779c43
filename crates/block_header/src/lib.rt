// What a block's settings are besides its packed numbers, and the counts and reasons that follow from them.
#![tactic(auto)]

ghost use Rattle.std.specs.Prelude.{◌≡◌, ◌≤◌, min, eqb};
ghost use Rattle.laws.specs.Choice.{pick};
ghost use Rattle.color_endpoint.specs.Table.{number_count};
ghost use Rattle.block_header.specs.Reasons.{some_hdr, hdr_refused};
ghost use Rattle.block_header.specs.inner.Stages.{grid_fault, endpoint_fault};
ghost use Rattle.reason.specs.Numbers.{fault_found};
ghost use Rattle.block_header.specs.Counts.{weight_count, weight_bits, component_bits, partition_index_bits, selector_bits, extra_bits, endpoint_count, bits_left, endpoint_range_of};

use block_mode::WeightGrid;
use reason::Fault;

// The settings of a block that is no void extent: 01's fields of a mode sheet, without its numbers.
#[derive(Clone, Copy)]
pub struct BlockHeader {
    pub grid: WeightGrid,
    pub component: u8,
    pub partitions: u8,
    pub index: u16,
    pub selector: u8,
    pub modes: [u8; 4],
}

fn wide(x: u8) -> u32
    ensures { (result ≡ x) × (result ≤ 255) }
{
    x as u32
}

// The weights of both planes.
pub fn weight_count(g: WeightGrid) -> u32
    ensures { (result ≡ weight_count g) × (result ≤ 4228250625) }
{
    wide(g.width) * wide(g.height) * wide(g.depth) * wide(g.planes)
}

// The bits of the weight stream.
pub fn weight_bits(g: WeightGrid) -> u64
    ensures { result ≡ weight_bits g }
{
    quantization::range_bits(g.range, weight_count(g))
}

// Two bits of component selector with two planes.
pub fn component_bits(planes: u8) -> u32
    ensures { (result ≡ component_bits planes) × (result ≤ 508) }
{
    if planes == 0 {
        return 0;
    }
    2 * (wide(planes) - 1)
}

pub fn index_bits(partitions: u8) -> u32
    ensures { (result ≡ partition_index_bits partitions) × (result ≤ 10) }
{
    if partitions == 1 { 0 } else { 10 }
}

pub fn selector_bits(partitions: u8) -> u32
    ensures { (result ≡ selector_bits partitions) × (result ≤ 2) }
{
    if partitions == 1 { 0 } else { 2 }
}

pub fn extra_bits(partitions: u8, selector: u8) -> u32
    ensures { (result ≡ extra_bits partitions selector) × (result ≤ 761) }
{
    if selector == 0 {
        return 0;
    }
    quantization::bits_left(3 * wide(partitions), 4)
}

// The numbers of a mode where its partition is there.
fn counted(there: bool, mode: u8) -> u32
    ensures { (result ≡ pick there (number_count mode) 0) × (result ≤ 128) }
{
    let n = color_endpoint::number_count(mode);
    if there { n } else { 0 }
}

// The endpoint numbers of all partitions; past the fourth a mode is 0, which takes two.
pub fn endpoint_count(h: BlockHeader) -> u32
    ensures { (result ≡ endpoint_count h) × (result ≤ 32640) }
{
    let modes = h.modes;
    let count = wide(h.partitions);
    let n0 = counted(0 < count, modes[0]);
    let n1 = counted(1 < count, modes[1]);
    let n2 = counted(2 < count, modes[2]);
    let n3 = counted(3 < count, modes[3]);
    n0 + n1 + n2 + n3 + 2 * quantization::bits_left(count, 4)
}

// The bits for endpoint numbers, weights and what lies between.
fn room(partitions: u8) -> u32
    ensures { (result ≡ pick (eqb partitions 1) 111 99) × (result ≤ 111) }
{
    if partitions == 1 { 111 } else { 99 }
}

// At most 1000, which is more than any room.
fn clipped(n: u64) -> u32
    ensures { (result ≡ min n 1000) × (result ≤ 1000) }
{
    if n < 1000 { n as u32 } else { 1000 }
}

// The bits of the weight stream, 1000 for more.
pub fn clipped_weight_bits(g: WeightGrid) -> u32
    ensures { (result ≡ min (weight_bits g) 1000) × (result ≤ 1000) }
{
    clipped(weight_bits(g))
}

// The bits left for the endpoint numbers, once the weight bits are known.
pub fn bits_left_with(h: BlockHeader, weights: u64) -> u32
    requires { weights ≡ weight_bits h.grid }
    ensures { (result ≡ bits_left h) × (result ≤ 111) }
{
    let g = h.grid;
    let all = room(h.partitions);
    let used = clipped(weights) + component_bits(g.planes) + extra_bits(h.partitions, h.selector);
    quantization::bits_left(all, used)
}

// The bits left for the endpoint numbers.
pub fn bits_left(h: BlockHeader) -> u32
    ensures { (result ≡ bits_left h) × (result ≤ 111) }
{
    bits_left_with(h, weight_bits(h.grid))
}

// The quantisation range of the endpoint numbers.
pub fn endpoint_range_of(h: BlockHeader) -> u8
    ensures { result ≡ endpoint_range_of h }
{
    quantization::endpoint_range(endpoint_count(h), bits_left(h))
}

// The first of 14 to 16 that holds, once the weight bits are known.
pub fn grid_stage(fp: u8, g: WeightGrid, weights: u64) -> Result<(), Fault>
    requires { weights ≡ weight_bits g }
    ensures { fault_found result ≡ grid_fault fp g }
{
    let wide = footprint::width(fp) < g.width;
    let high = footprint::height(fp) < g.height;
    let deep = footprint::depth(fp) < g.depth;
    let large = wide | (high | deep);
    let many = 64 < weight_count(g);
    let outside = (weights < 24) | (96 < weights);
    if !(large | (many | outside)) {
        return Ok(());
    }
    // of a faulty block by values: a branch at its bits would be guessed
    Err(if large {
        Fault::GridTooLarge
    } else if many {
        Fault::TooManyWeights
    } else {
        Fault::WeightBits
    })
}

// The first of 14 to 16 that holds.
pub fn grid_fault(fp: u8, g: WeightGrid) -> Result<(), Fault>
    ensures { fault_found result ≡ grid_fault fp g }
{
    grid_stage(fp, g, weight_bits(g))
}

// Whether some partition has an HDR mode; past the fourth a mode is 0, which is none.
pub fn some_hdr(h: BlockHeader) -> bool
    ensures { result ≡ some_hdr h }
{
    let modes = h.modes;
    let count = h.partitions;
    let h0 = (0 < count) & color_endpoint::is_hdr(modes[0]);
    let h1 = (1 < count) & color_endpoint::is_hdr(modes[1]);
    let h2 = (2 < count) & color_endpoint::is_hdr(modes[2]);
    let h3 = (3 < count) & color_endpoint::is_hdr(modes[3]);
    h3 | (h2 | (h1 | h0))
}

// Whether it is a reason, HDR taken or not.
fn hdr_refused(hdr: bool, h: BlockHeader) -> bool
    ensures { result ≡ hdr_refused hdr h }
{
    if hdr { false } else { some_hdr(h) }
}

// The first of 18 to 20 that holds, HDR taken or not, once the endpoint numbers and the bits left for them are known: 19 before 20,
// whatever partition is HDR.
pub fn endpoint_stage(hdr: bool, h: BlockHeader, count: u32, left: u32) -> Result<(), Fault>
    requires { (count ≡ endpoint_count h) × (count ≤ 32640) × (left ≡ bits_left h) }
    ensures { fault_found result ≡ endpoint_fault hdr h }
{
    if 18 < count {
        return Err(Fault::TooManyEndpoints);
    }
    if left < (13 * count + 4) / 5 {
        return Err(Fault::EndpointBits);
    }
    if hdr_refused(hdr, h) {
        return Err(Fault::HdrEndpoints);
    }
    Ok(())
}

// The first of 18 to 20 that holds.
pub fn endpoint_fault(hdr: bool, h: BlockHeader) -> Result<(), Fault>
    ensures { fault_found result ≡ endpoint_fault hdr h }
{
    endpoint_stage(hdr, h, endpoint_count(h), bits_left(h))
}
