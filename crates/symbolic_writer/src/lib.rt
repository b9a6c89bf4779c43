// An acceptable symbolic block (01: sheet) packed into the 128 bits of a block, part by part from bit 0 upwards.
#![tactic(auto)]

ghost use Rattle.std.specs.Prelude.{◌≡◌, ◌-◌, ◌^◌, ◌≤◌, ◌<◌, get_or, take};
ghost use Rattle.laws.specs.Table.{tab, padded};
ghost use Rattle.bits.specs.Field.{reverse};
ghost use Rattle.bits.specs.Block.{block_number};
ghost use Rattle.integer_sequence.specs.Reading.{stored};
ghost use Rattle.volume_mode.specs.Either.{block_mode_of};
ghost use Rattle.void_extent.specs.Layout.{extent_place};
ghost use Rattle.void_extent.specs.Writing.{fixed_bits, void_cells};
ghost use Rattle.block_header.specs.Counts.{weight_bits, extra_bits, endpoint_count, endpoint_range_of};
ghost use Rattle.block_fault.specs.Bits.{endpoints_from};
ghost use Rattle.symbolic_block.specs.Fields.{sheet_grid, header_of, colour_in, extent_in};
ghost use Rattle.symbolic_block.specs.Refusals.{refusal_of};
ghost use Rattle.symbolic_block.specs.Writing.{mode_number, class_bit, modes_code, endpoint_stream, weight_stream, endpoints_end, component_from, mode_cells, block_of};
ghost use Rattle.symbolic_writer.specs.inner.Piled.{with_value, piled, extent_cells, Packable};

use bits::PhysicalBlock;
use block_header::BlockHeader;
use block_mode::WeightGrid;
use encoding::Stored;
use symbolic_block::SymbolicBlock;

fn wide(x: u8) -> u64
    ensures { (result ≡ x) × (result ≤ 255) }
{
    x as u64
}

fn wide16(x: u16) -> u64
    ensures { result ≡ x }
{
    x as u64
}

fn no_bits() -> PhysicalBlock
    ensures { block_number result ≡ 0 }
{
    PhysicalBlock { lo: 0, hi: 0 }
}

fn grid_of(s: SymbolicBlock) -> WeightGrid
    ensures { result ≡ sheet_grid s }
{
    WeightGrid {
        width: s.width,
        height: s.height,
        depth: s.depth,
        range: s.range,
        planes: s.planes,
    }
}

// The settings of a mode sheet.
fn header_of(s: SymbolicBlock) -> BlockHeader
    ensures { result ≡ header_of s }
{
    let grid = grid_of(s);
    let modes = s.modes;
    BlockHeader {
        grid,
        component: s.component,
        partitions: s.partitions,
        index: s.index,
        selector: s.selector,
        modes,
    }
}

// The bits of the block mode; 0 where there is none.
fn mode_number(g: WeightGrid) -> u64
    ensures { result ≡ mode_number (block_mode_of g) }
{
    volume_mode::block_mode_of(g).map_or(0, wide16)
}

fn power(i: u32) -> u64
    requires { i ≤ 8 }
    ensures { (result ≡ 2 ^ i) × (result ≤ 256) }
{
    1 << i
}

// Whether a mode's class is the selector's own and not the one before.
fn class_bit(selector: u8, mode: u64) -> u64
    requires { mode ≤ 255 }
    ensures { (result ≡ class_bit selector mode) × (result ≤ 1) }
{
    let before = quantization::bits_left(selector as u32, 1);
    (quantization::bits_left((mode / 4) as u32, before) % 2) as u64
}

// All endpoint modes as one number: first one class bit for each partition, then two mode bits for each.
fn modes_code(h: BlockHeader) -> u64
    requires { h.partitions ≤ 4 }
    ensures { result ≡ modes_code h }
{
    let modes = h.modes;
    let selector = h.selector;
    if selector == 0 {
        return wide(modes[0]);
    }
    let count = h.partitions as u32;
    let mut classes: u64 = 0;
    let mut lows: u64 = 0;
    for i in 0..count {
        let m = wide(modes[i as usize]);
        classes = class_bit(selector, m) * power(i) + classes;
        lows = (m % 4) * power(2 * i) + lows;
    }
    lows * power(count) + classes
}

// The bit where the endpoint numbers end, n of a range.
fn endpoints_end(h: BlockHeader, n: u32, range: u8) -> u32
    requires { (n ≡ endpoint_count h) × (range ≡ endpoint_range_of h) × (n ≤ 18) }
    ensures { result ≡ endpoints_end h }
{
    block_fault::endpoints_from(h.partitions) as u32 + quantization::range_bits(range, n) as u32
}

// The bit where the weights begin, which run down to it from bit 127.
fn weights_from(g: WeightGrid) -> u32
    ensures { (result ≡ 128 - weight_bits g) × (result ≤ 128) }
{
    quantization::bits_left(128, block_header::clipped_weight_bits(g))
}

// The bit where the extra mode bits begin.
fn extra_from(h: BlockHeader) -> u32
    ensures { result ≡ 128 - weight_bits h.grid - extra_bits h.partitions h.selector }
{
    let g = h.grid;
    quantization::bits_left(
        weights_from(g),
        block_header::extra_bits(h.partitions, h.selector),
    )
}

// The bit where the component selector (01: plane channel) begins.
fn component_from(h: BlockHeader) -> u32
    ensures { result ≡ component_from h }
{
    let g = h.grid;
    quantization::bits_left(extra_from(h), block_header::component_bits(g.planes))
}

fn no_numbers() -> [Stored; 64]
    ensures { result ≡ tab (λ k. stored 0) 64 }
{
    [Stored(0); 64]
}

// The endpoint numbers in a list of 64.
fn lengthened(xs: [Stored; 18]) -> [Stored; 64]
    ensures { result ≡ padded 64 18 (λ i. get_or xs i (stored 0)) (stored 0) }
{
    let mut out = no_numbers();
    for i in 0..18 {
        out[i] = xs[i];
    }
    out
}

// A block's bits below bit p, and from there on those of another block.
fn with_block(b: PhysicalBlock, p: u32, t: PhysicalBlock) -> PhysicalBlock
    requires { p ≤ 128 }
    ensures { block_number result ≡ with_value (block_number b) p (block_number t) }
{
    bits::append(bits::append(b, p, t.lo), p + 64, t.hi)
}

// The block mode, the partitions, their index, the selector and the first four mode bits, of the code of the modes.
fn settings(s: SymbolicBlock, code: u64) -> PhysicalBlock
    requires { Packable s × (code ≡ modes_code (header_of s)) }
    ensures { block_number result ≡ piled 0 (take 5 (mode_cells s)) }
{
    let partitions = s.partitions;
    let index_end = 13 + block_header::index_bits(partitions);
    let b = bits::append(no_bits(), 0, mode_number(grid_of(s)));
    let b = bits::append(b, 11, wide(partitions) - 1);
    let b = bits::append(b, 13, wide16(s.index));
    let b = bits::append(b, index_end, wide(s.selector));
    let modes_from = index_end + block_header::selector_bits(partitions);
    bits::append(b, modes_from, code % 16)
}

fn with_endpoints(b: PhysicalBlock, s: SymbolicBlock, n: u8, range: u8) -> PhysicalBlock
    requires { Packable s × (n ≡ endpoint_count (header_of s)) × (range ≡ endpoint_range_of (header_of s)) }
    ensures { block_number result ≡ with_value (block_number b) (endpoints_from s.partitions) (endpoint_stream s) }
{
    let xs = s.endpoints;
    sequence_writer::write_sequence(
        b,
        block_fault::endpoints_from(s.partitions),
        range,
        lengthened(xs),
        n,
    )
}

// The weights as they stand in a block, from the last bit of their stream to its first.
fn weights_of(s: SymbolicBlock) -> PhysicalBlock
    requires { Packable s }
    ensures { block_number result ≡ reverse (weight_bits (sheet_grid s)) (weight_stream s) }
{
    let g = grid_of(s);
    let xs = s.weights;
    let n = block_header::weight_count(g) as u8;
    let b = sequence_writer::write_sequence(no_bits(), 0, s.range, xs, n);
    bits::part(
        bits::reversed(b),
        weights_from(g),
        block_header::clipped_weight_bits(g),
    )
}

fn mode_block(s: SymbolicBlock) -> PhysicalBlock
    requires { Packable s }
    ensures { block_number result ≡ piled 0 (mode_cells s) }
{
    let h = header_of(s);
    let g = h.grid;
    let code = modes_code(h);
    let n = block_header::endpoint_count(h);
    let range = block_header::endpoint_range_of(h);
    let b = with_endpoints(settings(s, code), s, n as u8, range);
    // spare bits
    let b = bits::append(b, endpoints_end(h, n, range), 0);
    let b = bits::append(b, component_from(h), wide(h.component));
    let b = bits::append(b, extra_from(h), code / 16);
    with_block(b, weights_from(g), weights_of(s))
}

// Bits 11..10 of a flat void extent, both 1; a volume has none.
fn fixed_bits(volume: bool) -> u64
    ensures { result ≡ fixed_bits volume }
{
    if volume { 0 } else { 3 }
}

// One extent more.
fn with_extent(b: PhysicalBlock, volume: bool, i: u32, x: u16) -> PhysicalBlock
    requires { i < 6 }
    ensures { block_number result ≡ with_value (block_number b) (extent_place volume i) x }
{
    bits::append(b, void_extent::extent_place(volume, i), wide16(x))
}

fn with_extents(b: PhysicalBlock, volume: bool, e: [u16; 6]) -> PhysicalBlock
    ensures { block_number result ≡ piled (block_number b) (extent_cells volume (λ i. get_or e i 0)) }
{
    let b = with_extent(b, volume, 0, e[0]);
    let b = with_extent(b, volume, 1, e[1]);
    let b = with_extent(b, volume, 2, e[2]);
    let b = with_extent(b, volume, 3, e[3]);
    let b = with_extent(b, volume, 4, e[4]);
    with_extent(b, volume, 5, e[5])
}

fn with_colours(b: PhysicalBlock, c: [u16; 4]) -> PhysicalBlock
    ensures { block_number result ≡ with_value (with_value (with_value (with_value (block_number b) 64 (get_or c 0 0)) 80 (get_or c 1 0)) 96 (get_or c 2 0)) 112 (get_or c 3 0) }
{
    let b = bits::append(b, 64, wide16(c[0]));
    let b = bits::append(b, 80, wide16(c[1]));
    let b = bits::append(b, 96, wide16(c[2]));
    bits::append(b, 112, wide16(c[3]))
}

// A void extent (01: solid sheet): bits 8..0 are 111111100, bit 9 is the HDR mark.
fn void_block(volume: bool, s: SymbolicBlock) -> PhysicalBlock
    ensures { block_number result ≡ piled 0 (void_cells volume s.hdr (extent_in s) (colour_in s)) }
{
    let extents = s.extents;
    let colours = s.colours;
    let b = bits::append(no_bits(), 0, 0b111111100);
    let b = bits::append(b, 9, wide(s.hdr));
    let b = bits::append(b, 10, fixed_bits(volume));
    with_colours(with_extents(b, volume, extents), colours)
}

// The block of a symbolic block that is acceptable at the footprint fp.
pub fn block_of(fp: u8, s: SymbolicBlock) -> PhysicalBlock
    requires { refusal_of fp s ≡ 0 }
    ensures { block_number result ≡ block_of fp s }
{
    if s.mark == 1 {
        return void_block(footprint::is_volume(fp), s);
    }
    mode_block(s)
}
