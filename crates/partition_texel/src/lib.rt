// One texel by its partition: of a block's packed endpoint numbers only that partition's are read, and its pair alone is made.
#![tactic(auto)]

ghost use Rattle.std.specs.Prelude.{◌≡◌, [], ◌∷◌, ◌+◌, ◌*◌, ◌/◌, ◌%◌, ◌^◌, ◌≤◌, ◌<◌, min};
ghost use Rattle.laws.specs.Table.{padded};
ghost use Rattle.bits.specs.Block.{block_number};
ghost use Rattle.encoding.specs.inner.Levels.{first_level, second_level};
ghost use Rattle.quantization.specs.Ranges.{encoding_at, bits_at};
ghost use Rattle.quantization.specs.Unquantise.{unquant_endpoint};
ghost use Rattle.integer_sequence.specs.Reading.{number, sequence_at};
ghost use Rattle.weight_grid.specs.Cell.{level};
ghost use Rattle.color_endpoint.specs.Table.{number_count, start_of};
ghost use Rattle.interpolation.specs.Expansion.{expand_of, expanded_pair};
ghost use Rattle.interpolation.specs.Texel.{mix_of, texel_of};
ghost use Rattle.block_header.specs.Counts.{endpoint_count, endpoint_range_of};
ghost use Rattle.block_fault.specs.Bits.{endpoint_at};
ghost use Rattle.texel.specs.Meaning.{endpoint_levels, partition_texel};

use bits::PhysicalBlock;
use block_header::BlockHeader;
use encoding::{Level, LevelPair};
use endpoint_arithmetic::EndpointPair;
use interpolation::{Kind, Texel};
use sequence_numbers::StoredEight;

// Where the numbers of partition p begin.
fn start_of(modes: [u8; 4], p: usize) -> u32
    requires { p ≤ 4 }
    ensures { result ≡ start_of modes p }
{
    let mut start: u32 = 0;
    for i in 0..p {
        start += color_endpoint::number_count(modes[i]);
    }
    start
}

// How many numbers a mode takes; eight are looked at.
fn own_count(mode: u8) -> u32
    ensures { result ≡ min (number_count mode) 8 }
{
    let n = color_endpoint::number_count(mode);
    if n < 8 { n } else { 8 }
}

// The levels of the first n of eight stored numbers.
fn levels_in(range: u8, xs: StoredEight, n: u32) -> [Level; 18]
    requires { n ≤ 8 }
    ensures { result ≡ padded 18 n (λ k. level (unquant_endpoint range (xs.0 / 2 ^ (8 * k) % 256))) (level 0) }
{
    let rule = quantization::endpoint_rule(range);
    let mut out = [Level(0); 18];
    for k in 0..n {
        out[k as usize] = block_levels::level_by(rule, sequence_numbers::stored_in(xs, k));
    }
    out
}

// The levels of so many endpoint numbers from number `start` on, of n that begin at bit `from` of a block.
fn own_levels(
    block: PhysicalBlock,
    from: u8,
    range: u8,
    n: u8,
    start: u32,
    count: u32,
) -> [Level; 18]
    requires { (start ≤ 18) × (count ≤ 8) }
    ensures { result ≡ padded 18 count (λ k. level (unquant_endpoint range (number (encoding_at range) (bits_at range) (sequence_at (encoding_at range) (bits_at range) (block_number block) from n) (start + k)))) (level 0) }
{
    let w = quantization::range_bits(range, n as u32) as u32;
    let s = bits::part(block, from as u32, w);
    levels_in(
        range,
        sequence_numbers::numbers_from(s, range, start, count),
        count,
    )
}

fn wide(c: u8) -> u16
    ensures { (result ≡ c) × (result ≤ 255) }
{
    c as u16
}

// An end's channel in 16 bits.
fn expanded(kind: Kind, c: u8) -> u16
    ensures { result ≡ expand_of kind c }
{
    match kind {
        Kind::Unorm16 => 257 * wide(c),
        Kind::Srgb8 => 256 * wide(c) + 128,
        Kind::Float16 => 257 * wide(c),
    }
}

// A channel: its ends expanded and mixed.
fn channel(kind: Kind, c0: u8, c1: u8, i: u16) -> u16
    ensures { result ≡ mix_of (expand_of kind c0) (expand_of kind c1) i % 65536 }
{
    half_line::mixed(expanded(kind, c0), expanded(kind, c1), i)
}

// The texel of a pair of bytes.
fn pair_texel(kind: Kind, p: EndpointPair, weights: LevelPair, component: u8) -> Texel
    ensures { result ≡ texel_of (expanded_pair kind p) (level (first_level weights)) (level (second_level weights)) component }
{
    let first = (weights.0 % 256) as u16;
    let second = (weights.0 / 65536) as u16;
    let x = p.e0;
    let y = p.e1;
    let r = channel(
        kind,
        x[0],
        y[0],
        half_line::chosen(component, first, second, 0),
    );
    let g = channel(
        kind,
        x[1],
        y[1],
        half_line::chosen(component, first, second, 1),
    );
    let b = channel(
        kind,
        x[2],
        y[2],
        half_line::chosen(component, first, second, 2),
    );
    let a = channel(
        kind,
        x[3],
        y[3],
        half_line::chosen(component, first, second, 3),
    );
    Texel { r, g, b, a }
}

// The texel of a mode's own numbers, as that of the one partition of a table.
fn own_texel(kind: Kind, mode: u8, levels: [Level; 18], weights: LevelPair, component: u8) -> Texel
    ensures { result ≡ partition_texel kind (mode ∷ 0 ∷ 0 ∷ 0 ∷ []) 1 levels 0 (level (first_level weights)) (level (second_level weights)) component }
{
    let t = color_endpoint::endpoint_table([mode, 0, 0, 0], 1, levels);
    if interpolation::takes_hdr(kind) {
        let q = half_pair::half_table([mode, 0, 0, 0], 1, levels, t);
        half_line::mix_half(half_line::half_line(q[0]), weights, component)
    } else {
        pair_texel(kind, t[0], weights, component)
    }
}

// The texel of partition p, by the weights of both planes; `component` takes the second.
pub fn partition_texel(
    block: PhysicalBlock,
    h: BlockHeader,
    kind: Kind,
    n: u8,
    range: u8,
    p: usize,
    weights: LevelPair,
    component: u8,
) -> Texel
    requires n_value { (n ≡ endpoint_count h) × (n ≤ 18) × (range ≡ endpoint_range_of h) }
    requires p_lt_partitions { (p < h.partitions) × (p < 4) }
    ensures { result ≡ partition_texel kind h.modes h.partitions (endpoint_levels (endpoint_range_of h) (endpoint_at (block_number block) h)) p (level (first_level weights)) (level (second_level weights)) component }
{
    let modes = h.modes;
    let mode = modes[p];
    let start = start_of(modes, p);
    let count = own_count(mode);
    let from = block_fault::endpoints_from(h.partitions);
    let levels = own_levels(block, from, range, n, start, count);
    own_texel(kind, mode, levels, weights, component)
}
