// The numbers of a block as its texels are made of them: of a coded block, unquantised once, the points of its weight grid, both planes' levels in one,
// and the lines of its endpoint pairs; of a void extent its colours.
#![tactic(auto)]

ghost use Rattle.std.specs.Prelude.{◌≡◌, ◌*◌, ◌≤◌, ◌<◌, ltb, get_or, not};
ghost use Rattle.laws.specs.Choice.{pick, both};
ghost use Rattle.interpolation.specs.Expansion.{takes_hdr};
ghost use Rattle.laws.specs.Table.{tab, padded};
ghost use Rattle.bits.specs.Field.{reverse};
ghost use Rattle.bits.specs.Block.{block_number};
ghost use Rattle.integer_sequence.specs.Reading.{number, sequence_at, stored};
ghost use Rattle.quantization.specs.Ranges.{encoding_at, bits_at};
ghost use Rattle.quantization.specs.inner.Products.{by_rule};
ghost use Rattle.quantization.specs.Unquantise.{unquant_endpoint};
ghost use Rattle.block_header.specs.Counts.{weight_count, endpoint_count, endpoint_range_of};
ghost use Rattle.endpoint_arithmetic.specs.Pair.{zero_pair};
ghost use Rattle.interpolation.specs.Expansion.{no_pair};
ghost use Rattle.interpolation.specs.inner.Line.{line_of};
ghost use Rattle.half_pair.specs.Pair.{no_half};
ghost use Rattle.half_line.specs.inner.Line.{half_line_of};
ghost use Rattle.weight_grid.specs.Cell.{level};
ghost use Rattle.weight_grid.specs.inner.Points.{points_of};
ghost use Rattle.block_mode.specs.Back2D.{Limits};
ghost use Rattle.texel.specs.Meaning.{endpoint_levels, weight_levels, solid_number, solid_texel};
ghost use Rattle.block_fault.specs.Bits.{endpoint_at};
ghost use Rattle.void_extent.specs.Layout.{colour_at, hdr_void_extent};
ghost use Rattle.block_levels.specs.inner.Lines.{lines_by, lines_in, colours_of};

use bits::PhysicalBlock;
use block_header::BlockHeader;
use block_mode::WeightGrid;
use encoding::{Level, LevelPair, Stored};
use endpoint_arithmetic::EndpointPair;
use half_pair::HalfPair;
use interpolation::{Kind, Texel};
use quantization::Rule;

// A stored number unquantised by a rule.
pub fn level_by(rule: Rule, s: Stored) -> Level
    ensures { (result.0 ≡ by_rule rule s.0) × (s.0 < 256) }
{
    quantization::unquantize(rule, s)
}

// The levels of the first n endpoint numbers.
fn endpoint_levels(range: u8, xs: [Stored; 64], n: usize) -> [Level; 18]
    requires { n ≤ 18 }
    ensures { result ≡ padded 18 n (λ i. level (unquant_endpoint range (get_or xs i (stored 0)).0)) (level 0) }
{
    let rule = quantization::endpoint_rule(range);
    let mut out = [Level(0); 18];
    for i in 0..n {
        out[i] = level_by(rule, xs[i]);
    }
    out
}

// The points of a block's weight grid, its weights unquantised.
pub fn points_of(block: PhysicalBlock, g: WeightGrid) -> [LevelPair; 64]
    requires { Limits g × (weight_count g ≤ 64) }
    ensures { result ≡ points_of (weight_levels g.range (λ i. pick (ltb i (weight_count g)) (number (encoding_at g.range) (bits_at g.range) (sequence_at (encoding_at g.range) (bits_at g.range) (reverse 128 (block_number block)) 0 (weight_count g)) i) 0)) g.planes (g.width * g.height * g.depth) }
{
    let n = block_header::weight_count(g) as u8;
    let weights = weight_reader::read_weights(bits::reversed(block), g.range, n);
    if g.planes == 2 {
        weight_reader::paired(weights, (n / 2) as usize)
    } else {
        weights
    }
}

// The unquantised endpoint numbers of a block.
fn endpoints_of(block: PhysicalBlock, from: u8, range: u8, n: u8) -> [Level; 18]
    requires { n ≤ 18 }
    ensures { result ≡ endpoint_levels range (λ i. pick (ltb i n) (number (encoding_at range) (bits_at range) (sequence_at (encoding_at range) (bits_at range) (block_number block) from n) i) 0) }
{
    endpoint_levels(
        range,
        integer_sequence::read_sequence(block, from, range, n),
        n as usize,
    )
}

// The lines of the first n pairs; the others are of the pair of zeros.
fn pair_lines(t: [EndpointPair; 4], n: usize) -> [[u16; 10]; 4]
    requires { n ≤ 4 }
    ensures { result ≡ padded 4 n (λ p. line_of (get_or t p no_pair)) (line_of zero_pair) }
{
    let none = interpolation::line_of(endpoint_arithmetic::zero_pair());
    let mut out = [none; 4];
    for p in 0..n {
        out[p] = interpolation::line_of(t[p]);
    }
    out
}

// The same of pairs of kind 2.
fn half_lines(t: [HalfPair; 4]) -> [[u16; 10]; 4]
    ensures { result ≡ tab (λ p. half_line_of (get_or t p no_half)) 4 }
{
    [
        half_line::half_line(t[0]),
        half_line::half_line(t[1]),
        half_line::half_line(t[2]),
        half_line::half_line(t[3]),
    ]
}

// The lines of a table's pairs, by kind.
fn table_lines(kind: Kind, modes: [u8; 4], count: u8, levels: [Level; 18]) -> [[u16; 10]; 4]
    ensures { result ≡ lines_by kind modes count levels }
{
    let t = color_endpoint::endpoint_table(modes, count, levels);
    if interpolation::takes_hdr(kind) {
        half_lines(half_pair::half_table(modes, count, levels, t))
    } else {
        pair_lines(t, color_endpoint::filled(count))
    }
}

// The lines of a block's endpoint pairs, one for each partition.
pub fn lines_of(
    block: PhysicalBlock,
    h: BlockHeader,
    kind: Kind,
    n: u8,
    range: u8,
) -> [[u16; 10]; 4]
    requires { (n ≡ endpoint_count h) × (n ≤ 18) × (range ≡ endpoint_range_of h) }
    ensures { result ≡ lines_in kind h (endpoint_levels (endpoint_range_of h) (endpoint_at (block_number block) h)) }
{
    let ends = endpoints_of(block, block_fault::endpoints_from(h.partitions), range, n);
    let modes = h.modes;
    table_lines(kind, modes, h.partitions, ends)
}

// A void extent's colour, as stored or as the half float of it.
fn solid_number(half: bool, n: u16) -> u16
    ensures { result ≡ solid_number half n }
{
    if half { half_float::unorm_half(n) } else { n }
}

// Whether a kind shows half floats of a void extent's colours, HDR or not.
fn shown_as_half(kind: Kind, hdr: bool) -> bool
    ensures { result ≡ both (takes_hdr kind) (not hdr) }
{
    if hdr {
        false
    } else {
        interpolation::takes_hdr(kind)
    }
}

// A void extent's colours as they stand.
fn stored_colours(block: PhysicalBlock) -> Texel
    ensures { result ≡ colours_of (colour_at (block_number block)) }
{
    let r = bits::field_at(block, 64, 16) as u16;
    let g = bits::field_at(block, 80, 16) as u16;
    let b = bits::field_at(block, 96, 16) as u16;
    let a = bits::field_at(block, 112, 16) as u16;
    Texel { r, g, b, a }
}

// The texel of a void extent in a kind.
pub fn colours(kind: Kind, block: PhysicalBlock) -> Texel
    ensures { result ≡ solid_texel kind (hdr_void_extent (block_number block)) (colour_at (block_number block)) }
{
    let t = stored_colours(block);
    let half = shown_as_half(kind, void_extent::hdr_void_extent(block));
    let r = solid_number(half, t.r);
    let g = solid_number(half, t.g);
    let b = solid_number(half, t.b);
    let a = solid_number(half, t.a);
    Texel { r, g, b, a }
}
