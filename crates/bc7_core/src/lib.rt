// One BC7 block to sixteen texels of four bytes in a lent buffer: its settings and ends once, and the four channels of a texel mixed by one sum of
// products.
#![tactic(auto)]

ghost use Rattle.std.specs.Prelude.{◌≡◌, [], ◌+◌, ◌-◌, ◌%◌, ◌^◌, ◌≤◌, ◌<◌, eqb, length};
ghost use Rattle.laws.specs.Choice.{pick};
ghost use Rattle.laws.specs.Table.{tab};
ghost use Rattle.laws.specs.inner.Filled.{Filled, put_four};
ghost use Rattle.bits.specs.Block.{block_number};
ghost use Rattle.bc7_layout.specs.Modes.{subsets, secondary_bits};
ghost use Rattle.bc7_layout.specs.Layout.{mode_at, field_at};
ghost use Rattle.bc7_block.specs.Reading.{fault_of};
ghost use Rattle.bc7_block.specs.Picture.{factor_of, colour_factor, alpha_factor, texel_of};
ghost use Rattle.bc7_ends.specs.inner.Frame.{Framed};
ghost use Rattle.bc7_ends.specs.inner.Lanes.{subset_line, Line255, sum_on, lane_byte};
ghost use Rattle.bc7_core.specs.Bytes.{texel_bytes, shown_bytes};
ghost use Rattle.bc7_core.specs.inner.Sets.{colour_set, alpha_set, set_of, SetIn, behind_of, set_factor, Factors, SumShows};

use bc7_ends::Bc7Frame;
use bits::PhysicalBlock;

// A set of indices: the number of its first field, the bits of an index that is no anchor, and the bits that are still to be read.
#[derive(Clone, Copy)]
struct IndexSet {
    first: usize,
    bits: u32,
    rest: u64,
}

// The sum of a texel's products, colours by factor f and alpha by g.
fn sum_on(q: [u64; 4], f: u64, g: u64) -> u64
    requires { Line255 q × (f ≤ 64) × (g ≤ 64) }
    ensures { result ≡ sum_on q f g }
{
    q[0] * (64 - f) + q[1] * f + (q[2] * (64 - g) + q[3] * g) + 9007336695791648
}

// ---- indices

// 004, Table 13.1 as a line: the factor of an index of so many bits.
fn slope(bits: u32) -> u64
    ensures { result ≡ pick (eqb bits 2) 5461 (pick (eqb bits 3) 2341 1092) }
{
    if bits == 2 {
        return 5461;
    }
    if bits == 3 {
        return 2341;
    }
    1092
}

// The factor of the index that is the low w bits of a word.
fn factor(bits: u32, w: u32, word: u64) -> u64
    requires { (2 ≤ bits) × (bits ≤ 4) × (w ≤ bits) }
    ensures { (result ≡ factor_of bits (word % 2 ^ w)) × (result ≤ 64) }
{
    (word % (1 << w) * slope(bits) + 128) / 256
}

fn primary_set(b: PhysicalBlock, f: Bc7Frame) -> IndexSet
    requires { Framed (block_number b) f }
    ensures { result ≡ set_of (block_number b) 28 0 }
{
    let row = f.row;
    IndexSet {
        first: 28,
        bits: bc7_ends::wide(row.index),
        rest: bits::word_at(b, f.indices),
    }
}

// The secondary set lies behind sixteen primary indices with one anchor among them.
fn secondary_set(b: PhysicalBlock, f: Bc7Frame) -> IndexSet
    requires { Framed (block_number b) f × (0 < secondary_bits (mode_at (block_number b))) }
    ensures { result ≡ set_of (block_number b) 44 0 }
{
    let row = f.row;
    IndexSet {
        first: 44,
        bits: bc7_ends::wide(row.secondary),
        rest: bits::word_at(b, f.indices + 16 * bc7_ends::wide(row.index) - 1),
    }
}

fn colour_set(b: PhysicalBlock, f: Bc7Frame) -> IndexSet
    requires { Framed (block_number b) f }
    ensures { result ≡ set_of (block_number b) (colour_set (mode_at (block_number b)) (field_at (block_number b))) 0 }
{
    let row = f.row;
    if row.selection != 1 {
        return primary_set(b, f);
    }
    if bc7_ends::selection(b, f) == 1 {
        return secondary_set(b, f);
    }
    primary_set(b, f)
}

fn alpha_set(b: PhysicalBlock, f: Bc7Frame) -> IndexSet
    requires { Framed (block_number b) f }
    ensures { result ≡ set_of (block_number b) (alpha_set (mode_at (block_number b)) (field_at (block_number b))) 0 }
{
    let row = f.row;
    if row.secondary == 0 {
        return primary_set(b, f);
    }
    if row.selection == 0 {
        return secondary_set(b, f);
    }
    if bc7_ends::selection(b, f) == 0 {
        return secondary_set(b, f);
    }
    primary_set(b, f)
}

// The factor of a set's next index, which lacks a bit at an anchor.
fn next_factor(s: IndexSet, short: u32) -> u64
    requires { (2 ≤ s.bits) × (s.bits ≤ 4) × (short ≤ 1) }
    ensures { (result ≡ factor_of s.bits (s.rest % 2 ^ (s.bits - short))) × (result ≤ 64) }
{
    factor(s.bits, s.bits - short, s.rest)
}

// The set behind it.
fn behind(s: IndexSet, short: u32) -> IndexSet
    requires { (2 ≤ s.bits) × (s.bits ≤ 4) × (short ≤ 1) }
    ensures { result ≡ behind_of s short }
{
    let first = s.first;
    let bits = s.bits;
    let rest = s.rest;
    IndexSet {
        first,
        bits,
        rest: rest >> (bits - short),
    }
}

// The factor of index i of the block's set, from which the indices before it are gone.
fn factor_at(b: PhysicalBlock, f: Bc7Frame, s: IndexSet, i: u32) -> u64
    requires framed { Framed (block_number b) f × (i < 16) }
    requires s_value { (s ≡ set_of (block_number b) s.first i) × SetIn (mode_at (block_number b)) s.first }
    ensures { (result ≡ set_factor (block_number b) s.first i) × (result ≤ 64) }
{
    next_factor(s, bc7_layout::anchor_in(f.plan, i))
}

// The set without that index.
fn past(b: PhysicalBlock, f: Bc7Frame, s: IndexSet, i: u32) -> IndexSet
    requires framed { Framed (block_number b) f × (i < 16) }
    requires s_value { (s ≡ set_of (block_number b) s.first i) × SetIn (mode_at (block_number b)) s.first }
    ensures { result ≡ set_of (block_number b) s.first (i + 1) }
{
    behind(s, bc7_layout::anchor_in(f.plan, i))
}

// The factors of a set's sixteen indices.
fn factors(b: PhysicalBlock, f: Bc7Frame, set: IndexSet) -> [u64; 16]
    requires framed { Framed (block_number b) f }
    requires set_value { (set ≡ set_of (block_number b) set.first 0) × SetIn (mode_at (block_number b)) set.first }
    ensures { Factors (set_factor (block_number b) set.first) result 16 }
{
    let mut r = [0u64; 16];
    let mut s = set;
    for i in 0..16usize {
        r[i] = factor_at(b, f, s, i as u32);
        s = past(b, f, s, i as u32);
    }
    r
}

fn colour_factors(b: PhysicalBlock, f: Bc7Frame) -> [u64; 16]
    requires { Framed (block_number b) f }
    ensures { Factors (colour_factor (mode_at (block_number b)) (field_at (block_number b))) result 16 }
{
    factors(b, f, colour_set(b, f))
}

fn alpha_factors(b: PhysicalBlock, f: Bc7Frame) -> [u64; 16]
    requires { Framed (block_number b) f }
    ensures { Factors (alpha_factor (mode_at (block_number b)) (field_at (block_number b))) result 16 }
{
    factors(b, f, alpha_set(b, f))
}

// ---- texels

// The four bytes of a sum at place i of the buffer.
fn put(out: &mut [u8; 64], i: usize, s: u64)
    requires { i + 4 ≤ 64 }
    ensures { out.new ≡ put_four out.old i (lane_byte s 0) (lane_byte s 1) (lane_byte s 2) (lane_byte s 3) }
{
    out[i] = (s / 64 % 256) as u8;
    out[i + 1] = (s / 4194304 % 256) as u8;
    out[i + 2] = (s / 274877906944 % 256) as u8;
    out[i + 3] = (s / 18014398509481984 % 256) as u8;
}

// The sum of texel i.
fn sum_at(
    b: PhysicalBlock,
    f: Bc7Frame,
    lines: &[[u64; 4]; 3],
    colour: u64,
    alpha: u64,
    i: u32,
) -> u64
    requires framed { Framed (block_number b) f × (i < 16) }
    requires filled { Filled (subset_line (mode_at (block_number b)) (field_at (block_number b))) [] lines.now (subsets (mode_at (block_number b))) }
    requires colour_value { (colour ≡ colour_factor (mode_at (block_number b)) (field_at (block_number b)) i) × (colour ≤ 64) }
    requires alpha_value { (alpha ≡ alpha_factor (mode_at (block_number b)) (field_at (block_number b)) i) × (alpha ≤ 64) }
    ensures { SumShows result (mode_at (block_number b)) (field_at (block_number b)) i }
{
    let q = lines[bc7_layout::subset_in(f.plan, i)];
    sum_on(q, colour, alpha)
}

// All texels of a block in raster order.
fn paint(
    b: PhysicalBlock,
    f: Bc7Frame,
    lines: &[[u64; 4]; 3],
    colours: &[u64; 16],
    alphas: &[u64; 16],
    out: &mut [u8; 64],
)
    requires framed { Framed (block_number b) f × (length out.old ≡ 64) }
    requires filled { Filled (subset_line (mode_at (block_number b)) (field_at (block_number b))) [] lines.now (subsets (mode_at (block_number b))) }
    requires factors { Factors (colour_factor (mode_at (block_number b)) (field_at (block_number b))) colours.now 16 }
    requires factors_2 { Factors (alpha_factor (mode_at (block_number b)) (field_at (block_number b))) alphas.now 16 }
    ensures { out.new ≡ texel_bytes (texel_of (mode_at (block_number b)) (field_at (block_number b))) }
{
    for i in 0..16usize {
        put(
            out,
            4 * i,
            sum_at(b, f, lines, colours[i], alphas[i], i as u32),
        );
    }
}

fn clear(out: &mut [u8; 64])
    requires { length out.old ≡ 64 }
    ensures { out.new ≡ tab (λ n. 0) 64 }
{
    *out = [0u8; 64];
}

// A block's texels, and its fault.
pub fn decode_into(b: PhysicalBlock, out: &mut [u8; 64]) -> u8
    requires { length out.old ≡ 64 }
    ensures value { result ≡ fault_of (block_number b) }
    ensures out_after { out.new ≡ shown_bytes (block_number b) }
{
    let m = bc7_layout::mode_at(b);
    if m == 8 {
        clear(out);
        return 71;
    }
    let f = bc7_ends::frame_of(b, m);
    let lines = bc7_ends::lines_of(b, f);
    let colours = colour_factors(b, f);
    let row = f.row;
    if row.secondary == 0 {
        paint(b, f, &lines, &colours, &colours, out);
        return 0;
    }
    let alphas = alpha_factors(b, f);
    paint(b, f, &lines, &colours, &alphas, out);
    0
}
