// A BC7 block's settings, read once for each block, and its ends, expanded once and laid by lanes, so that one product mixes four channels.
#![tactic(auto)]

ghost use Rattle.std.specs.Prelude.{◌≡◌, true, [], ◌*◌, ◌/◌, ◌%◌, ◌^◌, ◌≤◌, ◌<◌, eqb};
ghost use Rattle.laws.specs.Choice.{either};
ghost use Rattle.laws.specs.inner.Filled.{Filled};
ghost use Rattle.bits.specs.Block.{block_number};
ghost use Rattle.bc7_layout.specs.Modes.{mode_row, subsets, colour_bits};
ghost use Rattle.bc7_layout.specs.Layout.{place_of, mode_at, field_at};
ghost use Rattle.bc7_block.specs.Picture.{as_byte, stored_end, p_bit_of, has_pbit, widened_end, end_channel};
ghost use Rattle.bc7_ends.specs.inner.Frame.{Framed, channel_bits};
ghost use Rattle.bc7_ends.specs.inner.Lanes.{four_lanes, by_lane, colour_lane, alpha_lane, three_of, subset_line};

use bc7_layout::Mode;
use bits::PhysicalBlock;

// What a block's mode and partition fix: the mode's row and the partition's plan, where endpoints, P bits and indices begin, and the bits that one
// colour of all ends takes.
#[derive(Clone, Copy)]
pub struct Bc7Frame {
    pub mode: u8,
    pub row: Mode,
    pub plan: u64,
    pub ends: u32,
    pub step: u32,
    pub pbits: u32,
    pub indices: u32,
}

pub fn wide(x: u8) -> u32
    ensures { (result ≡ x) × (result ≤ 255) }
{
    x as u32
}

// ---- the frame

fn ends_at(m: u8, row: Mode) -> u32
    requires { (row ≡ mode_row m) × (m < 8) }
    ensures { (result ≡ place_of m 0 4) × (result ≤ 128) }
{
    wide(m) + 1 + wide(row.partition) + wide(row.rotation) + wide(row.selection)
}

fn colour_step(m: u8, row: Mode) -> u32
    requires { (row ≡ mode_row m) × (m < 8) }
    ensures { (result ≡ 2 * subsets m * colour_bits m) × (result ≤ 48) }
{
    2 * wide(row.subsets) * wide(row.colour)
}

fn p_bits_at(m: u8, row: Mode, ends: u32, step: u32) -> u32
    requires row_value { (row ≡ mode_row m) × (m < 8) × (ends ≡ place_of m 0 4) × (step ≡ 2 * subsets m * colour_bits m) }
    requires ends_bound { (ends ≤ 128) × (step ≤ 48) }
    ensures { (result ≡ place_of m 0 22) × (result ≤ 128) }
{
    ends + 3 * step + 2 * wide(row.subsets) * wide(row.alpha)
}

fn indices_at(m: u8, row: Mode, pbits: u32) -> u32
    requires { (row ≡ mode_row m) × (m < 8) × (pbits ≡ place_of m 0 22) × (pbits ≤ 128) }
    ensures { (result ≡ place_of m 0 28) × (result ≤ 128) }
{
    pbits + (2 * wide(row.ends) + wide(row.shared)) * wide(row.subsets)
}

// The frame of a block of mode m.
pub fn frame_of(b: PhysicalBlock, m: u8) -> Bc7Frame
    requires { (m ≡ mode_at (block_number b)) × (m < 8) }
    ensures { Framed (block_number b) result }
{
    let p = bc7_layout::partition_at(b, m);
    let row = bc7_layout::mode_row(m);
    let plan = bc7_layout::plan_of(row.subsets, p);
    let ends = ends_at(m, row);
    let step = colour_step(m, row);
    let pbits = p_bits_at(m, row, ends, step);
    let indices = indices_at(m, row, pbits);
    Bc7Frame {
        mode: m,
        row,
        plan,
        ends,
        step,
        pbits,
        indices,
    }
}

// Rotation and index selection lie before the endpoints.
fn rotation(b: PhysicalBlock, f: Bc7Frame) -> u8
    requires { Framed (block_number b) f }
    ensures { (result ≡ field_at (block_number b) 2) × (result < 4) }
{
    let row = f.row;
    bc7_layout::small_field(
        b,
        wide(f.mode) + 1 + wide(row.partition),
        wide(row.rotation),
    )
}

pub fn selection(b: PhysicalBlock, f: Bc7Frame) -> u8
    requires { Framed (block_number b) f }
    ensures { result ≡ field_at (block_number b) 3 }
{
    let row = f.row;
    bc7_layout::small_field(
        b,
        wide(f.mode) + 1 + wide(row.partition) + wide(row.rotation),
        wide(row.selection),
    )
}

// ---- ends. End x is end x % 2 of subset x / 2.

fn power(n: u32) -> u32
    requires { n ≤ 8 }
    ensures { (result ≡ 2 ^ n) × (0 < result) × (result ≤ 256) }
{
    1 << n
}

// A number of w bits as a byte, its top bits repeated below.
fn as_byte(w: u32, v: u32) -> u32
    requires { (4 ≤ w) × (w ≤ 8) × (v ≤ 511) }
    ensures { result ≡ as_byte w v }
{
    v * power(8 - w) + v / power(2 * w - 8)
}

// Channel c of end x as stored, in its w bits.
fn stored(b: PhysicalBlock, f: Bc7Frame, x: u32, c: u32, w: u32) -> u32
    requires { Framed (block_number b) f × (x < 2 * subsets (mode_at (block_number b))) × (c < 4) × (w ≡ channel_bits (mode_at (block_number b)) c) × (0 < w) }
    ensures { (result ≡ stored_end (mode_at (block_number b)) (field_at (block_number b)) (x / 2) (x % 2) c) × (result ≤ 255) }
{
    wide(bc7_layout::small_field(b, f.ends + c * f.step + x * w, w))
}

// The P bit of end x, where there are P bits.
fn p_bit(b: PhysicalBlock, f: Bc7Frame, x: u32) -> u32
    requires { Framed (block_number b) f × (x < 2 * subsets (mode_at (block_number b))) × (has_pbit (mode_at (block_number b)) (field_at (block_number b)) ≡ true) }
    ensures { (result ≡ p_bit_of (mode_at (block_number b)) (field_at (block_number b)) (x / 2) (x % 2)) × (result ≤ 1) }
{
    let row = f.row;
    if row.ends == 1 {
        return wide(bc7_layout::small_field(b, f.pbits + x, 1));
    }
    wide(bc7_layout::small_field(b, f.pbits + x / 2, 1))
}

fn has_p_bit(row: Mode) -> bool
    ensures { result ≡ either (eqb row.ends 1) (eqb row.shared 1) }
{
    if row.ends == 1 { true } else { row.shared == 1 }
}

// Channel c of end x with its P bit below, as a byte.
fn widened(b: PhysicalBlock, f: Bc7Frame, x: u32, c: u32, w: u32) -> u32
    requires { Framed (block_number b) f × (x < 2 * subsets (mode_at (block_number b))) × (c < 4) × (w ≡ channel_bits (mode_at (block_number b)) c) × (0 < w) }
    ensures { result ≡ widened_end (mode_at (block_number b)) (field_at (block_number b)) w (x / 2) (x % 2) c }
{
    let v = stored(b, f, x, c, w);
    if has_p_bit(f.row) {
        return as_byte(w + 1, v * 2 + p_bit(b, f, x));
    }
    as_byte(w, v)
}

// Colour c of end x.
fn colour_of(b: PhysicalBlock, f: Bc7Frame, x: u32, c: u32) -> u64
    requires { Framed (block_number b) f × (x < 2 * subsets (mode_at (block_number b))) × (c < 3) }
    ensures { (result ≡ end_channel (mode_at (block_number b)) (field_at (block_number b)) (x / 2) (x % 2) c) × (result ≤ 255) }
{
    let row = f.row;
    widened(b, f, x, c, wide(row.colour)) as u64
}

// Its alpha, opaque where there is none.
fn alpha_of(b: PhysicalBlock, f: Bc7Frame, x: u32) -> u64
    requires { Framed (block_number b) f × (x < 2 * subsets (mode_at (block_number b))) }
    ensures { (result ≡ end_channel (mode_at (block_number b)) (field_at (block_number b)) (x / 2) (x % 2) 3) × (result ≤ 255) }
{
    let row = f.row;
    if row.alpha == 0 {
        return 255;
    }
    widened(b, f, x, 3, wide(row.alpha)) as u64
}

// ---- lanes

fn pack(a: u64, b: u64, c: u64, d: u64) -> u64
    requires { (a ≤ 255) × (b ≤ 255) × (c ≤ 255) × (d ≤ 255) }
    ensures { (result ≡ four_lanes a b c d) × (result ≤ 71777214294589695) }
{
    a + b * 65536 + c * 4294967296 + d * 281474976710656
}

// Three colours in the lanes that rotation r leaves them.
fn colour_lanes(r: u8, x: u64, y: u64, z: u64) -> u64
    requires { (r < 4) × (x ≤ 255) × (y ≤ 255) × (z ≤ 255) }
    ensures { (result ≡ by_lane (colour_lane r (three_of x y z))) × (result ≤ 71777214294589695) }
{
    if r == 0 {
        return pack(x, y, z, 0);
    }
    if r == 1 {
        return pack(0, y, z, x);
    }
    if r == 2 {
        return pack(x, 0, z, y);
    }
    pack(x, y, 0, z)
}

// Alpha in the lane where rotation r takes it.
fn alpha_lanes(r: u8, a: u64) -> u64
    requires { (r < 4) × (a ≤ 255) }
    ensures { (result ≡ by_lane (alpha_lane r a)) × (result ≤ 71777214294589695) }
{
    if r == 0 {
        return pack(0, 0, 0, a);
    }
    if r == 1 {
        return pack(a, 0, 0, 0);
    }
    if r == 2 {
        return pack(0, a, 0, 0);
    }
    pack(0, 0, a, 0)
}

// The colours of end x.
fn end_colours(b: PhysicalBlock, f: Bc7Frame, r: u8, x: u32) -> u64
    requires { Framed (block_number b) f × (x < 2 * subsets (mode_at (block_number b))) × (r < 4) }
    ensures { (result ≡ by_lane (colour_lane r (end_channel (mode_at (block_number b)) (field_at (block_number b)) (x / 2) (x % 2)))) × (result ≤ 71777214294589695) }
{
    let red = colour_of(b, f, x, 0);
    let green = colour_of(b, f, x, 1);
    let blue = colour_of(b, f, x, 2);
    colour_lanes(r, red, green, blue)
}

// The ends of subset j: the colours of both, and the alphas of both.
fn line_of(b: PhysicalBlock, f: Bc7Frame, r: u8, j: usize) -> [u64; 4]
    requires { Framed (block_number b) f × (j < subsets (mode_at (block_number b))) × (r ≡ field_at (block_number b) 2) × (r < 4) }
    ensures { result ≡ subset_line (mode_at (block_number b)) (field_at (block_number b)) j }
{
    let x = 2 * (j as u32);
    let colour0 = end_colours(b, f, r, x);
    let colour1 = end_colours(b, f, r, x + 1);
    let alpha0 = alpha_lanes(r, alpha_of(b, f, x));
    let alpha1 = alpha_lanes(r, alpha_of(b, f, x + 1));
    [colour0, colour1, alpha0, alpha1]
}

// The ends of all subsets.
pub fn lines_of(b: PhysicalBlock, f: Bc7Frame) -> [[u64; 4]; 3]
    requires { Framed (block_number b) f }
    ensures { Filled (subset_line (mode_at (block_number b)) (field_at (block_number b))) [] result (subsets (mode_at (block_number b))) }
{
    let row = f.row;
    let n = row.subsets as usize;
    let r = rotation(b, f);
    let mut q = [[0u64; 4]; 3];
    for j in 0..n {
        q[j] = line_of(b, f, r, j);
    }
    q
}
