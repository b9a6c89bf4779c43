// Kind 2: the pairs of all sixteen endpoint modes in 16 bits.
#![tactic(auto)]

ghost use Rattle.std.specs.Prelude.{◌≡◌, true, false, not, ◌*◌, ◌≤◌, eqb, get_or};
ghost use Rattle.color_endpoint.specs.Modes.{pair_of};
ghost use Rattle.color_endpoint.specs.Table.{table_of};
ghost use Rattle.hdr_endpoint.specs.Luminance.{large_range, small_range};
ghost use Rattle.hdr_endpoint.specs.Scale.{base_scale};
ghost use Rattle.hdr_endpoint.specs.Direct.{direct, alphas_of};
ghost use Rattle.hdr_endpoint.specs.inner.Bounds.{Twelve};
ghost use Rattle.half_pair.specs.Pair.{mode11, mode14, mode15, hdr_pair_of, expand_half, half_end, expanded_hdr, expanded_ldr, half_pair_of, zero_half, half_table_of};
ghost use Rattle.half_pair.specs.inner.Room.{Room};

use encoding::Level;
use endpoint_arithmetic::EndpointPair;
use hdr_endpoint::{Alphas, HdrPair};

// Two ends in 16 bits, each R, G, B, A, and whether the colours and the alpha are HDR.
#[derive(Clone, Copy)]
pub struct HalfPair {
    pub c0: [u16; 4],
    pub c1: [u16; 4],
    pub colour: bool,
    pub alpha: bool,
}

// The HDR modes, with what bounds their ends.
fn large(v0: u8, v1: u8) -> HdrPair
    ensures { (result ≡ large_range v0 v1) × Twelve result }
{
    hdr_endpoint::large_range(v0, v1)
}

fn small(v0: u8, v1: u8) -> HdrPair
    ensures { (result ≡ small_range v0 v1) × Twelve result }
{
    hdr_endpoint::small_range(v0, v1)
}

fn scale(v0: u8, v1: u8, v2: u8, v3: u8) -> HdrPair
    ensures { (result ≡ base_scale v0 v1 v2 v3) × Twelve result }
{
    hdr_endpoint::base_scale(v0, v1, v2, v3)
}

fn rgb(v0: u8, v1: u8, v2: u8, v3: u8, v4: u8, v5: u8, a0: u16, a1: u16) -> HdrPair
    requires { (a0 ≤ 4095) × (a1 ≤ 4095) }
    ensures { (result ≡ direct v0 v1 v2 v3 v4 v5 a0 a1) × Twelve result × (get_or result.e0 3 0 ≡ a0) × (get_or result.e1 3 0 ≡ a1) }
{
    hdr_endpoint::direct(v0, v1, v2, v3, v4, v5, a0, a1)
}

fn alphas(v6: u8, v7: u8) -> Alphas
    ensures { (result ≡ alphas_of v6 v7) × (result.0 ≤ 4095) × (result.1 ≤ 4095) }
{
    hdr_endpoint::alphas_of(v6, v7)
}

fn wide(n: u8) -> u16
    ensures { (result ≡ n) × (result ≤ 255) }
{
    n as u16
}

fn mode_11(v: [Level; 8]) -> HdrPair
    ensures { (result ≡ mode11 v) × Twelve result }
{
    rgb(v[0].0, v[1].0, v[2].0, v[3].0, v[4].0, v[5].0, 1920, 1920)
}

fn mode_14(v: [Level; 8]) -> HdrPair
    ensures { (result ≡ mode14 v) × Twelve result × (get_or result.e0 3 0 ≤ 255) × (get_or result.e1 3 0 ≤ 255) }
{
    let a0 = wide(v[6].0);
    let a1 = wide(v[7].0);
    rgb(v[0].0, v[1].0, v[2].0, v[3].0, v[4].0, v[5].0, a0, a1)
}

fn mode_15(v: [Level; 8]) -> HdrPair
    ensures { (result ≡ mode15 v) × Twelve result }
{
    let a = alphas(v[6].0, v[7].0);
    rgb(v[0].0, v[1].0, v[2].0, v[3].0, v[4].0, v[5].0, a.0, a.1)
}

// The pair of an HDR mode.
fn hdr_pair(mode: u8, v: [Level; 8]) -> HdrPair
    ensures { (result ≡ hdr_pair_of mode v) × Room (not (eqb mode 14)) result.e0 × Room (not (eqb mode 14)) result.e1 }
{
    match mode {
        2 => large(v[0].0, v[1].0),
        3 => small(v[0].0, v[1].0),
        7 => scale(v[0].0, v[1].0, v[2].0, v[3].0),
        11 => mode_11(v),
        14 => mode_14(v),
        _ => mode_15(v),
    }
}

// A channel in 16 bits.
fn expand(hdr: bool, c: u16) -> u16
    requires { (c ≤ 4095) × (hdr ≡ false → c ≤ 255) }
    ensures { result ≡ expand_half hdr c }
{
    if hdr { 16 * c } else { 257 * c }
}

// An end of an HDR mode in 16 bits.
fn hdr_end(alpha: bool, e: [u16; 4]) -> [u16; 4]
    requires { Room alpha e }
    ensures { result ≡ half_end true alpha e }
{
    [
        expand(true, e[0]),
        expand(true, e[1]),
        expand(true, e[2]),
        expand(alpha, e[3]),
    ]
}

// An end of an LDR mode in 16 bits.
fn ldr_end(e: [u8; 4]) -> [u16; 4]
    ensures { result ≡ half_end false false e }
{
    [
        257 * wide(e[0]),
        257 * wide(e[1]),
        257 * wide(e[2]),
        257 * wide(e[3]),
    ]
}

fn expanded_hdr(alpha: bool, p: HdrPair) -> HalfPair
    requires { Room alpha p.e0 × Room alpha p.e1 }
    ensures { result ≡ expanded_hdr alpha p }
{
    let e0 = p.e0;
    let e1 = p.e1;
    let c0 = hdr_end(alpha, e0);
    let c1 = hdr_end(alpha, e1);
    HalfPair {
        c0,
        c1,
        colour: true,
        alpha,
    }
}

fn expanded_ldr(p: EndpointPair) -> HalfPair
    ensures { result ≡ expanded_ldr p }
{
    let e0 = p.e0;
    let e1 = p.e1;
    let c0 = ldr_end(e0);
    let c1 = ldr_end(e1);
    HalfPair {
        c0,
        c1,
        colour: false,
        alpha: false,
    }
}

// The pair of a mode in kind 2, given its pair in the other kinds, which is made in one place only.
fn half_pair(mode: u8, v: [Level; 8], ldr: EndpointPair) -> HalfPair
    requires { ldr ≡ pair_of mode v }
    ensures { result ≡ half_pair_of mode v }
{
    if color_endpoint::is_hdr(mode) {
        expanded_hdr(mode != 14, hdr_pair(mode, v))
    } else {
        expanded_ldr(ldr)
    }
}

// What stands for no partition.
fn zero_half() -> HalfPair
    ensures { result ≡ zero_half }
{
    expanded_ldr(endpoint_arithmetic::zero_pair())
}

// The pairs of four partitions in kind 2, given those of `color_endpoint::endpoint_table`.
pub fn half_table(
    modes: [u8; 4],
    count: u8,
    levels: [Level; 18],
    ldr: [EndpointPair; 4],
) -> [HalfPair; 4]
    requires { ldr ≡ table_of modes count levels }
    ensures { result ≡ half_table_of modes count levels }
{
    let n = color_endpoint::filled(count);
    let none = zero_half();
    let mut t = [none; 4];
    let mut start: u32 = 0;
    for p in 0..n {
        let mode = modes[p];
        t[p] = half_pair(mode, color_endpoint::numbers_from(levels, start), ldr[p]);
        start += color_endpoint::number_count(mode);
    }
    t
}
