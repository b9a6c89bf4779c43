// Endpoints mixed by weights into a texel of 16-bit numbers.
#![tactic(auto)]

ghost use Rattle.std.specs.Prelude.{◌≡◌, ◌*◌, ◌/◌, ◌==◌};
ghost use Rattle.endpoint_arithmetic.specs.declared.EndpointPair.{EndpointPair};
ghost use Rattle.encoding.specs.inner.Levels.{first_level, second_level};
ghost use Rattle.interpolation.specs.declared.Kind.{Kind};
ghost use Rattle.interpolation.specs.Expansion.{takes_hdr};
ghost use Rattle.interpolation.specs.inner.Mixes.{Mixes};
ghost use Rattle.interpolation.specs.inner.Line.{times, minus, on_line, low_of, add_of, line_of, line_texel};
ghost use Rattle.laws.specs.Choice.{pick};

use encoding::LevelPair;
use endpoint_arithmetic::EndpointPair;
use std::num::{wrapping_add_u16, wrapping_sub_u16};

// What a texel's numbers are: 01's kind 0, 16-bit numbers, and kind 1, sRGB bytes before the sRGB curve; 02's kind 2, half floats as
// patterns of 16 bits (000's decode_float16).
#[derive(Clone, Copy)]
pub enum Kind {
    Unorm16,
    Srgb8,
    Float16,
}

// Whether HDR is taken in a kind.
pub fn takes_hdr(kind: Kind) -> bool
    ensures { result ≡ takes_hdr kind }
{
    match kind {
        Kind::Unorm16 => false,
        Kind::Srgb8 => false,
        Kind::Float16 => true,
    }
}

// An endpoint pair in 16 bits, each R, G, B, A. Only definitions speak of it (`texel_of`): the code mixes on lines.
#[derive(Clone, Copy)]
pub struct ExpandedPair {
    pub c0: [u16; 4],
    pub c1: [u16; 4],
}

// Four 16-bit numbers; what a kind shows of each is `shown_of`.
#[derive(Clone, Copy)]
pub struct Texel {
    pub r: u16,
    pub g: u16,
    pub b: u16,
    pub a: u16,
}

// What kind 1 shows of a 16-bit number; kind 0 shows all of it.
pub fn top_byte(n: u16) -> u8
    ensures { result ≡ n / 256 }
{
    (n / 256) as u8
}

// The product modulo 65536.
fn times(a: u16, b: u16) -> u16
    ensures { result ≡ times a b }
{
    (((a as u32) * (b as u32)) % 65536) as u16
}

// A channel's mixed number at a weight, from its line.
fn on_line(start: u16, step: u16, k: u16, add: u16, i: u16) -> u16
    ensures { result ≡ on_line start step k add i }
{
    let t = wrapping_add_u16(start, times(step, i));
    wrapping_add_u16(times(t, 4), wrapping_add_u16(times(t, k), add) / 64)
}

// The weight of a channel. Sixteen bits each, as the channels are, so that four are chosen and mixed at once.
fn weight(component: u8, first: u16, second: u16, channel: u8) -> u16
    ensures { result ≡ pick (channel == component) second first }
{
    if channel == component { second } else { first }
}

// The four channels, each at its weight.
fn texel_on(kind: Kind, l: [u16; 10], first: u16, second: u16, component: u8) -> Texel
    ensures { result ≡ line_texel kind l first second component }
{
    let k = low(kind);
    let n = added(kind);
    Texel {
        r: on_line(l[0], l[4], k, n, weight(component, first, second, 0)),
        g: on_line(l[1], l[5], k, n, weight(component, first, second, 1)),
        b: on_line(l[2], l[6], k, n, weight(component, first, second, 2)),
        a: on_line(l[3], l[7], k, n, weight(component, first, second, 3)),
    }
}

// A texel of a kind on the lines of its pair, from the weights of both planes; the component that the component selector names (01: plane
// channel) takes the second weight, 4 or more standing for none.
pub fn mix_line(kind: Kind, l: [u16; 10], weights: LevelPair, component: u8) -> Texel
    ensures value { result ≡ line_texel kind l (first_level weights) (second_level weights) component }
    ensures mixes { (p : EndpointPair) → l ≡ line_of p → Mixes kind p (first_level weights) (second_level weights) component result }
{
    let first = (weights.0 % 256) as u16;
    let second = (weights.0 / 65536) as u16;
    texel_on(kind, l, first, second, component)
}

// Where a channel's line starts: the first endpoint in sixty-fourths.
fn start(e0: u8) -> u16
    ensures { result ≡ 64 * e0 }
{
    64 * (e0 as u16)
}

// How far it goes for each sixty-fourth of weight.
fn slope(e0: u8, e1: u8) -> u16
    ensures { result ≡ minus e1 e0 }
{
    wrapping_sub_u16(e1 as u16, e0 as u16)
}

// How often a channel adds the mixed byte below itself.
fn low(kind: Kind) -> u16
    ensures { result ≡ low_of kind }
{
    match kind {
        Kind::Unorm16 => 1,
        Kind::Srgb8 => 0,
        Kind::Float16 => 1,
    }
}

// What it adds there besides, in sixty-fourths.
fn added(kind: Kind) -> u16
    ensures { result ≡ add_of kind }
{
    match kind {
        Kind::Unorm16 => 32,
        Kind::Srgb8 => 8192,
        Kind::Float16 => 32,
    }
}

// The lines of an endpoint pair: four starts, four steps, and two numbers that kind 2 alone uses.
pub fn line_of(p: EndpointPair) -> [u16; 10]
    ensures { result ≡ line_of p }
{
    let x = p.e0;
    let y = p.e1;
    [
        start(x[0]),
        start(x[1]),
        start(x[2]),
        start(x[3]),
        slope(x[0], y[0]),
        slope(x[1], y[1]),
        slope(x[2], y[2]),
        slope(x[3], y[3]),
        0,
        0,
    ]
}
