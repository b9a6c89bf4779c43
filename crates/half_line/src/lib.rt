// A texel on the numbers of its pair: of kind 2, and of any kind.
#![tactic(auto)]

ghost use Rattle.std.specs.Prelude.{◌≡◌, ◌-◌, ◌%◌, ◌≤◌, eqb};
ghost use Rattle.laws.specs.Choice.{pick};
ghost use Rattle.encoding.specs.inner.Levels.{first_level, second_level};
ghost use Rattle.interpolation.specs.Texel.{mix_of};
ghost use Rattle.half_float.specs.Half.{half_of};
ghost use Rattle.half_line.specs.inner.Line.{flag_of, half_line_of, half_texel_on, texel_on};

use encoding::LevelPair;
use half_pair::HalfPair;
use interpolation::{Kind, Texel};

// 64 less the weight, 0 for a weight above 64.
fn rest(i: u64) -> u64
    ensures { (result ≡ 64 - i) × (result ≤ 64) }
{
    if 64 < i { 0 } else { 64 - i }
}

// Two numbers of 16 bits mixed.
pub fn mixed(c0: u16, c1: u16, i: u16) -> u16
    ensures { result ≡ mix_of c0 c1 i % 65536 }
{
    let w = i as u64;
    (((c0 as u64) * rest(w) + (c1 as u64) * w + 32) / 64 % 65536) as u16
}

// A channel: the half float of what is mixed.
fn shown(hdr: bool, c0: u16, c1: u16, i: u16) -> u16
    ensures { result ≡ half_of hdr (mix_of c0 c1 i % 65536) }
{
    half_float::half_of(hdr, mixed(c0, c1, i))
}

// The weight of a channel.
pub fn chosen(component: u8, first: u16, second: u16, channel: u8) -> u16
    ensures { result ≡ pick (eqb channel component) second first }
{
    if channel == component { second } else { first }
}

// A texel of kind 2 on the ten numbers of its pair.
fn half_on(l: [u16; 10], first: u16, second: u16, component: u8) -> Texel
    ensures { result ≡ half_texel_on l first second component }
{
    Texel {
        r: shown(l[8] == 1, l[0], l[4], chosen(component, first, second, 0)),
        g: shown(l[8] == 1, l[1], l[5], chosen(component, first, second, 1)),
        b: shown(l[8] == 1, l[2], l[6], chosen(component, first, second, 2)),
        a: shown(l[9] == 1, l[3], l[7], chosen(component, first, second, 3)),
    }
}

// The same, of the levels of both planes.
pub fn mix_half(l: [u16; 10], weights: LevelPair, component: u8) -> Texel
    ensures { result ≡ half_texel_on l (first_level weights) (second_level weights) component }
{
    let first = (weights.0 % 256) as u16;
    let second = (weights.0 / 65536) as u16;
    half_on(l, first, second, component)
}

// The texel of any kind on the numbers of its pair.
pub fn mix(kind: Kind, l: [u16; 10], weights: LevelPair, component: u8) -> Texel
    ensures { result ≡ texel_on kind l (first_level weights) (second_level weights) component }
{
    if interpolation::takes_hdr(kind) {
        mix_half(l, weights, component)
    } else {
        interpolation::mix_line(kind, l, weights, component)
    }
}

fn flag(b: bool) -> u16
    ensures { result ≡ flag_of b }
{
    if b { 1 } else { 0 }
}

// A pair as ten numbers, as the lines of kinds 0 and 1 are.
pub fn half_line(p: HalfPair) -> [u16; 10]
    ensures { result ≡ half_line_of p }
{
    let x = p.c0;
    let y = p.c1;
    let colour = flag(p.colour);
    let alpha = flag(p.alpha);
    [
        x[0], x[1], x[2], x[3], y[0], y[1], y[2], y[3], colour, alpha,
    ]
}
