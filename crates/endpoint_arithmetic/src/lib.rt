// Endpoint pairs: bit transfer, blue contraction and clamp, and the forms direct, base+offset and base+scale.
#![tactic(auto)]

ghost use Rattle.std.specs.Prelude.{◌≡◌, ◌*◌, ◌/◌, ◌<◌, pos, ◌+ℤ◌};
ghost use Rattle.std.specs.Int.Signed.{lt_z};
ghost use Rattle.endpoint_arithmetic.specs.Signed.{bit_transfer, raised, contracted, clamped, plain_end, blue_end};
ghost use Rattle.endpoint_arithmetic.specs.Bounds.{Within};
ghost use Rattle.endpoint_arithmetic.specs.Pair.{
  zero_pair,
  luminance_pair,
  scaled_pair,
  rgb_sum,
  blue_of,
  direct_pair,
  raised_pair,
  contracted_pair,
  offset_pair,
};

use encoding::Level;

// 000's e0 and e1, each R, G, B, A.
#[derive(Clone, Copy)]
pub struct EndpointPair {
    pub e0: [u8; 4],
    pub e1: [u8; 4],
}

// What bit_transfer_signed leaves: a base 0..255 and an offset -32..31.
#[derive(Clone, Copy)]
pub struct BaseOffset {
    pub base: u8,
    pub offset: i8,
}

// A channel between the transfer and the clamp; it may be negative.
#[derive(Clone, Copy)]
struct Sum(i32);

// 000's bit_transfer_signed.
pub fn bit_transfer(a: Level, b: Level) -> BaseOffset
    ensures { result ≡ bit_transfer a.0 b.0 }
{
    let x = a.0;
    let y = b.0;
    let base = x / 128 * 128 + y / 2;
    let n = x / 2 % 64;
    let z = n as i8;
    if n < 32 {
        BaseOffset { base, offset: z }
    } else {
        BaseOffset {
            base,
            offset: z - 64,
        }
    }
}

// A channel that has no offset.
fn level(n: u8) -> Sum
    ensures { (result.0 ≡ pos n) × Within 128 382 result.0 }
{
    Sum(n as i32)
}

// A base with its offset added.
fn raise(t: BaseOffset) -> Sum
    ensures { (result.0 ≡ raised t) × Within 128 382 result.0 }
{
    let base = t.base;
    let offset = t.offset;
    Sum((base as i32) + (offset as i32))
}

// Half of the sum with blue, rounded down.
fn contract(x: Sum, blue: Sum) -> Sum
    requires { Within 128 382 x.0 × Within 128 382 blue.0 }
    ensures { result.0 ≡ contracted x.0 blue.0 }
{
    let p = x.0;
    let q = blue.0;
    Sum((p + q) >> 1)
}

// 000's clamp_unorm8, one channel.
fn clamp(s: Sum) -> u8
    ensures { result ≡ clamped s.0 }
{
    let x = s.0;
    if x < 0 {
        0
    } else if 255 < x {
        255
    } else {
        x as u8
    }
}

// An end, clamped.
fn plain_end(r: Sum, g: Sum, b: Sum, a: Sum) -> [u8; 4]
    ensures { result ≡ plain_end r.0 g.0 b.0 a.0 }
{
    [clamp(r), clamp(g), clamp(b), clamp(a)]
}

// An end, blue-contracted and then clamped.
fn blue_end(r: Sum, g: Sum, b: Sum, a: Sum) -> [u8; 4]
    requires { Within 128 382 r.0 × Within 128 382 g.0 × Within 128 382 b.0 }
    ensures { result ≡ blue_end r.0 g.0 b.0 a.0 }
{
    plain_end(contract(r, b), contract(g, b), b, a)
}

// The offsets of R, G and B sum to less than 0.
fn falls(r: BaseOffset, g: BaseOffset, b: BaseOffset) -> bool
    ensures { result ≡ lt_z (r.offset +ℤ g.offset +ℤ b.offset) (pos 0) }
{
    let x = r.offset;
    let y = g.offset;
    let z = b.offset;
    (x as i32) + (y as i32) + (z as i32) < 0
}

// Base+offset: the bases, and the bases with their offsets added.
pub fn raised_pair(r: BaseOffset, g: BaseOffset, b: BaseOffset, a: BaseOffset) -> EndpointPair
    ensures { result ≡ raised_pair r g b a }
{
    let e0 = plain_end(level(r.base), level(g.base), level(b.base), level(a.base));
    let e1 = plain_end(raise(r), raise(g), raise(b), raise(a));
    EndpointPair { e0, e1 }
}

// Base+offset: the same, exchanged and blue-contracted.
fn contracted_pair(r: BaseOffset, g: BaseOffset, b: BaseOffset, a: BaseOffset) -> EndpointPair
    ensures { result ≡ contracted_pair r g b a }
{
    let e0 = blue_end(raise(r), raise(g), raise(b), raise(a));
    let e1 = blue_end(level(r.base), level(g.base), level(b.base), level(a.base));
    EndpointPair { e0, e1 }
}

// Base+offset over four channels.
pub fn offset_pair(r: BaseOffset, g: BaseOffset, b: BaseOffset, a: BaseOffset) -> EndpointPair
    ensures { result ≡ offset_pair r g b a }
{
    if falls(r, g, b) {
        contracted_pair(r, g, b, a)
    } else {
        raised_pair(r, g, b, a)
    }
}

fn wide(n: u8) -> u32
    ensures { (result ≡ n) × (result < 256) }
{
    n as u32
}

// R + G + B of an end.
fn rgb_sum(e: [u8; 4]) -> u32
    ensures { result ≡ rgb_sum e }
{
    wide(e[0]) + wide(e[1]) + wide(e[2])
}

// An end of levels, blue-contracted.
fn blue_of(e: [u8; 4]) -> [u8; 4]
    ensures { result ≡ blue_of e }
{
    blue_end(level(e[0]), level(e[1]), level(e[2]), level(e[3]))
}

// Direct over four channels.
pub fn direct_pair(x: [u8; 4], y: [u8; 4]) -> EndpointPair
    ensures { result ≡ direct_pair x y }
{
    if rgb_sum(x) <= rgb_sum(y) {
        EndpointPair { e0: x, e1: y }
    } else {
        EndpointPair {
            e0: blue_of(y),
            e1: blue_of(x),
        }
    }
}

// The product with the scale, its low eight bits dropped.
fn scaled(n: u8, s: u8) -> u8
    ensures { result ≡ n * s / 256 }
{
    ((n as u32) * (s as u32) / 256) as u8
}

// Base+scale with two alphas.
pub fn scaled_pair(r: u8, g: u8, b: u8, s: u8, a0: u8, a1: u8) -> EndpointPair
    ensures { result ≡ scaled_pair r g b s a0 a1 }
{
    EndpointPair {
        e0: [scaled(r, s), scaled(g, s), scaled(b, s), a0],
        e1: [r, g, b, a1],
    }
}

// Luminance with two alphas.
pub fn luminance_pair(l0: u8, l1: u8, a0: u8, a1: u8) -> EndpointPair
    ensures { result ≡ luminance_pair l0 l1 a0 a1 }
{
    EndpointPair {
        e0: [l0, l0, l0, a0],
        e1: [l1, l1, l1, a1],
    }
}

// The pair of zeros.
pub fn zero_pair() -> EndpointPair
    ensures { result ≡ zero_pair }
{
    EndpointPair {
        e0: [0u8; 4],
        e1: [0u8; 4],
    }
}
