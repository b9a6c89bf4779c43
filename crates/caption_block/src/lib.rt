// The best grey caption (02, n): two grey ends and sixteen wanted greys to the block that shows them best.
#![tactic(auto)]

ghost use Rattle.std.specs.Prelude.{◌≡◌, List, ℕ, ◌+◌, ◌-◌, ◌*◌, ◌/◌, ◌≤◌, ltb, length, get_or};
ghost use Rattle.laws.specs.Choice.{pick};
ghost use Rattle.laws.specs.Table.{tab, padded};
ghost use Rattle.integer_sequence.specs.Reading.{stored};
ghost use Rattle.interpolation.specs.Texel.{mix_of};
ghost use Rattle.grey_caption.specs.Caption.{sheet_with, grey_of, distance, squared, least_at, caption_of};
ghost use Rattle.grey_caption.specs.Best.{Best};
ghost use Rattle.caption_block.specs.inner.Choice.{greys_of, better_of};

use encoding::Stored;
use symbolic_block::SymbolicBlock;

// A weight, and the squared difference that it leaves.
#[derive(Clone, Copy)]
pub struct Choice {
    pub weight: u8,
    pub square: u32,
}

fn wide(x: u8) -> u32
    ensures { (result ≡ x) × (result ≤ 255) }
{
    x as u32
}

// Two ends of 16 bits mixed by a level of 0..64, and the top byte of it.
fn mixed(c0: u32, c1: u32, level: u32) -> u8
    requires { (c0 ≤ 65535) × (c1 ≤ 65535) × (level ≤ 64) }
    ensures { result ≡ mix_of c0 c1 level / 256 }
{
    ((c0 * (64 - level) + c1 * level + 32) / 64 / 256) as u8
}

// The grey that kind 1 shows with a weight between the ends.
fn grey(e0: u8, e1: u8, w: u8) -> u8
    ensures { result ≡ grey_of e0 e1 w }
{
    let level = quantization::unquantize_weight(2, Stored(w));
    mixed(256 * wide(e0) + 128, 256 * wide(e1) + 128, wide(level.0))
}

// The greys of the four weights.
fn greys(e0: u8, e1: u8) -> [u8; 4]
    ensures { result ≡ greys_of e0 e1 }
{
    [
        grey(e0, e1, 0),
        grey(e0, e1, 1),
        grey(e0, e1, 2),
        grey(e0, e1, 3),
    ]
}

fn apart(a: u8, b: u8) -> u32
    ensures { (result ≡ distance a b) × (result ≤ 255) }
{
    if a < b {
        return wide(b) - wide(a);
    }
    wide(a) - wide(b)
}

fn squared(a: u8, b: u8) -> u32
    ensures { result ≡ squared a b }
{
    let d = apart(a, b);
    d * d
}

// The weight w where its square is smaller, else the one that was found before.
fn better(c: Choice, w: u8, square: u32) -> Choice
    ensures { result ≡ better_of c w square }
{
    if square < c.square {
        return Choice { weight: w, square };
    }
    c
}

// The weight whose grey is nearest to the wanted one, the smaller among equals.
fn best_weight(shades: [u8; 4], wanted: u8) -> Stored
    ensures { result ≡ stored (least_at (λ w. squared (get_or shades w 0) wanted) 3) }
{
    let first = Choice {
        weight: 0,
        square: squared(shades[0], wanted),
    };
    let second = better(first, 1, squared(shades[1], wanted));
    let third = better(second, 2, squared(shades[2], wanted));
    let last = better(third, 3, squared(shades[3], wanted));
    Stored(last.weight)
}

fn no_weights() -> [Stored; 64]
    ensures { result ≡ tab (λ k. stored 0) 64 }
{
    [Stored(0); 64]
}

// The weights of the sixteen places, and zeros past them.
fn weights_of(shades: [u8; 4], wanted: [u8; 16]) -> [Stored; 64]
    ensures { result ≡ padded 64 16 (λ i. stored (least_at (λ w. squared (get_or shades w 0) (get_or wanted i 0)) 3)) (stored 0) }
{
    let mut out = no_weights();
    for i in 0..16usize {
        out[i] = best_weight(shades, wanted[i]);
    }
    out
}

// The sheet with these ends and weights.
fn sheet_of(e0: u8, e1: u8, weights: [Stored; 64]) -> SymbolicBlock
    ensures { (w : ℕ → ℕ) → weights ≡ tab (λ i. stored (pick (ltb i 16) (w i) 0)) 64 → result ≡ sheet_with e0 e1 w }
{
    let mut endpoints = [Stored(0); 18];
    endpoints[0] = Stored(e0);
    endpoints[1] = Stored(e1);
    SymbolicBlock {
        mark: 0,
        hdr: 0,
        colours: [0u16; 4],
        extents: [0u16; 6],
        width: 4,
        height: 4,
        depth: 1,
        range: 2,
        planes: 1,
        component: 0,
        partitions: 1,
        index: 0,
        selector: 0,
        modes: [0u8; 4],
        endpoints,
        weights,
    }
}

// The block: every input has one.
pub fn caption(e0: u8, e1: u8, wanted: [u8; 16]) -> [u8; 16]
    ensures value { result ≡ caption_of e0 e1 wanted }
    ensures by_index { (old : List ℕ) → length old ≡ 64 → Best e0 e1 wanted old result }
{
    let weights = weights_of(greys(e0, e1), wanted);
    let writing = symbolic_calls::write_symbolic(0, sheet_of(e0, e1, weights));
    writing.bytes
}
