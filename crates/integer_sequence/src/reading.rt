// Reading a sequence: group by group, each group's code once.
ghost use Rattle.std.specs.Prelude.{◌≡◌, ◌+◌, ◌*◌, ◌^◌, ◌≤◌, ◌<◌};
ghost use Rattle.laws.specs.Table.{tab};
ghost use Rattle.bits.specs.Field.{field};
ghost use Rattle.bits.specs.Block.{block_number};
ghost use Rattle.encoding.specs.declared.Encoding.TheVariants.{Bits, Trits, Quints};
ghost use Rattle.encoding.specs.declared.Stored.{Stored};
ghost use Rattle.integer_sequence.specs.inner.Entries.{group_numbers};
ghost use Rattle.integer_sequence.specs.Reading.{code_at, numbers, stored};
ghost use Rattle.integer_sequence.specs.inner.Sequences.{Narrow};

use crate::group::{FiveTrits, Group, OneNumber, ThreeQuints};
use crate::tables;
use bits::PhysicalBlock;
use encoding::{Encoding, Stored};

// The w bits of g from bit p on.
pub fn cut(g: u64, p: u32, w: u32) -> u64
    requires { (p < 64) × (w ≤ 8) }
    ensures { (result ≡ field g p w) × (result < 256) }
{
    (g >> p) % (1 << w)
}

// The code of the first group of g: the shares stand b bits further apart there.
pub fn trit_code(g: u64, b: u32) -> u8
    requires { b ≤ 6 }
    ensures { result ≡ code_at Trits b g 0 }
{
    let g1 = g >> b;
    let g2 = g1 >> b;
    let g3 = g2 >> b;
    let g4 = g3 >> b;
    let g5 = g4 >> b;
    (g1 % 4 + g2 % 16 / 4 * 4 + g3 % 32 / 16 * 16 + g4 % 128 / 32 * 32 + g5 % 256 / 128 * 128) as u8
}

pub fn quint_code(g: u64, b: u32) -> u8
    requires { b ≤ 5 }
    ensures { (result ≡ code_at Quints b g 0) × (result < 128) }
{
    let g1 = g >> b;
    let g2 = g1 >> b;
    let g3 = g2 >> b;
    (g1 % 8 + g2 % 32 / 8 * 8 + g3 % 128 / 32 * 32) as u8
}

// A code's digits above b bits each.
fn raised(digits: u64, b: u32) -> u64
    requires { (b ≤ 8) × (digits < 2 ^ 40) }
    ensures { (result ≡ digits * 2 ^ b) × (result < 2 ^ 48) }
{
    digits << b
}

// The five numbers of the first group of g, a byte each.
pub fn trit_group(g: u64, b: u32) -> u64
    requires { b ≤ 6 }
    ensures { result ≡ group_numbers Trits b g }
{
    let g1 = g >> b;
    let g2 = g1 >> b;
    let g3 = g2 >> b;
    let g4 = g3 >> b;
    raised(tables::trit_digits(trit_code(g, b)), b)
        + cut(g, 0, b)
        + cut(g1, 2, b) * 256
        + cut(g2, 4, b) * 65536
        + cut(g3, 5, b) * 16777216
        + cut(g4, 7, b) * 4294967296
}

// The three.
pub fn quint_group(g: u64, b: u32) -> u64
    requires { b ≤ 5 }
    ensures { result ≡ group_numbers Quints b g }
{
    let g1 = g >> b;
    let g2 = g1 >> b;
    raised(tables::quint_digits(quint_code(g, b)), b)
        + cut(g, 0, b)
        + cut(g1, 3, b) * 256
        + cut(g2, 5, b) * 65536
}

fn no_numbers() -> [Stored; 64]
    ensures { result ≡ tab (λ k. stored 0) 64 }
{
    [Stored(0); 64]
}

// The first n numbers of the sequence s, group by group; the last group may be cut.
fn read_groups<G: Group>(s: PhysicalBlock, b: u32, n: usize) -> [Stored; 64]
    requires { Narrow G.form b × (n ≤ 64) }
    ensures { result ≡ numbers G.form b (block_number s) n }
{
    let mut out = no_numbers();
    let mut rest = s;
    for i in (0..n).step_by(G::size() as usize) {
        let word = bits::word_at(rest, 0);
        let x = G::numbers(word, b);
        for k in 0..G::size() as usize {
            if i + k < n {
                out[i + k] = Stored(((x >> (8 * k)) % 256) as u8);
            }
        }
        rest = bits::later(rest, G::bits(b));
    }
    out
}

// The first n numbers of the sequence s.
pub fn read(s: PhysicalBlock, e: Encoding, b: u8, n: usize) -> [Stored; 64]
    requires { Narrow e b × (n ≤ 64) }
    ensures { result ≡ numbers e b (block_number s) n }
{
    match e {
        Encoding::Bits => read_groups::<OneNumber>(s, b as u32, n),
        Encoding::Trits => read_groups::<FiveTrits>(s, b as u32, n),
        Encoding::Quints => read_groups::<ThreeQuints>(s, b as u32, n),
    }
}
