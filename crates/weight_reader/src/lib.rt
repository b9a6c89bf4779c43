// The weights of a block as the points of its grid: packed numbers read and unquantised at once, so that no stored weight is kept.
#![tactic(auto)]

ghost use Rattle.std.specs.Prelude.{◌≡◌, ◌*◌, ◌^◌, ◌≤◌};
ghost use Rattle.laws.specs.Table.{tab};
ghost use Rattle.bits.specs.Block.{block_number};
ghost use Rattle.encoding.specs.Encoding.{radix};
ghost use Rattle.encoding.specs.declared.Encoding.TheVariants.{Bits, Trits, Quints};
ghost use Rattle.quantization.specs.Ranges.{encoding_at, bits_at};
ghost use Rattle.integer_sequence.specs.Reading.{sequence_at};
ghost use Rattle.weight_reader.specs.inner.Weights.{no_levels, by_table, weights_of, paired_of};

use bits::PhysicalBlock;
use encoding::{Encoding, LevelPair, Stored};
use integer_sequence::group::{FiveTrits, Group, OneNumber, ThreeQuints};

fn no_weights() -> [LevelPair; 64]
    ensures { result ≡ tab (λ k. no_levels) 64 }
{
    [LevelPair(0); 64]
}

// The levels of the first n numbers of the sequence s by a table, group by group; the last group may be cut. `integer_sequence` keeps the
// numbers themselves in such a loop: one for both would fill an array of a type parameter, of which no size is known.
fn read_groups<G: Group>(s: PhysicalBlock, b: u32, n: usize, table: &[u8; 32]) -> [LevelPair; 64]
    requires { (radix G.form * 2 ^ b ≤ 32) × (n ≤ 64) }
    ensures { result ≡ by_table table.now G.form b (block_number s) n }
{
    let mut out = no_weights();
    let mut rest = s;
    for i in (0..n).step_by(G::size() as usize) {
        let word = bits::word_at(rest, 0);
        let x = G::numbers(word, b);
        for k in 0..G::size() as usize {
            if i + k < n {
                let stored = Stored(((x >> (8 * k)) % 256) as u8);
                out[i + k] = quantization::weight_point(table, stored);
            }
        }
        rest = bits::later(rest, G::bits(b));
    }
    out
}

fn read_by(s: PhysicalBlock, e: Encoding, b: u8, n: usize, table: &[u8; 32]) -> [LevelPair; 64]
    requires { (radix e * 2 ^ b ≤ 32) × (n ≤ 64) }
    ensures { result ≡ by_table table.now e b (block_number s) n }
{
    match e {
        Encoding::Bits => read_groups::<OneNumber>(s, b as u32, n, table),
        Encoding::Trits => read_groups::<FiveTrits>(s, b as u32, n, table),
        Encoding::Quints => read_groups::<ThreeQuints>(s, b as u32, n, table),
    }
}

// The levels of the n weights of a range that begin at bit 0 of s, in the first plane of a point each.
pub fn read_weights(s: PhysicalBlock, range: u8, n: u8) -> [LevelPair; 64]
    requires { (range ≤ 11) × (n ≤ 64) }
    ensures { result ≡ weights_of range (sequence_at (encoding_at range) (bits_at range) (block_number s) 0 n) n }
{
    let e = quantization::encoding_at(range);
    let b = quantization::bits_at(range);
    let w = encoding::sequence_bits(e, b, n as u32) as u32;
    let table = quantization::weight_table(range);
    read_by(bits::part(s, 0, w), e, b, n as usize, &table)
}

// So many points of two planes: their levels alternate.
pub fn paired(weights: [LevelPair; 64], count: usize) -> [LevelPair; 64]
    requires { 2 * count ≤ 64 }
    ensures { result ≡ paired_of weights count }
{
    let mut out = no_weights();
    for i in 0..count {
        let first = weights[2 * i];
        let second = weights[2 * i + 1];
        out[i] = LevelPair(first.0 % 256 + 65536 * (second.0 % 256));
    }
    out
}
