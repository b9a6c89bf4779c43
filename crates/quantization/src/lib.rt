// Quantisation ranges, the choice of the endpoint range, and unquantising.
#![tactic(auto)]

ghost use Rattle.std.specs.Prelude.{◌≡◌, ℕ, ◌+◌, ◌-◌, ◌≤◌, ◌<◌, min, eqb, get_or};
ghost use Rattle.laws.specs.Choice.{pick};
ghost use Rattle.laws.specs.Table.{tab};
ghost use Rattle.encoding.specs.declared.Encoding.TheVariants.{Bits, Trits, Quints};
ghost use Rattle.encoding.specs.inner.Levels.{level_pair};
ghost use Rattle.quantization.specs.Ranges.{encoding_at, bits_at, most_at, range_bits, endpoint_range};
ghost use Rattle.quantization.specs.inner.CodeBits.{codes_of};
ghost use Rattle.quantization.specs.Unquantise.{unquant_endpoint, unquant_weight};
ghost use Rattle.quantization.specs.inner.Products.{by_rule, Right};
ghost use Rattle.quantization.specs.inner.Words.{by_words, RightWords};

use encoding::{Encoding, Level, LevelPair, Stored};

// A choice between two numbers that are there already, which takes no branch.
fn chosen(first: bool, x: u8, y: u8) -> u8
    ensures { result ≡ pick first x y }
{
    if first { x } else { y }
}

// The range's place in a packed table of the twenty-one, whose entry past the last is 0.
fn place_of(range: u8) -> u32
    ensures { result ≡ min range 21 }
{
    if range < 21 { range as u32 } else { 21 }
}

fn encoding_told(n: u64) -> Encoding
    ensures { result ≡ pick (eqb n 0) Bits (pick (eqb n 1) Trits Quints) }
{
    match n {
        0 => Encoding::Bits,
        1 => Encoding::Trits,
        _ => Encoding::Quints,
    }
}

// Two bits for each range, range 0 lowest: 0 for bits alone, 1 for a trit, 2 for a quint.
const ENCODINGS: u64 = 0x6186186184;

// What stands above the bits of a number of the range.
pub fn encoding_at(range: u8) -> Encoding
    ensures { result ≡ encoding_at range }
{
    encoding_told((ENCODINGS >> (2 * place_of(range))) % 4)
}

// How many bits the numbers have, four bits for each range: of ranges 0 to 15, and of those from 16 on.
const BITS_LOW: u64 = 0x4643532421310201;

const BITS_HIGH: u64 = 0x86575;

// How many bits a number of the range has.
pub fn bits_at(range: u8) -> u8
    ensures { result ≡ bits_at range }
{
    let place = place_of(range);
    let from = 4 * (place % 16);
    let low = ((BITS_LOW >> from) % 16) as u8;
    let high = ((BITS_HIGH >> from) % 16) as u8;
    chosen(place < 16, low, high)
}

// The largest number of the range.
pub fn most_at(range: u8) -> u8
    ensures { result ≡ most_at range }
{
    let radix = encoding::radix_of(encoding_at(range));
    let bits = bits_at(range);
    ((radix << bits) - 1) as u8
}

// The bits that n numbers of the range take.
pub fn range_bits(range: u8, n: u32) -> u64
    ensures { result ≡ range_bits range n }
{
    encoding::sequence_bits(encoding_at(range), bits_at(range), n)
}

// 01: "Bits left may come out negative; then they count as 0." The difference of ℕ does so.
pub fn bits_left(available: u32, used: u32) -> u32
    ensures { result ≡ available - used }
{
    if available < used {
        return 0;
    }
    available - used
}

// How many bits the numbers of the ranges 5 to 20 have, four bits for each range, the lowest first.
const ENDPOINT_BITS: u64 = 0x8657546435324213;

// The rounded total of n numbers of range 4 + i, from the code bits of n numbers of each encoding.
fn total_at(i: u8, n: u64, codes: [u64; 3]) -> u64
    requires { (1 ≤ i) × (i ≤ 16) × (n ≤ 4294967295) × (codes ≡ codes_of n) }
    ensures { result ≡ range_bits (4 + i) n }
{
    let j = (i as u32) - 1;
    let b = (ENDPOINT_BITS >> (4 * j)) % 16;
    let c = ((ENCODINGS >> (2 * j + 10)) % 4) as usize;
    n * b + codes[c]
}

// The largest endpoint range of which count numbers fit into the bits left, by their rounded total.
pub fn endpoint_range(count: u32, left: u32) -> u8
    ensures { result ≡ endpoint_range count left }
{
    let most = left as u64;
    let n = count as u64;
    let trits = encoding::code_bits(Encoding::Trits, count);
    let quints = encoding::code_bits(Encoding::Quints, count);
    let codes = [0, trits, quints];
    let mut i: u8 = 16;
    loop {
        if i == 0 {
            break 4;
        }
        if total_at(i, n, codes) <= most {
            break 4 + i;
        }
        i -= 1;
    }
}

// How the numbers of an endpoint range are unquantised, by products: the largest number; 256 / 2^bits, which takes off the digit
// (0: none); the bits of B in place; C; 128 times the factor that copies the bits to their places in B; and A where a is 1.
// A number with no digit is B / 4. A caller that unquantises many numbers of one range takes the rule once.
#[derive(Clone, Copy)]
pub struct Rule(u8, u16, u8, u8, u16, u16);

// The rule of an endpoint range.
pub fn endpoint_rule(range: u8) -> Rule
    ensures { Right (unquant_endpoint range) result }
{
    match range {
        4 => Rule(5, 128, 0, 204, 0, 511),
        5 => Rule(7, 0, 255, 0, 18688, 0),
        6 => Rule(9, 128, 0, 113, 0, 511),
        7 => Rule(11, 64, 2, 93, 17792, 511),
        8 => Rule(15, 0, 255, 0, 8704, 0),
        9 => Rule(19, 64, 2, 54, 17152, 511),
        10 => Rule(23, 32, 6, 44, 8512, 511),
        11 => Rule(31, 0, 255, 0, 4224, 0),
        12 => Rule(39, 32, 6, 26, 8352, 511),
        13 => Rule(47, 16, 14, 22, 4160, 511),
        14 => Rule(63, 0, 255, 0, 2080, 0),
        15 => Rule(79, 16, 14, 13, 4128, 511),
        16 => Rule(95, 8, 30, 11, 2064, 511),
        17 => Rule(127, 0, 255, 0, 1032, 0),
        18 => Rule(159, 8, 30, 6, 2056, 511),
        19 => Rule(191, 4, 62, 5, 1028, 511),
        20 => Rule(255, 0, 255, 0, 512, 0),
        _ => Rule(0, 0, 0, 0, 0, 0),
    }
}

fn wide(x: u8) -> u32
    ensures { (result ≡ x) × (result ≤ 255) }
{
    x as u32
}

// 000: "unq = D * C + B; unq = unq ^ A; unq = (A & 0x80) | (unq >> 2);". A & 0x80 is (A + 1) / 4.
pub fn unquantize(rule: Rule, s: Stored) -> Level
    ensures { result.0 ≡ by_rule rule s.0 }
{
    let v = s.0;
    let a = wide(v % 2) * (rule.5 as u32);
    let b = wide(v & rule.2) * (rule.4 as u32) / 128;
    let d = wide(v) * (rule.1 as u32) / 256;
    let unq = (d * wide(rule.3) + b) ^ a;
    let level = (((a + 1) / 4 + unq / 4) % 256) as u8;
    Level(if rule.0 < v { 0 } else { level })
}

// The level of a stored endpoint number, 0..255.
pub fn unquantize_endpoint(range: u8, s: Stored) -> Level
    ensures { result.0 ≡ unquant_endpoint range s.0 }
{
    unquantize(endpoint_rule(range), s)
}

// The levels of a weight range's numbers, one byte each, eight to a word, the first lowest; 0 past its largest number.
// A caller that unquantises many weights of one range takes the words once.
pub fn weight_words(range: u8) -> [u64; 4]
    ensures { RightWords (unquant_weight range) result }
{
    match range {
        0 => [0x4000, 0, 0, 0],
        1 => [0x402000, 0, 0, 0],
        2 => [0x402B1500, 0, 0, 0],
        3 => [0x4030201000, 0, 0, 0],
        4 => [0x2719340C4000, 0, 0, 0],
        5 => [0x40372E251B120900, 0, 0, 0],
        6 => [0x2B15320E39074000, 0x241C, 0, 0],
        7 => [0x29173B052F114000, 0x241C350B, 0, 0],
        8 => [0x1D1915110C080400, 0x403C38342F2B2723, 0, 0],
        9 => [0x2D133D0330104000, 0x261A370929173A06, 0x231D330D, 0],
        10 => [
            0x2818301038084000,
            0x251B2D13350B3E02,
            0x221E2A16330D3B05,
            0,
        ],
        11 => [
            0x0E0C0A0806040200,
            0x1E1C1A1816141210,
            0x302E2C2A28262422,
            0x403E3C3A38363432,
        ],
        _ => [0, 0, 0, 0],
    }
}

// The same as bytes: a caller that unquantises all weights of a block looks each up by itself.
pub fn weight_table(range: u8) -> [u8; 32]
    ensures { result ≡ tab (unquant_weight range) 32 }
{
    let words = weight_words(range);
    let a = words[0];
    let b = words[1];
    let c = words[2];
    let d = words[3];
    [
        (a / 1 % 256) as u8,
        (a / 256 % 256) as u8,
        (a / 65536 % 256) as u8,
        (a / 16777216 % 256) as u8,
        (a / 4294967296 % 256) as u8,
        (a / 1099511627776 % 256) as u8,
        (a / 281474976710656 % 256) as u8,
        (a / 72057594037927936 % 256) as u8,
        (b / 1 % 256) as u8,
        (b / 256 % 256) as u8,
        (b / 65536 % 256) as u8,
        (b / 16777216 % 256) as u8,
        (b / 4294967296 % 256) as u8,
        (b / 1099511627776 % 256) as u8,
        (b / 281474976710656 % 256) as u8,
        (b / 72057594037927936 % 256) as u8,
        (c / 1 % 256) as u8,
        (c / 256 % 256) as u8,
        (c / 65536 % 256) as u8,
        (c / 16777216 % 256) as u8,
        (c / 4294967296 % 256) as u8,
        (c / 1099511627776 % 256) as u8,
        (c / 281474976710656 % 256) as u8,
        (c / 72057594037927936 % 256) as u8,
        (d / 1 % 256) as u8,
        (d / 256 % 256) as u8,
        (d / 65536 % 256) as u8,
        (d / 16777216 % 256) as u8,
        (d / 4294967296 % 256) as u8,
        (d / 1099511627776 % 256) as u8,
        (d / 281474976710656 % 256) as u8,
        (d / 72057594037927936 % 256) as u8,
    ]
}

// The point of a weight grid of one plane, from its stored weight and its range's table.
pub fn weight_point(table: &[u8; 32], s: Stored) -> LevelPair
    ensures { s.0 < 32 → result ≡ level_pair (get_or table.now s.0 0) 0 }
{
    let v = (s.0 % 32) as usize;
    LevelPair(wide(table[v]))
}

// The level of a stored weight by its range's words.
pub fn weight_by(words: &[u64; 4], s: Stored) -> Level
    ensures { result.0 ≡ by_words words.now s.0 }
{
    let v = s.0;
    let k = (v / 8 % 4) as usize;
    let level = ((words[k] >> (8 * ((v % 8) as u32))) % 256) as u8;
    Level(chosen(v < 32, level, 0))
}

// The levels of a point's stored weights in both planes by their range's words; with one plane the second does not count.
pub fn weight_pair(words: &[u64; 4], planes: u8, first: Stored, second: Stored) -> LevelPair
    ensures value { result ≡ level_pair (by_words words.now first.0) (pick (eqb planes 2) (by_words words.now second.0) 0) }
    ensures by_index { (level : ℕ → ℕ) → RightWords level words.now → result ≡ level_pair (level first.0) (pick (eqb planes 2) (level second.0) 0) }
{
    let low = weight_by(words, first);
    if planes == 2 {
        let high = weight_by(words, second);
        LevelPair((low.0 as u32) + 65536 * (high.0 as u32))
    } else {
        LevelPair(low.0 as u32)
    }
}

// The level of a stored weight, 0..64.
pub fn unquantize_weight(range: u8, s: Stored) -> Level
    ensures { result.0 ≡ unquant_weight range s.0 }
{
    let words = weight_words(range);
    weight_by(&words, s)
}
