// How a stored number is encoded: b bits, and above them a trit, a quint or nothing. The bits that a sequence takes.
#![tactic(auto)]

ghost use Rattle.std.specs.Prelude.{◌≡◌};
ghost use Rattle.laws.specs.Choice.{pick};
ghost use Rattle.encoding.specs.Encoding.{group_size, radix, code_bits, sequence_bits};

// 000, "Integer Sequence Encoding": the three range forms.
#[derive(Clone, Copy)]
pub enum Encoding {
    Bits,
    Trits,
    Quints,
}

// A number as a block stores it, quantised. 01: "Stored numbers and widened numbers are two kinds that must not mix".
#[derive(Clone, Copy)]
pub struct Stored(pub u8);

// An unquantised number (01: widened): an endpoint's 0..255 or a weight's 0..64.
#[derive(Clone, Copy)]
pub struct Level(pub u8);

// The levels of both planes' weights at a place of the weight grid, in one number: the first plane's in bits 7..0, the second's from bit
// 16 on. Unquantising makes it, infill blends four of them, and the mix takes it apart; no stored weight stands in it.
#[derive(Clone, Copy)]
pub struct LevelPair(pub u32);

// How many numbers share a code.
pub fn group_size(encoding: Encoding) -> u32
    ensures { result ≡ group_size encoding }
{
    match encoding {
        Encoding::Bits => 1,
        Encoding::Trits => 5,
        Encoding::Quints => 3,
    }
}

// A digit is below this.
pub fn radix_of(encoding: Encoding) -> u32
    ensures { result ≡ radix encoding }
{
    match encoding {
        Encoding::Bits => 1,
        Encoding::Trits => 3,
        Encoding::Quints => 5,
    }
}

// A choice between two numbers that are there already, which takes no branch.
fn chosen(first: bool, x: u64, y: u64) -> u64
    ensures { result ≡ pick first x y }
{
    if first { x } else { y }
}

// The bits of code that n numbers take.
pub fn code_bits(encoding: Encoding, n: u32) -> u64
    ensures { result ≡ code_bits encoding n }
{
    let m = n as u64;
    let trits = (8 * m + 4) / 5;
    let quints = (7 * m + 2) / 3;
    let radix = radix_of(encoding);
    chosen(radix == 3, trits, chosen(radix == 5, quints, 0))
}

// The bits that n numbers with b bits each take.
pub fn sequence_bits(encoding: Encoding, b: u8, n: u32) -> u64
    ensures { result ≡ sequence_bits encoding b n }
{
    (n as u64) * (b as u64) + code_bits(encoding, n)
}
