// The spare bits of a block (02, g): those between endpoints and weights that no field has.
#![tactic(auto)]

ghost use Rattle.std.specs.Prelude.{◌≡◌, ◌≤◌, length};
ghost use Rattle.laws.specs.Choice.{pick};
ghost use Rattle.bits.specs.Block.{block_number};
ghost use Rattle.block_header.specs.Counts.{endpoint_count, endpoint_range_of};
ghost use Rattle.symbolic_block.specs.Writing.{endpoints_end};
ghost use Rattle.spare_bits.specs.Spare.{spare_bits, some_set, spare_in, no_spare, spare_numbers};

use bits::PhysicalBlock;
use block_header::BlockHeader;

// How many there are, and whether any is set.
#[derive(Clone, Copy)]
pub struct Spare {
    pub count: u8,
    pub set: bool,
}

// Of a void extent, a fault or a refusal.
pub fn no_spare() -> Spare
    ensures { result ≡ no_spare }
{
    Spare {
        count: 0,
        set: false,
    }
}

// The bit where the endpoint numbers end, n of a range.
fn endpoints_end(h: BlockHeader, n: u8, range: u8) -> u32
    requires { (endpoint_count h ≤ 18) × (n ≡ endpoint_count h) × (range ≡ endpoint_range_of h) }
    ensures { (result ≡ endpoints_end h) × (result ≤ 400000) }
{
    block_fault::endpoints_from(h.partitions) as u32
        + quantization::range_bits(range, n as u32) as u32
}

// How many bits no field has: what is left of 128 beside those below the end of the endpoint numbers, the weights, the plane channel and
// the extra mode bits.
fn spare_bits(h: BlockHeader, end: u32) -> u8
    requires { (end ≡ endpoints_end h) × (end ≤ 400000) }
    ensures { result ≡ spare_bits h }
{
    let g = h.grid;
    let above = block_header::clipped_weight_bits(g)
        + block_header::component_bits(g.planes)
        + block_header::extra_bits(h.partitions, h.selector);
    quantization::bits_left(128, end + above) as u8
}

// Whether any of the n bits from bit p on is set.
fn some_set(b: PhysicalBlock, p: u32, n: u8) -> bool
    ensures { result ≡ some_set (block_number b) p n }
{
    let part = bits::part(b, p, n as u32);
    let lo = part.lo;
    let hi = part.hi;
    if lo != 0 {
        return true;
    }
    hi != 0
}

// The spare bits of a coded block.
pub fn spare_in(b: PhysicalBlock, h: BlockHeader, numbers: u8, range: u8) -> Spare
    requires { (endpoint_count h ≤ 18) × (numbers ≡ endpoint_count h) × (range ≡ endpoint_range_of h) }
    ensures { result ≡ spare_in (block_number b) h }
{
    let end = endpoints_end(h, numbers, range);
    let count = spare_bits(h, end);
    Spare {
        count,
        set: some_set(b, end, count),
    }
}

fn wide(x: u8) -> u16
    ensures { result ≡ x }
{
    x as u16
}

fn one_if(t: bool) -> u16
    ensures { result ≡ pick t 1 0 }
{
    if t { 1 } else { 0 }
}

// As two numbers.
pub fn put_spare(s: Spare, spare: &mut [u16])
    requires { length spare.old ≡ 2 }
    ensures { spare.new ≡ spare_numbers s }
{
    spare[0] = wide(s.count);
    spare[1] = one_if(s.set);
}
