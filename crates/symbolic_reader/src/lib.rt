// The reader of symbolic blocks (01: sheets): a block's settings and numbers as plain numbers.
#![tactic(auto)]

ghost use Rattle.std.specs.Prelude.{◌≡◌, ◌+◌, ◌*◌, ◌≤◌, ◌<◌, get_or};
ghost use Rattle.laws.specs.Table.{tab};
ghost use Rattle.bits.specs.Field.{field};
ghost use Rattle.bits.specs.Block.{block_number};
ghost use Rattle.integer_sequence.specs.Reading.{stored};
ghost use Rattle.block_header.specs.Counts.{weight_count, endpoint_count, endpoint_range_of};
ghost use Rattle.reason.specs.Numbers.{refusal_told};
ghost use Rattle.block_answer.specs.Told.{number_told};
ghost use Rattle.block_fault.specs.Bits.{endpoint_at, weight_at};
ghost use Rattle.void_extent.specs.Layout.{colour_at, extent_at};
ghost use Rattle.symbolic_block.specs.Reading.{mark_of, mode_block, void_block, zero_block};
ghost use Rattle.symbolic_reader.specs.Answers.{read_refusal, reading_of, read_told, nothing, done_with};

use bits::PhysicalBlock;
use block_answer::Answer;
use block_fault::Contents;
use block_header::BlockHeader;
use encoding::Stored;
use reason::Refusal;
use spare_bits::Spare;
use symbolic_block::SymbolicBlock;

// The answer, the symbolic block and the spare bits: zeros unless the answer is Done.
#[derive(Clone, Copy)]
pub struct SymbolicReading {
    pub answer: Answer,
    pub block: SymbolicBlock,
    pub spare: Spare,
}

fn zero_block() -> SymbolicBlock
    ensures { result ≡ zero_block }
{
    SymbolicBlock {
        mark: 0,
        hdr: 0,
        colours: [0u16; 4],
        extents: [0u16; 6],
        width: 0,
        height: 0,
        depth: 0,
        range: 0,
        planes: 0,
        component: 0,
        partitions: 0,
        index: 0,
        selector: 0,
        modes: [0u8; 4],
        endpoints: [Stored(0); 18],
        weights: [Stored(0); 64],
    }
}

pub fn told(answer: Answer) -> SymbolicReading
    ensures { result ≡ nothing answer }
{
    SymbolicReading {
        answer,
        block: zero_block(),
        spare: spare_bits::no_spare(),
    }
}

fn read(block: SymbolicBlock, spare: Spare) -> SymbolicReading
    ensures { result ≡ done_with block spare }
{
    SymbolicReading {
        answer: Answer::Done,
        block,
        spare,
    }
}

// Refusals 1 and 4.
fn check(fp: u8, bytes: usize) -> Result<(), Refusal>
    ensures { refusal_told result ≡ read_refusal fp bytes }
{
    if 23 < fp {
        return Err(Refusal::Footprint);
    }
    if bytes != 16 {
        return Err(Refusal::Bytes);
    }
    Ok(())
}

fn colour(b: PhysicalBlock, i: u32) -> u16
    requires { i < 4 }
    ensures { result ≡ colour_at (block_number b) i }
{
    bits::field_at(b, 64 + 16 * i, 16) as u16
}

fn extent(volume: bool, b: PhysicalBlock, i: u32) -> u16
    requires { i < 6 }
    ensures { result ≡ extent_at volume (block_number b) i }
{
    void_extent::extent(volume, b, i) as u16
}

fn extents(volume: bool, b: PhysicalBlock) -> [u16; 6]
    ensures { result ≡ tab (extent_at volume (block_number b)) 6 }
{
    let s0 = extent(volume, b, 0);
    let s1 = extent(volume, b, 1);
    let t0 = extent(volume, b, 2);
    let t1 = extent(volume, b, 3);
    let r0 = extent(volume, b, 4);
    let r1 = extent(volume, b, 5);
    [s0, s1, t0, t1, r0, r1]
}

// The HDR mark of a void extent.
fn hdr_bit(b: PhysicalBlock) -> u8
    ensures { result ≡ field (block_number b) 9 1 }
{
    bits::field_at(b, 9, 1) as u8
}

fn void_block(volume: bool, b: PhysicalBlock) -> SymbolicBlock
    ensures { result ≡ void_block (field (block_number b) 9 1) (colour_at (block_number b)) (extent_at volume (block_number b)) }
{
    let extents = extents(volume, b);
    SymbolicBlock {
        mark: 1,
        hdr: hdr_bit(b),
        colours: [colour(b, 0), colour(b, 1), colour(b, 2), colour(b, 3)],
        extents,
        width: 0,
        height: 0,
        depth: 0,
        range: 0,
        planes: 0,
        component: 0,
        partitions: 0,
        index: 0,
        selector: 0,
        modes: [0u8; 4],
        endpoints: [Stored(0); 18],
        weights: [Stored(0); 64],
    }
}

fn first_18(xs: [Stored; 64]) -> [Stored; 18]
    ensures { result ≡ tab (λ i. get_or xs i (stored 0)) 18 }
{
    let mut out = [Stored(0); 18];
    for i in 0..18 {
        out[i] = xs[i];
    }
    out
}

fn endpoints(b: PhysicalBlock, h: BlockHeader, numbers: u8, range: u8) -> [Stored; 18]
    requires { (endpoint_count h ≤ 18) × (numbers ≡ endpoint_count h) × (range ≡ endpoint_range_of h) }
    ensures { result ≡ tab (λ i. stored (endpoint_at (block_number b) h i)) 18 }
{
    first_18(integer_sequence::read_sequence(
        b,
        block_fault::endpoints_from(h.partitions),
        range,
        numbers,
    ))
}

fn weights(b: PhysicalBlock, h: BlockHeader) -> [Stored; 64]
    requires { weight_count h.grid ≤ 64 }
    ensures { result ≡ tab (λ i. stored (weight_at (block_number b) h i)) 64 }
{
    let g = h.grid;
    let n = block_header::weight_count(g) as u8;
    integer_sequence::read_sequence(bits::reversed(b), 0, g.range, n)
}

// The HDR mark of any other block.
fn mark_of(h: BlockHeader) -> u8
    ensures { result ≡ mark_of h }
{
    if block_header::some_hdr(h) { 1 } else { 0 }
}

pub fn mode_block(b: PhysicalBlock, h: BlockHeader, numbers: u8, range: u8) -> SymbolicBlock
    requires { (weight_count h.grid ≤ 64) × (endpoint_count h ≤ 18) × (numbers ≡ endpoint_count h) × (range ≡ endpoint_range_of h) }
    ensures { result ≡ mode_block h (endpoint_at (block_number b) h) (weight_at (block_number b) h) }
{
    let g = h.grid;
    let modes = h.modes;
    let endpoints = endpoints(b, h, numbers, range);
    let weights = weights(b, h);
    let hdr = mark_of(h);
    SymbolicBlock {
        mark: 0,
        hdr,
        colours: [0u16; 4],
        extents: [0u16; 6],
        width: g.width,
        height: g.height,
        depth: g.depth,
        range: g.range,
        planes: g.planes,
        component: h.component,
        partitions: h.partitions,
        index: h.index,
        selector: h.selector,
        modes,
        endpoints,
        weights,
    }
}

// A block's symbolic block at a footprint. Each stage that stops tells its number at once.
pub fn read_symbolic(fp: u8, block: &[u8]) -> SymbolicReading
    ensures value { result ≡ reading_of fp block.now }
    ensures answer_value { number_told result.answer ≡ read_told fp block.now }
{
    let checked = check(fp, block.len());
    let Ok(()) = checked else {
        return told(Answer::Refused(checked.unwrap_err().into()));
    };
    let b = bits::load(block);
    let volume = footprint::is_volume(fp);
    let settings = block_fault::read_settings(true, volume, b, fp);
    let Ok(contents) = settings else {
        return told(Answer::Faulty(settings.unwrap_err().into()));
    };
    match contents {
        Contents::VoidExtent => read(void_block(volume, b), spare_bits::no_spare()),
        Contents::Coded(s) => {
            let spare = spare_bits::spare_in(b, s.header, s.numbers, s.range);
            read(mode_block(b, s.header, s.numbers, s.range), spare)
        }
    }
}
