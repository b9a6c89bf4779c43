// The reader and the writer of symbolic blocks (01: sheets) over one list of 107 numbers: the fields of 01 in its order, then the HDR mark
// of 02, i, and what 02, h, adds: the grid's depth and the third axis' two extents.
#![tactic(auto)]

ghost use Rattle.std.specs.Prelude.{◌≡◌, ◌+◌, ◌≤◌, ◌<◌, min, leb, length, get_or};
ghost use Rattle.laws.specs.Choice.{pick, both};
ghost use Rattle.laws.specs.Table.{tab};
ghost use Rattle.integer_sequence.specs.Reading.{stored};
ghost use Rattle.symbolic_block.specs.Refusals.{unknown_footprint};
ghost use Rattle.symbolic_refusal.specs.inner.Stages.{or34};
ghost use Rattle.symbolic_calls.specs.Writing.{writing_of};
ghost use Rattle.symbolic_numbers.specs.Numbers.{setting_numbers, flat_of, block_over, block_from};
ghost use Rattle.symbolic_numbers.specs.inner.Numbers.{clipped_numbers, endpoints_fit};
ghost use Rattle.symbolic_numbers.specs.Calls.{refused_or5, put_number, put_numbers, put_spare, read_number, read_numbers, read_spare, write_number, write_block};

use block_answer::Answer;
use encoding::Stored;
use symbolic_block::SymbolicBlock;
use symbolic_calls::Writing;
use symbolic_reader::SymbolicReading;

// ---- a symbolic block's list

fn wide(x: u8) -> u16
    ensures { result ≡ x }
{
    x as u16
}

// All fields before the endpoint numbers.
fn settings_of(s: SymbolicBlock) -> [u16; 21]
    ensures { result ≡ setting_numbers s }
{
    let c = s.colours;
    let e = s.extents;
    let m = s.modes;
    [
        s.mark as u16,
        c[0],
        c[1],
        c[2],
        c[3],
        e[0],
        e[1],
        e[2],
        e[3],
        s.width as u16,
        s.height as u16,
        s.range as u16,
        s.planes as u16,
        s.component as u16,
        s.partitions as u16,
        s.index,
        s.selector as u16,
        wide(m[0]),
        wide(m[1]),
        wide(m[2]),
        wide(m[3]),
    ]
}

// The settings, the endpoint numbers and the weights, each list in a loop of its own, and the added fields.
fn put(s: SymbolicBlock, numbers: &mut [u16])
    requires { length numbers.old ≡ 107 }
    ensures { numbers.new ≡ flat_of s }
{
    let settings = settings_of(s);
    let endpoints = s.endpoints;
    let weights = s.weights;
    let e = s.extents;
    let hdr = s.hdr;
    let depth = s.depth;
    for i in 0..21 {
        numbers[i] = settings[i];
    }
    for j in 0..18 {
        let v = endpoints[j];
        numbers[21 + j] = wide(v.0);
    }
    for k in 0..64 {
        let w = weights[k];
        numbers[39 + k] = wide(w.0);
    }
    numbers[103] = wide(hdr);
    numbers[104] = wide(depth);
    numbers[105] = e[4];
    numbers[106] = e[5];
}

fn refused_or_5(a: Answer) -> u8
    ensures { result ≡ refused_or5 a }
{
    match a {
        Answer::Refused(n) => n,
        Answer::Faulty(_) => 5,
        Answer::Done => 5,
    }
}

// What was read, in two lists: the fault's number or the refusal's with zeros in `numbers` and `spare`, 5 with both as they were, or 0.
pub fn put_reading(reading: SymbolicReading, numbers: &mut [u16], spare: &mut [u16]) -> u8
    ensures value { result ≡ put_number reading (length numbers.old) (length spare.old) }
    ensures numbers_after { numbers.new ≡ put_numbers reading numbers.old (length spare.old) }
    ensures spare_after { spare.new ≡ put_spare reading (length numbers.old) spare.old }
{
    let answer = reading.answer;
    if numbers.len() != 107 {
        return refused_or_5(answer);
    }
    if spare.len() != 2 {
        return refused_or_5(answer);
    }
    put(reading.block, numbers);
    spare_bits::put_spare(reading.spare, spare);
    block_answer::number_told(answer)
}

// A block's symbolic block and its spare bits.
pub fn read_numbers(footprint: u8, block: &[u8], numbers: &mut [u16], spare: &mut [u16]) -> u8
    ensures value { result ≡ read_number footprint block.now (length numbers.old) (length spare.old) }
    ensures numbers_after { numbers.new ≡ read_numbers footprint block.now numbers.old (length spare.old) }
    ensures spare_after { spare.new ≡ read_spare footprint block.now (length numbers.old) spare.old }
{
    let reading = symbolic_reader::read_symbolic(footprint, block);
    put_reading(reading, numbers, spare)
}

// ---- a list's symbolic block, with 255 for each number above it where the struct has a byte

fn clipped(x: u16) -> u8
    ensures { result ≡ min x 255 }
{
    if x < 256 { x as u8 } else { 255 }
}

fn clipped_numbers(numbers: &[u16]) -> [u8; 107]
    requires { length numbers.now ≡ 107 }
    ensures { result ≡ clipped_numbers numbers.now }
{
    let mut out = [0u8; 107];
    for i in 0..107 {
        out[i] = clipped(numbers[i]);
    }
    out
}

// N stored numbers of a list, from one place on.
fn stored_from<const N: usize>(bytes: &[u8; 107], from: usize) -> [Stored; N]
    requires { from + N ≤ 107 }
    ensures { result ≡ tab (λ i. stored (get_or bytes.now (from + i) 0)) N }
{
    let mut out = [Stored(0); N];
    for i in 0..N {
        out[i] = Stored(bytes[from + i]);
    }
    out
}

fn block_from(numbers: &[u16]) -> SymbolicBlock
    requires { length numbers.now ≡ 107 }
    ensures { result ≡ block_over numbers.now (clipped_numbers numbers.now) }
{
    let bytes = clipped_numbers(numbers);
    let endpoints = stored_from(&bytes, 21);
    let weights = stored_from(&bytes, 39);
    SymbolicBlock {
        mark: bytes[0],
        hdr: bytes[103],
        colours: [numbers[1], numbers[2], numbers[3], numbers[4]],
        extents: [
            numbers[5],
            numbers[6],
            numbers[7],
            numbers[8],
            numbers[105],
            numbers[106],
        ],
        width: bytes[9],
        height: bytes[10],
        depth: bytes[104],
        range: bytes[11],
        planes: bytes[12],
        component: bytes[13],
        partitions: bytes[14],
        index: numbers[15],
        selector: bytes[16],
        modes: [bytes[17], bytes[18], bytes[19], bytes[20]],
        endpoints,
        weights,
    }
}

// Whether a number is not above 255, and those before it were not.
fn fits(x: u16, before: bool) -> bool
    ensures { result ≡ both (leb x 255) before }
{
    if x < 256 { before } else { false }
}

// Whether no endpoint number is above 255.
fn endpoints_fit(numbers: &[u16]) -> bool
    requires { length numbers.now ≡ 107 }
    ensures { result ≡ endpoints_fit numbers.now }
{
    let mut ok = true;
    for i in 0..18 {
        ok = fits(numbers[21 + i], ok);
    }
    ok
}

// 34 beside what is told: it comes before 35 and after all others.
fn or_34(n: u8) -> u8
    ensures { result ≡ or34 n }
{
    if n == 0 {
        return 34;
    }
    if n == 35 { 34 } else { n }
}

// The block of a list. Every limit of a byte field is below 255, but that of an endpoint number may be 255: so 255 in place of a
// number above it is refused for the same reason, except where it would be an endpoint number within its range.
fn writing_of(footprint: u8, numbers: &[u16]) -> Writing
    requires { length numbers.now ≡ 107 }
    ensures { result ≡ writing_of footprint (block_from numbers.now) }
{
    let written = symbolic_calls::write_symbolic(footprint, block_from(numbers));
    if endpoints_fit(numbers) {
        return written;
    }
    let answer = written.answer;
    Writing {
        answer: Answer::Refused(or_34(block_answer::number_told(answer))),
        bytes: [0u8; 16],
    }
}

// 1 for a footprint that there is not, else n.
fn after_1(footprint: u8, n: u8) -> u8
    ensures { result ≡ pick (unknown_footprint footprint) 1 n }
{
    if 23 < footprint { 1 } else { n }
}

// The block of a list: 0, or the refusal with zeros in `block`; where `block` is not of 16 bytes it stays as it was, 1 or 4 being told.
pub fn write_numbers(footprint: u8, numbers: &[u16], block: &mut [u8]) -> u8
    ensures value { result ≡ write_number footprint numbers.now (length block.old) }
    ensures block_after { block.new ≡ write_block footprint numbers.now block.old }
{
    if block.len() != 16 {
        return after_1(footprint, 4);
    }
    if numbers.len() != 107 {
        block.copy_from_slice(&[0u8; 16]);
        return after_1(footprint, 5);
    }
    let writing = writing_of(footprint, numbers);
    let answer = writing.answer;
    let from = writing.bytes;
    block.copy_from_slice(&from);
    block_answer::number_told(answer)
}
