// Runs of the reader. Each record of standard input is a footprint and a block. For each a line "refused N" or "fault N", or the
// symbolic block's fields in 01's order, its HDR mark, the grid's depth and the last two extents, "spare", how many bits are spare and 1
// where any is set, then "block" and the sixteen bytes that are written for it, and whether they show the same texels in kind 2.
#![tactic(auto)]

ghost use Rattle.std.specs.Prelude.{◌≤◌};

use block_answer::Answer;
use encoding::Stored;
use spare_bits::Spare;
use std::io;
use std::io::{Read, Write};
use symbolic_block::SymbolicBlock;

fn next<W: Write>(output: &mut W, n: u16) -> io::Result<()> {
    output.write_all(b" ")?;
    program_io::print_decimal(output, n as u64)
}

fn byte<W: Write>(output: &mut W, n: u8) -> io::Result<()> {
    next(output, n as u16)
}

fn end_line<W: Write>(output: &mut W) -> io::Result<()> {
    output.write_all(b"\n")
}

fn told<W: Write>(output: &mut W, name: &[u8], n: u8) -> io::Result<()> {
    output.write_all(name)?;
    byte(output, n)?;
    end_line(output)
}

fn words<W: Write>(output: &mut W, xs: [u16; 4]) -> io::Result<()> {
    next(output, xs[0])?;
    next(output, xs[1])?;
    next(output, xs[2])?;
    next(output, xs[3])
}

fn modes<W: Write>(output: &mut W, xs: [u8; 4]) -> io::Result<()> {
    byte(output, xs[0])?;
    byte(output, xs[1])?;
    byte(output, xs[2])?;
    byte(output, xs[3])
}

fn endpoints<W: Write>(output: &mut W, xs: [Stored; 18]) -> io::Result<()> {
    for i in 0..18 {
        let x = xs[i];
        byte(output, x.0)?;
    }
    Ok(())
}

fn weights<W: Write>(output: &mut W, xs: [Stored; 64]) -> io::Result<()> {
    for i in 0..64 {
        let x = xs[i];
        byte(output, x.0)?;
    }
    Ok(())
}

fn fields<W: Write>(output: &mut W, s: SymbolicBlock) -> io::Result<()> {
    output.write_all(b"fields")?;
    byte(output, s.mark)?;
    let colours = s.colours;
    words(output, colours)?;
    let extents = s.extents;
    words(output, [extents[0], extents[1], extents[2], extents[3]])?;
    byte(output, s.width)?;
    byte(output, s.height)?;
    byte(output, s.range)?;
    byte(output, s.planes)?;
    byte(output, s.component)?;
    byte(output, s.partitions)?;
    next(output, s.index)?;
    byte(output, s.selector)?;
    let m = s.modes;
    modes(output, m)?;
    let e = s.endpoints;
    endpoints(output, e)?;
    let w = s.weights;
    weights(output, w)?;
    byte(output, s.hdr)?;
    byte(output, s.depth)?;
    next(output, extents[4])?;
    next(output, extents[5])
}

fn all<W: Write>(output: &mut W, bytes: [u8; 16]) -> io::Result<()> {
    output.write_all(b" block")?;
    for i in 0..16 {
        byte(output, bytes[i])?;
    }
    Ok(())
}

// How many numbers the texels of a block have.
#[tactic(auto, using(footprint::proofs::Laws::texels_le))]
fn numbers_of(fp: u8) -> usize
    ensures { result ≤ 864 }
{
    4 * (footprint::texels(fp) as usize)
}

fn shown(fp: u8, block: &[u8]) -> [u16; 864] {
    let mut numbers = [0u16; 864];
    let n = numbers_of(fp);
    one_block::decode_float16(fp, block, &mut numbers[..n]);
    numbers
}

fn equal(a: [u16; 864], b: [u16; 864]) -> bool {
    for i in 0..864 {
        if a[i] != b[i] {
            return false;
        }
    }
    true
}

fn compared<W: Write>(output: &mut W, fp: u8, block: &[u8], bytes: [u8; 16]) -> io::Result<()> {
    let before = shown(fp, block);
    let after = shown(fp, &bytes);
    if equal(before, after) {
        output.write_all(b" same texels")?;
    } else {
        output.write_all(b" other texels")?;
    }
    end_line(output)
}

fn unused<W: Write>(output: &mut W, spare: Spare) -> io::Result<()> {
    output.write_all(b" spare")?;
    byte(output, spare.count)?;
    byte(output, if spare.set { 1 } else { 0 })
}

fn rewritten<W: Write>(
    output: &mut W,
    fp: u8,
    block: &[u8],
    s: SymbolicBlock,
    spare: Spare,
) -> io::Result<()> {
    fields(output, s)?;
    unused(output, spare)?;
    let w = symbolic_calls::write_symbolic(fp, s);
    let bytes = w.bytes;
    all(output, bytes)?;
    compared(output, fp, block, bytes)
}

fn read<W: Write>(output: &mut W, fp: u8, block: &[u8]) -> io::Result<()> {
    let r = symbolic_reader::read_symbolic(fp, block);
    let a = r.answer;
    let s = r.block;
    let spare = r.spare;
    match a {
        Answer::Refused(n) => told(output, b"refused", n),
        Answer::Faulty(n) => told(output, b"fault", n),
        Answer::Done => rewritten(output, fp, block, s, spare),
    }
}

// One record, and whether there was one.
fn record<R: Read, W: Write>(input: &mut R, output: &mut W) -> io::Result<bool> {
    let mut r = [0u8; 17];
    let n = program_io::read_full(input, &mut r)?;
    if n != 17 {
        return Ok(false);
    }
    read(output, r[0], &r[1..17])?;
    Ok(true)
}

fn main(rt: HostRuntime) -> io::Result<()> {
    let input = &mut rt.stdin();
    let output = &mut rt.stdout();
    for _ in 0..u64::MAX {
        if !record(input, output)? {
            break;
        }
    }
    Ok(())
}
