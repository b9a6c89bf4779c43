// Runs of the writer. Each record of standard input is a footprint and a symbolic block: 01's fields in order, two bytes (the low one
// first) for a colour, an extent and the partition index, one byte for any other, then the HDR mark of 02, i, and of 02, h, the grid's depth
// and the last two extents. For each a line
// "refused N", or "block" and the sixteen bytes.
#![tactic(auto)]

ghost use Rattle.std.specs.Prelude.{◌<◌};

use block_answer::Answer;
use encoding::Stored;
use std::io;
use std::io::{Read, Write};
use symbolic_block::SymbolicBlock;

fn wide(x: u8) -> u16
    ensures { result < 256 }
{
    x as u16
}

fn word_at(r: &[u8; 119], i: usize) -> u16
    requires { i < 118 }
{
    wide(r[i + 1]) * 256 + wide(r[i])
}

fn endpoints_at(r: &[u8; 119]) -> [Stored; 18] {
    let mut out = [Stored(0); 18];
    for i in 0..18 {
        out[i] = Stored(r[31 + i]);
    }
    out
}

fn weights_at(r: &[u8; 119]) -> [Stored; 64] {
    let mut out = [Stored(0); 64];
    for i in 0..64 {
        out[i] = Stored(r[49 + i]);
    }
    out
}

fn block_at(r: &[u8; 119]) -> SymbolicBlock {
    let endpoints = endpoints_at(r);
    let weights = weights_at(r);
    let colours = [word_at(r, 2), word_at(r, 4), word_at(r, 6), word_at(r, 8)];
    let extents = [
        word_at(r, 10),
        word_at(r, 12),
        word_at(r, 14),
        word_at(r, 16),
        word_at(r, 115),
        word_at(r, 117),
    ];
    let modes = [r[27], r[28], r[29], r[30]];
    SymbolicBlock {
        mark: r[1],
        hdr: r[113],
        colours,
        extents,
        width: r[18],
        height: r[19],
        depth: r[114],
        range: r[20],
        planes: r[21],
        component: r[22],
        partitions: r[23],
        index: word_at(r, 24),
        selector: r[26],
        modes,
        endpoints,
        weights,
    }
}

fn next<W: Write>(output: &mut W, n: u8) -> io::Result<()> {
    output.write_all(b" ")?;
    program_io::print_decimal(output, n as u64)
}

fn end_line<W: Write>(output: &mut W) -> io::Result<()> {
    output.write_all(b"\n")
}

fn all<W: Write>(output: &mut W, bytes: [u8; 16]) -> io::Result<()> {
    output.write_all(b"block")?;
    for i in 0..16 {
        next(output, bytes[i])?;
    }
    end_line(output)
}

fn refused<W: Write>(output: &mut W, n: u8) -> io::Result<()> {
    output.write_all(b"refused")?;
    next(output, n)?;
    end_line(output)
}

fn write<W: Write>(output: &mut W, fp: u8, s: SymbolicBlock) -> io::Result<()> {
    let w = symbolic_calls::write_symbolic(fp, s);
    let bytes = w.bytes;
    let a = w.answer;
    match a {
        Answer::Refused(n) => refused(output, n),
        Answer::Faulty(n) => refused(output, n),
        Answer::Done => all(output, bytes),
    }
}

// One record, and whether there was one.
fn record<R: Read, W: Write>(input: &mut R, output: &mut W) -> io::Result<bool> {
    let mut r = [0u8; 119];
    let n = program_io::read_full(input, &mut r)?;
    if n != 119 {
        return Ok(false);
    }
    write(output, r[0], block_at(&r))?;
    Ok(true)
}

fn main(rt: HostRuntime) -> io::Result<()> {
    let input = &mut rt.stdin();
    let output = &mut rt.stdout();
    for _ in 0..u64::MAX {
        if !record(input, output)? {
            break;
        }
    }
    Ok(())
}
