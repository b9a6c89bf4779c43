// Runs of the reader of packed sequences. Each record of standard input is a quantisation range, how many numbers, the bit where they
// begin, and a block. For each a line "end N zero Z numbers ..": the position after the last bit, whether the missing digits are zero, and
// the numbers, at most 64.
#![tactic(auto)]

use bits::PhysicalBlock;
use encoding::Stored;
use std::io;
use std::io::{Read, Write};

fn next<W: Write>(output: &mut W, n: u32) -> io::Result<()> {
    output.write_all(b" ")?;
    program_io::print_decimal(output, n as u64)
}

fn numbers<W: Write>(output: &mut W, xs: [Stored; 64], n: u8) -> io::Result<()> {
    for i in 0..64 {
        if i < n as usize {
            let x = xs[i];
            next(output, x.0 as u32)?;
        }
    }
    Ok(())
}

fn told<W: Write>(
    output: &mut W,
    block: PhysicalBlock,
    from: u8,
    range: u8,
    n: u8,
) -> io::Result<()> {
    let s = sequence_end::read_sequence(block, from, range, n);
    output.write_all(b"end")?;
    next(output, s.end)?;
    output.write_all(b" zero")?;
    next(output, if s.zero { 1 } else { 0 })?;
    output.write_all(b" numbers")?;
    let xs = s.numbers;
    numbers(output, xs, n)?;
    output.write_all(b"\n")
}

// One record, and whether there was one.
fn record<R: Read, W: Write>(input: &mut R, output: &mut W) -> io::Result<bool> {
    let mut r = [0u8; 19];
    let n = program_io::read_full(input, &mut r)?;
    if n != 19 {
        return Ok(false);
    }
    told(output, bits::load(&r[3..19]), r[2], r[0], r[1])?;
    Ok(true)
}

fn main(rt: HostRuntime) -> io::Result<()> {
    let input = &mut rt.stdin();
    let output = &mut rt.stdout();
    for _ in 0..u64::MAX {
        if !record(input, output)? {
            break;
        }
    }
    Ok(())
}
