// Texels of blocks as Arm's astcenc shows them: 17 bytes for each block, its footprint and its sixteen bytes. For four texels of each a line
// "k R G B A r g b a h h h h", for nine texels of a volume's block "x y z" in place of k: the top eleven significant bits of kind 0's numbers,
// which is what a half float keeps of them, kind 1's bytes, and kind 2's half floats.
#![tactic(auto)]

ghost use Rattle.std.specs.Prelude.{◌≤◌};

use std::io;
use std::io::{Read, Write};

fn number<W: Write>(output: &mut W, n: u16) -> io::Result<()> {
    output.write_all(b" ")?;
    program_io::print_decimal(output, n as u64)
}

fn byte<W: Write>(output: &mut W, n: u8) -> io::Result<()> {
    number(output, n as u16)
}

// The number without the bits below its eleven highest; 65535 stays.
fn kept(n: u16) -> u16 {
    if n == 65535 {
        return n;
    }
    if n < 2048 {
        return n;
    }
    if n < 4096 {
        return n / 2 * 2;
    }
    if n < 8192 {
        return n / 4 * 4;
    }
    if n < 16384 {
        return n / 8 * 8;
    }
    if n < 32768 {
        return n / 16 * 16;
    }
    n / 32 * 32
}

// The numbers from place i on, in each kind.
fn channels<W: Write>(
    output: &mut W,
    i: usize,
    numbers: &[u16; 864],
    bytes: &[u8; 864],
    halves: &[u16; 864],
) -> io::Result<()> {
    if 860 < i {
        return Ok(());
    }
    number(output, kept(numbers[i]))?;
    number(output, kept(numbers[i + 1]))?;
    number(output, kept(numbers[i + 2]))?;
    number(output, kept(numbers[i + 3]))?;
    byte(output, bytes[i])?;
    byte(output, bytes[i + 1])?;
    byte(output, bytes[i + 2])?;
    byte(output, bytes[i + 3])?;
    number(output, halves[i])?;
    number(output, halves[i + 1])?;
    number(output, halves[i + 2])?;
    number(output, halves[i + 3])?;
    output.write_all(b"\n")
}

// Texel k of a flat block, rows first.
fn texel<W: Write>(
    output: &mut W,
    k: usize,
    numbers: &[u16; 864],
    bytes: &[u8; 864],
    halves: &[u16; 864],
) -> io::Result<()> {
    if 144 <= k {
        return Ok(());
    }
    program_io::print_decimal(output, k as u64)?;
    channels(output, 4 * k, numbers, bytes, halves)
}

// The first texel, the last one of its row, one between, and the last.
fn texels<W: Write>(
    output: &mut W,
    fp: u8,
    numbers: &[u16; 864],
    bytes: &[u8; 864],
    halves: &[u16; 864],
) -> io::Result<()> {
    let width = footprint::width(fp) as usize;
    let count = footprint::texels(fp) as usize;
    if width == 0 {
        return Ok(());
    }
    if count == 0 {
        return Ok(());
    }
    texel(output, 0, numbers, bytes, halves)?;
    texel(output, width - 1, numbers, bytes, halves)?;
    texel(output, 2 * count / 5, numbers, bytes, halves)?;
    texel(output, count - 1, numbers, bytes, halves)
}

// Texel x, y, z of a volume's block, layers first.
fn place<W: Write>(
    output: &mut W,
    fp: u8,
    x: u8,
    y: u8,
    z: u8,
    numbers: &[u16; 864],
    bytes: &[u8; 864],
    halves: &[u16; 864],
) -> io::Result<()> {
    let width = footprint::width(fp) as usize;
    let height = footprint::height(fp) as usize;
    let row = (z as usize) * height + (y as usize);
    let k = row * width + (x as usize);
    if 216 <= k {
        return Ok(());
    }
    program_io::print_decimal(output, x as u64)?;
    byte(output, y)?;
    byte(output, z)?;
    channels(output, 4 * k, numbers, bytes, halves)
}

// The first texel, the turns of 0, 1 and 2, the one at 1, 1, 1, and the last.
fn places<W: Write>(
    output: &mut W,
    fp: u8,
    numbers: &[u16; 864],
    bytes: &[u8; 864],
    halves: &[u16; 864],
) -> io::Result<()> {
    place(output, fp, 0, 0, 0, numbers, bytes, halves)?;
    place(output, fp, 0, 1, 2, numbers, bytes, halves)?;
    place(output, fp, 0, 2, 1, numbers, bytes, halves)?;
    place(output, fp, 1, 0, 2, numbers, bytes, halves)?;
    place(output, fp, 1, 2, 0, numbers, bytes, halves)?;
    place(output, fp, 2, 0, 1, numbers, bytes, halves)?;
    place(output, fp, 2, 1, 0, numbers, bytes, halves)?;
    place(output, fp, 1, 1, 1, numbers, bytes, halves)?;
    let width = footprint::width(fp);
    let height = footprint::height(fp);
    let depth = footprint::depth(fp);
    if 0 < width && 0 < height && 0 < depth {
        place(
            output,
            fp,
            width - 1,
            height - 1,
            depth - 1,
            numbers,
            bytes,
            halves,
        )?;
    }
    Ok(())
}

// How many numbers the texels of a block have.
#[tactic(auto, using(footprint::proofs::Laws::texels_le))]
fn numbers_of(fp: u8) -> usize
    ensures { result ≤ 864 }
{
    4 * (footprint::texels(fp) as usize)
}

fn record<W: Write>(output: &mut W, fp: u8, block: &[u8]) -> io::Result<()> {
    let mut numbers = [0u16; 864];
    let mut bytes = [0u8; 864];
    let mut halves = [0u16; 864];
    let n = numbers_of(fp);
    let a = one_block::decode_unorm16(fp, block, &mut numbers[..n]);
    let b = one_block::decode_srgb8(fp, block, &mut bytes[..n]);
    let c = one_block::decode_float16(fp, block, &mut halves[..n]);
    output.write_all(b"footprint")?;
    byte(output, fp)?;
    output.write_all(b" fault")?;
    byte(output, block_answer::number_told(a))?;
    byte(output, block_answer::number_told(b))?;
    byte(output, block_answer::number_told(c))?;
    output.write_all(b"\n")?;
    if footprint::is_volume(fp) {
        places(output, fp, &numbers, &bytes, &halves)
    } else {
        texels(output, fp, &numbers, &bytes, &halves)
    }
}

// The record at a place of the input.
fn record_at<W: Write>(output: &mut W, input: &[u8], at: usize) -> io::Result<()> {
    if 4079 < at {
        return Ok(());
    }
    if input.len() < at + 17 {
        return Ok(());
    }
    record(output, input[at], &input[at + 1..at + 17])
}

fn main(rt: HostRuntime) -> io::Result<()> {
    let output = &mut rt.stdout();
    let mut input = [0u8; 4096];
    let n = program_io::read_full(&mut rt.stdin(), &mut input)?;
    for i in 0..240usize {
        let at = 17 * i;
        if at + 17 <= n {
            record_at(output, &input, at)?;
        }
    }
    Ok(())
}
