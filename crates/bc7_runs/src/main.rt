// Runs of the BC7 calls: each block of the input, sixteen bytes, is shown, read as a sheet and written again; then pictures, and sheets that are refused. The
// texels of the stored output are Pillow's, the sheets those of the second reader.
#![tactic(auto)]

ghost use Rattle.std.specs.Prelude.{◌<◌};

use image_layout::Tally;
use std::io;
use std::io::{Read, Write};

fn word<W: Write>(output: &mut W, name: &[u8], n: u8) -> io::Result<()> {
    output.write_all(name)?;
    program_io::print_decimal(output, n as u64)
}

fn end_line<W: Write>(output: &mut W) -> io::Result<()> {
    output.write_all(b"\n")
}

// Each number after a space, and the end of the line.
fn list<W: Write>(output: &mut W, numbers: &[u8]) -> io::Result<()> {
    for n in numbers {
        word(output, b" ", *n)?;
    }
    end_line(output)
}

fn write<W: Write>(output: &mut W, numbers: &[u8]) -> io::Result<()> {
    let mut block = [7u8; 16];
    word(
        output,
        b"written ",
        bc7_numbers::write_numbers(numbers, &mut block),
    )?;
    list(output, &block)
}

fn show<W: Write>(output: &mut W, block: &[u8]) -> io::Result<()> {
    let mut texels = [7u8; 64];
    let answer = bc7_calls::decode_bc7(block, &mut texels);
    word(output, b"shown ", block_answer::number_told(answer))?;
    list(output, &texels)?;
    let mut numbers = [7u8; 60];
    word(
        output,
        b"read ",
        bc7_numbers::read_numbers(block, &mut numbers),
    )?;
    list(output, &numbers)?;
    write(output, &numbers)
}

fn tally<W: Write>(output: &mut W, t: Tally) -> io::Result<()> {
    output.write_all(b"faulty ")?;
    program_io::print_decimal(output, t.count)?;
    output.write_all(b" first ")?;
    program_io::print_decimal(output, t.first)?;
    word(output, b" fault ", t.fault)
}

// A picture into 280 bytes.
fn picture<W: Write>(output: &mut W, width: u32, height: u32, blocks: &[u8]) -> io::Result<()> {
    let mut texels = [7u8; 280];
    let answer = bc7_image::decode_image_bc7(width, height, blocks, &mut texels);
    match answer {
        Err(refusal) => word(output, b"refused ", refusal.into())?,
        Ok(t) => tally(output, t)?,
    }
    list(output, &texels)
}

// A sheet with one number.
fn single<W: Write>(output: &mut W, k: usize, n: u8) -> io::Result<()>
    requires { k < 60 }
{
    let mut numbers = [0u8; 60];
    numbers[k] = n;
    write(output, &numbers)
}

fn main(rt: HostRuntime) -> io::Result<()> {
    let output = &mut rt.stdout();
    let mut input = [0u8; 400];
    let n = program_io::read_full(&mut rt.stdin(), &mut input)?;
    for k in 0..25 {
        if 16 * k + 16 <= n {
            show(output, &input[16 * k..16 * k + 16])?;
        }
    }
    // the last six blocks as a picture of 10 by 7 texels; then a side of 0, a byte too few, and a buffer for other sides
    picture(output, 10, 7, &input[304..400])?;
    picture(output, 0, 7, &input[304..400])?;
    picture(output, 10, 7, &input[304..399])?;
    picture(output, 9, 7, &input[304..400])?;
    // fifteen bytes, a mode of 8, fields of mode 0 that are too wide or unused, and the largest that fit
    show(output, &input[0..15])?;
    single(output, 0, 8)?;
    single(output, 0, 255)?;
    single(output, 1, 16)?;
    single(output, 1, 15)?;
    single(output, 2, 1)?;
    single(output, 3, 1)?;
    single(output, 4, 16)?;
    single(output, 21, 15)?;
    single(output, 27, 2)?;
    single(output, 28, 4)?;
    single(output, 28, 3)?;
    single(output, 31, 4)?;
    single(output, 32, 7)?;
    single(output, 43, 8)?;
    single(output, 44, 1)?;
    single(output, 59, 1)
}
