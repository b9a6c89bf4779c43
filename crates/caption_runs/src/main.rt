// Runs of the best grey captions. The input is 24 records of two ends and sixteen wanted greys, then two ends and the 30 wanted greys of an image of 6
// by 5. For each record its block and the greys that the one-block call shows, for the image its blocks; then calls that are refused. The stored
// output is made of what Arm's astcenc shows.
#![tactic(auto)]

use std::io;
use std::io::{Read, Write};

fn number<W: Write>(output: &mut W, n: u8) -> io::Result<()> {
    output.write_all(b" ")?;
    program_io::print_decimal(output, n as u64)
}

fn end_line<W: Write>(output: &mut W) -> io::Result<()> {
    output.write_all(b"\n")
}

fn numbers<W: Write>(output: &mut W, list: &[u8]) -> io::Result<()> {
    for n in list {
        number(output, *n)?;
    }
    Ok(())
}

// The first of each four bytes.
fn reds<W: Write>(output: &mut W, texels: &[u8]) -> io::Result<()> {
    for (i, n) in texels.iter().enumerate() {
        if i % 4 == 0 {
            number(output, *n)?;
        }
    }
    Ok(())
}

fn show<W: Write>(output: &mut W, block: &[u8]) -> io::Result<()> {
    let mut texels = [7u8; 64];
    one_block::decode_srgb8(0, block, &mut texels);
    output.write_all(b"shows")?;
    reds(output, &texels)?;
    end_line(output)
}

// One record, of eighteen bytes.
fn caption<W: Write>(output: &mut W, e0: u8, e1: u8, wanted: &[u8]) -> io::Result<()> {
    let mut block = [7u8; 16];
    let _ = caption_image::caption_into(e0, e1, wanted, &mut block);
    output.write_all(b"block")?;
    numbers(output, &block)?;
    end_line(output)?;
    show(output, &block)
}

// Whether every byte is 7.
fn all_seven(list: &[u8]) -> bool {
    for n in list {
        if *n != 7 {
            return false;
        }
    }
    true
}

fn refused<W: Write>(
    output: &mut W,
    width: u32,
    height: u32,
    wanted: &[u8],
    blocks: &mut [u8],
) -> io::Result<()> {
    let answer = caption_image::caption_image(1, 2, width, height, wanted, blocks);
    output.write_all(b"refused")?;
    number(output, reason::refusal_told(answer))?;
    if all_seven(blocks) {
        output.write_all(b" kept")?;
    }
    end_line(output)
}

fn image<W: Write>(output: &mut W, e0: u8, e1: u8, wanted: &[u8]) -> io::Result<()> {
    let mut blocks = [7u8; 64];
    let answer = caption_image::caption_image(e0, e1, 6, 5, wanted, &mut blocks);
    output.write_all(b"image")?;
    number(output, reason::refusal_told(answer))?;
    numbers(output, &blocks)?;
    end_line(output)
}

// No side, a side above the limit, 3 before 4 and 5, a byte too few, 4 before 5, a grey too few.
fn refusals<W: Write>(output: &mut W) -> io::Result<()> {
    let greys = [9u8; 16];
    let few = [9u8; 15];
    let mut blocks = [7u8; 16];
    let mut short = [7u8; 15];
    refused(output, 0, 4, &greys, &mut blocks)?;
    refused(output, 4, 16385, &greys, &mut blocks)?;
    refused(output, 0, 4, &few, &mut short)?;
    refused(output, 4, 4, &greys, &mut short)?;
    refused(output, 4, 4, &few, &mut short)?;
    refused(output, 4, 4, &few, &mut blocks)
}

fn main(rt: HostRuntime) -> io::Result<()> {
    let output = &mut rt.stdout();
    let mut input = [0u8; 464];
    let n = program_io::read_full(&mut rt.stdin(), &mut input)?;
    if n != 464 {
        return Ok(());
    }
    for k in 0..24 {
        let at = 18 * k;
        caption(output, input[at], input[at + 1], &input[at + 2..at + 18])?;
    }
    image(output, input[432], input[433], &input[434..464])?;
    refusals(output)
}
