// Runs of the image calls: the sides and footprints of the samples, each refusal, images with faulty blocks and with HDR ones. For each a line
// "refused N", or "faulty COUNT first INDEX fault N" and the first texel.
#![tactic(auto)]

use image_layout::Tally;
use reason::Refusal;
use std::io;
use std::io::Write;

fn word<W: Write>(output: &mut W, name: &[u8], n: u64) -> io::Result<()> {
    output.write_all(name)?;
    program_io::print_decimal(output, n)
}

fn byte<W: Write>(output: &mut W, n: u8) -> io::Result<()> {
    word(output, b" ", n as u64)
}

fn number<W: Write>(output: &mut W, n: u16) -> io::Result<()> {
    word(output, b" ", n as u64)
}

fn end_line<W: Write>(output: &mut W) -> io::Result<()> {
    output.write_all(b"\n")
}

fn tally<W: Write>(output: &mut W, t: Tally) -> io::Result<()> {
    word(output, b"faulty ", t.count)?;
    word(output, b" first ", t.first)?;
    word(output, b" fault ", t.fault as u64)
}

fn told<W: Write>(output: &mut W, a: Result<Tally, Refusal>) -> io::Result<()> {
    match a {
        Err(refusal) => word(output, b"refused ", u8::from(refusal) as u64),
        Ok(t) => tally(output, t),
    }
}

// Kind 1: what the call tells, and the first texel of the buffer after it.
fn srgb8<W: Write>(
    output: &mut W,
    footprint: u8,
    width: u32,
    height: u32,
    blocks: &[u8],
    out: &mut [u8],
) -> io::Result<()> {
    let a = image::decode_image_srgb8(footprint, width, height, blocks, out);
    told(output, a)?;
    if 4 <= out.len() {
        output.write_all(b" texel")?;
        byte(output, out[0])?;
        byte(output, out[1])?;
        byte(output, out[2])?;
        byte(output, out[3])?;
    }
    end_line(output)
}

// The first texel of a buffer.
fn texel<W: Write>(output: &mut W, out: &[u16]) -> io::Result<()> {
    if 4 <= out.len() {
        output.write_all(b" texel")?;
        number(output, out[0])?;
        number(output, out[1])?;
        number(output, out[2])?;
        number(output, out[3])?;
    }
    end_line(output)
}

// Kind 0, the same.
fn unorm16<W: Write>(
    output: &mut W,
    footprint: u8,
    width: u32,
    height: u32,
    blocks: &[u8],
    out: &mut [u16],
) -> io::Result<()> {
    let a = image::decode_image_unorm16(footprint, width, height, blocks, out);
    told(output, a)?;
    texel(output, out)
}

// Kind 2, the same.
fn float16<W: Write>(
    output: &mut W,
    footprint: u8,
    width: u32,
    height: u32,
    blocks: &[u8],
    out: &mut [u16],
) -> io::Result<()> {
    let a = image::decode_image_float16(footprint, width, height, blocks, out);
    told(output, a)?;
    texel(output, out)
}

// Sides 16,384, 0 and 16,385, with blocks that are all zero.
fn sides<W: Write>(output: &mut W) -> io::Result<()> {
    let blocks = [0u8; 65536];
    let mut out = [2u8; 65536];
    srgb8(output, 0, 16384, 1, &blocks, &mut out)?;
    srgb8(output, 0, 1, 16384, &blocks, &mut out)?;
    let mut other = [2u8; 8];
    srgb8(output, 0, 0, 1, &blocks, &mut other)?;
    srgb8(output, 0, 1, 0, &blocks, &mut other)?;
    srgb8(output, 0, 16385, 1, &blocks, &mut other)?;
    srgb8(output, 0, 1, 16385, &blocks, &mut other)
}

// Footprints 13 and 14; an image one texel wide in its last block; too few and too many bytes and numbers.
fn shapes<W: Write>(output: &mut W) -> io::Result<()> {
    // a void extent of the colours 4660, 22136, 39612, 57072, the block of 01's program, and a block of zeros
    let blocks = [
        0xFC, 0xFD, 0xFF, 0xFF, 0xFF, 0xFF, 0xFF, 0xFF, 0x34, 0x12, 0x78, 0x56, 0xBC, 0x9A, 0xF0,
        0xDE, 0x42, 0x00, 0x00, 0xFE, 0x01, 0, 0, 0, 0, 0, 0, 0, 0, 0, 0, 0x80, 0, 0, 0, 0, 0, 0,
        0, 0, 0, 0, 0, 0, 0, 0, 0, 0,
    ];
    let mut whole = [2u16; 576];
    unorm16(output, 13, 12, 12, &blocks[..16], &mut whole)?;
    unorm16(output, 14, 12, 12, &blocks[..16], &mut whole)?;
    let mut row = [2u16; 36];
    unorm16(output, 0, 9, 1, &blocks, &mut row)?;
    unorm16(output, 0, 9, 1, &blocks[..47], &mut row)?;
    let mut short = [2u16; 35];
    unorm16(output, 0, 9, 1, &blocks, &mut short)?;
    unorm16(output, 14, 0, 1, &blocks[..47], &mut row)?;
    unorm16(output, 0, 0, 1, &blocks[..47], &mut row)
}

// An HDR void extent of 1.0, infinity, a signalling NaN and -2.0, the block of 01's program with HDR endpoint mode 2, and a block of zeros: 13,
// 20 and 11 in kind 0, 11 alone in kind 2.
fn lamps<W: Write>(output: &mut W) -> io::Result<()> {
    let blocks = [
        0xFC, 0xFF, 0xFF, 0xFF, 0xFF, 0xFF, 0xFF, 0xFF, 0x00, 0x3C, 0x00, 0x7C, 0x01, 0x7D, 0x00,
        0xC0, 0x42, 0x40, 0x00, 0xFE, 0x01, 0, 0, 0, 0, 0, 0, 0, 0, 0, 0, 0x80, 0, 0, 0, 0, 0, 0,
        0, 0, 0, 0, 0, 0, 0, 0, 0, 0,
    ];
    let mut row = [2u16; 36];
    unorm16(output, 0, 9, 1, &blocks, &mut row)?;
    float16(output, 0, 9, 1, &blocks, &mut row)?;
    let mut texel = [2u16; 4];
    unorm16(output, 0, 1, 1, &blocks[16..32], &mut texel)?;
    float16(output, 0, 1, 1, &blocks[16..32], &mut texel)?;
    float16(output, 0, 1, 1, &blocks[32..48], &mut texel)
}

// Kind 2's refusals.
fn no_lamps<W: Write>(output: &mut W) -> io::Result<()> {
    let blocks = [0u8; 48];
    let mut row = [2u16; 36];
    float16(output, 14, 0, 1, &blocks[..47], &mut row)?;
    float16(output, 0, 0, 1, &blocks[..47], &mut row)?;
    float16(output, 0, 9, 1, &blocks[..47], &mut row)?;
    let mut short = [2u16; 35];
    float16(output, 0, 9, 1, &blocks, &mut short)
}

fn main(rt: HostRuntime) -> io::Result<()> {
    let output = &mut rt.stdout();
    sides(output)?;
    shapes(output)?;
    lamps(output)?;
    no_lamps(output)
}
