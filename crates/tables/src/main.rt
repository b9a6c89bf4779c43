// Writes the tables of 000 as the proved functions compute them: the digits of the trit and quint codes, the unquantised levels of
// the endpoint and weight ranges, the block modes, and partition patterns, flat and in layers. What it must write was made from 000 by other means.
#![tactic(auto)]

ghost use Rattle.std.specs.Prelude.{◌≤◌};

use bits::PhysicalBlock;
use block_mode::{BlockMode, WeightGrid};
use encoding::{Level, Stored};
use partition::Seeds;
use std::io;
use std::io::Write;

fn number<W: Write>(output: &mut W, n: u64) -> io::Result<()> {
    program_io::print_decimal(output, n)
}

fn space<W: Write>(output: &mut W) -> io::Result<()> {
    output.write_all(b" ")
}

fn end_line<W: Write>(output: &mut W) -> io::Result<()> {
    output.write_all(b"\n")
}

// A number after a space.
fn next<W: Write>(output: &mut W, n: u8) -> io::Result<()> {
    space(output)?;
    number(output, n as u64)
}

// The first n of the numbers.
fn stored_numbers<W: Write>(output: &mut W, numbers: [Stored; 64], n: usize) -> io::Result<()>
    requires { n ≤ 64 }
{
    for i in 0..n {
        let s = numbers[i];
        next(output, s.0)?;
    }
    Ok(())
}

// The digits of a code of n digits: the numbers of a range with no bits, in a block that holds the code alone.
fn digits<W: Write>(output: &mut W, code: u64, range: u8, n: u8) -> io::Result<()>
    requires { n ≤ 64 }
{
    number(output, code)?;
    let block = PhysicalBlock { lo: code, hi: 0 };
    let numbers = integer_sequence::read_sequence(block, 0, range, n);
    stored_numbers(output, numbers, n as usize)?;
    end_line(output)
}

// "NAME CODE d0 d1 ..", for each of so many codes of n digits
fn codes<W: Write>(output: &mut W, name: &[u8], count: u64, range: u8, n: u8) -> io::Result<()>
    requires { n ≤ 64 }
{
    for code in 0..count {
        output.write_all(name)?;
        digits(output, code, range, n)?;
    }
    Ok(())
}

// The level of a stored number of a weight or an endpoint range.
fn level_of(weight: bool, range: u8, s: Stored) -> Level {
    if weight {
        quantization::unquantize_weight(range, s)
    } else {
        quantization::unquantize_endpoint(range, s)
    }
}

// "NAME MOST level0 level1 .."
fn levels<W: Write>(output: &mut W, name: &[u8], range: u8, weight: bool) -> io::Result<()> {
    output.write_all(name)?;
    let most = quantization::most_at(range);
    number(output, most as u64)?;
    for v in 0..=most {
        let level = level_of(weight, range, Stored(v));
        next(output, level.0)?;
    }
    end_line(output)
}

// The ranges from `from` to `to`.
fn ranges<W: Write>(output: &mut W, name: &[u8], from: u8, to: u8, weight: bool) -> io::Result<()> {
    for range in from..=to {
        levels(output, name, range, weight)?;
    }
    Ok(())
}

fn grid<W: Write>(output: &mut W, g: WeightGrid) -> io::Result<()> {
    next(output, g.width)?;
    next(output, g.height)?;
    next(output, g.range)?;
    next(output, g.planes)
}

fn mode<W: Write>(output: &mut W, bits: u16) -> io::Result<()> {
    match block_mode::block_mode(bits) {
        BlockMode::VoidExtent => output.write_all(b" void"),
        BlockMode::Reserved => output.write_all(b" reserved"),
        BlockMode::Grid(g) => grid(output, g),
    }
}

// "mode BITS WIDTH HEIGHT RANGE PLANES", "mode BITS void" or "mode BITS reserved"
fn modes<W: Write>(output: &mut W) -> io::Result<()> {
    for bits in 0..2048u16 {
        output.write_all(b"mode ")?;
        number(output, bits as u64)?;
        mode(output, bits)?;
        end_line(output)?;
    }
    Ok(())
}

fn row<W: Write>(output: &mut W, seeds: Seeds, width: u8, y: u8) -> io::Result<()> {
    for x in 0..width {
        number(output, partition::partition_at(seeds, x, y) as u64)?;
    }
    Ok(())
}

fn pattern<W: Write>(output: &mut W, seeds: Seeds, width: u8, height: u8) -> io::Result<()> {
    for y in 0..height {
        row(output, seeds, width, y)?;
    }
    Ok(())
}

// The partition indices that are shown.
fn shown_index(k: u8) -> u16 {
    match k {
        0 => 0,
        1 => 1,
        2 => 2,
        3 => 511,
        4 => 512,
        _ => 1023,
    }
}

fn partition_line<W: Write>(
    output: &mut W,
    footprint: u8,
    count: u8,
    index: u16,
) -> io::Result<()> {
    let width = footprint::width(footprint);
    let height = footprint::height(footprint);
    let small = footprint::is_small(footprint);
    output.write_all(b"partition")?;
    next(output, width)?;
    next(output, height)?;
    next(output, count)?;
    space(output)?;
    number(output, index as u64)?;
    space(output)?;
    pattern(
        output,
        partition::partition_seeds(index, count, small),
        width,
        height,
    )?;
    end_line(output)
}

// "partition WIDTH HEIGHT COUNT INDEX PATTERN", for each footprint, two to four partitions and six indices
fn partitions<W: Write>(output: &mut W) -> io::Result<()> {
    for k in 0..252u8 {
        partition_line(output, k / 18, 2 + k / 6 % 3, shown_index(k % 6))?;
    }
    Ok(())
}

// The sides of the ten volume footprints, width, height and depth as digits.
fn volume_sides(k: u8) -> u16 {
    match k {
        0 => 333,
        1 => 433,
        2 => 443,
        3 => 444,
        4 => 544,
        5 => 554,
        6 => 555,
        7 => 655,
        8 => 665,
        _ => 666,
    }
}

// The pattern of each layer, one behind the other.
fn layers<W: Write>(
    output: &mut W,
    index: u16,
    count: u8,
    small: bool,
    width: u8,
    height: u8,
    depth: u8,
) -> io::Result<()> {
    for z in 0..depth {
        pattern(
            output,
            partition::layer_seeds(index, count, small, z),
            width,
            height,
        )?;
    }
    Ok(())
}

fn layer_line<W: Write>(output: &mut W, sides: u16, count: u8, index: u16) -> io::Result<()> {
    let width = (sides / 100 % 10) as u8;
    let height = (sides / 10 % 10) as u8;
    let depth = (sides % 10) as u8;
    output.write_all(b"layers")?;
    next(output, width)?;
    next(output, height)?;
    next(output, depth)?;
    next(output, count)?;
    space(output)?;
    number(output, index as u64)?;
    space(output)?;
    layers(output, index, count, sides == 333, width, height, depth)?;
    end_line(output)
}

// "layers WIDTH HEIGHT DEPTH COUNT INDEX PATTERN", for each volume footprint, two to four partitions and six indices
fn volumes<W: Write>(output: &mut W) -> io::Result<()> {
    for k in 0..180u8 {
        layer_line(
            output,
            volume_sides(k / 18),
            2 + k / 6 % 3,
            shown_index(k % 6),
        )?;
    }
    Ok(())
}

fn main(rt: HostRuntime) -> io::Result<()> {
    let output = &mut rt.stdout();
    codes(output, b"trit ", 256, 1, 5)?;
    codes(output, b"quint ", 128, 3, 3)?;
    ranges(output, b"endpoint ", 4, 20, false)?;
    ranges(output, b"weight ", 0, 11, true)?;
    modes(output)?;
    partitions(output)?;
    volumes(output)
}
