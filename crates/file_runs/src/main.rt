// Runs of the calls on .astc files. The input is records of 40 bytes: a length, and a file of so many bytes. Of each file the header is read,
// what is told is written again, and the picture of 3 by 2 texels is shown in each kind: the number told, the faults, in kind 1 the colours, in
// kind 2 all half floats. The headers, colours and half floats of the stored output are astcenc's, the numbers those of the second reader.
#![tactic(auto)]

ghost use Rattle.std.specs.Prelude.{◌≡◌, length};

use image_layout::Tally;
use reason::Refusal;
use std::io;
use std::io::{Read, Write};

fn word<W: Write>(output: &mut W, name: &[u8], n: u64) -> io::Result<()> {
    output.write_all(name)?;
    program_io::print_decimal(output, n)
}

fn byte<W: Write>(output: &mut W, n: u8) -> io::Result<()> {
    word(output, b" ", n as u64)
}

fn number<W: Write>(output: &mut W, n: u32) -> io::Result<()> {
    word(output, b" ", n as u64)
}

fn pattern<W: Write>(output: &mut W, n: u16) -> io::Result<()> {
    word(output, b" ", n as u64)
}

fn end_line<W: Write>(output: &mut W) -> io::Result<()> {
    output.write_all(b"\n")
}

// Each byte after a space, and the end of the line.
fn list<W: Write>(output: &mut W, bytes: &[u8]) -> io::Result<()> {
    for b in bytes {
        byte(output, *b)?;
    }
    end_line(output)
}

// The header that is made of three numbers.
fn write<W: Write>(output: &mut W, footprint: u8, width: u32, height: u32) -> io::Result<()> {
    let mut header = [7u8; 16];
    let n = astc_numbers::write_numbers(footprint, width, height, &mut header);
    word(output, b"written ", n as u64)?;
    list(output, &header)
}

fn read<W: Write>(output: &mut W, file: &[u8]) -> io::Result<()> {
    let mut header = [7u32; 3];
    let n = astc_numbers::read_numbers(file, &mut header);
    word(output, b"header ", n as u64)?;
    number(output, header[0])?;
    number(output, header[1])?;
    number(output, header[2])?;
    end_line(output)?;
    write(output, (header[0] % 256) as u8, header[1], header[2])
}

fn tally<W: Write>(output: &mut W, t: Tally) -> io::Result<()> {
    word(output, b"faulty ", t.count)?;
    word(output, b" first ", t.first)?;
    word(output, b" fault ", t.fault as u64)
}

fn told<W: Write>(output: &mut W, a: Result<Tally, Refusal>) -> io::Result<()> {
    match a {
        Err(refusal) => word(output, b"refused ", u8::from(refusal) as u64),
        Ok(t) => tally(output, t),
    }
}

// The colours of 3 by 2 texels.
fn colours<W: Write>(output: &mut W, texels: &[u8; 24]) -> io::Result<()> {
    for i in 0..6 {
        byte(output, texels[4 * i])?;
        byte(output, texels[4 * i + 1])?;
        byte(output, texels[4 * i + 2])?;
    }
    end_line(output)
}

// The half floats of 3 by 2 texels.
fn halves<W: Write>(output: &mut W, texels: &[u16; 24]) -> io::Result<()> {
    for i in 0..24 {
        pattern(output, texels[i])?;
    }
    end_line(output)
}

fn show<W: Write>(output: &mut W, file: &[u8]) -> io::Result<()> {
    let mut numbers = [7u16; 24];
    told(output, astc_file::decode_file_unorm16(file, &mut numbers))?;
    end_line(output)?;
    let mut texels = [7u8; 24];
    told(output, astc_file::decode_file_srgb8(file, &mut texels))?;
    colours(output, &texels)?;
    let mut patterns = [7u16; 24];
    told(output, astc_file::decode_file_float16(file, &mut patterns))?;
    halves(output, &patterns)
}

fn wide(n: u8) -> usize
    ensures { result ≡ n }
{
    n as usize
}

// The file of a record.
fn run<W: Write>(output: &mut W, entry: &[u8]) -> io::Result<()>
    requires { length entry.now ≡ 40 }
{
    let n = wide(entry[0]);
    if n <= 39 {
        let file = &entry[1..n + 1];
        read(output, file)?;
        show(output, file)?;
    }
    Ok(())
}

fn main(rt: HostRuntime) -> io::Result<()> {
    let output = &mut rt.stdout();
    let mut input = [0u8; 1200];
    let n = program_io::read_full(&mut rt.stdin(), &mut input)?;
    for k in 0..30 {
        if 40 * k + 40 <= n {
            run(output, &input[40 * k..40 * k + 40])?;
        }
    }
    Ok(())
}
