// Runs of the PVRTC1 image call. Each record of standard input is width, height, how many bytes of words and how many result bytes are lent
// (16 bits each), and 128 bytes of words. For each a line "refused N" and whether the buffer is as it was, or all bytes of the texels. Before
// them, 002's word place, and images with the longest sides.
#![tactic(auto)]

ghost use Rattle.std.specs.Prelude.{◌≤◌, length};

use reason::Refusal;
use std::io;
use std::io::{Read, Write};

fn number<W: Write>(output: &mut W, n: u64) -> io::Result<()> {
    output.write_all(b" ")?;
    program_io::print_decimal(output, n)
}

fn end_line<W: Write>(output: &mut W) -> io::Result<()> {
    output.write_all(b"\n")
}

// The bytes of a buffer.
fn bytes<W: Write>(output: &mut W, out: &[u8]) -> io::Result<()> {
    for b in out {
        number(output, *b as u64)?;
    }
    Ok(())
}

// What the call tells of a buffer of sevens.
fn told<W: Write>(output: &mut W, answer: Result<(), Refusal>, out: &[u8]) -> io::Result<()> {
    match answer {
        Ok(()) => {
            output.write_all(b"texels")?;
            bytes(output, out)?;
        }
        Err(refusal) => {
            output.write_all(b"refused")?;
            number(output, u8::from(refusal) as u64)?;
            if out.iter().all(|b| *b == 7) {
                output.write_all(b" kept")?;
            }
        }
    }
    end_line(output)
}

fn wide(n: u8) -> usize
    ensures { result ≤ 255 }
{
    n as usize
}

// A number of two bytes, at most `most`.
fn pair(low: u8, high: u8, most: usize) -> usize
    requires { most ≤ 65535 }
    ensures { result ≤ most }
{
    let n = wide(low) + 256 * wide(high);
    if n <= most { n } else { most }
}

// A call, and what it tells.
fn call<W: Write>(
    output: &mut W,
    width: u32,
    height: u32,
    words: &[u8],
    out: &mut [u8],
) -> io::Result<()> {
    let answer = pvrtc_image::decode_image(width, height, words, out);
    told(output, answer, out)
}

// A call with the first `given` bytes of the words and a buffer of the first `places` bytes.
fn run<W: Write>(
    output: &mut W,
    width: u32,
    height: u32,
    words: &[u8],
    given: usize,
    out: &mut [u8],
    places: usize,
) -> io::Result<()>
    requires given { given ≤ length words.now }
    requires places { places ≤ length out.old }
{
    call(output, width, height, &words[..given], &mut out[..places])
}

// One record, and whether there was one.
fn record<R: Read, W: Write>(input: &mut R, output: &mut W) -> io::Result<bool> {
    let mut r = [0u8; 136];
    let n = program_io::read_full(input, &mut r)?;
    if n != 136 {
        return Ok(false);
    }
    let width = pair(r[0], r[1], 65535);
    let height = pair(r[2], r[3], 65535);
    let given = pair(r[4], r[5], 128);
    let places = pair(r[6], r[7], 1025);
    let mut out = [7u8; 1025];
    run(
        output,
        width as u32,
        height as u32,
        &r[8..136],
        given,
        &mut out,
        places,
    )?;
    Ok(true)
}

// "Word place for X = 13, Y = 2 in 64 by 16 texels is 54."
fn place<W: Write>(output: &mut W) -> io::Result<()> {
    output.write_all(b"place")?;
    number(output, pvrtc_order::word_place(4, 2, 13, 2) as u64)?;
    end_line(output)
}

// A side of 4,096: words of zeros, of which the last texel is told.
fn longest<W: Write>(output: &mut W, width: u32, height: u32) -> io::Result<()> {
    let words = [0u8; 8192];
    let mut out = [7u8; 65536];
    let answer = pvrtc_image::decode_image(width, height, &words, &mut out);
    output.write_all(b"answer")?;
    number(output, reason::refusal_told(answer) as u64)?;
    bytes(output, &out[65532..])?;
    end_line(output)
}

fn main(rt: HostRuntime) -> io::Result<()> {
    let input = &mut rt.stdin();
    let output = &mut rt.stdout();
    place(output)?;
    longest(output, 4096, 4)?;
    longest(output, 4, 4096)?;
    longest(output, 8192, 2)?;
    longest(output, 2, 8192)?;
    for _ in 0..u64::MAX {
        if !record(input, output)? {
            break;
        }
    }
    Ok(())
}
