// Runs of the reader and the writer of clips. A record of standard input has 409 bytes: 0 for a clip, or for a frame by how much more than nine
// bytes the writer's buffer is longer than its blocks; the frame's footprint, kind, width and height (two bytes each, high byte first); how many
// bytes count of those that follow (two bytes); and 400 bytes, the clip's or the blocks'.
// A clip is fed in pieces of 1, 7, 16 and 400 bytes, with an empty piece before each feed. Each time, for each block a line "block FRAME INDEX at
// BYTES-SO-FAR of FOOTPRINT KIND WIDTH HEIGHT" and its sixteen bytes, for a refusal "told N at BYTES-SO-FAR", and last "end N" with what an empty
// piece tells after it. Of a frame that is written "refused N", or "frame" and its bytes.
#![tactic(auto)]

ghost use Rattle.std.specs.Prelude.{◌≤◌, ◌<◌, IfOk, length};

use clip::{Clip, Event};
use clip_frame::Frame;
use std::io;
use std::io::{Read, Write};

fn word<W: Write>(output: &mut W, name: &[u8], n: u64) -> io::Result<()> {
    output.write_all(name)?;
    program_io::print_decimal(output, n)
}

fn byte<W: Write>(output: &mut W, n: u8) -> io::Result<()> {
    word(output, b" ", n as u64)
}

fn end_line<W: Write>(output: &mut W) -> io::Result<()> {
    output.write_all(b"\n")
}

fn bytes<W: Write>(output: &mut W, from: &[u8]) -> io::Result<()> {
    for b in from {
        byte(output, *b)?;
    }
    end_line(output)
}

fn frame<W: Write>(output: &mut W, f: Frame) -> io::Result<()> {
    word(output, b" of ", f.footprint as u64)?;
    byte(output, f.kind)?;
    word(output, b" ", f.width as u64)?;
    word(output, b" ", f.height as u64)
}

fn block<W: Write>(
    output: &mut W,
    index: u32,
    i: u32,
    f: Frame,
    of: [u8; 16],
    at: usize,
) -> io::Result<()> {
    word(output, b"block ", index as u64)?;
    word(output, b" ", i as u64)?;
    word(output, b" at ", at as u64)?;
    frame(output, f)?;
    bytes(output, &of)
}

fn told<W: Write>(output: &mut W, name: &[u8], n: u8, at: usize) -> io::Result<()> {
    word(output, name, n as u64)?;
    word(output, b" at ", at as u64)?;
    end_line(output)
}

fn event<W: Write>(output: &mut W, e: Option<Event>, f: Frame, at: usize) -> io::Result<()> {
    match e {
        None => Ok(()),
        Some(
            Event::Block {
                frame_index,
                block_index,
                bytes,
            },
        ) => block(output, frame_index, block_index, f, bytes, at),
        Some(Event::Told(n)) => told(output, b"told ", n, at),
    }
}

// What is left of a piece, or the next one.
fn rest_of(left: usize, taken: usize, cut: usize) -> usize {
    if taken < left { left - taken } else { cut }
}

// Where a piece of so many bytes ends that begins at a place.
fn piece_end(at: usize, left: usize, n: usize) -> usize
    requires { at ≤ n }
    ensures start { at ≤ result }
    ensures end { result ≤ n }
{
    if left < n - at { at + left } else { n }
}

// The end, and an empty piece after it.
fn finish<W: Write>(output: &mut W, c: Clip, clip: &[u8]) -> io::Result<()> {
    let f = clip_reader::finish(c);
    let again = clip_reader::feed(f.clip, &clip[0..0]);
    word(output, b"end ", f.number as u64)?;
    output.write_all(b" ")?;
    event(output, again.event, f.clip.frame, again.taken)
}

// A reader, and how many bytes of the clip it has taken.
#[derive(Clone, Copy)]
struct Place {
    clip: Clip,
    at: usize,
}

// An empty piece, and then a piece.
fn step<W: Write>(output: &mut W, c: Clip, clip: &[u8], at: usize, end: usize) -> io::Result<Place>
    requires order { at ≤ end }
    requires bound { end ≤ length clip.now }
    ensures start { IfOk result (λ place. at ≤ place.at) }
    ensures end { IfOk result (λ place. place.at ≤ end) }
{
    let empty = clip_reader::feed(c, &clip[at..at]);
    let f = clip_reader::feed(empty.clip, &clip[at..end]);
    let next = piece_end(at, f.taken, end);
    if at < next {
        event(output, f.event, f.clip.frame, next)?;
    }
    Ok(Place {
        clip: f.clip,
        at: next,
    })
}

// A clip in pieces of so many bytes, to its end or until nothing is taken.
fn fed<W: Write>(output: &mut W, clip: &[u8], cut: usize) -> io::Result<()> {
    word(output, b"cut ", cut as u64)?;
    end_line(output)?;
    let mut c = clip_reader::fresh();
    let mut at: usize = 0;
    let mut left = cut;
    // Kept a while: a step goes on by as many bytes as the reader takes.
    while at < clip.len() {
        let end = piece_end(at, left, clip.len());
        let place = step(output, c, clip, at, end)?;
        let next = place.at;
        c = place.clip;
        if next == at {
            break;
        }
        left = rest_of(left, next - at, cut);
        at = next;
    }
    finish(output, c, clip)
}

fn read<W: Write>(output: &mut W, clip: &[u8]) -> io::Result<()> {
    fed(output, clip, 1)?;
    fed(output, clip, 7)?;
    fed(output, clip, 16)?;
    fed(output, clip, 400)
}

fn write<W: Write>(
    output: &mut W,
    footprint: u8,
    kind: u8,
    width: u32,
    height: u32,
    blocks: &[u8],
    out: &mut [u8],
) -> io::Result<()> {
    match clip_writer::write_frame(footprint, kind, width, height, blocks, out) {
        Ok(()) => {
            output.write_all(b"frame")?;
            bytes(output, out)
        }
        Err(refusal) => {
            word(output, b"refused ", u8::from(refusal) as u64)?;
            end_line(output)
        }
    }
}

fn two(high: u8, low: u8) -> u32
    ensures { result < 65536 }
{
    (high as u32) * 256 + (low as u32)
}

// The first n bytes, as a clip.
fn clip_record<W: Write>(output: &mut W, all: &[u8], n: usize) -> io::Result<()> {
    let m = n.min(all.len());
    read(output, &all[0..m])
}

// The first n bytes, as a frame's blocks, for a buffer of so many bytes.
fn frame_record<W: Write>(
    output: &mut W,
    footprint: u8,
    kind: u8,
    width: u32,
    height: u32,
    all: &[u8],
    n: usize,
    out: &mut [u8],
    room: usize,
) -> io::Result<()> {
    let m = n.min(all.len());
    let k = room.min(out.len());
    write(
        output,
        footprint,
        kind,
        width,
        height,
        &all[0..m],
        &mut out[0..k],
    )
}

fn parted<W: Write>(
    output: &mut W,
    sort: u8,
    footprint: u8,
    kind: u8,
    width: u32,
    height: u32,
    all: &[u8],
    n: u32,
) -> io::Result<()> {
    if sort == 0 {
        clip_record(output, all, n as usize)
    } else {
        let mut out = [0u8; 500];
        let room = (n as usize) + 9 + (sort as usize);
        frame_record(
            output, footprint, kind, width, height, all, n as usize, &mut out, room,
        )
    }
}

// One record, and whether there was one.
fn record<R: Read, W: Write>(input: &mut R, output: &mut W) -> io::Result<bool> {
    let mut h = [0u8; 409];
    if program_io::read_full(input, &mut h)? != 409 {
        return Ok(false);
    }
    let width = two(h[3], h[4]);
    let height = two(h[5], h[6]);
    let n = two(h[7], h[8]);
    parted(output, h[0], h[1], h[2], width, height, &h[9..409], n)?;
    Ok(true)
}

fn main(rt: HostRuntime) -> io::Result<()> {
    let input = &mut rt.stdin();
    let output = &mut rt.stdout();
    for _ in 0..u64::MAX {
        if !record(input, output)? {
            break;
        }
    }
    Ok(())
}
