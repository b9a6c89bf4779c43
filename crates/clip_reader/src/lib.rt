// The reader of clips: it is fed pieces of any size and hands out each block as its sixteenth byte arrives.
#![tactic(auto)]

ghost use Rattle.std.specs.Prelude.{◌≡◌, ◌<◌, ◌≤◌, length, take, ◌==◌, slice_set};
ghost use Rattle.laws.specs.Choice.{pick};
ghost use Rattle.reason.specs.Numbers.{refusal_number};
ghost use Rattle.image_size.specs.Sides.{size_refusal};
ghost use Rattle.clip.specs.declared.Phase.TheVariants.{Blocks};
ghost use Rattle.clip.specs.Step.{fresh_of, over, entered, quiet as quietOf, more, begun, checked, next_block, next_frame, past, handed, version_step, header_step, block_step, step_of};
ghost use Rattle.clip.specs.Feed.{fed_by, go_on, feed_of, finish_number, finish_of};

use clip::{Clip, Event, Fed, Finished, Phase, Step};
use clip_frame::Frame;
use reason::Refusal;
use std::num::wrapping_add_u32;

// A fresh start.
pub fn fresh() -> Clip
    ensures { result ≡ fresh_of }
{
    Clip {
        phase: Phase::Version,
        have: 0,
        held: [0u8; 16],
        index: 0,
        block: 0,
        last: 0,
        frame: Frame {
            footprint: 0,
            kind: 0,
            width: 0,
            height: 0,
        },
    }
}

// The same frame in another phase, nothing held.
fn enter(c: Clip, phase: Phase) -> Clip
    ensures { result ≡ entered c phase }
{
    Clip {
        phase,
        have: 0,
        held: [0u8; 16],
        ..c
    }
}

// A step that brings nothing.
fn quiet(c: Clip) -> Step
    ensures { result ≡ quietOf c }
{
    Step {
        clip: c,
        event: None,
    }
}

// A refusal.
fn stop(c: Clip, refusal: Refusal) -> Step
    ensures { result ≡ over c (refusal_number refusal) }
{
    let n = refusal.into();
    Step {
        clip: enter(c, Phase::Over(n)),
        event: Some(Event::Told(n)),
    }
}

// A byte more.
fn with(held: [u8; 16], i: usize, b: u8) -> [u8; 16]
    requires { i < 16 }
    ensures { result ≡ slice_set held i b }
{
    let mut s = held;
    s[i] = b;
    s
}

fn hold(c: Clip, b: u8) -> Step
    requires { c.have < 15 }
    ensures { result ≡ more c b }
{
    quiet(Clip {
        have: c.have + 1,
        held: with(c.held, c.have as usize, b),
        ..c
    })
}

// ---- a byte

fn version_step(c: Clip, b: u8) -> Step
    ensures { result ≡ version_step c b }
{
    if b == 1 {
        quiet(enter(c, Phase::Header))
    } else {
        stop(c, Refusal::ClipVersion)
    }
}

// The first block of a frame is waited for.
fn begin(c: Clip, f: Frame) -> Clip
    requires { size_refusal f.footprint f.width f.height ≡ 0 }
    ensures { result ≡ begun c f }
{
    let blocks = image_size::blocks_of(f.footprint, f.width, f.height);
    Clip {
        phase: Phase::Blocks,
        have: 0,
        held: [0u8; 16],
        index: c.index,
        block: 0,
        last: blocks - 1,
        frame: f,
    }
}

// The tenth byte of a frame is there.
fn check(c: Clip, s: [u8; 16]) -> Step
    ensures { result ≡ checked c s }
{
    let f = clip_frame::frame_in(s);
    match clip_frame::check_frame(f, clip_frame::length_in(s)) {
        Ok(()) => quiet(begin(c, f)),
        Err(refusal) => stop(c, refusal),
    }
}

// Not one function with `block_step`: one that takes the limit and a closure for the last byte is no shorter.
fn header_step(c: Clip, b: u8) -> Step
    ensures { result ≡ header_step c b }
{
    if c.have < 9 {
        hold(c, b)
    } else {
        check(c, with(c.held, 9, b))
    }
}

// The frame's next block is waited for.
fn next_block(c: Clip) -> Clip
    requires { c.block < c.last }
    ensures { result ≡ next_block c }
{
    Clip {
        phase: Phase::Blocks,
        have: 0,
        held: [0u8; 16],
        block: c.block + 1,
        ..c
    }
}

// The next frame is waited for.
fn next_frame(c: Clip) -> Clip
    ensures { result ≡ next_frame c }
{
    Clip {
        phase: Phase::Header,
        have: 0,
        held: [0u8; 16],
        index: wrapping_add_u32(c.index, 1),
        block: 0,
        last: 0,
        ..c
    }
}

// What comes after a block.
fn pass(c: Clip) -> Clip
    ensures { result ≡ past c }
{
    if c.block < c.last {
        next_block(c)
    } else {
        next_frame(c)
    }
}

// The sixteenth byte of a block is there.
fn hand(c: Clip, s: [u8; 16]) -> Step
    ensures { result ≡ handed c s }
{
    Step {
        clip: pass(c),
        event: Some(Event::Block {
            frame_index: c.index,
            block_index: c.block,
            bytes: s,
        }),
    }
}

fn block_step(c: Clip, b: u8) -> Step
    ensures { result ≡ block_step c b }
{
    if c.have < 15 {
        hold(c, b)
    } else {
        hand(c, with(c.held, 15, b))
    }
}

// What one byte does.
fn byte_step(c: Clip, b: u8) -> Step
    ensures { result ≡ step_of c b }
{
    match c.phase {
        Phase::Version => version_step(c, b),
        Phase::Header => header_step(c, b),
        Phase::Blocks => block_step(c, b),
        Phase::Over(n) => quiet(c),
    }
}

// ---- a piece

fn fed_by(t: Step, taken: usize) -> Fed
    ensures { result ≡ fed_by t taken }
{
    Fed {
        clip: t.clip,
        taken,
        event: t.event,
    }
}

// Byte by byte, to the first one that hands something out.
fn go_on(c: Clip, piece: &[u8]) -> Fed
    ensures { result ≡ go_on c piece.now }
{
    let mut clip = c;
    for (i, b) in piece.iter().enumerate() {
        let t = byte_step(clip, *b);
        if t.event.is_some() {
            return fed_by(t, i + 1);
        }
        clip = t.clip;
    }
    fed_by(quiet(clip), piece.len())
}

// The first sixteen bytes of a piece.
pub fn first_block(piece: &[u8]) -> [u8; 16]
    requires { 16 ≤ length piece.now }
    ensures { result ≡ take 16 piece.now }
{
    [
        piece[0], piece[1], piece[2], piece[3], piece[4], piece[5], piece[6], piece[7], piece[8],
        piece[9], piece[10], piece[11], piece[12], piece[13], piece[14], piece[15],
    ]
}

// A whole block that stands at the start of a piece, none of it being held: the sixteen steps at once.
fn whole_block(c: Clip, piece: &[u8]) -> Fed
    requires { (c.phase ≡ Blocks) × (c.have ≡ 0) × (16 ≤ length piece.now) }
    ensures { result ≡ go_on c piece.now }
{
    Fed {
        clip: pass(c),
        taken: 16,
        event: Some(Event::Block {
            frame_index: c.index,
            block_index: c.block,
            bytes: first_block(piece),
        }),
    }
}

// A piece where blocks are waited for.
fn feed_blocks(c: Clip, piece: &[u8]) -> Fed
    requires { c.phase ≡ Blocks }
    ensures { result ≡ go_on c piece.now }
{
    if c.have == 0 && 16 <= piece.len() {
        whole_block(c, piece)
    } else {
        go_on(c, piece)
    }
}

// A piece of a clip. What it hands out, how many of its bytes it took, and the state for the next feed.
pub fn feed(c: Clip, piece: &[u8]) -> Fed
    ensures { result ≡ feed_of c piece.now }
{
    match c.phase {
        Phase::Version => go_on(c, piece),
        Phase::Header => go_on(c, piece),
        Phase::Blocks => feed_blocks(c, piece),
        Phase::Over(n) => Fed {
            clip: c,
            taken: 0,
            event: Some(Event::Told(n)),
        },
    }
}

// ---- the end

fn header_end(have: u8) -> u8
    ensures { result ≡ pick (have == 0) 0 53 }
{
    if have == 0 {
        0
    } else {
        Refusal::ClipEnd.into()
    }
}

fn finish_number(c: Clip) -> u8
    ensures { result ≡ finish_number c.phase c.have }
{
    match c.phase {
        Phase::Version => Refusal::ClipEnd.into(),
        Phase::Header => header_end(c.have),
        Phase::Blocks => Refusal::ClipEnd.into(),
        Phase::Over(n) => n,
    }
}

// The clip is said to be finished.
pub fn finish(c: Clip) -> Finished
    ensures { result ≡ finish_of c }
{
    let number = finish_number(c);
    Finished {
        clip: enter(c, Phase::Over(number)),
        number,
    }
}
