// Clips: the state of a reader that is fed pieces of any size, and what a feed answers. Definitions and theorems; the code of the
// reader is `clip_reader`'s.
#![tactic(auto)]

use clip_frame::Frame;

// What the reader waits for: the version byte, the ten bytes before a frame's blocks, the blocks, or, after a refusal or the end, which told
// this number, nothing.
#[derive(Clone, Copy)]
pub enum Phase {
    Version,
    Header,
    Blocks,
    // A number and no `Refusal`: the end tells 0, and C's lists come with any byte here, which is repeated (`clip_numbers: clip_of`).
    Over(u8),
}

// The state of a reader: how many bytes of a header or a block it has, and these bytes; the frame's index modulo 2^32, the index of the
// block that is collected and of the frame's last one, and what the frame last begun says of itself.
#[derive(Clone, Copy)]
pub struct Clip {
    pub phase: Phase,
    pub have: u8,
    pub held: [u8; 16],
    pub index: u32,
    pub block: u32,
    pub last: u32,
    pub frame: Frame,
}

// What is handed out: a block, with its frame's index and its own, or the number that is told of a refusal or, once more, of the end.
#[derive(Clone, Copy)]
pub enum Event {
    Block {
        frame_index: u32,
        block_index: u32,
        bytes: [u8; 16],
    },
    // A number for the same reason as that of `Phase::Over`.
    Told(u8),
}

// What one byte does, and what it brings, if anything.
#[derive(Clone, Copy)]
pub struct Step {
    pub clip: Clip,
    pub event: Option<Event>,
}

// What a feed does, how many bytes it took, and what it brings, if anything.
#[derive(Clone, Copy)]
pub struct Fed {
    pub clip: Clip,
    pub taken: usize,
    pub event: Option<Event>,
}

// The end: the number told, 0 where there is no refusal, and the state from then on, which repeats it.
#[derive(Clone, Copy)]
pub struct Finished {
    pub clip: Clip,
    pub number: u8,
}
