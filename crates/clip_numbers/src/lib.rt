// The reader of clips over lent lists of numbers: its state is a list of 26, whose every content is taken.
#![tactic(auto)]

ghost use Rattle.std.specs.Prelude.{◌≡◌, ◌%◌, ◌<◌, ◌≤◌, true, None, Some, ◌∷◌, length, slice_index};
ghost use Rattle.reason.specs.Numbers.{refusal_told};
ghost use Rattle.clip.specs.declared.Event.TheVariants.{Block};
ghost use Rattle.clip.specs.Step.{past};
ghost use Rattle.clip.specs.Frames.{waits};
ghost use Rattle.clip.specs.Feed.{feed_of};
ghost use Rattle.clip_numbers.specs.Numbers.{phase_number, phase_told, state_numbers, phase_of, frame_from, held_of, clip_of, handed_block_numbers, handed_numbers, feed_numbers, event_number, event_bytes, start_number, start_state, feed_refusal, feed_number, feed_state, feed_block, feed_told, finish_numbered, finish_state};

use clip::{Clip, Event, Fed, Phase};
use clip_frame::Frame;
use reason::Refusal;
use std::num::wrapping_add_u32;

// ---- a state from its numbers

fn low(n: u32) -> u8
    ensures { result ≡ n % 256 }
{
    (n % 256) as u8
}

fn phase_of(n: u32, told: u32) -> Phase
    ensures { result ≡ phase_of n told }
{
    match n {
        0 => Phase::Version,
        1 => Phase::Header,
        2 => Phase::Blocks,
        _ => Phase::Over(low(told)),
    }
}

fn frame_of(state: &[u32]) -> Frame
    requires { length state.now ≡ 26 }
    ensures { result ≡ frame_from state.now }
{
    Frame {
        footprint: low(state[6]),
        kind: low(state[7]),
        width: state[8],
        height: state[9],
    }
}

fn held_of(state: &[u32]) -> [u8; 16]
    requires { length state.now ≡ 26 }
    ensures { result ≡ held_of state.now }
{
    let mut held = [0u8; 16];
    for k in 0..16usize {
        held[k] = low(state[10 + k]);
    }
    held
}

fn clip_of(state: &[u32]) -> Clip
    requires { length state.now ≡ 26 }
    ensures { result ≡ clip_of state.now }
{
    Clip {
        phase: phase_of(state[0], state[1]),
        have: low(state[2]),
        held: held_of(state),
        index: state[3],
        block: state[4],
        last: state[5],
        frame: frame_of(state),
    }
}

// ---- the numbers of a state

fn wide(x: u8) -> u32
    ensures { result ≡ x }
{
    x as u32
}

fn phase_number(p: Phase) -> u32
    ensures { result ≡ phase_number p }
{
    match p {
        Phase::Version => 0,
        Phase::Header => 1,
        Phase::Blocks => 2,
        Phase::Over(n) => 3,
    }
}

fn phase_told(p: Phase) -> u32
    ensures { result ≡ phase_told p }
{
    match p {
        Phase::Version => 0,
        Phase::Header => 0,
        Phase::Blocks => 0,
        Phase::Over(n) => wide(n),
    }
}

fn numbers_of(c: Clip) -> [u32; 26]
    ensures { result ≡ state_numbers c }
{
    let p = c.phase;
    let f = c.frame;
    let h = c.held;
    [
        phase_number(p),
        phase_told(p),
        wide(c.have),
        c.index,
        c.block,
        c.last,
        wide(f.footprint),
        wide(f.kind),
        f.width,
        f.height,
        wide(h[0]),
        wide(h[1]),
        wide(h[2]),
        wide(h[3]),
        wide(h[4]),
        wide(h[5]),
        wide(h[6]),
        wide(h[7]),
        wide(h[8]),
        wide(h[9]),
        wide(h[10]),
        wide(h[11]),
        wide(h[12]),
        wide(h[13]),
        wide(h[14]),
        wide(h[15]),
    ]
}

// ---- lent lists, filled by loops: the library's copy would first lay the numbers out in an array of its own

fn put_numbers(from: [u32; 26], state: &mut [u32])
    requires { length state.old ≡ 26 }
    ensures { state.new ≡ from }
{
    for i in 0..26 {
        state[i] = from[i];
    }
}

fn put_told(from: [u64; 8], told: &mut [u64])
    requires { length told.old ≡ 8 }
    ensures { told.new ≡ from }
{
    for i in 0..8 {
        told[i] = from[i];
    }
}

// ---- what a feed tells

fn block_told(taken: usize, index: u32, block: u32, f: Frame) -> [u64; 8]
    ensures { result ≡ taken ∷ handed_block_numbers index block f }
{
    [
        taken as u64,
        1,
        index as u64,
        block as u64,
        f.footprint as u64,
        f.kind as u64,
        f.width as u64,
        f.height as u64,
    ]
}

fn nothing_told(taken: usize, f: Frame) -> [u64; 8]
    ensures { result ≡ taken ∷ handed_numbers None f }
{
    [
        taken as u64,
        0,
        0,
        0,
        f.footprint as u64,
        f.kind as u64,
        f.width as u64,
        f.height as u64,
    ]
}

fn event_told(taken: usize, event: Option<Event>, f: Frame) -> [u64; 8]
    ensures { result ≡ taken ∷ handed_numbers event f }
{
    match event {
        None => nothing_told(taken, f),
        Some(
            Event::Block {
                frame_index,
                block_index,
                ..
            },
        ) => block_told(taken, frame_index, block_index, f),
        Some(Event::Told(_)) => nothing_told(taken, f),
    }
}

fn bytes_in(event: Option<Event>) -> [u8; 16]
    ensures { result ≡ event_bytes event }
{
    match event {
        None => [0u8; 16],
        Some(Event::Block { bytes, .. }) => bytes,
        Some(Event::Told(_)) => [0u8; 16],
    }
}

fn number_in(event: Option<Event>) -> u8
    ensures { result ≡ event_number event }
{
    match event {
        None => 0,
        Some(Event::Block { .. }) => 0,
        Some(Event::Told(n)) => n,
    }
}

// ---- a whole block that stands at the start of a piece, none of it being held: no state is taken apart

// The numbers of the state that follows.
fn next_numbers(index: u32, block: u32, last: u32, f: Frame) -> [u32; 26]
    ensures { result ≡ state_numbers (past (waits index block last f)) }
{
    if block < last {
        [
            2,
            0,
            0,
            index,
            block + 1,
            last,
            wide(f.footprint),
            wide(f.kind),
            f.width,
            f.height,
            0,
            0,
            0,
            0,
            0,
            0,
            0,
            0,
            0,
            0,
            0,
            0,
            0,
            0,
            0,
            0,
        ]
    } else {
        [
            1,
            0,
            0,
            wrapping_add_u32(index, 1),
            0,
            0,
            wide(f.footprint),
            wide(f.kind),
            f.width,
            f.height,
            0,
            0,
            0,
            0,
            0,
            0,
            0,
            0,
            0,
            0,
            0,
            0,
            0,
            0,
            0,
            0,
        ]
    }
}

fn whole_block(state: &mut [u32], piece: &[u8], block: &mut [u8], told: &mut [u64])
    requires state_len { (length state.old ≡ 26) × (length block.old ≡ 16) × (length told.old ≡ 8) }
    requires state_value { (slice_index state.old 0 ≡ 2) × (slice_index state.old 2 % 256 ≡ 0) × (16 ≤ length piece.now) }
    ensures state_after { state.new ≡ state_numbers (feed_of (clip_of state.old) piece.now).clip }
    ensures block_after { block.new ≡ event_bytes (feed_of (clip_of state.old) piece.now).event }
    ensures told_after { told.new ≡ feed_numbers (feed_of (clip_of state.old) piece.now) }
    ensures value { 0 ≡ event_number (feed_of (clip_of state.old) piece.now).event }
{
    let index = state[3];
    let at = state[4];
    let f = frame_of(state);
    let next = next_numbers(index, at, state[5], f);
    put_numbers(next, state);
    byte_list::put_block(clip_reader::first_block(piece), block);
    put_told(block_told(16, index, at, f), told);
}

// ---- the calls

// Any other feed.
fn feed_state(state: &mut [u32], piece: &[u8], block: &mut [u8], told: &mut [u64]) -> u8
    requires { (length state.old ≡ 26) × (length block.old ≡ 16) × (length told.old ≡ 8) }
    ensures value { result ≡ event_number (feed_of (clip_of state.old) piece.now).event }
    ensures state_after { state.new ≡ state_numbers (feed_of (clip_of state.old) piece.now).clip }
    ensures block_after { block.new ≡ event_bytes (feed_of (clip_of state.old) piece.now).event }
    ensures told_after { told.new ≡ feed_numbers (feed_of (clip_of state.old) piece.now) }
{
    let fed = clip_reader::feed(clip_of(state), piece);
    put_numbers(numbers_of(fed.clip), state);
    byte_list::put_block(bytes_in(fed.event), block);
    put_told(event_told(fed.taken, fed.event, fed.clip.frame), told);
    number_in(fed.event)
}

// Of lists of so many numbers.
fn check_feed(state: usize, block: usize, told: usize) -> Result<(), Refusal>
    ensures { refusal_told result ≡ feed_refusal state block told }
{
    if state != 26 || block != 16 || told != 8 {
        return Err(Refusal::Places);
    }
    Ok(())
}

// A block is waited for, none of it is held, and all of it stands in the piece: by the state's numbers 0 and 2.
fn is_whole(phase: u32, have: u32, n: usize) -> bool
    ensures { result ≡ true → (phase ≡ 2) × (have % 256 ≡ 0) × (16 ≤ n) }
{
    if phase != 2 {
        return false;
    }
    if have % 256 != 0 {
        return false;
    }
    16 <= n
}

// A piece: the number told, 0 where none is. `block` gets the block that is handed out, else zeros, `told` how many bytes were taken, whether
// a block is handed out, its indices and its frame. 5 where a list is not as long as said; nothing is written then.
pub fn feed_numbers(state: &mut [u32], piece: &[u8], block: &mut [u8], told: &mut [u64]) -> u8
    ensures value { result ≡ feed_number state.old piece.now block.old told.old }
    ensures state_after { state.new ≡ feed_state state.old piece.now block.old told.old }
    ensures block_after { block.new ≡ feed_block state.old piece.now block.old told.old }
    ensures told_after { told.new ≡ feed_told state.old piece.now block.old told.old }
{
    if let Err(refusal) = check_feed(state.len(), block.len(), told.len()) {
        return refusal.into();
    }
    if is_whole(state[0], state[2], piece.len()) {
        whole_block(state, piece, block, told);
        return 0;
    }
    feed_state(state, piece, block, told)
}

// A fresh start: 0, or 5 where the state is not of 26 numbers.
pub fn start_numbers(state: &mut [u32]) -> u8
    ensures value { result ≡ start_number (length state.old) }
    ensures state_after { state.new ≡ start_state state.old }
{
    if state.len() != 26 {
        return Refusal::Places.into();
    }
    put_numbers(numbers_of(clip_reader::fresh()), state);
    0
}

// The clip is said to be finished: the number told, or 5 where the state is not of 26 numbers.
pub fn finish_numbers(state: &mut [u32]) -> u8
    ensures value { result ≡ finish_numbered state.old }
    ensures state_after { state.new ≡ finish_state state.old }
{
    if state.len() != 26 {
        return Refusal::Places.into();
    }
    let finished = clip_reader::finish(clip_of(state));
    put_numbers(numbers_of(finished.clip), state);
    finished.number
}
