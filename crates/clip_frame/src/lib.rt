// A frame of a clip: what its ten bytes say, and the refusals of its reader and its writer.
#![tactic(auto)]

ghost use Rattle.std.specs.Prelude.{◌≡◌, ◌<◌};
ghost use Rattle.reason.specs.Numbers.{refusal_told};
ghost use Rattle.clip_frame.specs.Frame.{length_in, frame_in, frame_refusal, write_refusal};
ghost use Rattle.clip_frame.specs.inner.Frame.{own_refusal};

use reason::Refusal;

// What a frame says of itself. Its kind is a number and no `Kind`: the ten bytes may tell one above 2, which is refused (2), and after a wrong
// footprint (1); so may the numbers of a state that C lends (`clip_numbers: frame_from`).
#[derive(Clone, Copy)]
pub struct Frame {
    pub footprint: u8,
    pub kind: u8,
    pub width: u32,
    pub height: u32,
}

fn wide(x: u8) -> u32
    ensures { (result ≡ x) × (result < 256) }
{
    x as u32
}

// The length that ten bytes tell.
pub fn length_in(s: [u8; 16]) -> u32
    ensures { result ≡ length_in s }
{
    ((wide(s[0]) * 256 + wide(s[1])) * 256 + wide(s[2])) * 256 + wide(s[3])
}

// The frame that ten bytes tell.
pub fn frame_in(s: [u8; 16]) -> Frame
    ensures { result ≡ frame_in s }
{
    Frame {
        footprint: s[4],
        kind: s[5],
        width: wide(s[6]) * 256 + wide(s[7]),
        height: wide(s[8]) * 256 + wide(s[9]),
    }
}

// ---- refusals

// By footprint, kind and sides, which speak of the frame alone.
fn check_own(f: Frame) -> Result<(), Refusal>
    ensures { refusal_told result ≡ own_refusal f }
{
    if f.footprint > 13 {
        return Err(Refusal::Footprint);
    }
    if f.kind > 2 {
        return Err(Refusal::Kind);
    }
    image_size::check_size(f.footprint, f.width, f.height)
}

// Of a frame that is read, n being the length that its bytes tell.
pub fn check_frame(f: Frame, n: u32) -> Result<(), Refusal>
    ensures { refusal_told result ≡ frame_refusal f n }
{
    check_own(f)?;
    let blocks = image_size::blocks_of(f.footprint, f.width, f.height);
    if (n as u64) != 6 + 16 * (blocks as u64) {
        return Err(Refusal::FrameLength);
    }
    Ok(())
}

// Of a frame that is to be written from so many bytes of blocks into a buffer of so many bytes.
pub fn check_written(f: Frame, bytes: usize, room: usize) -> Result<(), Refusal>
    ensures { refusal_told result ≡ write_refusal f bytes room }
{
    check_own(f)?;
    let blocks = image_size::blocks_of(f.footprint, f.width, f.height);
    if bytes != 16 * (blocks as usize) {
        return Err(Refusal::Bytes);
    }
    if room != 10 + bytes {
        return Err(Refusal::Places);
    }
    Ok(())
}
