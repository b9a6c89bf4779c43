// The writer of clips: a frame at a time, after the caller's version byte.
#![tactic(auto)]

ghost use Rattle.std.specs.Prelude.{◌≡◌, ◌++◌, ◌+◌, ◌^◌, ◌<◌, length, get_or};
ghost use Rattle.reason.specs.Numbers.{refusal_told};
ghost use Rattle.clip_frame.specs.Frame.{head_bytes, write_refusal, frame_out};

use clip_frame::Frame;
use reason::Refusal;

// The ten bytes before a frame's blocks, n being the length that they tell.
fn head_of(n: u64, f: Frame) -> [u8; 10]
    requires { (n < 2 ^ 32) × (f.width < 65536) × (f.height < 65536) }
    ensures { result ≡ head_bytes n f }
{
    [
        (n / 256 / 256 / 256) as u8,
        (n / 256 / 256 % 256) as u8,
        (n / 256 % 256) as u8,
        (n % 256) as u8,
        f.footprint,
        f.kind,
        (f.width / 256) as u8,
        (f.width % 256) as u8,
        (f.height / 256) as u8,
        (f.height % 256) as u8,
    ]
}

// Byte k of a frame with these ten bytes and these blocks.
fn frame_byte(head: &[u8; 10], blocks: &[u8], k: usize) -> u8
    requires { (length head.now ≡ 10) × (k < 10 + length blocks.now) }
    ensures { result ≡ get_or (head.now ++ blocks.now) k 0 }
{
    if k < 10 { head[k] } else { blocks[k - 10] }
}

// All of a frame into a buffer of its length. Not by the library's copies: those of a length that is known only when they run call memmove, which
// the archive would need from outside.
fn fill(head: &[u8; 10], blocks: &[u8], out: &mut [u8])
    requires { (length head.now ≡ 10) × (length out.old ≡ 10 + length blocks.now) }
    ensures { out.new ≡ head.now ++ blocks.now }
{
    for k in 0..out.len() {
        out[k] = frame_byte(head, blocks, k);
    }
}

// A frame's bytes, after the caller's version byte or the frame before. On a refusal the buffer stays as it was. The kind comes by its number,
// since one above 2 is refused here, after a wrong footprint.
pub fn write_frame(
    footprint: u8,
    kind: u8,
    width: u32,
    height: u32,
    blocks: &[u8],
    out: &mut [u8],
) -> Result<(), Refusal>
    ensures value { refusal_told result ≡ write_refusal (record { footprint = footprint; kind = kind; width = width; height = height }) (length blocks.now) (length out.old) }
    ensures out_after { out.new ≡ frame_out (record { footprint = footprint; kind = kind; width = width; height = height }) blocks.now out.old }
{
    let frame = Frame {
        footprint,
        kind,
        width,
        height,
    };
    clip_frame::check_written(frame, blocks.len(), out.len())?;
    let head = head_of(6 + blocks.len() as u64, frame);
    fill(&head, blocks, out);
    Ok(())
}
