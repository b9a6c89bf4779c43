// PVRTC1, 4 bits per pixel: what an image of words shows (specs/), and the refusals of an image call.
#![tactic(auto)]

ghost use Rattle.std.specs.Prelude.{◌≡◌, ◌*◌, ◌≤◌};
ghost use Rattle.pvrtc_texel.specs.Image.{side_bits, bad_pvrtc_side, words_in, image_refusal};
ghost use Rattle.reason.specs.Numbers.{refusal_told};

use reason::Refusal;

// The bits of a word's column or row: 0 to 10 for sides of 4 to 4,096 that are powers of two, 11 for any other side.
pub fn side_bits(side: u32) -> u32
    ensures { result ≡ side_bits side }
{
    for k in 0..11u32 {
        if side == 4 << k {
            return k;
        }
    }
    11
}

// A side that no image has.
fn bad_side(side: u32) -> bool
    ensures { result ≡ bad_pvrtc_side side }
{
    10 < side_bits(side)
}

// How many words an image has.
fn words_in(w: usize, h: usize) -> usize
    requires { (w ≤ 4096) × (h ≤ 4096) }
    ensures { (result ≡ words_in w h) × (result ≤ 1048576) }
{
    w / 4 * (h / 4)
}

// How many bytes an image's texels have.
fn bytes_in(w: usize, h: usize) -> usize
    requires { (w ≤ 4096) × (h ≤ 4096) }
    ensures { result ≡ 4 * (w * h) }
{
    4 * (w * h)
}

// Refuses a width or a height that no image has, then the bytes, then the places.
pub fn check_image(width: u32, height: u32, bytes: usize, places: usize) -> Result<(), Refusal>
    ensures { refusal_told result ≡ image_refusal width height bytes places }
{
    if bad_side(width) {
        return Err(Refusal::PvrtcSide);
    }
    if bad_side(height) {
        return Err(Refusal::PvrtcSide);
    }
    let w = width as usize;
    let h = height as usize;
    if bytes != 8 * words_in(w, h) {
        return Err(Refusal::Bytes);
    }
    if places != bytes_in(w, h) {
        return Err(Refusal::Places);
    }
    Ok(())
}
