// The image calls over lent lists: what an image call tells, in a tally of three numbers that the caller lends.
#![tactic(auto)]

ghost use Rattle.std.specs.Prelude.{◌≡◌, length};
ghost use Rattle.interpolation.specs.declared.Kind.TheVariants.{Srgb8};
ghost use Rattle.one_block.specs.Calls.{Words};
ghost use Rattle.reason.specs.Numbers.{refusal_number};
ghost use Rattle.image_layout.specs.Call.{image_refusal, told_of};
ghost use Rattle.image_numbers.specs.Calls.{tally_told, tally_numbers, refusal_or5, image_number_in, image_shown_in, tally_shown_in};

use block_reading::Reading;
use image_layout::Tally;
use interpolation::Kind;
use reason::Refusal;

// The first refusal of an image call, else 5.
pub fn refusal_or_5(footprint: u8, width: u32, height: u32, bytes: usize, places: usize) -> Refusal
    ensures { refusal_number result ≡ refusal_or5 (image_refusal footprint width height bytes places) }
{
    match image_layout::check_image(footprint, width, height, bytes, places) {
        Err(refusal) => refusal,
        Ok(_) => Refusal::Places,
    }
}

// The faults of the blocks, none on a refusal.
pub fn tally_told(answer: Result<Tally, Refusal>) -> Tally
    ensures { result ≡ tally_told (told_of answer) }
{
    answer.unwrap_or(Tally {
        count: 0,
        first: 0,
        fault: 0,
    })
}

pub fn put_tally(t: Tally, tally: &mut [u64])
    requires { length tally.old ≡ 3 }
    ensures { tally.new ≡ tally_numbers t }
{
    tally[0] = t.count;
    tally[1] = t.first;
    tally[2] = t.fault as u64;
}

// An image in a kind of 16-bit numbers, in a reading, with its tally.
pub fn image_words(
    reading: Reading,
    kind: Kind,
    footprint: u8,
    width: u32,
    height: u32,
    blocks: &[u8],
    out: &mut [u16],
    tally: &mut [u64],
) -> u8
    requires { Words kind }
    ensures value { result ≡ image_number_in reading footprint kind width height blocks.now (length out.old) (length tally.old) }
    ensures out_after { out.new ≡ image_shown_in reading footprint kind width height blocks.now out.old (length tally.old) }
    ensures tally_after { tally.new ≡ tally_shown_in reading footprint kind width height blocks.now (length out.old) tally.old }
{
    if tally.len() != 3 {
        return refusal_or_5(footprint, width, height, blocks.len(), out.len()).into();
    }
    let answer = image::decode_words_in(reading, kind, footprint, width, height, blocks, out);
    put_tally(tally_told(answer), tally);
    reason::refusal_told(answer)
}

// An image in kind 1, in a reading, with its tally.
pub fn image_srgb8(
    reading: Reading,
    footprint: u8,
    width: u32,
    height: u32,
    blocks: &[u8],
    out: &mut [u8],
    tally: &mut [u64],
) -> u8
    ensures value { result ≡ image_number_in reading footprint Srgb8 width height blocks.now (length out.old) (length tally.old) }
    ensures out_after { out.new ≡ image_shown_in reading footprint Srgb8 width height blocks.now out.old (length tally.old) }
    ensures tally_after { tally.new ≡ tally_shown_in reading footprint Srgb8 width height blocks.now (length out.old) tally.old }
{
    if tally.len() != 3 {
        return refusal_or_5(footprint, width, height, blocks.len(), out.len()).into();
    }
    let answer = image::decode_srgb8_in(reading, footprint, width, height, blocks, out);
    put_tally(tally_told(answer), tally);
    reason::refusal_told(answer)
}
