// The volume picture calls over lent lists: what a call tells, in a tally of three numbers that the caller lends.
#![tactic(auto)]

ghost use Rattle.std.specs.Prelude.{◌≡◌, length};
ghost use Rattle.interpolation.specs.declared.Kind.TheVariants.{Srgb8};
ghost use Rattle.one_block.specs.Calls.{Words};
ghost use Rattle.reason.specs.Numbers.{refusal_number};
ghost use Rattle.image_numbers.specs.Calls.{refusal_or5};
ghost use Rattle.volume_layout.specs.Call.{volume_refusal};
ghost use Rattle.volume_numbers.specs.Calls.{volume_number_in, volume_shown_in, tally_shown_in};

use block_reading::Reading;
use interpolation::Kind;
use reason::Refusal;

// The first refusal of a volume picture call, else 5.
pub fn refusal_or_5(
    footprint: u8,
    width: u32,
    height: u32,
    depth: u32,
    bytes: usize,
    places: usize,
) -> Refusal
    ensures { refusal_number result ≡ refusal_or5 (volume_refusal footprint width height depth bytes places) }
{
    match volume_layout::check_volume(footprint, width, height, depth, bytes, places) {
        Err(refusal) => refusal,
        Ok(_) => Refusal::Places,
    }
}

// A volume in a kind of 16-bit numbers, in a reading, with its tally.
pub fn volume_words(
    reading: Reading,
    kind: Kind,
    footprint: u8,
    width: u32,
    height: u32,
    depth: u32,
    blocks: &[u8],
    out: &mut [u16],
    tally: &mut [u64],
) -> u8
    requires { Words kind }
    ensures value { result ≡ volume_number_in reading footprint kind width height depth blocks.now (length out.old) (length tally.old) }
    ensures out_after { out.new ≡ volume_shown_in reading footprint kind width height depth blocks.now out.old (length tally.old) }
    ensures tally_after { tally.new ≡ tally_shown_in reading footprint kind width height depth blocks.now (length out.old) tally.old }
{
    if tally.len() != 3 {
        return refusal_or_5(footprint, width, height, depth, blocks.len(), out.len()).into();
    }
    let answer = volume::decode_volume_words_in(
        reading, kind, footprint, width, height, depth, blocks, out,
    );
    image_numbers::put_tally(image_numbers::tally_told(answer), tally);
    reason::refusal_told(answer)
}

// A volume in kind 1, in a reading, with its tally.
pub fn volume_srgb8(
    reading: Reading,
    footprint: u8,
    width: u32,
    height: u32,
    depth: u32,
    blocks: &[u8],
    out: &mut [u8],
    tally: &mut [u64],
) -> u8
    ensures value { result ≡ volume_number_in reading footprint Srgb8 width height depth blocks.now (length out.old) (length tally.old) }
    ensures out_after { out.new ≡ volume_shown_in reading footprint Srgb8 width height depth blocks.now out.old (length tally.old) }
    ensures tally_after { tally.new ≡ tally_shown_in reading footprint Srgb8 width height depth blocks.now (length out.old) tally.old }
{
    if tally.len() != 3 {
        return refusal_or_5(footprint, width, height, depth, blocks.len(), out.len()).into();
    }
    let answer = volume::decode_volume_srgb8_in(
        reading, footprint, width, height, depth, blocks, out,
    );
    image_numbers::put_tally(image_numbers::tally_told(answer), tally);
    reason::refusal_told(answer)
}
