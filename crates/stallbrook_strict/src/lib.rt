// The calls exported to C of the strict reading and of the canonical form. An archive of its own, so that the reading is a constant in it.
// A slice crosses as pointer and length.
#![tactic(auto)]

ghost use Rattle.std.specs.Prelude.{◌≡◌, length};
ghost use Rattle.interpolation.specs.declared.Kind.TheVariants.{Unorm16, Srgb8, Float16};
ghost use Rattle.block_answer.specs.Told.{number_told};
ghost use Rattle.block_reading.specs.declared.Reading.TheVariants.{Strict};
ghost use Rattle.reason.specs.Numbers.{refusal_number};
ghost use Rattle.one_block.specs.Calls.{block_told_in, block_out_in};
ghost use Rattle.fault_numbers.specs.Calls.{faults_number, faults_shown, faults_tally};
ghost use Rattle.image_numbers.specs.Calls.{image_number_in, image_shown_in, tally_shown_in, refusal_or5};
ghost use Rattle.volume_numbers.specs.Calls.{volume_number_in, volume_shown_in, tally_shown_in as volumeTallyShown};
ghost use Rattle.strict_reader.specs.Sheets.{sheet_in};
ghost use Rattle.symbolic_numbers.specs.Calls.{put_number, put_numbers, put_spare};
ghost use Rattle.canonical_image.specs.Frames.{one_answer, one_out, canonical_refusal};
ghost use Rattle.stallbrook_strict.specs.Canonical.{canonical_number, canonical_shown, canonical_tally};

use block_reading::Reading;
use interpolation::Kind;
use reason::Refusal;

// ---- one block: the fault's number, 21 too, the refusal's with `out` as it was, or 0

// In kind 0.
#[unsafe(no_mangle)]
pub extern "C" fn stallbrook_astc_strict_decode_block_unorm16(
    footprint: u8,
    block: &[u8],
    out: &mut [u16],
) -> u8
    ensures value { result ≡ block_told_in Strict Unorm16 footprint block.now (length out.old) }
    ensures out_after { out.new ≡ block_out_in Strict Unorm16 footprint block.now out.old }
{
    block_answer::number_told(one_block::decode_unorm16_strict(footprint, block, out))
}

// In kind 1.
#[unsafe(no_mangle)]
pub extern "C" fn stallbrook_astc_strict_decode_block_srgb8(
    footprint: u8,
    block: &[u8],
    out: &mut [u8],
) -> u8
    ensures value { result ≡ block_told_in Strict Srgb8 footprint block.now (length out.old) }
    ensures out_after { out.new ≡ block_out_in Strict Srgb8 footprint block.now out.old }
{
    block_answer::number_told(one_block::decode_srgb8_strict(footprint, block, out))
}

// In kind 2.
#[unsafe(no_mangle)]
pub extern "C" fn stallbrook_astc_strict_decode_block_float16(
    footprint: u8,
    block: &[u8],
    out: &mut [u16],
) -> u8
    ensures value { result ≡ block_told_in Strict Float16 footprint block.now (length out.old) }
    ensures out_after { out.new ≡ block_out_in Strict Float16 footprint block.now out.old }
{
    block_answer::number_told(one_block::decode_float16_strict(footprint, block, out))
}

// ---- an image: 0 or the refusal's number with `out` as it was. `tally` gets the count of blocks with a fault, 21 too, and the raster index and
// fault of the first one, zeros on a refusal; where it is not of 3 numbers the call is refused by 1, 3, 4 or else 5, and writes nothing.

// In kind 0.
#[unsafe(no_mangle)]
pub extern "C" fn stallbrook_astc_strict_decode_image_unorm16(
    footprint: u8,
    width: u32,
    height: u32,
    blocks: &[u8],
    out: &mut [u16],
    tally: &mut [u64],
) -> u8
    ensures value { result ≡ image_number_in Strict footprint Unorm16 width height blocks.now (length out.old) (length tally.old) }
    ensures out_after { out.new ≡ image_shown_in Strict footprint Unorm16 width height blocks.now out.old (length tally.old) }
    ensures tally_after { tally.new ≡ tally_shown_in Strict footprint Unorm16 width height blocks.now (length out.old) tally.old }
{
    image_numbers::image_words(
        Reading::Strict,
        Kind::Unorm16,
        footprint,
        width,
        height,
        blocks,
        out,
        tally,
    )
}

// In kind 1.
#[unsafe(no_mangle)]
pub extern "C" fn stallbrook_astc_strict_decode_image_srgb8(
    footprint: u8,
    width: u32,
    height: u32,
    blocks: &[u8],
    out: &mut [u8],
    tally: &mut [u64],
) -> u8
    ensures value { result ≡ image_number_in Strict footprint Srgb8 width height blocks.now (length out.old) (length tally.old) }
    ensures out_after { out.new ≡ image_shown_in Strict footprint Srgb8 width height blocks.now out.old (length tally.old) }
    ensures tally_after { tally.new ≡ tally_shown_in Strict footprint Srgb8 width height blocks.now (length out.old) tally.old }
{
    image_numbers::image_srgb8(
        Reading::Strict,
        footprint,
        width,
        height,
        blocks,
        out,
        tally,
    )
}

// In kind 2.
#[unsafe(no_mangle)]
pub extern "C" fn stallbrook_astc_strict_decode_image_float16(
    footprint: u8,
    width: u32,
    height: u32,
    blocks: &[u8],
    out: &mut [u16],
    tally: &mut [u64],
) -> u8
    ensures value { result ≡ image_number_in Strict footprint Float16 width height blocks.now (length out.old) (length tally.old) }
    ensures out_after { out.new ≡ image_shown_in Strict footprint Float16 width height blocks.now out.old (length tally.old) }
    ensures tally_after { tally.new ≡ tally_shown_in Strict footprint Float16 width height blocks.now (length out.old) tally.old }
{
    image_numbers::image_words(
        Reading::Strict,
        Kind::Float16,
        footprint,
        width,
        height,
        blocks,
        out,
        tally,
    )
}

// ---- a volume picture (02, h): as `stallbrook_astc_decode_volume_unorm16`, by the strict reading's faults

// In kind 0.
#[unsafe(no_mangle)]
pub extern "C" fn stallbrook_astc_strict_decode_volume_unorm16(
    footprint: u8,
    width: u32,
    height: u32,
    depth: u32,
    blocks: &[u8],
    out: &mut [u16],
    tally: &mut [u64],
) -> u8
    ensures value { result ≡ volume_number_in Strict footprint Unorm16 width height depth blocks.now (length out.old) (length tally.old) }
    ensures out_after { out.new ≡ volume_shown_in Strict footprint Unorm16 width height depth blocks.now out.old (length tally.old) }
    ensures tally_after { tally.new ≡ volumeTallyShown Strict footprint Unorm16 width height depth blocks.now (length out.old) tally.old }
{
    volume_numbers::volume_words(
        Reading::Strict,
        Kind::Unorm16,
        footprint,
        width,
        height,
        depth,
        blocks,
        out,
        tally,
    )
}

// In kind 1.
#[unsafe(no_mangle)]
pub extern "C" fn stallbrook_astc_strict_decode_volume_srgb8(
    footprint: u8,
    width: u32,
    height: u32,
    depth: u32,
    blocks: &[u8],
    out: &mut [u8],
    tally: &mut [u64],
) -> u8
    ensures value { result ≡ volume_number_in Strict footprint Srgb8 width height depth blocks.now (length out.old) (length tally.old) }
    ensures out_after { out.new ≡ volume_shown_in Strict footprint Srgb8 width height depth blocks.now out.old (length tally.old) }
    ensures tally_after { tally.new ≡ volumeTallyShown Strict footprint Srgb8 width height depth blocks.now (length out.old) tally.old }
{
    volume_numbers::volume_srgb8(
        Reading::Strict,
        footprint,
        width,
        height,
        depth,
        blocks,
        out,
        tally,
    )
}

// In kind 2.
#[unsafe(no_mangle)]
pub extern "C" fn stallbrook_astc_strict_decode_volume_float16(
    footprint: u8,
    width: u32,
    height: u32,
    depth: u32,
    blocks: &[u8],
    out: &mut [u16],
    tally: &mut [u64],
) -> u8
    ensures value { result ≡ volume_number_in Strict footprint Float16 width height depth blocks.now (length out.old) (length tally.old) }
    ensures out_after { out.new ≡ volume_shown_in Strict footprint Float16 width height depth blocks.now out.old (length tally.old) }
    ensures tally_after { tally.new ≡ volumeTallyShown Strict footprint Float16 width height depth blocks.now (length out.old) tally.old }
{
    volume_numbers::volume_words(
        Reading::Strict,
        Kind::Float16,
        footprint,
        width,
        height,
        depth,
        blocks,
        out,
        tally,
    )
}

// ---- the faults of an image, and symbolic blocks (01: sheets)

// The fault of each block in the strict reading: as `stallbrook_astc_image_faults`.
#[unsafe(no_mangle)]
pub extern "C" fn stallbrook_astc_strict_image_faults(
    footprint: u8,
    kind: u8,
    width: u32,
    height: u32,
    blocks: &[u8],
    faults: &mut [u8],
    tally: &mut [u64],
) -> u8
    ensures value { result ≡ faults_number Strict footprint kind width height blocks.now (length faults.old) (length tally.old) }
    ensures faults_after { faults.new ≡ faults_shown Strict footprint kind width height blocks.now faults.old (length tally.old) }
    ensures tally_after { tally.new ≡ faults_tally Strict footprint kind width height blocks.now (length faults.old) tally.old }
{
    fault_numbers::faults_told(
        Reading::Strict,
        footprint,
        kind,
        width,
        height,
        blocks,
        faults,
        tally,
    )
}

// As stallbrook_astc_read_symbolic, and 21 with zeros in `numbers` and `spare`.
#[unsafe(no_mangle)]
pub extern "C" fn stallbrook_astc_strict_read_symbolic(
    footprint: u8,
    block: &[u8],
    numbers: &mut [u16],
    spare: &mut [u16],
) -> u8
    ensures value { result ≡ put_number (sheet_in Strict footprint block.now) (length numbers.old) (length spare.old) }
    ensures numbers_after { numbers.new ≡ put_numbers (sheet_in Strict footprint block.now) numbers.old (length spare.old) }
    ensures spare_after { spare.new ≡ put_spare (sheet_in Strict footprint block.now) (length numbers.old) spare.old }
{
    let reading = strict_reader::read_strict(footprint, block);
    symbolic_numbers::put_reading(reading, numbers, spare)
}

// ---- the canonical form

// Of a block, in a buffer of 16 bytes: 0, or the fault's number by kind 2's list with the block as it is, or the refusal's, 1, 4 or 5, with `out` as
// it was.
#[unsafe(no_mangle)]
pub extern "C" fn stallbrook_astc_canonical_block(footprint: u8, block: &[u8], out: &mut [u8]) -> u8
    ensures value { result ≡ number_told (one_answer footprint block.now (length out.old)) }
    ensures out_after { out.new ≡ one_out footprint block.now out.old }
{
    block_answer::number_told(canonical_image::canonical_block(footprint, block, out))
}

// The first refusal of an image's rewriting, else 5.
fn refusal_or_5(footprint: u8, width: u32, height: u32, bytes: usize, places: usize) -> Refusal
    ensures { refusal_number result ≡ refusal_or5 (canonical_refusal footprint width height bytes places) }
{
    match canonical_image::check_image(footprint, width, height, bytes, places) {
        Err(refusal) => refusal,
        Ok(()) => Refusal::Places,
    }
}

// Of all blocks of an image, in a buffer of as many bytes: 0 or the refusal's number, 1, 3, 4 or 5, with `out` as it was. `tally` gets the count of
// blocks with a fault by kind 2's list, which are left as they are, and the raster index and fault of the first one, zeros on a refusal; where it is
// not of 3 numbers the call is refused by 1, 3, 4 or else 5, and writes nothing.
#[unsafe(no_mangle)]
pub extern "C" fn stallbrook_astc_canonical_image(
    footprint: u8,
    width: u32,
    height: u32,
    blocks: &[u8],
    out: &mut [u8],
    tally: &mut [u64],
) -> u8
    ensures value { result ≡ canonical_number footprint width height blocks.now (length out.old) (length tally.old) }
    ensures out_after { out.new ≡ canonical_shown footprint width height blocks.now out.old (length tally.old) }
    ensures tally_after { tally.new ≡ canonical_tally footprint width height blocks.now (length out.old) tally.old }
{
    if tally.len() != 3 {
        return refusal_or_5(footprint, width, height, blocks.len(), out.len()).into();
    }
    let answer = canonical_image::canonical_frame(footprint, width, height, blocks, out);
    image_numbers::put_tally(image_numbers::tally_told(answer), tally);
    reason::refusal_told(answer)
}

// The same in place.
#[unsafe(no_mangle)]
pub extern "C" fn stallbrook_astc_canonical_in_place(
    footprint: u8,
    width: u32,
    height: u32,
    blocks: &mut [u8],
    tally: &mut [u64],
) -> u8
    ensures value { result ≡ canonical_number footprint width height blocks.old (length blocks.old) (length tally.old) }
    ensures blocks_after { blocks.new ≡ canonical_shown footprint width height blocks.old blocks.old (length tally.old) }
    ensures tally_after { tally.new ≡ canonical_tally footprint width height blocks.old (length blocks.old) tally.old }
{
    if tally.len() != 3 {
        return refusal_or_5(footprint, width, height, blocks.len(), blocks.len()).into();
    }
    let answer = canonical_image::canonical_in_place(footprint, width, height, blocks);
    image_numbers::put_tally(image_numbers::tally_told(answer), tally);
    reason::refusal_told(answer)
}
