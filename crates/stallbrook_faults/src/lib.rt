// The calls exported to C for the faults of an image's blocks, and for sizes.
#![tactic(auto)]

ghost use Rattle.std.specs.Prelude.{◌≡◌, length};
ghost use Rattle.block_reading.specs.declared.Reading.TheVariants.{Ordinary};
ghost use Rattle.fault_numbers.specs.Calls.{faults_number, faults_shown, faults_tally};
ghost use Rattle.volume_layout.specs.Call.{volume_blocks, volume_places};
ghost use Rattle.stallbrook_faults.specs.Calls.{image_block_count, buffer_numbers, block_number_count};

use block_reading::Reading;

// The fault of each block, 0 for none, in raster order: 0, or the refusal's number with `faults` as it was; `tally` as in the image calls.
#[unsafe(no_mangle)]
pub extern "C" fn stallbrook_astc_image_faults(
    footprint: u8,
    kind: u8,
    width: u32,
    height: u32,
    blocks: &[u8],
    faults: &mut [u8],
    tally: &mut [u64],
) -> u8
    ensures value { result ≡ faults_number Ordinary footprint kind width height blocks.now (length faults.old) (length tally.old) }
    ensures faults_after { faults.new ≡ faults_shown Ordinary footprint kind width height blocks.now faults.old (length tally.old) }
    ensures tally_after { tally.new ≡ faults_tally Ordinary footprint kind width height blocks.now (length faults.old) tally.old }
{
    fault_numbers::faults_told(
        Reading::Ordinary,
        footprint,
        kind,
        width,
        height,
        blocks,
        faults,
        tally,
    )
}

// How many blocks an image has: 0 where its footprint or a side is refused.
#[unsafe(no_mangle)]
pub extern "C" fn stallbrook_astc_image_blocks(footprint: u8, width: u32, height: u32) -> u64
    ensures { result ≡ image_block_count footprint width height }
{
    match image_size::check_size(footprint, width, height) {
        Err(_) => 0,
        Ok(()) => image_size::blocks_of(footprint, width, height) as u64,
    }
}

// How many numbers an image's result buffer takes: 0 where a side is refused.
#[unsafe(no_mangle)]
pub extern "C" fn stallbrook_astc_image_numbers(width: u32, height: u32) -> u64
    ensures { result ≡ buffer_numbers width height }
{
    if image_size::bad_side(width) {
        return 0;
    }
    if image_size::bad_side(height) {
        return 0;
    }
    4 * (height as u64 * width as u64)
}

// How many numbers a block's result buffer takes: 0 above footprint 23.
#[unsafe(no_mangle)]
pub extern "C" fn stallbrook_astc_block_numbers(footprint: u8) -> u32
    ensures { result ≡ block_number_count footprint }
{
    4 * footprint::texels(footprint) as u32
}

// How many blocks a volume has: 0 where its footprint or a size is refused.
#[unsafe(no_mangle)]
pub extern "C" fn stallbrook_astc_volume_blocks(
    footprint: u8,
    width: u32,
    height: u32,
    depth: u32,
) -> u64
    ensures { result ≡ volume_blocks footprint width height depth }
{
    volume_layout::volume_blocks(footprint, width, height, depth) as u64
}

// How many numbers a volume's result buffer takes: 0 where a size is refused.
#[unsafe(no_mangle)]
pub extern "C" fn stallbrook_astc_volume_numbers(width: u32, height: u32, depth: u32) -> u64
    ensures { result ≡ volume_places width height depth }
{
    volume_layout::volume_places(width, height, depth) as u64
}
