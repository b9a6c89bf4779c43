// The faults of an image over lent lists, with the tally of the image calls, in a reading.
#![tactic(auto)]

ghost use Rattle.std.specs.Prelude.{◌≡◌, length};
ghost use Rattle.reason.specs.Numbers.{refusal_number};
ghost use Rattle.image_numbers.specs.Calls.{refusal_or5};
ghost use Rattle.image_faults.specs.Faults.{faults_refusal};
ghost use Rattle.fault_numbers.specs.Calls.{faults_number, faults_shown, faults_tally};

use block_reading::Reading;
use reason::Refusal;

// The first refusal, else 5.
fn refusal_or_5(
    footprint: u8,
    kind: u8,
    width: u32,
    height: u32,
    bytes: usize,
    places: usize,
) -> Refusal
    ensures { refusal_number result ≡ refusal_or5 (faults_refusal footprint kind width height bytes places) }
{
    match image_faults::check(footprint, kind, width, height, bytes, places) {
        Err(refusal) => refusal,
        Ok(()) => Refusal::Places,
    }
}

// The fault of each block, 0 for none, in raster order: 0, or the refusal's number with `faults` as it was; `tally` as in the image calls.
pub fn faults_told(
    reading: Reading,
    footprint: u8,
    kind: u8,
    width: u32,
    height: u32,
    blocks: &[u8],
    faults: &mut [u8],
    tally: &mut [u64],
) -> u8
    ensures value { result ≡ faults_number reading footprint kind width height blocks.now (length faults.old) (length tally.old) }
    ensures faults_after { faults.new ≡ faults_shown reading footprint kind width height blocks.now faults.old (length tally.old) }
    ensures tally_after { tally.new ≡ faults_tally reading footprint kind width height blocks.now (length faults.old) tally.old }
{
    if tally.len() != 3 {
        return refusal_or_5(footprint, kind, width, height, blocks.len(), faults.len()).into();
    }
    let answer = image_faults::image_faults(
        reading, footprint, kind, width, height, blocks, faults,
    );
    image_numbers::put_tally(image_numbers::tally_told(answer), tally);
    reason::refusal_told(answer)
}
