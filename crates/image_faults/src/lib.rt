// The faults of an image, block by block: settings are read, no texel is painted.
#![tactic(auto)]

ghost use Rattle.std.specs.Prelude.{◌≡◌, ◌*◌, ◌≤◌, ◌<◌, length};
ghost use Rattle.laws.specs.Table.{tab};
ghost use Rattle.bits.specs.Block.{block_number};
ghost use Rattle.reason.specs.Numbers.{refusal_told};
ghost use Rattle.interpolation.specs.Expansion.{takes_hdr};
ghost use Rattle.block_fault.specs.Faults.{fault_of};
ghost use Rattle.block_reading.specs.Faults.{fault_in};
ghost use Rattle.image_layout.specs.Numbers.{fault_at_in};
ghost use Rattle.image_layout.specs.Faulty.{tally_of};
ghost use Rattle.image_layout.specs.Call.{told_of};
ghost use Rattle.image_faults.specs.Faults.{faults_refusal, faults_answer, faults_told, faults_out};

use bits::PhysicalBlock;
use block_reading::Reading;
use image_layout::Tally;
use interpolation::Kind;
use reason::Refusal;

// A flat block's fault by the kind's list, 0 for none.
fn ordinary_fault(kind: Kind, fp: u8, block: PhysicalBlock) -> u8
    requires { fp ≤ 13 }
    ensures { result ≡ fault_of (takes_hdr kind) fp (block_number block) }
{
    match block_fault::read_settings(interpolation::takes_hdr(kind), false, block, fp) {
        Err(fault) => fault.into(),
        Ok(_) => 0,
    }
}

// The same by the list of a reading.
fn fault_of(reading: Reading, kind: Kind, fp: u8, block: PhysicalBlock) -> u8
    requires { fp ≤ 13 }
    ensures { result ≡ fault_in reading (takes_hdr kind) fp (block_number block) }
{
    match reading {
        Reading::Ordinary => ordinary_fault(kind, fp, block),
        Reading::Strict => strict_block::strict_fault(
            interpolation::takes_hdr(kind),
            fp,
            false,
            block,
        ),
    }
}

// The refusals in their order.
pub fn check(
    footprint: u8,
    kind: u8,
    width: u32,
    height: u32,
    bytes: usize,
    places: usize,
) -> Result<(), Refusal>
    ensures { refusal_told result ≡ faults_refusal footprint kind width height bytes places }
{
    if 13 < footprint {
        return Err(Refusal::Footprint);
    }
    if 2 < kind {
        return Err(Refusal::Kind);
    }
    image_size::check_size(footprint, width, height)?;
    let blocks = image_size::blocks_of(footprint, width, height) as usize;
    if bytes != 16 * blocks {
        return Err(Refusal::Bytes);
    }
    if places != blocks {
        return Err(Refusal::Places);
    }
    Ok(())
}

// Every block's fault, in raster order, and the count of them.
fn each_fault(
    reading: Reading,
    kind: Kind,
    footprint: u8,
    blocks: &[u8],
    faults: &mut [u8],
) -> Tally
    requires footprint_bound { footprint ≤ 13 }
    requires blocks_len { length blocks.now ≡ 16 * length faults.old }
    requires faults_len_bound { length faults.old ≤ 268435456 }
    ensures value { result ≡ tally_of (fault_at_in reading footprint kind blocks.now) (length faults.old) }
    ensures faults_after { faults.new ≡ tab (fault_at_in reading footprint kind blocks.now) (length faults.old) }
{
    let mut t = Tally {
        count: 0,
        first: 0,
        fault: 0,
    };
    for b in 0..faults.len() {
        let e = fault_of(reading, kind, footprint, image_parts::block_of(blocks, b));
        faults[b] = e;
        t = image_layout::note(t, b as u64, e);
    }
    t
}

// The fault of every block of an image by the list of a reading and of a kind, told by its number, in raster order, a byte each, 0 for none; and the tally
// of the image calls.
pub fn image_faults(
    reading: Reading,
    footprint: u8,
    kind: u8,
    width: u32,
    height: u32,
    blocks: &[u8],
    faults: &mut [u8],
) -> Result<Tally, Refusal>
    ensures answer { faults_answer reading footprint kind width height blocks.now (length faults.old) result }
    ensures told { told_of result ≡ faults_told reading footprint kind width height blocks.now (length faults.old) }
    ensures list { faults.new ≡ faults_out reading footprint kind width height blocks.now faults.old }
{
    check(footprint, kind, width, height, blocks.len(), faults.len())?;
    Ok(each_fault(
        reading,
        kind_number::kind_of(kind),
        footprint,
        blocks,
        faults,
    ))
}
