// Blocks rewritten in their canonical form: one block, and all blocks of an image, in a lent buffer or in place.
#![tactic(auto)]

ghost use Rattle.std.specs.Prelude.{◌≡◌, ◌*◌, ◌≤◌, length};
ghost use Rattle.interpolation.specs.declared.Kind.TheVariants.{Float16};
ghost use Rattle.image_layout.specs.Numbers.{fault_at};
ghost use Rattle.reason.specs.Numbers.{refusal_told};
ghost use Rattle.image_layout.specs.Faulty.{tally_of};
ghost use Rattle.image_layout.specs.Call.{told_of};
ghost use Rattle.canonical_image.specs.Frames.{one_refusal, one_answer, one_out, canonical_bytes, canonical_refusal, canonical_answer, canonical_told, canonical_out};

use block_answer::Answer;
use image_layout::Tally;
use reason::Refusal;

// The refusals of one block.
fn check_block(fp: u8, bytes: usize, places: usize) -> Result<(), Refusal>
    ensures { refusal_told result ≡ one_refusal fp bytes places }
{
    if 23 < fp {
        return Err(Refusal::Footprint);
    }
    if bytes != 16 {
        return Err(Refusal::Bytes);
    }
    if places != 16 {
        return Err(Refusal::Places);
    }
    Ok(())
}

// The canonical form of a block, in a lent buffer; a block with a fault as it is, and its fault is told.
pub fn canonical_block(fp: u8, block: &[u8], out: &mut [u8]) -> Answer
    ensures value { result ≡ one_answer fp block.now (length out.old) }
    ensures out_after { out.new ≡ one_out fp block.now out.old }
{
    match check_block(fp, block.len(), out.len()) {
        Err(refusal) => Answer::Refused(refusal.into()),
        Ok(()) => {
            let c = strict_block::canonical(fp, footprint::is_volume(fp), bits::load(block));
            byte_list::put_block(bits::store(c.block), out);
            block_answer::answer_for(c.fault)
        }
    }
}

// The refusals of an image.
pub fn check_image(
    fp: u8,
    width: u32,
    height: u32,
    bytes: usize,
    places: usize,
) -> Result<(), Refusal>
    ensures { refusal_told result ≡ canonical_refusal fp width height bytes places }
{
    image_size::check_size(fp, width, height)?;
    let blocks = image_size::blocks_of(fp, width, height);
    if bytes != 16 * (blocks as usize) {
        return Err(Refusal::Bytes);
    }
    if places != bytes {
        return Err(Refusal::Places);
    }
    Ok(())
}

// A loop and not the library's copy, which calls memmove: the archive would need it from outside.
fn copy(from: &[u8], out: &mut [u8])
    requires { length out.old ≡ length from.now }
    ensures { out.new ≡ from.now }
{
    for k in 0..out.len() {
        out[k] = from[k];
    }
}

// All n blocks, in raster order, and the count of faults.
fn rewrite(fp: u8, n: usize, blocks: &mut [u8]) -> Tally
    requires fp_bound { fp ≤ 13 }
    requires blocks_len { length blocks.old ≡ 16 * n }
    requires n_bound { n ≤ 268435456 }
    ensures value { result ≡ tally_of (fault_at fp Float16 blocks.old) n }
    ensures blocks_after { blocks.new ≡ canonical_bytes fp blocks.old }
{
    let mut t = Tally {
        count: 0,
        first: 0,
        fault: 0,
    };
    for b in 0..n {
        let c = strict_block::canonical(fp, false, image_parts::block_of(blocks, b));
        block_store::put(blocks, 16 * b, bits::store(c.block));
        t = image_layout::note(t, b as u64, c.fault);
    }
    t
}

// The blocks of an image into a lent buffer of the same length.
pub fn canonical_frame(
    fp: u8,
    width: u32,
    height: u32,
    blocks: &[u8],
    out: &mut [u8],
) -> Result<Tally, Refusal>
    ensures value { canonical_answer fp width height blocks.now (length out.old) result }
    ensures told { told_of result ≡ canonical_told fp width height blocks.now (length out.old) }
    ensures out_after { out.new ≡ canonical_out fp width height blocks.now out.old }
{
    check_image(fp, width, height, blocks.len(), out.len())?;
    copy(blocks, out);
    Ok(rewrite(fp, blocks.len() / 16, out))
}

// The blocks of an image in place.
pub fn canonical_in_place(
    fp: u8,
    width: u32,
    height: u32,
    blocks: &mut [u8],
) -> Result<Tally, Refusal>
    ensures value { canonical_answer fp width height blocks.old (length blocks.old) result }
    ensures told { told_of result ≡ canonical_told fp width height blocks.old (length blocks.old) }
    ensures blocks_after { blocks.new ≡ canonical_out fp width height blocks.old blocks.old }
{
    check_image(fp, width, height, blocks.len(), blocks.len())?;
    Ok(rewrite(fp, blocks.len() / 16, blocks))
}
