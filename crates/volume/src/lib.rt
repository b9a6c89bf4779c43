// The volume picture calls: blocks, x fastest, then y, then z, to the texels of a whole volume, in each kind, in the ordinary reading and in
// the strict one.
#![tactic(auto)]

ghost use Rattle.std.specs.Prelude.{◌≡◌, ◌*◌, ◌<◌, length};
ghost use Rattle.interpolation.specs.declared.Kind.TheVariants.{Unorm16, Srgb8, Float16};
ghost use Rattle.interpolation.specs.Expansion.{shown_of};
ghost use Rattle.block_reading.specs.declared.Reading.TheVariants.{Strict};
ghost use Rattle.one_block.specs.Calls.{Words};
ghost use Rattle.picture_regions.specs.inner.Regions.{Tile};
ghost use Rattle.image_layout.specs.Numbers.{fault_at_in};
ghost use Rattle.image_layout.specs.Faulty.{tally_of};
ghost use Rattle.image_layout.specs.Call.{told_of};
ghost use Rattle.volume_layout.specs.inner.Rows.{volume_picture};
ghost use Rattle.volume_layout.specs.Numbers.{volume_numbers_in};
ghost use Rattle.volume_layout.specs.Call.{volume_answer, volume_out, volume_told, volume_answer_in, volume_out_in, volume_told_in};
ghost use Rattle.volume_layout.specs.inner.Parts.{SoundGrid, volume_by_rows, PartFits, PlacedRows};

use block_reading::Reading;
use image_layout::Tally;
use interpolation::Kind;
use reason::Refusal;
use volume_layout::{VolumeGrid, VolumePart};

// ---- kinds 0 and 2: 16-bit numbers

// Copies a block's rows to its part of the volume, layer by layer.
fn place_numbers(buf: &[u16; 864], g: VolumeGrid, p: VolumePart, out: &mut [u16])
    requires sound_grid { SoundGrid g }
    requires part_fits { PartFits g p }
    requires out_len { length out.old ≡ 4 * (g.depth * g.height * g.width) }
    ensures { PlacedRows (shown_of Unorm16) g p (p.layers * p.rows) buf.now out.old out.new }
{
    for dz in 0..p.layers {
        for dy in 0..p.rows {
            image_parts::copy_numbers(buf, volume_parts::run_of(g, p, dy, dz), out);
        }
    }
}

// Shows block b, and answers its fault.
fn show_numbers(
    reading: Reading,
    g: VolumeGrid,
    kind: Kind,
    b: usize,
    s: &[u8],
    buf: &mut [u16; 864],
    out: &mut [u16],
) -> u8
    requires words { Words kind }
    requires sound_grid { SoundGrid g }
    requires b_bound { b < g.deep * g.down * g.across }
    requires s_len { length s.now ≡ 16 * (g.deep * g.down * g.across) }
    requires out_len { length out.old ≡ 4 * (g.depth * g.height * g.width) }
    requires buf_len { length buf.old ≡ 864 }
    ensures value { result ≡ fault_at_in reading g.footprint kind s.now b }
    ensures tile { Tile (volume_picture g) b (volume_by_rows reading g kind s.now) out.old out.new }
    ensures buf_len_2 { length buf.new ≡ 864 }
{
    let p = volume_parts::part_of(g, b);
    let block = image_parts::block_of(s, b);
    let fp = g.footprint;
    let volume = footprint::is_volume(fp);
    let e = strict_block::decode_in(reading, block, fp, volume, kind, buf);
    place_numbers(buf, g, p, out);
    e
}

// Shows every block and counts the faults.
fn decode_numbers(reading: Reading, g: VolumeGrid, kind: Kind, s: &[u8], out: &mut [u16]) -> Tally
    requires words { Words kind }
    requires sound_grid { SoundGrid g }
    requires s_len { length s.now ≡ 16 * (g.deep * g.down * g.across) }
    requires out_len { length out.old ≡ 4 * (g.depth * g.height * g.width) }
    ensures value { result ≡ tally_of (fault_at_in reading g.footprint kind s.now) (g.deep * g.down * g.across) }
    ensures out_after { out.new ≡ volume_numbers_in reading g.footprint kind g.width g.height g.depth s.now }
{
    let mut buf = image_parts::blank();
    let mut t = Tally {
        count: 0,
        first: 0,
        fault: 0,
    };
    let n = g.deep * g.down * g.across;
    for b in 0..n {
        let e = show_numbers(reading, g, kind, b, s, &mut buf, out);
        t = image_layout::note(t, b as u64, e);
    }
    t
}

// A volume in a kind of 16-bit numbers, kinds 0 and 2, in a reading.
pub fn decode_volume_words_in(
    reading: Reading,
    kind: Kind,
    fp: u8,
    width: u32,
    height: u32,
    depth: u32,
    blocks: &[u8],
    out: &mut [u16],
) -> Result<Tally, Refusal>
    requires { Words kind }
    ensures answer { volume_answer_in reading fp kind width height depth blocks.now (length out.old) result }
    ensures told { told_of result ≡ volume_told_in reading fp kind width height depth blocks.now (length out.old) }
    ensures volume { out.new ≡ volume_out_in reading fp kind width height depth blocks.now out.old }
{
    let g = volume_layout::check_volume(fp, width, height, depth, blocks.len(), out.len())?;
    Ok(decode_numbers(reading, g, kind, blocks, out))
}

// ---- kind 1: bytes

// Copies a block's rows to its part of the volume, layer by layer.
fn place_bytes(buf: &[u16; 864], g: VolumeGrid, p: VolumePart, out: &mut [u8])
    requires sound_grid { SoundGrid g }
    requires part_fits { PartFits g p }
    requires out_len { length out.old ≡ 4 * (g.depth * g.height * g.width) }
    ensures { PlacedRows (shown_of Srgb8) g p (p.layers * p.rows) buf.now out.old out.new }
{
    for dz in 0..p.layers {
        for dy in 0..p.rows {
            image_parts::copy_bytes(buf, volume_parts::run_of(g, p, dy, dz), out);
        }
    }
}

// Shows block b, and answers its fault.
fn show_bytes(
    reading: Reading,
    g: VolumeGrid,
    b: usize,
    s: &[u8],
    buf: &mut [u16; 864],
    out: &mut [u8],
) -> u8
    requires sound_grid { SoundGrid g }
    requires b_bound { b < g.deep * g.down * g.across }
    requires s_len { length s.now ≡ 16 * (g.deep * g.down * g.across) }
    requires out_len { length out.old ≡ 4 * (g.depth * g.height * g.width) }
    requires buf_len { length buf.old ≡ 864 }
    ensures value { result ≡ fault_at_in reading g.footprint Srgb8 s.now b }
    ensures tile { Tile (volume_picture g) b (volume_by_rows reading g Srgb8 s.now) out.old out.new }
    ensures buf_len_2 { length buf.new ≡ 864 }
{
    let p = volume_parts::part_of(g, b);
    let block = image_parts::block_of(s, b);
    let fp = g.footprint;
    let volume = footprint::is_volume(fp);
    let e = strict_block::decode_in(reading, block, fp, volume, Kind::Srgb8, buf);
    place_bytes(buf, g, p, out);
    e
}

// Shows every block and counts the faults.
fn decode_bytes(reading: Reading, g: VolumeGrid, s: &[u8], out: &mut [u8]) -> Tally
    requires sound_grid { SoundGrid g }
    requires s_len { length s.now ≡ 16 * (g.deep * g.down * g.across) }
    requires out_len { length out.old ≡ 4 * (g.depth * g.height * g.width) }
    ensures value { result ≡ tally_of (fault_at_in reading g.footprint Srgb8 s.now) (g.deep * g.down * g.across) }
    ensures out_after { out.new ≡ volume_numbers_in reading g.footprint Srgb8 g.width g.height g.depth s.now }
{
    let mut buf = image_parts::blank();
    let mut t = Tally {
        count: 0,
        first: 0,
        fault: 0,
    };
    let n = g.deep * g.down * g.across;
    for b in 0..n {
        let e = show_bytes(reading, g, b, s, &mut buf, out);
        t = image_layout::note(t, b as u64, e);
    }
    t
}

// A volume in kind 1, in a reading.
pub fn decode_volume_srgb8_in(
    reading: Reading,
    fp: u8,
    width: u32,
    height: u32,
    depth: u32,
    blocks: &[u8],
    out: &mut [u8],
) -> Result<Tally, Refusal>
    ensures answer { volume_answer_in reading fp Srgb8 width height depth blocks.now (length out.old) result }
    ensures told { told_of result ≡ volume_told_in reading fp Srgb8 width height depth blocks.now (length out.old) }
    ensures volume { out.new ≡ volume_out_in reading fp Srgb8 width height depth blocks.now out.old }
{
    let g = volume_layout::check_volume(fp, width, height, depth, blocks.len(), out.len())?;
    Ok(decode_bytes(reading, g, blocks, out))
}

// ---- the calls

// Kind 0: a volume to four 16-bit numbers for each texel.
pub fn decode_volume_unorm16(
    footprint: u8,
    width: u32,
    height: u32,
    depth: u32,
    blocks: &[u8],
    out: &mut [u16],
) -> Result<Tally, Refusal>
    ensures answer { volume_answer footprint Unorm16 width height depth blocks.now (length out.old) result }
    ensures told { told_of result ≡ volume_told footprint Unorm16 width height depth blocks.now (length out.old) }
    ensures volume { out.new ≡ volume_out footprint Unorm16 width height depth blocks.now out.old }
{
    decode_volume_words_in(
        Reading::Ordinary,
        Kind::Unorm16,
        footprint,
        width,
        height,
        depth,
        blocks,
        out,
    )
}

// Kind 1: a volume to four bytes for each texel, before the sRGB curve.
pub fn decode_volume_srgb8(
    footprint: u8,
    width: u32,
    height: u32,
    depth: u32,
    blocks: &[u8],
    out: &mut [u8],
) -> Result<Tally, Refusal>
    ensures answer { volume_answer footprint Srgb8 width height depth blocks.now (length out.old) result }
    ensures told { told_of result ≡ volume_told footprint Srgb8 width height depth blocks.now (length out.old) }
    ensures volume { out.new ≡ volume_out footprint Srgb8 width height depth blocks.now out.old }
{
    decode_volume_srgb8_in(
        Reading::Ordinary,
        footprint,
        width,
        height,
        depth,
        blocks,
        out,
    )
}

// Kind 2: a volume to four half floats for each texel, as their 16-bit patterns.
pub fn decode_volume_float16(
    footprint: u8,
    width: u32,
    height: u32,
    depth: u32,
    blocks: &[u8],
    out: &mut [u16],
) -> Result<Tally, Refusal>
    ensures answer { volume_answer footprint Float16 width height depth blocks.now (length out.old) result }
    ensures told { told_of result ≡ volume_told footprint Float16 width height depth blocks.now (length out.old) }
    ensures volume { out.new ≡ volume_out footprint Float16 width height depth blocks.now out.old }
{
    decode_volume_words_in(
        Reading::Ordinary,
        Kind::Float16,
        footprint,
        width,
        height,
        depth,
        blocks,
        out,
    )
}

// ---- the strict reading

// In kind 0.
pub fn decode_volume_unorm16_strict(
    footprint: u8,
    width: u32,
    height: u32,
    depth: u32,
    blocks: &[u8],
    out: &mut [u16],
) -> Result<Tally, Refusal>
    ensures answer { volume_answer_in Strict footprint Unorm16 width height depth blocks.now (length out.old) result }
    ensures told { told_of result ≡ volume_told_in Strict footprint Unorm16 width height depth blocks.now (length out.old) }
    ensures volume { out.new ≡ volume_out_in Strict footprint Unorm16 width height depth blocks.now out.old }
{
    decode_volume_words_in(
        Reading::Strict,
        Kind::Unorm16,
        footprint,
        width,
        height,
        depth,
        blocks,
        out,
    )
}

// In kind 1.
pub fn decode_volume_srgb8_strict(
    footprint: u8,
    width: u32,
    height: u32,
    depth: u32,
    blocks: &[u8],
    out: &mut [u8],
) -> Result<Tally, Refusal>
    ensures answer { volume_answer_in Strict footprint Srgb8 width height depth blocks.now (length out.old) result }
    ensures told { told_of result ≡ volume_told_in Strict footprint Srgb8 width height depth blocks.now (length out.old) }
    ensures volume { out.new ≡ volume_out_in Strict footprint Srgb8 width height depth blocks.now out.old }
{
    decode_volume_srgb8_in(
        Reading::Strict,
        footprint,
        width,
        height,
        depth,
        blocks,
        out,
    )
}

// In kind 2.
pub fn decode_volume_float16_strict(
    footprint: u8,
    width: u32,
    height: u32,
    depth: u32,
    blocks: &[u8],
    out: &mut [u16],
) -> Result<Tally, Refusal>
    ensures answer { volume_answer_in Strict footprint Float16 width height depth blocks.now (length out.old) result }
    ensures told { told_of result ≡ volume_told_in Strict footprint Float16 width height depth blocks.now (length out.old) }
    ensures volume { out.new ≡ volume_out_in Strict footprint Float16 width height depth blocks.now out.old }
{
    decode_volume_words_in(
        Reading::Strict,
        Kind::Float16,
        footprint,
        width,
        height,
        depth,
        blocks,
        out,
    )
}
