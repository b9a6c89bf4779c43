// The image calls: blocks in raster order to the texels of a whole image, in each kind, in the ordinary reading and in the strict one.
#![tactic(auto)]

ghost use Rattle.std.specs.Prelude.{◌≡◌, ◌*◌, ◌<◌, length};
ghost use Rattle.interpolation.specs.declared.Kind.TheVariants.{Unorm16, Srgb8, Float16};
ghost use Rattle.interpolation.specs.Expansion.{shown_of};
ghost use Rattle.block_reading.specs.declared.Reading.TheVariants.{Strict};
ghost use Rattle.one_block.specs.Calls.{Words};
ghost use Rattle.image_layout.specs.Numbers.{fault_at_in, image_number_at_in, image_numbers_in};
ghost use Rattle.image_layout.specs.Faulty.{tally_of};
ghost use Rattle.image_layout.specs.Call.{image_answer, image_out, image_told, image_answer_in, image_out_in, image_told_in, told_of};
ghost use Rattle.image_layout.specs.inner.Rows.{flat_picture};
ghost use Rattle.picture_regions.specs.inner.Regions.{Tile};
ghost use Rattle.texel_fill.specs.inner.Everywhere.{everywhere};
ghost use Rattle.image_layout.specs.inner.Parts.{SoundGrid, PartFits, PlacedRows};

use block_core::Decoded;
use block_reading::Reading;
use image_layout::{ImageGrid, Part, Tally};
use interpolation::{Kind, Texel};
use reason::Refusal;

// ---- kinds 0 and 2: 16-bit numbers

// Copies a block's rows to its part of the image.
fn place_numbers(buf: &[u16; 864], g: ImageGrid, p: Part, out: &mut [u16])
    requires sound_grid { SoundGrid g }
    requires part_fits { PartFits g p }
    requires out_len { length out.old ≡ 4 * (g.height * g.width) }
    ensures { PlacedRows (shown_of Unorm16) g p p.rows buf.now out.old out.new }
{
    for dy in 0..p.rows {
        image_parts::copy_numbers(buf, image_parts::run_of(g, p, dy), out);
    }
}

// Puts one texel at every place of a block's part of the image.
fn flood_numbers(t: Texel, g: ImageGrid, p: Part, out: &mut [u16])
    requires sound_grid { SoundGrid g }
    requires part_fits { PartFits g p }
    requires out_len { length out.old ≡ 4 * (g.height * g.width) }
    ensures { PlacedRows (shown_of Unorm16) g p p.rows (everywhere t) out.old out.new }
{
    for dy in 0..p.rows {
        let r = image_parts::run_of(g, p, dy);
        texel_fill::fill_numbers(t, r.at, p.columns, out);
    }
}

// Shows block b, and answers its fault.
fn show_numbers(
    reading: Reading,
    g: ImageGrid,
    kind: Kind,
    b: usize,
    s: &[u8],
    buf: &mut [u16; 864],
    out: &mut [u16],
) -> u8
    requires words { Words kind }
    requires sound_grid { SoundGrid g }
    requires b_bound { b < g.down * g.across }
    requires s_len { length s.now ≡ 16 * (g.down * g.across) }
    requires out_len { length out.old ≡ 4 * (g.height * g.width) }
    requires buf_len { length buf.old ≡ 864 }
    ensures value { result ≡ fault_at_in reading g.footprint kind s.now b }
    ensures tile { Tile (flat_picture g) b (image_number_at_in reading g.footprint kind g.width s.now) out.old out.new }
    ensures buf_len_2 { length buf.new ≡ 864 }
{
    let p = image_parts::part_of(g, b);
    let block = image_parts::block_of(s, b);
    let d = strict_block::decode_some_in(reading, block, g.footprint, false, kind, buf);
    match d {
        Decoded::Uniform(u) => {
            flood_numbers(u.texel, g, p, out);
            u.fault
        }
        Decoded::Buffered => {
            place_numbers(buf, g, p, out);
            0
        }
    }
}

// Shows every block, in raster order, and counts the faults.
fn decode_numbers(reading: Reading, g: ImageGrid, kind: Kind, s: &[u8], out: &mut [u16]) -> Tally
    requires words { Words kind }
    requires sound_grid { SoundGrid g }
    requires s_len { length s.now ≡ 16 * (g.down * g.across) }
    requires out_len { length out.old ≡ 4 * (g.height * g.width) }
    ensures value { result ≡ tally_of (fault_at_in reading g.footprint kind s.now) (g.down * g.across) }
    ensures out_after { out.new ≡ image_numbers_in reading g.footprint kind g.width g.height s.now }
{
    let mut buf = image_parts::blank();
    let mut t = Tally {
        count: 0,
        first: 0,
        fault: 0,
    };
    let n = g.down * g.across;
    for b in 0..n {
        let e = show_numbers(reading, g, kind, b, s, &mut buf, out);
        t = image_layout::note(t, b as u64, e);
    }
    t
}

// An image in a kind of 16-bit numbers, kinds 0 and 2, in a reading.
pub fn decode_words_in(
    reading: Reading,
    kind: Kind,
    fp: u8,
    width: u32,
    height: u32,
    blocks: &[u8],
    out: &mut [u16],
) -> Result<Tally, Refusal>
    requires { Words kind }
    ensures answer { image_answer_in reading fp kind width height blocks.now (length out.old) result }
    ensures told { told_of result ≡ image_told_in reading fp kind width height blocks.now (length out.old) }
    ensures image { out.new ≡ image_out_in reading fp kind width height blocks.now out.old }
{
    let grid = image_layout::check_image(fp, width, height, blocks.len(), out.len())?;
    Ok(decode_numbers(reading, grid, kind, blocks, out))
}

// In the ordinary reading.
pub fn decode_image_words(
    kind: Kind,
    footprint: u8,
    width: u32,
    height: u32,
    blocks: &[u8],
    out: &mut [u16],
) -> Result<Tally, Refusal>
    requires { Words kind }
    ensures answer { image_answer footprint kind width height blocks.now (length out.old) result }
    ensures told { told_of result ≡ image_told footprint kind width height blocks.now (length out.old) }
    ensures image { out.new ≡ image_out footprint kind width height blocks.now out.old }
{
    decode_words_in(
        Reading::Ordinary,
        kind,
        footprint,
        width,
        height,
        blocks,
        out,
    )
}

// Kind 0: an image to four 16-bit numbers for each texel.
pub fn decode_image_unorm16(
    footprint: u8,
    width: u32,
    height: u32,
    blocks: &[u8],
    out: &mut [u16],
) -> Result<Tally, Refusal>
    ensures answer { image_answer footprint Unorm16 width height blocks.now (length out.old) result }
    ensures told { told_of result ≡ image_told footprint Unorm16 width height blocks.now (length out.old) }
    ensures image { out.new ≡ image_out footprint Unorm16 width height blocks.now out.old }
{
    decode_image_words(Kind::Unorm16, footprint, width, height, blocks, out)
}

// Kind 2: an image to four half floats for each texel, as their 16-bit patterns.
pub fn decode_image_float16(
    footprint: u8,
    width: u32,
    height: u32,
    blocks: &[u8],
    out: &mut [u16],
) -> Result<Tally, Refusal>
    ensures answer { image_answer footprint Float16 width height blocks.now (length out.old) result }
    ensures told { told_of result ≡ image_told footprint Float16 width height blocks.now (length out.old) }
    ensures image { out.new ≡ image_out footprint Float16 width height blocks.now out.old }
{
    decode_image_words(Kind::Float16, footprint, width, height, blocks, out)
}

// ---- kind 1: bytes

// Copies a block's rows to its part of the image.
fn place_bytes(buf: &[u16; 864], g: ImageGrid, p: Part, out: &mut [u8])
    requires sound_grid { SoundGrid g }
    requires part_fits { PartFits g p }
    requires out_len { length out.old ≡ 4 * (g.height * g.width) }
    ensures { PlacedRows (shown_of Srgb8) g p p.rows buf.now out.old out.new }
{
    for dy in 0..p.rows {
        image_parts::copy_bytes(buf, image_parts::run_of(g, p, dy), out);
    }
}

// Puts one texel at every place of a block's part of the image.
fn flood_bytes(t: Texel, g: ImageGrid, p: Part, out: &mut [u8])
    requires sound_grid { SoundGrid g }
    requires part_fits { PartFits g p }
    requires out_len { length out.old ≡ 4 * (g.height * g.width) }
    ensures { PlacedRows (shown_of Srgb8) g p p.rows (everywhere t) out.old out.new }
{
    for dy in 0..p.rows {
        let r = image_parts::run_of(g, p, dy);
        texel_fill::fill_bytes(t, r.at, p.columns, out);
    }
}

// Shows block b, and answers its fault.
fn show_bytes(
    reading: Reading,
    g: ImageGrid,
    b: usize,
    s: &[u8],
    buf: &mut [u16; 864],
    out: &mut [u8],
) -> u8
    requires sound_grid { SoundGrid g }
    requires b_bound { b < g.down * g.across }
    requires s_len { length s.now ≡ 16 * (g.down * g.across) }
    requires out_len { length out.old ≡ 4 * (g.height * g.width) }
    requires buf_len { length buf.old ≡ 864 }
    ensures value { result ≡ fault_at_in reading g.footprint Srgb8 s.now b }
    ensures tile { Tile (flat_picture g) b (image_number_at_in reading g.footprint Srgb8 g.width s.now) out.old out.new }
    ensures buf_len_2 { length buf.new ≡ 864 }
{
    let p = image_parts::part_of(g, b);
    let block = image_parts::block_of(s, b);
    let d = strict_block::decode_some_in(reading, block, g.footprint, false, Kind::Srgb8, buf);
    match d {
        Decoded::Uniform(u) => {
            flood_bytes(u.texel, g, p, out);
            u.fault
        }
        Decoded::Buffered => {
            place_bytes(buf, g, p, out);
            0
        }
    }
}

// Shows every block, in raster order, and counts the faults.
fn decode_bytes(reading: Reading, g: ImageGrid, s: &[u8], out: &mut [u8]) -> Tally
    requires sound_grid { SoundGrid g }
    requires s_len { length s.now ≡ 16 * (g.down * g.across) }
    requires out_len { length out.old ≡ 4 * (g.height * g.width) }
    ensures value { result ≡ tally_of (fault_at_in reading g.footprint Srgb8 s.now) (g.down * g.across) }
    ensures out_after { out.new ≡ image_numbers_in reading g.footprint Srgb8 g.width g.height s.now }
{
    let mut buf = image_parts::blank();
    let mut t = Tally {
        count: 0,
        first: 0,
        fault: 0,
    };
    let n = g.down * g.across;
    for b in 0..n {
        let e = show_bytes(reading, g, b, s, &mut buf, out);
        t = image_layout::note(t, b as u64, e);
    }
    t
}

// An image in kind 1, in a reading.
pub fn decode_srgb8_in(
    reading: Reading,
    fp: u8,
    width: u32,
    height: u32,
    blocks: &[u8],
    out: &mut [u8],
) -> Result<Tally, Refusal>
    ensures answer { image_answer_in reading fp Srgb8 width height blocks.now (length out.old) result }
    ensures told { told_of result ≡ image_told_in reading fp Srgb8 width height blocks.now (length out.old) }
    ensures image { out.new ≡ image_out_in reading fp Srgb8 width height blocks.now out.old }
{
    let g = image_layout::check_image(fp, width, height, blocks.len(), out.len())?;
    Ok(decode_bytes(reading, g, blocks, out))
}

// Kind 1: an image to four bytes for each texel, before the sRGB curve.
pub fn decode_image_srgb8(
    footprint: u8,
    width: u32,
    height: u32,
    blocks: &[u8],
    out: &mut [u8],
) -> Result<Tally, Refusal>
    ensures answer { image_answer footprint Srgb8 width height blocks.now (length out.old) result }
    ensures told { told_of result ≡ image_told footprint Srgb8 width height blocks.now (length out.old) }
    ensures image { out.new ≡ image_out footprint Srgb8 width height blocks.now out.old }
{
    decode_srgb8_in(Reading::Ordinary, footprint, width, height, blocks, out)
}

// ---- the strict reading

// In kind 0.
pub fn decode_image_unorm16_strict(
    footprint: u8,
    width: u32,
    height: u32,
    blocks: &[u8],
    out: &mut [u16],
) -> Result<Tally, Refusal>
    ensures answer { image_answer_in Strict footprint Unorm16 width height blocks.now (length out.old) result }
    ensures told { told_of result ≡ image_told_in Strict footprint Unorm16 width height blocks.now (length out.old) }
    ensures image { out.new ≡ image_out_in Strict footprint Unorm16 width height blocks.now out.old }
{
    decode_words_in(
        Reading::Strict,
        Kind::Unorm16,
        footprint,
        width,
        height,
        blocks,
        out,
    )
}

// In kind 2.
pub fn decode_image_float16_strict(
    footprint: u8,
    width: u32,
    height: u32,
    blocks: &[u8],
    out: &mut [u16],
) -> Result<Tally, Refusal>
    ensures answer { image_answer_in Strict footprint Float16 width height blocks.now (length out.old) result }
    ensures told { told_of result ≡ image_told_in Strict footprint Float16 width height blocks.now (length out.old) }
    ensures image { out.new ≡ image_out_in Strict footprint Float16 width height blocks.now out.old }
{
    decode_words_in(
        Reading::Strict,
        Kind::Float16,
        footprint,
        width,
        height,
        blocks,
        out,
    )
}

// In kind 1.
pub fn decode_image_srgb8_strict(
    footprint: u8,
    width: u32,
    height: u32,
    blocks: &[u8],
    out: &mut [u8],
) -> Result<Tally, Refusal>
    ensures answer { image_answer_in Strict footprint Srgb8 width height blocks.now (length out.old) result }
    ensures told { told_of result ≡ image_told_in Strict footprint Srgb8 width height blocks.now (length out.old) }
    ensures image { out.new ≡ image_out_in Strict footprint Srgb8 width height blocks.now out.old }
{
    decode_srgb8_in(Reading::Strict, footprint, width, height, blocks, out)
}
