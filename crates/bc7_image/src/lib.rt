// The picture call of BC7: blocks in raster order to the texels of a whole picture.
#![tactic(auto)]

ghost use Rattle.std.specs.Prelude.{◌≡◌, ◌+◌, ◌*◌, ◌≤◌, ◌<◌, length, get_or};
ghost use Rattle.laws.specs.Table.{tab};
ghost use Rattle.image_layout.specs.Faulty.{tally_of};
ghost use Rattle.image_layout.specs.Call.{told_of};
ghost use Rattle.image_layout.specs.inner.Rows.{flat_picture};
ghost use Rattle.picture_regions.specs.inner.Regions.{Pasted, Tile};
ghost use Rattle.image_layout.specs.inner.Parts.{SoundGrid, PartFits, RunFits, PlacedRows};
ghost use Rattle.bc7_image.specs.Image.{bc7_fault_at, bc7_number_at, bc7_numbers, bc7_answer, bc7_told, bc7_out};

use image_layout::{ImageGrid, Part, Run, Tally};
use reason::Refusal;

// Room for a block's bytes.
fn blank() -> [u8; 64]
    ensures { length result ≡ 64 }
{
    [0u8; 64]
}

// A whole row of a block, four texels, so that it is read at once and nothing is known to lie between.
fn row_from(src: &[u8; 64], from: usize) -> [u8; 16]
    requires { from + 16 ≤ 64 }
    ensures { result ≡ tab (λ k. get_or src.now (from + k) 0) 16 }
{
    let mut row = [0u8; 16];
    for i in 0..16usize {
        row[i] = src[from + i];
    }
    row
}

// Puts it into the picture.
fn put_row(row: [u8; 16], out: &mut [u8], at: usize)
    requires { at + 16 ≤ length out.old }
    ensures { Pasted (λ n. n) row 0 16 out.old at out.new }
{
    for i in 0..16usize {
        out[at + i] = row[i];
    }
}

// Copies a run of a block's bytes, one by one.
fn copy_some(src: &[u8; 64], r: Run, out: &mut [u8])
    requires { RunFits r 64 (length out.old) }
    ensures { Pasted (λ n. n) src.now r.from r.n out.old r.at out.new }
{
    let from = r.from;
    let at = r.at;
    for i in 0..r.n {
        out[at + i] = src[from + i];
    }
}

// Copies a run of a block's bytes; a whole row at once.
fn copy_run(src: &[u8; 64], r: Run, out: &mut [u8])
    requires { RunFits r 64 (length out.old) }
    ensures { Pasted (λ n. n) src.now r.from r.n out.old r.at out.new }
{
    let from = r.from;
    let at = r.at;
    let n = r.n;
    if n == 16 {
        put_row(row_from(src, from), out, at);
    } else {
        copy_some(src, Run { from, at, n }, out);
    }
}

// Copies a block's rows to its part of the picture.
fn place(buf: &[u8; 64], g: ImageGrid, p: Part, out: &mut [u8])
    requires sound_grid { SoundGrid g }
    requires part_fits { PartFits g p }
    requires out_len { length out.old ≡ 4 * (g.height * g.width) }
    requires footprint_value { g.footprint ≡ 0 }
    ensures { PlacedRows (λ n. n) g p p.rows buf.now out.old out.new }
{
    for dy in 0..p.rows {
        copy_run(buf, image_parts::run_of(g, p, dy), out);
    }
}

// Shows block b, and answers its fault.
fn show(g: ImageGrid, b: usize, s: &[u8], buf: &mut [u8; 64], out: &mut [u8]) -> u8
    requires sound_grid { SoundGrid g }
    requires b_bound { b < g.down * g.across }
    requires s_len { length s.now ≡ 16 * (g.down * g.across) }
    requires out_len { length out.old ≡ 4 * (g.height * g.width) }
    requires buf_len { length buf.old ≡ 64 }
    requires footprint_value { g.footprint ≡ 0 }
    ensures value { result ≡ bc7_fault_at s.now b }
    ensures tile { Tile (flat_picture g) b (bc7_number_at g.width s.now) out.old out.new }
    ensures buf_len_2 { length buf.new ≡ 64 }
{
    let p = image_parts::part_of(g, b);
    let block = image_parts::block_of(s, b);
    let e = bc7_core::decode_into(block, buf);
    place(buf, g, p, out);
    e
}

// Shows every block, in raster order, and counts the faults.
fn decode(g: ImageGrid, s: &[u8], out: &mut [u8]) -> Tally
    requires sound_grid { SoundGrid g }
    requires s_len { length s.now ≡ 16 * (g.down * g.across) }
    requires out_len { length out.old ≡ 4 * (g.height * g.width) }
    requires footprint_value { g.footprint ≡ 0 }
    ensures value { result ≡ tally_of (bc7_fault_at s.now) (g.down * g.across) }
    ensures out_after { out.new ≡ bc7_numbers g.width g.height s.now }
{
    let mut buf = blank();
    let mut t = Tally {
        count: 0,
        first: 0,
        fault: 0,
    };
    let n = g.down * g.across;
    for b in 0..n {
        let e = show(g, b, s, &mut buf, out);
        t = image_layout::note(t, b as u64, e);
    }
    t
}

// A picture to four bytes R, G, B, A for each texel, rows first.
pub fn decode_image_bc7(
    width: u32,
    height: u32,
    blocks: &[u8],
    out: &mut [u8],
) -> Result<Tally, Refusal>
    ensures answer { bc7_answer width height blocks.now (length out.old) result }
    ensures told { told_of result ≡ bc7_told width height blocks.now (length out.old) }
    ensures image { out.new ≡ bc7_out width height blocks.now out.old }
{
    let g = image_layout::check_image(0, width, height, blocks.len(), out.len())?;
    Ok(decode(g, blocks, out))
}
