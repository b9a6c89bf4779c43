// The image call of PVRTC1, 4 bits per pixel: words in reflected Morton order to bytes R, G, B, A, rows first.
//
// Texels are made row by row. Between two rows of words' samples lie four rows of texels; both rows of words stand unpacked in a window, and
// the bottom one becomes the next top one. The first and the last row, which lie about both edges, are kept, so that each word is unpacked once.
// For a row of texels the window's samples are interpolated downwards first, once for each word, into a line, and then across, once for each
// texel.
#![tactic(auto)]

ghost use Rattle.std.specs.Prelude.{◌≡◌, ℕ, ◌+◌, ◌*◌, ◌/◌, ◌%◌, ◌^◌, ◌≤◌, ◌<◌, ltb, length};
ghost use Rattle.laws.specs.Choice.{pick};
ghost use Rattle.laws.specs.Table.{tab};
ghost use Rattle.reason.specs.Numbers.{refusal_told};
ghost use Rattle.pvrtc_texel.specs.Image.{image_texel, image_refusal, image_out};
ghost use Rattle.pvrtc_word.specs.inner.Lanes.{rgba_of};
ghost use Rattle.pvrtc_rows.specs.inner.Rows.{WordsSized, put_three, EndRows, Window};
ghost use Rattle.pvrtc_image.specs.inner.Lines.{between, rows_between, own_of, Low, Line, shown_on_line, Paintable, Painted, number_at};

use pvrtc_word::Rgba;
use reason::Refusal;

// Room for a row of 1,024 words and its two neighbours at the edges.
fn blank() -> [u64; 3078]
    ensures { length result ≡ 3078 }
{
    [0u64; 3078]
}

// The sum of a and b, 4 - p of the one and p of the other.
fn blend(p: u64, a: u64, b: u64) -> u64
    requires { (p < 4) × (a < 2 ^ 58) × (b < 2 ^ 58) }
    ensures { result ≡ between p a b }
{
    a * (4 - p) + b * p
}

// The word whose modulation a row of texels takes, of the one above and the one below.
fn own_word(p: u64, top: u64, bottom: u64) -> u64
    ensures { result ≡ pick (ltb p 2) top bottom }
{
    if p < 2 { top } else { bottom }
}

// Word i of a line.
fn blend_word(p: u64, i: usize, top: &[u64; 3078], bottom: &[u64; 3078], line: &mut [u64; 3078])
    requires i_bound { (i < 1026) × (p < 4) × (length line.old ≡ 3078) }
    requires low { Low (i + 1) top.now × Low (i + 1) bottom.now }
    ensures { line.new ≡ put_three line.old i (rows_between p top.now bottom.now (3 * i)) (rows_between p top.now bottom.now (3 * i + 1)) (own_of p top.now bottom.now (3 * i + 2)) }
{
    let at = 3 * i;
    let a = blend(p, top[at], bottom[at]);
    let b = blend(p, top[at + 1], bottom[at + 1]);
    let w = own_word(p, top[at + 2], bottom[at + 2]);
    line[at] = a;
    line[at + 1] = b;
    line[at + 2] = w;
}

// The line of a row of texels, p rows below the samples of the top row, of n words.
fn blend_rows(n: usize, p: u64, top: &[u64; 3078], bottom: &[u64; 3078], line: &mut [u64; 3078])
    requires n_bound { (n ≤ 1026) × (p < 4) × (length line.old ≡ 3078) }
    requires low { Low n top.now × Low n bottom.now }
    ensures { Line p top.now bottom.now line.new n }
{
    for i in 0..n {
        blend_word(p, i, top, bottom, line);
    }
}

// Texel x of a row y, from its line.
fn texel_in(line: &[u64; 3078], x: usize, y: usize) -> Rgba
    requires { (x < 4096) × Paintable line.now y x }
    ensures { result ≡ rgba_of (shown_on_line line.now y x) }
{
    let at = 3 * ((x + 2) / 4);
    let p = ((x + 2) % 4) as u64;
    let a = blend(p, line[at], line[at + 3]);
    let b = blend(p, line[at + 1], line[at + 4]);
    let w = line[3 * (x / 4) + 5];
    pvrtc_word::texel_of(a, b, w, (x % 4) as u64, (y % 4) as u64)
}

// Paints row y of an image w texels wide, from its line.
fn paint_row(line: &[u64; 3078], w: usize, y: usize, out: &mut [u8])
    requires w_bound { (w ≤ 4096) × (4 * (y * w) + 4 * w ≤ length out.old) }
    requires by_index { (x : ℕ) → x < w → Paintable line.now y x }
    ensures { Painted (λ k. shown_on_line line.now y (k / 4) (k % 4)) (4 * w) (4 * (y * w)) out.old out.new }
{
    let start = 4 * (y * w);
    for x in 0..w {
        let t = texel_in(line, x, y);
        let at = start + 4 * x;
        out[at] = t.r;
        out[at + 1] = t.g;
        out[at + 2] = t.b;
        out[at + 3] = t.a;
    }
}

// Shows row y of the texels, the window standing at the row before.
fn show_row(
    s: &[u8],
    xb: u32,
    yb: u32,
    y: usize,
    first: &[u64; 3078],
    last: &[u64; 3078],
    top: &mut [u64; 3078],
    bottom: &mut [u64; 3078],
    line: &mut [u64; 3078],
    out: &mut [u8],
)
    requires words_sized { WordsSized xb yb s.now }
    requires y_bound { (y < 4 * 2 ^ yb) × (length line.old ≡ 3078) }
    requires xb_in_bounds { 4 * (y * (4 * 2 ^ xb)) + 4 * (4 * 2 ^ xb) ≤ length out.old }
    requires end_rows { EndRows xb yb s.now first.now last.now }
    requires window { Window xb yb s.now ((y + 1) / 4) top.old bottom.old }
    ensures window_2 { Window xb yb s.now ((y + 2) / 4) top.new bottom.new }
    ensures line_len { length line.new ≡ 3078 }
    ensures painted { Painted (λ k. image_texel xb yb s.now (k / 4) y (k % 4)) (4 * (4 * 2 ^ xb)) (4 * (y * (4 * 2 ^ xb))) out.old out.new }
{
    pvrtc_rows::move_window(s, xb, yb, y, first, last, top, bottom);
    let n = pvrtc_rows::words_along(xb);
    blend_rows(n + 2, ((y + 2) % 4) as u64, top, bottom, line);
    paint_row(line, 4 * n, y, out);
}

// Shows every row of an image of so many bits of column and row.
fn show_rows(s: &[u8], xb: u32, yb: u32, out: &mut [u8])
    requires words_sized { WordsSized xb yb s.now }
    requires out_len { length out.old ≡ 4 * (4 * 2 ^ xb * (4 * 2 ^ yb)) }
    ensures { out.new ≡ tab (number_at xb yb s.now) (4 * (4 * 2 ^ xb * (4 * 2 ^ yb))) }
{
    let mut first = blank();
    let mut last = blank();
    let mut top = blank();
    let mut bottom = blank();
    let mut line = blank();
    pvrtc_rows::start_window(s, xb, yb, &mut first, &mut last, &mut top, &mut bottom);
    for y in 0..4 * pvrtc_rows::words_along(yb) {
        show_row(
            s,
            xb,
            yb,
            y,
            &first,
            &last,
            &mut top,
            &mut bottom,
            &mut line,
            out,
        );
    }
}

// An image of words to four bytes for each texel. On a refusal nothing is written.
pub fn decode_image(width: u32, height: u32, words: &[u8], out: &mut [u8]) -> Result<(), Refusal>
    ensures answer { refusal_told result ≡ image_refusal width height (length words.now) (length out.old) }
    ensures image { out.new ≡ image_out width height words.now out.old }
{
    pvrtc_texel::check_image(width, height, words.len(), out.len())?;
    show_rows(
        words,
        pvrtc_texel::side_bits(width),
        pvrtc_texel::side_bits(height),
        out,
    );
    Ok(())
}
