// Rows of words of a PVRTC1 image, unpacked: a window of two rows that moves down the image. Every word is unpacked once.
//
// A kept row has three numbers for each word: colour A, colour B and the word itself. It begins with the last word and ends with the first,
// so that neighbours lie side by side at the edges too.
#![tactic(auto)]

ghost use Rattle.std.specs.Prelude.{◌≡◌, ◌+◌, ◌-◌, ◌*◌, ◌/◌, ◌^◌, ◌≤◌, ◌<◌, length, get_or};
ghost use Rattle.laws.specs.inner.Filled.{Filled};
ghost use Rattle.pvrtc_texel.specs.Word.{colour_a, colour_b};
ghost use Rattle.pvrtc_texel.specs.Image.{word_at_place, word_at};
ghost use Rattle.pvrtc_word.specs.inner.Lanes.{lanes};
ghost use Rattle.pvrtc_rows.specs.inner.Rows.{WordsSized, around, put_three, WordRow, EndRows, Window};

// How many words a side of so many bits has.
pub fn words_along(bits: u32) -> usize
    requires { bits ≤ 10 }
    ensures { (result ≡ 2 ^ bits) × (0 < result) × (result ≤ 1024) }
{
    1 << bits
}

// Word i along a side of n, counted from the one before the first.
fn word_around(n: usize, i: usize) -> usize
    requires { (0 < n) × (n ≤ 1024) × (i ≤ 1026) }
    ensures { (result ≡ around n i) × (result < n) }
{
    (i + (n - 1)) % n
}

// The word at a place.
fn word_of(s: &[u8], place: usize) -> u64
    requires { 8 * place + 8 ≤ length s.now }
    ensures { result ≡ word_at_place s.now place }
{
    let at = 8 * place;
    let b = bits::load(&s[at..at + 8]);
    b.lo
}

// The word in column x and row y.
fn word_in(s: &[u8], xb: u32, yb: u32, x: usize, y: usize) -> u64
    requires words_sized { WordsSized xb yb s.now }
    requires x_bound { (x < 2 ^ xb) × (y < 2 ^ yb) }
    ensures { result ≡ word_at xb yb s.now x y }
{
    word_of(
        s,
        pvrtc_order::word_place(xb, yb, x as u32, y as u32) as usize,
    )
}

// Keeps a word at place i of a row.
fn keep_word(row: &mut [u64; 3078], i: usize, w: u64)
    requires { (length row.old ≡ 3078) × (i < 1026) }
    ensures { row.new ≡ put_three row.old i (lanes (colour_a w)) (lanes (colour_b w)) w }
{
    let at = 3 * i;
    row[at] = pvrtc_word::colour_a(w);
    row[at + 1] = pvrtc_word::colour_b(w);
    row[at + 2] = w;
}

// The numbers at place `from` of a row at place `to` too.
fn copy_word(row: &mut [u64; 3078], from: usize, to: usize)
    requires { (length row.old ≡ 3078) × (from < 1026) × (to < 1026) }
    ensures { row.new ≡ put_three row.old to (get_or row.old (3 * from) 0) (get_or row.old (3 * from + 1) 0) (get_or row.old (3 * from + 2) 0) }
{
    let a = row[3 * from];
    let b = row[3 * from + 1];
    let w = row[3 * from + 2];
    let at = 3 * to;
    row[at] = a;
    row[at + 1] = b;
    row[at + 2] = w;
}

// Unpacks row y of the words, each once; the two at the edges are copied.
fn unpack_row(s: &[u8], xb: u32, yb: u32, y: usize, row: &mut [u64; 3078])
    requires words_sized { WordsSized xb yb s.now }
    requires y_bound { (y < 2 ^ yb) × (length row.old ≡ 3078) }
    ensures { WordRow (2 ^ xb) (λ X. word_at xb yb s.now X y) row.new }
{
    let n = words_along(xb);
    for i in 0..n {
        let w = word_in(s, xb, yb, i, y);
        keep_word(row, i + 1, w);
    }
    copy_word(row, n, 0);
    copy_word(row, 1, n + 1);
}

// Copies the first n numbers of a row.
fn copy_row(n: usize, from: &[u64; 3078], to: &mut [u64; 3078])
    requires { (n ≤ 3078) × (length from.now ≡ 3078) × (length to.old ≡ 3078) }
    ensures filled { Filled (λ j. get_or from.now j 0) 0 to.new n }
    ensures to_len { length to.new ≡ 3078 }
{
    for j in 0..n {
        to[j] = from[j];
    }
}

// Row y of the words: the first and the last stand unpacked already and are copied, any other is unpacked.
fn fetch_row(
    s: &[u8],
    xb: u32,
    yb: u32,
    y: usize,
    first: &[u64; 3078],
    last: &[u64; 3078],
    row: &mut [u64; 3078],
)
    requires words_sized { WordsSized xb yb s.now }
    requires y_bound { (y < 2 ^ yb) × (length row.old ≡ 3078) }
    requires end_rows { EndRows xb yb s.now first.now last.now }
    ensures { WordRow (2 ^ xb) (λ X. word_at xb yb s.now X y) row.new }
{
    let numbers = 3 * (words_along(xb) + 2);
    if y == 0 {
        copy_row(numbers, first, row);
        return;
    }
    if y + 1 == words_along(yb) {
        copy_row(numbers, last, row);
        return;
    }
    unpack_row(s, xb, yb, y, row);
}

// The last row of the words, where the first one stands unpacked: a copy of it where there is one row only.
fn unpack_last(s: &[u8], xb: u32, yb: u32, first: &[u64; 3078], last: &mut [u64; 3078])
    requires words_sized { WordsSized xb yb s.now }
    requires last_len { length last.old ≡ 3078 }
    requires word_row { WordRow (2 ^ xb) (λ X. word_at xb yb s.now X 0) first.now }
    ensures { WordRow (2 ^ xb) (λ X. word_at xb yb s.now X (2 ^ yb - 1)) last.new }
{
    let m = words_along(yb);
    if m == 1 {
        copy_row(3 * (words_along(xb) + 2), first, last);
        return;
    }
    unpack_row(s, xb, yb, m - 1, last);
}

// Unpacks the first and the last row of the words, and sets the window at the top of the image, where the last one stands above the first.
// With one row it is both, and unpacked once.
pub fn start_window(
    s: &[u8],
    xb: u32,
    yb: u32,
    first: &mut [u64; 3078],
    last: &mut [u64; 3078],
    top: &mut [u64; 3078],
    bottom: &mut [u64; 3078],
)
    requires words_sized { WordsSized xb yb s.now }
    requires first_len { (length first.old ≡ 3078) × (length last.old ≡ 3078) × (length top.old ≡ 3078) × (length bottom.old ≡ 3078) }
    ensures end_rows { EndRows xb yb s.now first.new last.new }
    ensures window { Window xb yb s.now 0 top.new bottom.new }
{
    let numbers = 3 * (words_along(xb) + 2);
    unpack_row(s, xb, yb, 0, first);
    unpack_last(s, xb, yb, first, last);
    copy_row(numbers, last, top);
    copy_row(numbers, first, bottom);
}

// Moves the window to the rows of words about texel row y, from those about the row before.
pub fn move_window(
    s: &[u8],
    xb: u32,
    yb: u32,
    y: usize,
    first: &[u64; 3078],
    last: &[u64; 3078],
    top: &mut [u64; 3078],
    bottom: &mut [u64; 3078],
)
    requires words_sized { WordsSized xb yb s.now }
    requires y_bound { y < 4 * 2 ^ yb }
    requires end_rows { EndRows xb yb s.now first.now last.now }
    requires window { Window xb yb s.now ((y + 1) / 4) top.old bottom.old }
    ensures { Window xb yb s.now ((y + 2) / 4) top.new bottom.new }
{
    if (y + 2) % 4 != 0 {
        return;
    }
    let n = words_along(xb);
    copy_row(3 * (n + 2), bottom, top);
    let below = word_around(words_along(yb), (y + 2) / 4 + 1);
    fetch_row(s, xb, yb, below, first, last, bottom);
}
