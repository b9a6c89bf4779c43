// Lines of decimal numbers (01, "The program"), into a lent buffer.
#![tactic(auto)]

ghost use Rattle.std.specs.Prelude.{◌≡◌, [], ◌∷◌, ◌++◌, ◌+◌, ◌*◌, ◌/◌, ◌%◌, ◌≤◌, ◌<◌, length, get_or};
ghost use Rattle.interpolation.specs.Expansion.{shown_of};
ghost use Rattle.line_text.specs.Lines.{decimal_digit, decimal, spaced, texel_line};
ghost use Rattle.line_text.specs.inner.Written.{Puts};

use interpolation::Kind;

// One byte more; answers where the text ends.
fn put_byte(out: &mut [u8], at: usize, b: u8) -> usize
    requires { at < length out.old }
    ensures value { result ≡ at + 1 }
    ensures puts { Puts out.old at ((b ∷ [])) out.new result }
{
    out[at] = b;
    at + 1
}

// The digit of a number at a power of ten; none where it would lead with 0.
fn put_digit(out: &mut [u8], at: usize, p: u16, n: u16) -> usize
    requires { (at < length out.old) × (0 < p) }
    ensures upper_bound { result ≤ at + 1 }
    ensures puts { Puts out.old at (decimal_digit p n) out.new result }
{
    if n < p {
        return at;
    }
    put_byte(out, at, 48 + (n / p % 10) as u8)
}

// The decimal digits of a number.
fn put_decimal(out: &mut [u8], at: usize, n: u16) -> usize
    requires { at + 5 ≤ length out.old }
    ensures upper_bound { result ≤ at + 5 }
    ensures puts { Puts out.old at (decimal n) out.new result }
{
    let a = put_digit(out, at, 10000, n);
    let b = put_digit(out, a, 1000, n);
    let c = put_digit(out, b, 100, n);
    let d = put_digit(out, c, 10, n);
    put_byte(out, d, 48 + (n % 10) as u8)
}

// A number after a space.
fn put_spaced(out: &mut [u8], at: usize, n: u16) -> usize
    requires { at + 6 ≤ length out.old }
    ensures upper_bound { result ≤ at + 6 }
    ensures puts { Puts out.old at ((32 ∷ decimal n)) out.new result }
{
    let end = put_byte(out, at, 32);
    put_decimal(out, end, n)
}

// The bytes of a word.
fn put_word(out: &mut [u8], at: usize, word: &[u8]) -> usize
    requires { at + length word.now ≤ length out.old }
    ensures value { result ≡ at + length word.now }
    ensures puts { Puts out.old at word.now out.new result }
{
    let mut end = at;
    for b in word {
        end = put_byte(out, end, *b);
    }
    end
}

// What a kind shows of a 16-bit number.
fn shown(kind: Kind, n: u16) -> u16
    ensures { result ≡ shown_of kind n }
{
    match kind {
        Kind::Unorm16 => n,
        Kind::Srgb8 => n / 256,
        Kind::Float16 => n,
    }
}

// A line "WORD N" from the front of the buffer.
pub fn put_told(out: &mut [u8], word: &[u8], n: u8) -> usize
    requires { length word.now + 7 ≤ length out.old }
    ensures upper_bound { result ≤ length word.now + 7 }
    ensures puts { Puts out.old 0 (word.now ++ spaced (n ∷ [])) out.new result }
{
    let a = put_word(out, 0, word);
    let b = put_spaced(out, a, n as u16);
    put_byte(out, b, 10)
}

// The line of texel k, "x y r g b a".
pub fn put_texel(
    out: &mut [u8],
    at: usize,
    width: u8,
    k: usize,
    kind: Kind,
    numbers: &[u16; 864],
) -> usize
    requires { (at + 36 ≤ length out.old) × (k < 144) × (0 < width) }
    ensures upper_bound { result ≤ at + 36 }
    ensures puts { Puts out.old at (texel_line width (λ i. shown_of kind (get_or numbers.now i 0)) k) out.new result }
{
    let columns = width as usize;
    let x = (k % columns) as u16;
    let y = (k / columns) as u16;
    let a = put_decimal(out, at, x);
    let b = put_spaced(out, a, y);
    let c = put_spaced(out, b, shown(kind, numbers[4 * k]));
    let d = put_spaced(out, c, shown(kind, numbers[4 * k + 1]));
    let e = put_spaced(out, d, shown(kind, numbers[4 * k + 2]));
    let f = put_spaced(out, e, shown(kind, numbers[4 * k + 3]));
    put_byte(out, f, 10)
}
