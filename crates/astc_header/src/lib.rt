// The header of .astc files: read from a whole file, and written.
#![tactic(auto)]

ghost use Rattle.std.specs.Prelude.{◌≡◌, ◌+◌, ◌^◌, ◌≤◌, ◌<◌, length};
ghost use Rattle.laws.specs.Choice.{both};
ghost use Rattle.astc_header.specs.Header.{same_four, has_start, footprint_for, size_at, header_in, known_shape, header_answer, file_blocks, told_of, header_told, header_bytes, written_header};
ghost use Rattle.astc_header.specs.inner.Parts.{form_refusal, header_bytes_with};
ghost use Rattle.image_size.specs.Sides.{size_refusal};
ghost use Rattle.reason.specs.Numbers.{refusal_told};
ghost use Rattle.reason.specs.Answers.{answer_told, told_by};

use reason::Refusal;

// What a header says: the footprint of the blocks, and the image's sides.
#[derive(Clone, Copy)]
pub struct FileHeader {
    pub footprint: u8,
    pub width: u32,
    pub height: u32,
}

// ---- reading

fn both(a: bool, b: bool) -> bool
    ensures { result ≡ both a b }
{
    if a { b } else { false }
}

fn wide(x: u8) -> u32
    ensures { (result ≡ x) × (result < 256) }
{
    x as u32
}

// The first four bytes of a file are these.
fn same_four(s: &[u8], t: &[u8; 4]) -> bool
    requires { 16 ≤ length s.now }
    ensures { result ≡ same_four s.now t.now }
{
    both(
        s[0] == t[0],
        both(s[1] == t[1], both(s[2] == t[2], s[3] == t[3])),
    )
}

// "must begin with the bytes 13 AB A1 5C".
fn has_start(s: &[u8]) -> bool
    requires { 16 ≤ length s.now }
    ensures { result ≡ has_start s.now }
{
    same_four(s, b"\x13\xAB\xA1\x5C")
}

// The footprint with these sides, 14 for none.
fn footprint_for(columns: u8, rows: u8) -> u8
    ensures { result ≡ footprint_for columns rows }
{
    for fp in 0..14u8 {
        if footprint::width(fp) == columns && footprint::height(fp) == rows {
            return fp;
        }
    }
    14
}

// The size of three bytes that begins at byte k, low byte first.
fn size_at(s: &[u8], k: usize) -> u32
    requires { (16 ≤ length s.now) × (k ≤ 13) }
    ensures { result ≡ size_at s.now k }
{
    wide(s[k]) + 256 * (wide(s[k + 1]) + 256 * wide(s[k + 2]))
}

// What the first sixteen bytes say.
fn header_in(s: &[u8]) -> FileHeader
    requires { 16 ≤ length s.now }
    ensures { result ≡ header_in s.now }
{
    FileHeader {
        footprint: footprint_for(s[4], s[5]),
        width: size_at(s, 7),
        height: size_at(s, 10),
    }
}

// A footprint of the list, depth 1 and third size 1.
fn known_shape(s: &[u8]) -> bool
    requires { 16 ≤ length s.now }
    ensures { result ≡ known_shape s.now }
{
    let h = header_in(s);
    both(h.footprint < 14, both(s[6] == 1, size_at(s, 13) == 1))
}

// Refuses a file of the wrong form: by its length, its start, then its shape.
fn check_form(s: &[u8]) -> Result<(), Refusal>
    ensures { refusal_told result ≡ form_refusal s.now }
{
    if s.len() < 16 {
        return Err(Refusal::ShortFile);
    }
    if !has_start(s) {
        return Err(Refusal::FileStart);
    }
    if !known_shape(s) {
        return Err(Refusal::FileShape);
    }
    Ok(())
}

// What the header of a whole file says.
pub fn read_header(file: &[u8]) -> Result<FileHeader, Refusal>
    ensures answer { header_answer file.now result }
    ensures told { told_of result ≡ header_told file.now }
{
    check_form(file)?;
    let h = header_in(file);
    image_size::check_size(h.footprint, h.width, h.height)?;
    let blocks = image_size::blocks_of(h.footprint, h.width, h.height);
    if file.len() - 16 != 16 * (blocks as usize) {
        return Err(Refusal::Bytes);
    }
    Ok(h)
}

// The blocks' bytes of a whole file: the part from byte 16 on; none on a refusal.
pub fn file_blocks(file: &[u8]) -> &[u8]
    ensures { result.now ≡ file_blocks file.now }
{
    match read_header(file) {
        Err(_) => &file[..0],
        Ok(_) => &file[16..],
    }
}

// ---- writing

// Sixteen bytes: the start, a block's sides and depth, the image's sides and the third size.
fn header_with(start: &[u8; 4], columns: u8, rows: u8, width: u32, height: u32) -> [u8; 16]
    requires { (width < 2 ^ 24) × (height < 2 ^ 24) }
    ensures { result ≡ header_bytes_with start.now columns rows width height }
{
    [
        start[0],
        start[1],
        start[2],
        start[3],
        columns,
        rows,
        1,
        (width % 256) as u8,
        (width / 256 % 256) as u8,
        (width / 256 / 256) as u8,
        (height % 256) as u8,
        (height / 256 % 256) as u8,
        (height / 256 / 256) as u8,
        1,
        0,
        0,
    ]
}

// The header of an image's file.
pub fn write_header(footprint: u8, width: u32, height: u32) -> Result<[u8; 16], Refusal>
    ensures answer { written_header footprint width height result }
    ensures told { answer_told result ≡ told_by (size_refusal footprint width height) (header_bytes footprint width height) }
{
    image_size::check_size(footprint, width, height)?;
    let columns = footprint::width(footprint);
    let rows = footprint::height(footprint);
    Ok(header_with(b"\x13\xAB\xA1\x5C", columns, rows, width, height))
}
