// The header of .astc files over lent lists: three numbers, or sixteen bytes.
#![tactic(auto)]

ghost use Rattle.std.specs.Prelude.{◌≡◌, [], ◌∷◌, length};
ghost use Rattle.reason.specs.Numbers.{refusal_told};
ghost use Rattle.astc_header.specs.Header.{told_of};
ghost use Rattle.astc_numbers.specs.Numbers.{then_five, header_numbers, read_number, read_numbers, write_number, write_bytes};

use astc_header::FileHeader;
use reason::Refusal;

// The refusal, or 5 after it where a list has another length.
fn then_five<T: Drop>(answer: Result<T, Refusal>, n: usize, wanted: usize) -> u8
    ensures { result ≡ then_five (refusal_told answer) n wanted }
{
    match answer {
        Err(refusal) => refusal.into(),
        Ok(_) => { if n == wanted { 0 } else { 5 } }
    }
}

// What is told of the header: zeros on a refusal.
fn header_told(answer: Result<FileHeader, Refusal>) -> FileHeader
    ensures { result.footprint ∷ result.width ∷ result.height ∷ [] ≡ header_numbers (told_of answer) }
{
    answer.unwrap_or(FileHeader {
        footprint: 0,
        width: 0,
        height: 0,
    })
}

fn put_header(h: FileHeader, header: &mut [u32])
    requires { length header.old ≡ 3 }
    ensures { header.new ≡ h.footprint ∷ h.width ∷ h.height ∷ [] }
{
    header[0] = h.footprint as u32;
    header[1] = h.width;
    header[2] = h.height;
}

// The header of a whole file: 0, or the refusal with zeros; a list that is not of three numbers is refused by 5, last, and left as it was.
pub fn read_numbers(file: &[u8], header: &mut [u32]) -> u8
    ensures value { result ≡ read_number file.now (length header.old) }
    ensures header_after { header.new ≡ read_numbers file.now header.old }
{
    let answer = astc_header::read_header(file);
    let number = then_five(answer, header.len(), 3);
    if header.len() != 3 {
        return number;
    }
    put_header(header_told(answer), header);
    number
}

// A file's header: 0, or the refusal with zeros; a list that is not of sixteen bytes is refused by 5, last, and left as it was.
pub fn write_numbers(footprint: u8, width: u32, height: u32, header: &mut [u8]) -> u8
    ensures value { result ≡ write_number footprint width height (length header.old) }
    ensures header_after { header.new ≡ write_bytes footprint width height header.old }
{
    let written = astc_header::write_header(footprint, width, height);
    let number = then_five(written, header.len(), 16);
    if header.len() != 16 {
        return number;
    }
    byte_list::put_block(written.unwrap_or([0u8; 16]), header);
    number
}
