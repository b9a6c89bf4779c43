// A header that is read and written again, by the calls as they stand.
#![tactic(auto)]

ghost use Rattle.std.specs.Prelude.{◌≡◌, take};
ghost use Rattle.reason.specs.Answers.{answer_told, told_by};
ghost use Rattle.astc_header.specs.Header.{header_refusal};
ghost use Rattle.astc_round_trip.specs.Rewritten.{rewritten};

use reason::Refusal;

// The header of a whole file, read and written anew: the file's first sixteen bytes, or the reader's refusal.
pub fn rewrite(file: &[u8]) -> Result<[u8; 16], Refusal>
    ensures answer { rewritten file.now result }
    ensures told { answer_told result ≡ told_by (header_refusal file.now) (take 16 file.now) }
{
    let h = astc_header::read_header(file)?;
    astc_header::write_header(h.footprint, h.width, h.height)
}
