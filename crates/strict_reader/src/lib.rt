// The strict reader of symbolic blocks (01: sheets): the ordinary reading, and fault 21.
#![tactic(auto)]

ghost use Rattle.std.specs.Prelude.{◌≡◌};
ghost use Rattle.block_answer.specs.Told.{number_told};
ghost use Rattle.block_reading.specs.declared.Reading.TheVariants.{Strict};
ghost use Rattle.strict_reader.specs.Sheets.{sheet_in, sheet_told};

use block_answer::Answer;
use symbolic_reader::SymbolicReading;

// A block's symbolic block at a footprint, unless the block is not what the writer makes from it.
pub fn read_strict(fp: u8, block: &[u8]) -> SymbolicReading
    ensures value { result ≡ sheet_in Strict fp block.now }
    ensures answer_value { number_told result.answer ≡ sheet_told Strict fp block.now }
{
    let r = symbolic_reader::read_symbolic(fp, block);
    let answer = r.answer;
    let Answer::Done = answer else {
        return r;
    };
    let written = symbolic_writer::block_of(fp, r.block);
    if strict_block::same(bits::load(block), written) {
        return r;
    }
    symbolic_reader::told(Answer::Faulty(21))
}
