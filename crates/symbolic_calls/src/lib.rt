// The writer of symbolic blocks (01: sheets): a symbolic block to the sixteen bytes of a block.
#![tactic(auto)]

ghost use Rattle.std.specs.Prelude.{◌≡◌};
ghost use Rattle.block_answer.specs.Told.{number_told};
ghost use Rattle.symbolic_block.specs.Refusals.{refusal_of};
ghost use Rattle.symbolic_calls.specs.Writing.{writing_of};

use block_answer::Answer;
use symbolic_block::SymbolicBlock;

// The answer, and the block's bytes: zeros unless the answer is Done.
#[derive(Clone, Copy)]
pub struct Writing {
    pub answer: Answer,
    pub bytes: [u8; 16],
}

// The block of a symbolic block at a footprint.
pub fn write_symbolic(fp: u8, s: SymbolicBlock) -> Writing
    ensures value { result ≡ writing_of fp s }
    ensures answer_value { number_told result.answer ≡ refusal_of fp s }
{
    if let Err(refusal) = symbolic_refusal::refusal(fp, s) {
        return Writing {
            answer: Answer::Refused(refusal.into()),
            bytes: [0u8; 16],
        };
    }
    let bytes = bits::store(symbolic_writer::block_of(fp, s));
    Writing {
        answer: Answer::Done,
        bytes,
    }
}
