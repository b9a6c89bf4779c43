// What a call of one block answers, and when it refuses.
#![tactic(auto)]

ghost use Rattle.std.specs.Prelude.{◌≡◌};
ghost use Rattle.block_answer.specs.Told.{block_refusal, number_told, answer_for};

// What a call comes to: refused or faulty, with 01's number, or done.
#[derive(Clone, Copy)]
pub enum Answer {
    Refused(u8),
    Faulty(u8),
    Done,
}

// 01's number of an answer.
pub fn number_told(a: Answer) -> u8
    ensures { result ≡ number_told a }
{
    match a {
        Answer::Refused(n) => n,
        Answer::Faulty(n) => n,
        Answer::Done => 0,
    }
}

// The first refusal that holds, 0 for none.
pub fn refusal(fp: u8, bytes: usize, numbers: usize) -> u8
    ensures { result ≡ block_refusal fp bytes numbers }
{
    if 23 < fp {
        return 1;
    }
    if bytes != 16 {
        return 4;
    }
    if numbers != 4 * (footprint::texels(fp) as usize) {
        return 5;
    }
    0
}

// The answer of a block that is not refused, by its fault.
pub fn answer_for(fault: u8) -> Answer
    ensures { result ≡ answer_for fault }
{
    if fault == 0 {
        Answer::Done
    } else {
        Answer::Faulty(fault)
    }
}
