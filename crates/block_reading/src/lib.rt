// The two readings of a block, and its canonical form: definitions and theorems.
#![tactic(auto)]

// 01's reading, and the strict one of request b: it has a fault more, 21.
#[derive(Clone, Copy)]
pub enum Reading {
    Ordinary,
    Strict,
}
