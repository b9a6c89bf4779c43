// The smallest code whose present digits are the wanted ones (01, "Packed numbers"), looked up; 256 where there is none.
#![tactic(auto)]

mod cut;
pub mod whole;

ghost use Rattle.std.specs.Prelude.{◌≡◌, [], ◌∷◌};
ghost use Rattle.encoding.specs.declared.Encoding.TheVariants.{Trits, Quints};
ghost use Rattle.integer_sequence.specs.Writing.{code_of};
ghost use Rattle.smallest_codes.specs.Smallest.{smallest_codes};

fn wide(x: u8) -> u64
    ensures { result ≡ x }
{
    x as u64
}

// The code of a whole group, by the table, which a caller of many groups makes once.
pub fn five_trits(table: &[u8; 243], d0: u64, d1: u64, d2: u64, d3: u64, d4: u64) -> u64
    requires { table.now ≡ smallest_codes Trits 5 }
    ensures { result ≡ code_of Trits (d0 ∷ d1 ∷ d2 ∷ d3 ∷ d4 ∷ []) }
{
    if 2 < d0 {
        return 256;
    }
    if 2 < d1 {
        return 256;
    }
    if 2 < d2 {
        return 256;
    }
    if 2 < d3 {
        return 256;
    }
    if 2 < d4 {
        return 256;
    }
    let at = ((((d4 * 3 + d3) * 3 + d2) * 3 + d1) * 3 + d0) as usize;
    wide(table[at])
}

// The codes of a cut group.
pub fn four_trits(d0: u64, d1: u64, d2: u64, d3: u64) -> u64
    ensures { result ≡ code_of Trits (d0 ∷ d1 ∷ d2 ∷ d3 ∷ []) }
{
    if 2 < d0 {
        return 256;
    }
    if 2 < d1 {
        return 256;
    }
    if 2 < d2 {
        return 256;
    }
    if 2 < d3 {
        return 256;
    }
    let table = cut::four_trits();
    let at = (((d3 * 3 + d2) * 3 + d1) * 3 + d0) as usize;
    wide(table[at])
}

pub fn three_trits(d0: u64, d1: u64, d2: u64) -> u64
    ensures { result ≡ code_of Trits (d0 ∷ d1 ∷ d2 ∷ []) }
{
    if 2 < d0 {
        return 256;
    }
    if 2 < d1 {
        return 256;
    }
    if 2 < d2 {
        return 256;
    }
    let table = cut::three_trits();
    let at = ((d2 * 3 + d1) * 3 + d0) as usize;
    wide(table[at])
}

pub fn two_trits(d0: u64, d1: u64) -> u64
    ensures { result ≡ code_of Trits (d0 ∷ d1 ∷ []) }
{
    if 2 < d0 {
        return 256;
    }
    if 2 < d1 {
        return 256;
    }
    let table = cut::two_trits();
    let at = (d1 * 3 + d0) as usize;
    wide(table[at])
}

pub fn one_trit(d0: u64) -> u64
    ensures { result ≡ code_of Trits (d0 ∷ []) }
{
    if 2 < d0 {
        return 256;
    }
    let table = cut::one_trit();
    let at = d0 as usize;
    wide(table[at])
}

// The code of a whole group, by the table, which a caller of many groups makes once.
pub fn three_quints(table: &[u8; 125], d0: u64, d1: u64, d2: u64) -> u64
    requires { table.now ≡ smallest_codes Quints 3 }
    ensures { result ≡ code_of Quints (d0 ∷ d1 ∷ d2 ∷ []) }
{
    if 4 < d0 {
        return 256;
    }
    if 4 < d1 {
        return 256;
    }
    if 4 < d2 {
        return 256;
    }
    let at = ((d2 * 5 + d1) * 5 + d0) as usize;
    wide(table[at])
}

// The codes of a cut group.
pub fn two_quints(d0: u64, d1: u64) -> u64
    ensures { result ≡ code_of Quints (d0 ∷ d1 ∷ []) }
{
    if 4 < d0 {
        return 256;
    }
    if 4 < d1 {
        return 256;
    }
    let table = cut::two_quints();
    let at = (d1 * 5 + d0) as usize;
    wide(table[at])
}

pub fn one_quint(d0: u64) -> u64
    ensures { result ≡ code_of Quints (d0 ∷ []) }
{
    if 4 < d0 {
        return 256;
    }
    let table = cut::one_quint();
    let at = d0 as usize;
    wide(table[at])
}
