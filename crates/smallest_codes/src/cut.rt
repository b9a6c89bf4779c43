// The smallest code of every list of digits of a cut group, a table for each length. What is not there may be any digit: of 2, 1, 0, 2
// it is 62, while that of 2, 1, 0, 2, 0 is 70.
ghost use Rattle.std.specs.Prelude.{◌≡◌};
ghost use Rattle.encoding.specs.declared.Encoding.TheVariants.{Trits, Quints};
ghost use Rattle.smallest_codes.specs.Smallest.{smallest_codes};

const ONE_TRIT: [u8; 3] = [0, 1, 2];

const TWO_TRITS: [u8; 9] = [0, 1, 2, 4, 5, 6, 8, 9, 10];

const THREE_TRITS: [u8; 27] = [
    0, 1, 2, 4, 5, 6, 8, 9, 10, 16, 17, 18, 20, 21, 22, 24, 25, 26, 3, 7, 11, 19, 23, 27, 12, 13,
    14,
];

const FOUR_TRITS: [u8; 81] = [
    0, 1, 2, 4, 5, 6, 8, 9, 10, 16, 17, 18, 20, 21, 22, 24, 25, 26, 3, 7, 11, 19, 23, 27, 12, 13,
    14, 32, 33, 34, 36, 37, 38, 40, 41, 42, 48, 49, 50, 52, 53, 54, 56, 57, 58, 35, 39, 43, 51, 55,
    59, 44, 45, 46, 28, 29, 30, 60, 61, 62, 72, 73, 74, 80, 81, 82, 84, 85, 86, 88, 89, 90, 31, 63,
    75, 83, 87, 91, 76, 77, 78,
];

const ONE_QUINT: [u8; 5] = [0, 1, 2, 3, 4];

const TWO_QUINTS: [u8; 25] = [
    0, 1, 2, 3, 4, 8, 9, 10, 11, 12, 16, 17, 18, 19, 20, 24, 25, 26, 27, 28, 5, 13, 21, 29, 6,
];

pub fn one_trit() -> [u8; 3]
    ensures { result ≡ smallest_codes Trits 1 }
{
    ONE_TRIT
}

pub fn two_trits() -> [u8; 9]
    ensures { result ≡ smallest_codes Trits 2 }
{
    TWO_TRITS
}

pub fn three_trits() -> [u8; 27]
    ensures { result ≡ smallest_codes Trits 3 }
{
    THREE_TRITS
}

pub fn four_trits() -> [u8; 81]
    ensures { result ≡ smallest_codes Trits 4 }
{
    FOUR_TRITS
}

pub fn one_quint() -> [u8; 5]
    ensures { result ≡ smallest_codes Quints 1 }
{
    ONE_QUINT
}

pub fn two_quints() -> [u8; 25]
    ensures { result ≡ smallest_codes Quints 2 }
{
    TWO_QUINTS
}
