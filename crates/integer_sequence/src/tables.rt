// The digits of all 256 trit codes and 128 quint codes, a byte for each digit, four codes in a word: what a `match` gives is read from constant memory,
// where an array would be made anew at each call.
ghost use Rattle.std.specs.Prelude.{◌≡◌, ◌^◌, ◌<◌};
ghost use Rattle.encoding.specs.declared.Encoding.TheVariants.{Trits, Quints};
ghost use Rattle.integer_sequence.specs.inner.Entries.{digits_entry, four_entries};

// The digits of the codes 4i to 4i + 3, two bits further up for each.
fn trit_word(i: u8) -> u64
    requires { i < 64 }
    ensures { result ≡ four_entries Trits 2 i }
{
    match i {
        0 => 0x0000800024,
        1 => 0x0000801564,
        2 => 0x0000802AA4,
        3 => 0x0000AA2AA4,
        4 => 0x0000954024,
        5 => 0x0000955564,
        6 => 0x0000956AA4,
        7 => 0xAAAA800024,
        8 => 0x0055800024,
        9 => 0x0055801564,
        10 => 0x0055802AA4,
        11 => 0x0055AA2AA4,
        12 => 0x0055954024,
        13 => 0x0055955564,
        14 => 0x0055956AA4,
        15 => 0xAAAA801564,
        16 => 0x00AA800024,
        17 => 0x00AA801564,
        18 => 0x00AA802AA4,
        19 => 0x00AAAA2AA4,
        20 => 0x00AA954024,
        21 => 0x00AA955564,
        22 => 0x00AA956AA4,
        23 => 0xAAAA802AA4,
        24 => 0xAA00800024,
        25 => 0xAA00801564,
        26 => 0xAA00802AA4,
        27 => 0xAA00AA2AA4,
        28 => 0xAA00954024,
        29 => 0xAA00955564,
        30 => 0xAA00956AA4,
        31 => 0xAAAAAA2AA4,
        32 => 0x5500800024,
        33 => 0x5500801564,
        34 => 0x5500802AA4,
        35 => 0x5500AA2AA4,
        36 => 0x5500954024,
        37 => 0x5500955564,
        38 => 0x5500956AA4,
        39 => 0xAAAA954024,
        40 => 0x5555800024,
        41 => 0x5555801564,
        42 => 0x5555802AA4,
        43 => 0x5555AA2AA4,
        44 => 0x5555954024,
        45 => 0x5555955564,
        46 => 0x5555956AA4,
        47 => 0xAAAA955564,
        48 => 0x55AA800024,
        49 => 0x55AA801564,
        50 => 0x55AA802AA4,
        51 => 0x55AAAA2AA4,
        52 => 0x55AA954024,
        53 => 0x55AA955564,
        54 => 0x55AA956AA4,
        55 => 0xAAAA956AA4,
        56 => 0xAA55800024,
        57 => 0xAA55801564,
        58 => 0xAA55802AA4,
        59 => 0xAA55AA2AA4,
        60 => 0xAA55954024,
        61 => 0xAA55955564,
        62 => 0xAA55956AA4,
        _ => 0xAAAAAA6AA4,
    }
}

// The same, twelve bits further up for each.
fn quint_word(i: u8) -> u64
    requires { i < 32 }
    ensures { result ≡ four_entries Quints 12 i }
{
    match i {
        0 => 0x00003002001000,
        1 => 0x40404404400004,
        2 => 0x00103102101100,
        3 => 0x40414404401104,
        4 => 0x00203202201200,
        5 => 0x40424404402204,
        6 => 0x00303302301300,
        7 => 0x40434404403304,
        8 => 0x10013012011000,
        9 => 0x40440014410004,
        10 => 0x10113112111100,
        11 => 0x40441114411104,
        12 => 0x10213212211200,
        13 => 0x40442214412204,
        14 => 0x10313312311300,
        15 => 0x40443314413304,
        16 => 0x20023022021000,
        17 => 0x40043022420004,
        18 => 0x20123122121100,
        19 => 0x40143122421104,
        20 => 0x20223222221200,
        21 => 0x40243222422204,
        22 => 0x20323322321300,
        23 => 0x40343322423304,
        24 => 0x30033032031000,
        25 => 0x40041030430004,
        26 => 0x30133132131100,
        27 => 0x40141130431104,
        28 => 0x30233232231200,
        29 => 0x40241230432204,
        30 => 0x30333332331300,
        _ => 0x40341330433304,
    }
}

// The five trits of a code, a byte each, the first lowest.
pub fn trit_digits(code: u8) -> u64
    ensures { (result ≡ digits_entry Trits code) × (result < 2 ^ 40) }
{
    (trit_word(code / 4) >> (2 * ((code % 4) as u32))) & 0x0303030303
}

// The three quints of a code.
pub fn quint_digits(code: u8) -> u64
    requires { code < 128 }
    ensures { (result ≡ digits_entry Quints code) × (result < 2 ^ 40) }
{
    (quint_word(code / 4) >> (12 * ((code % 4) as u32))) & 0x070707
}
