// A group of a sequence: the numbers that share a code, five with trits and three with quints; a number without digits is a group by itself.
ghost use Rattle.std.specs.Prelude.{◌≡◌, ◌<◌};
ghost use Rattle.encoding.specs.declared.Encoding.{Encoding};
ghost use Rattle.encoding.specs.declared.Encoding.TheVariants.{Bits, Trits, Quints};
ghost use Rattle.encoding.specs.Encoding.{group_size, sequence_bits};
ghost use Rattle.integer_sequence.specs.inner.Entries.{digits_entry, group_numbers};
ghost use Rattle.integer_sequence.specs.inner.Sequences.{Narrow};
ghost use Rattle.integer_sequence.specs.Reading.{code_at};

use crate::{reading, tables};

pub trait Group {
    ghost form: { Encoding };

    // How many numbers share a code.
    fn size() -> u32
        ensures { result ≡ group_size form };

    // The bits that a group takes, its numbers having b bits each.
    fn bits(b: u32) -> u32
        requires { Narrow form b }
        ensures { (result ≡ sequence_bits form b (group_size form)) × (result < 64) };

    // The digits of the first group of g, a byte each.
    fn digits(g: u64, b: u32) -> u64
        requires { Narrow form b }
        ensures { result ≡ digits_entry form (code_at form b g 0) };

    // The numbers of the first group of g, a byte each.
    fn numbers(g: u64, b: u32) -> u64
        requires { Narrow form b }
        ensures { result ≡ group_numbers form b g };
}

// A number without digits.
pub struct OneNumber;

impl Group for OneNumber {
    ghost form = { Bits };

    fn size() -> u32 {
        1
    }

    fn bits(b: u32) -> u32 {
        b
    }

    fn digits(_g: u64, _b: u32) -> u64 {
        0
    }

    fn numbers(g: u64, b: u32) -> u64 {
        reading::cut(g, 0, b)
    }
}

// Five numbers with a trit each.
pub struct FiveTrits;

impl Group for FiveTrits {
    ghost form = { Trits };

    fn size() -> u32 {
        5
    }

    fn bits(b: u32) -> u32 {
        5 * b + 8
    }

    fn digits(g: u64, b: u32) -> u64 {
        tables::trit_digits(reading::trit_code(g, b))
    }

    fn numbers(g: u64, b: u32) -> u64 {
        reading::trit_group(g, b)
    }
}

// Three numbers with a quint each.
pub struct ThreeQuints;

impl Group for ThreeQuints {
    ghost form = { Quints };

    fn size() -> u32 {
        3
    }

    fn bits(b: u32) -> u32 {
        3 * b + 7
    }

    fn digits(g: u64, b: u32) -> u64 {
        tables::quint_digits(reading::quint_code(g, b))
    }

    fn numbers(g: u64, b: u32) -> u64 {
        reading::quint_group(g, b)
    }
}
