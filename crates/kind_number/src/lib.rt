// The kinds by their numbers.
#![tactic(auto)]

ghost use Rattle.std.specs.Prelude.{◌≡◌};
ghost use Rattle.kind_number.specs.Kinds.{kind_of};

use interpolation::Kind;

// The kind of a number, which is at most 2.
pub fn kind_of(n: u8) -> Kind
    ensures { result ≡ kind_of n }
{
    if n == 0 {
        return Kind::Unorm16;
    }
    if n == 1 {
        return Kind::Srgb8;
    }
    Kind::Float16
}
