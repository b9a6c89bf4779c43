// The reasons that calls tell: why a call is refused, and what is wrong with a block, each with its number.
#![tactic(auto)]

ghost use Rattle.std.specs.Prelude.{◌≡◌};
ghost use Rattle.reason.specs.declared.Refusal.TheVariants.{Faulty};
ghost use Rattle.reason.specs.Numbers.{fault_number, refusal_number, fault_told, refusal_told};

// What is wrong with an ASTC block. The first that holds is told.
#[derive(Clone, Copy, Debug, PartialEq, Eq)]
pub enum Fault {
    // 11
    ReservedMode,
    // 12
    VoidExtent,
    // 13
    HdrVoidExtent,
    // 14
    GridTooLarge,
    // 15
    TooManyWeights,
    // 16
    WeightBits,
    // 17
    FourWithTwoPlanes,
    // 18
    TooManyEndpoints,
    // 19
    EndpointBits,
    // 20
    HdrEndpoints,
    // 21, in the strict reading alone
    NotCanonical,
}

// Why a call is refused. A refused call writes no texel.
#[derive(Clone, Copy, Debug, PartialEq, Eq)]
pub enum Refusal {
    // 1
    Footprint,
    // 2
    Kind,
    // 3
    Side,
    // 4
    Bytes,
    // 5
    Places,
    // 11 to 20: a symbolic block whose block would have this fault
    Faulty(Fault),
    // 31
    Field,
    // 32
    BlockMode,
    // 33
    Modes,
    // 34
    Numbers,
    // 35
    HdrMark,
    // 41
    ShortFile,
    // 42
    FileStart,
    // 43
    FileShape,
    // 44
    Place,
    // 51
    ClipVersion,
    // 52
    FrameLength,
    // 53
    ClipEnd,
    // 61
    PvrtcSide,
    // 72
    Bc7Mode,
    // 73
    Bc7Field,
}

impl From<Fault> for u8 {
    ghost from_gives = { λ f n. n ≡ fault_number f };

    fn from(fault: Fault) -> u8 {
        match fault {
            Fault::ReservedMode => 11,
            Fault::VoidExtent => 12,
            Fault::HdrVoidExtent => 13,
            Fault::GridTooLarge => 14,
            Fault::TooManyWeights => 15,
            Fault::WeightBits => 16,
            Fault::FourWithTwoPlanes => 17,
            Fault::TooManyEndpoints => 18,
            Fault::EndpointBits => 19,
            Fault::HdrEndpoints => 20,
            Fault::NotCanonical => 21,
        }
    }
}

impl From<Fault> for Refusal {
    ghost from_gives = { λ f r. r ≡ Faulty f };

    fn from(fault: Fault) -> Refusal {
        Refusal::Faulty(fault)
    }
}

impl From<Refusal> for u8 {
    ghost from_gives = { λ r n. n ≡ refusal_number r };

    fn from(refusal: Refusal) -> u8 {
        match refusal {
            Refusal::Footprint => 1,
            Refusal::Kind => 2,
            Refusal::Side => 3,
            Refusal::Bytes => 4,
            Refusal::Places => 5,
            Refusal::Faulty(fault) => fault.into(),
            Refusal::Field => 31,
            Refusal::BlockMode => 32,
            Refusal::Modes => 33,
            Refusal::Numbers => 34,
            Refusal::HdrMark => 35,
            Refusal::ShortFile => 41,
            Refusal::FileStart => 42,
            Refusal::FileShape => 43,
            Refusal::Place => 44,
            Refusal::ClipVersion => 51,
            Refusal::FrameLength => 52,
            Refusal::ClipEnd => 53,
            Refusal::PvrtcSide => 61,
            Refusal::Bc7Mode => 72,
            Refusal::Bc7Field => 73,
        }
    }
}

// The number of a block's fault, 0 for none.
pub fn fault_told(fault: Option<Fault>) -> u8
    ensures { result ≡ fault_told fault }
{
    match fault {
        Some(fault) => fault.into(),
        None => 0,
    }
}

// The number of a refusal, 0 for none.
pub fn refusal_told<T: Drop>(answer: Result<T, Refusal>) -> u8
    ensures { result ≡ refusal_told answer }
{
    match answer {
        Ok(_) => 0,
        Err(refusal) => refusal.into(),
    }
}
