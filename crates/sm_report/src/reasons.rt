//! Why an answer isn't right.

ghost use Rattle.std.specs.Prelude.{◌≡◌, ◌<◌, IfSome, position};
ghost use Rattle.std.specs.Str.{bytes_eq};
ghost use Rattle.sm_report.specs.Reasons.{IsReason, name_of_reason, reasons};

/// The names of the reasons, by number from 1.
static REASONS: [&[u8]; 25] = [
    b"NotAMatching",
    b"Blocked",
    b"NotBest",
    b"WrongList",
    b"NotExposed",
    b"RotationMissing",
    b"WrongNeeds",
    b"WrongGain",
    b"NoEdge",
    b"OverRoom",
    b"NotConserved",
    b"NotClosed",
    b"WrongValue",
    b"WrongCut",
    b"CutDiffers",
    b"WrongTotal",
    b"WrongPair",
    b"NotLeast",
    b"NotRising",
    b"NotAllowed",
    b"OverLimit",
    b"WrongTail",
    b"WrongRegret",
    b"NotPartition",
    b"NoOddParty",
];

/// The name of a reason, by its number.
pub(crate) fn reason_name(number: u32) -> &'static [u8]
    requires { IsReason number }
    ensures { result.now ≡ name_of_reason number }
{
    REASONS[number as usize - 1]
}

/// The place of a reason's name in the table.
pub(crate) fn reason_place(name: &[u8]) -> Option<usize>
    ensures place { result ≡ position (bytes_eq name.now) reasons }
    ensures in_range { IfSome result (λ at. at < 25) }
{
    REASONS.iter().position(|reason| name == *reason)
}
