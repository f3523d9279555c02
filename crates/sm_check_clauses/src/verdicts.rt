//! Verdicts on answers.

ghost use Rattle.std.specs.Prelude.{◌≡◌};
ghost use Rattle.sm_report.specs.Reasons.{IsReason};
ghost use Rattle.sm_check_clauses.specs.Verdicts.{number_of_reason};

/// Why an answer isn't right. The reasons are numbered from 1 in this order.
#[derive(Clone, Copy, Debug, PartialEq, Eq)]
pub enum Reason {
    /// A pair isn't acceptable, or an agent of it has no place left beside the pairs before it.
    NotAMatching,
    /// A pair blocks the matching.
    Blocked,
    /// The matching isn't the best one of its side.
    NotBest,
    /// A list isn't the reduced one, or an agent hasn't one list.
    WrongList,
    /// The rotation isn't the next one that is exposed.
    NotExposed,
    /// A rotation is exposed still.
    RotationMissing,
    /// The rotation needs others than these.
    WrongNeeds,
    /// The rotation changes the weight by another amount.
    WrongGain,
    /// The net hasn't this edge, or the edge was named before.
    NoEdge,
    /// Nothing flows along the edge, or more than it has room for.
    OverRoom,
    /// Something is lost or won at a rotation.
    NotConserved,
    /// The set lacks a rotation that is needed, or its matching isn't allowed.
    NotClosed,
    /// Another amount flows from the source.
    WrongValue,
    /// The cut of the set is another one.
    WrongCut,
    /// The cut isn't the value of the flow.
    CutDiffers,
    /// The matching has another weight.
    WrongTotal,
    /// The matching hasn't this pair, or it stood before, or a pair is missing.
    WrongPair,
    /// The set isn't the least one.
    NotLeast,
    /// The vector doesn't stand behind the one before it.
    NotRising,
    /// The conditions don't allow the matching.
    NotAllowed,
    /// There are more vectors than the limit.
    OverLimit,
    /// The list isn't broken off at the limit, or not behind its last vector.
    WrongTail,
    /// The matching has another regret.
    WrongRegret,
    /// A person stands twice or nowhere, or the parties are no stable partition.
    NotPartition,
    /// No party is odd and has three or more members.
    NoOddParty,
}

impl Reason {
    /// The number of the reason, from 1. Takes constant time.
    pub fn number(self) -> u32
        ensures number { result ≡ number_of_reason self }
        ensures reason { IsReason result }
    {
        match self {
            Reason::NotAMatching => 1,
            Reason::Blocked => 2,
            Reason::NotBest => 3,
            Reason::WrongList => 4,
            Reason::NotExposed => 5,
            Reason::RotationMissing => 6,
            Reason::WrongNeeds => 7,
            Reason::WrongGain => 8,
            Reason::NoEdge => 9,
            Reason::OverRoom => 10,
            Reason::NotConserved => 11,
            Reason::NotClosed => 12,
            Reason::WrongValue => 13,
            Reason::WrongCut => 14,
            Reason::CutDiffers => 15,
            Reason::WrongTotal => 16,
            Reason::WrongPair => 17,
            Reason::NotLeast => 18,
            Reason::NotRising => 19,
            Reason::NotAllowed => 20,
            Reason::OverLimit => 21,
            Reason::WrongTail => 22,
            Reason::WrongRegret => 23,
            Reason::NotPartition => 24,
            Reason::NoOddParty => 25,
        }
    }
}

/// What is found of an answer.
#[derive(Clone, Copy, Debug, PartialEq, Eq)]
pub enum Verdict {
    /// No clause fails.
    Yes,
    /// The first line at which one fails, and the first that fails there. Lines are counted from the number that the first line
    /// of the answer was said to have.
    No(u32, Reason),
}
