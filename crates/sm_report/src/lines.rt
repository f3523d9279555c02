//! The lines of answers.

use crate::heads::Head;

/// One of a reviewer's places, by the reviewer's number, from 0, and its own number, from 1.
#[derive(Clone, Copy, Debug, PartialEq, Eq)]
pub struct Seat {
    pub reviewer: u32,
    pub number: u32,
}

/// A line of an answer. Agents are numbered from 0, on the side that the variant names; rotations from 1.
#[derive(Debug, Drop)]
pub enum Line {
    /// What the answer answers.
    Answer(Head),
    /// A proposer and its reviewer, or two persons.
    Pair(u32, u32),
    /// There is no such matching.
    Nothing,
    /// A party of a stable partition, its persons in turn.
    Party(Vec<u32>),
    /// A person that no matching of the rest has: the lowest member of an odd party.
    Out(u32),
    /// A proposer and its seat in the proposers' best matching.
    First(u32, Seat),
    /// A proposer and its seat in the reviewers' best matching.
    Last(u32, Seat),
    /// A proposer and its reduced list, best first.
    ProposerList(u32, Vec<Seat>),
    /// A seat and its reduced list, best first.
    ReviewerList(Seat, Vec<u32>),
    /// A rotation, and its pairs in turn: each proposer with the seat that it leaves.
    Rotation(u32, Vec<(u32, Seat)>),
    /// A rotation, and which others have to be eliminated before it.
    Needs(u32, Vec<u32>),
    /// A rotation, and what its elimination adds to a matching's weight.
    Gain(u32, i64),
    /// A rotation, and what its elimination adds to a matching's second weight.
    SecondGain(u32, i64),
    /// What flows between two ends: from one, to the other, and how much. An end is a rotation, the source where it is 0,
    /// and the sink where it is the greatest `u32`.
    Flow(u32, u32, u64),
    /// The same of the second flow.
    SecondFlow(u32, u32, u64),
    /// The rotations that a matching is made by.
    Taken(Vec<u32>),
    /// What flows in all.
    Value(u64),
    /// What the second flow carries in all.
    SecondValue(u64),
    /// What the edges that leave the taken rotations let through.
    Cut(u64),
    /// The same of the edges of the second flow.
    SecondCut(u64),
    /// A matching's weight.
    Total(i64),
    /// A matching's second weight.
    SecondTotal(i64),
    /// A proposer and a reviewer who are partners in some stable matching, but not in all.
    SomePair(u32, u32),
    /// A proposer and a reviewer who are partners in all stable matchings.
    AllPair(u32, u32),
    /// A rank vector.
    Vector(Vec<u32>),
    /// The rank vector behind which a list is broken off.
    More(Vec<u32>),
    /// A matching's regret.
    Regret(u32),
    /// A pair of the first of two matchings that are given.
    LeftPair(u32, u32),
    /// A pair of the second.
    RightPair(u32, u32),
    /// A rotation that a step of a route takes back.
    Back(u32),
    /// A rotation that a step of a route eliminates.
    Forth(u32),
    /// How many matchings were listed.
    Listed(u32),
    /// A tally's tag and its figures.
    TallyLine(u32, Vec<u64>),
    /// The answer that was given is right.
    Yes,
    /// It is not: the first line that is at fault, from 1, and the number of the reason, from 1.
    No(u32, u32),
    /// The answer ends here.
    End,
}
