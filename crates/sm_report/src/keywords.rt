//! The keywords with which lines begin.

ghost use Rattle.std.specs.Prelude.{◌≡◌};
ghost use Rattle.sm_report.specs.Keywords.{keyword_of};
ghost use Rattle.sm_report.specs.Lines.{line_of};
ghost use Rattle.sm_report.specs.Meanings.{look_up, keywords};

use crate::lines::Line;
use sm_text::is;

/// The keyword with which a line begins: what kind of line it is.
#[derive(Clone, Copy, Debug, PartialEq, Eq)]
pub enum Keyword {
    Answer,
    Pair,
    Nothing,
    Party,
    First,
    Last,
    Proposer,
    Reviewer,
    Rotation,
    Needs,
    Gain,
    Flow,
    Taken,
    Value,
    Cut,
    Total,
    Some,
    All,
    Vector,
    More,
    Regret,
    Left,
    Right,
    Listed,
    Tally,
    Yes,
    No,
    End,
    SecondGain,
    SecondFlow,
    SecondValue,
    SecondCut,
    SecondTotal,
    Back,
    Forth,
    Out,
}

/// The keyword that a text is.
pub(crate) fn keyword_named(text: &[u8]) -> Option<Keyword>
    ensures { result ≡ look_up keywords text.now }
{
    if is(text, b"answer") {
        Some(Keyword::Answer)
    } else if is(text, b"pair") {
        Some(Keyword::Pair)
    } else if is(text, b"none") {
        Some(Keyword::Nothing)
    } else if is(text, b"party") {
        Some(Keyword::Party)
    } else if is(text, b"first") {
        Some(Keyword::First)
    } else if is(text, b"last") {
        Some(Keyword::Last)
    } else if is(text, b"proposer") {
        Some(Keyword::Proposer)
    } else if is(text, b"reviewer") {
        Some(Keyword::Reviewer)
    } else if is(text, b"rotation") {
        Some(Keyword::Rotation)
    } else if is(text, b"needs") {
        Some(Keyword::Needs)
    } else if is(text, b"gain") {
        Some(Keyword::Gain)
    } else if is(text, b"flow") {
        Some(Keyword::Flow)
    } else if is(text, b"taken") {
        Some(Keyword::Taken)
    } else if is(text, b"value") {
        Some(Keyword::Value)
    } else if is(text, b"cut") {
        Some(Keyword::Cut)
    } else if is(text, b"total") {
        Some(Keyword::Total)
    } else if is(text, b"some") {
        Some(Keyword::Some)
    } else if is(text, b"all") {
        Some(Keyword::All)
    } else if is(text, b"vector") {
        Some(Keyword::Vector)
    } else if is(text, b"more") {
        Some(Keyword::More)
    } else if is(text, b"regret") {
        Some(Keyword::Regret)
    } else if is(text, b"left") {
        Some(Keyword::Left)
    } else if is(text, b"right") {
        Some(Keyword::Right)
    } else if is(text, b"listed") {
        Some(Keyword::Listed)
    } else if is(text, b"tally") {
        Some(Keyword::Tally)
    } else if is(text, b"yes") {
        Some(Keyword::Yes)
    } else if is(text, b"no") {
        Some(Keyword::No)
    } else if is(text, b"end") {
        Some(Keyword::End)
    } else if is(text, b"gain2") {
        Some(Keyword::SecondGain)
    } else if is(text, b"flow2") {
        Some(Keyword::SecondFlow)
    } else if is(text, b"value2") {
        Some(Keyword::SecondValue)
    } else if is(text, b"cut2") {
        Some(Keyword::SecondCut)
    } else if is(text, b"total2") {
        Some(Keyword::SecondTotal)
    } else if is(text, b"back") {
        Some(Keyword::Back)
    } else if is(text, b"forth") {
        Some(Keyword::Forth)
    } else if is(text, b"out") {
        Some(Keyword::Out)
    } else {
        None
    }
}

/// The keyword of a line. Takes constant time.
pub fn keyword_of(line: &Line) -> Keyword
    ensures { result ≡ keyword_of (line_of line.now) }
{
    match line {
        Line::Answer(_) => Keyword::Answer,
        Line::Pair(_, _) => Keyword::Pair,
        Line::Nothing => Keyword::Nothing,
        Line::Party(_) => Keyword::Party,
        Line::Out(_) => Keyword::Out,
        Line::First(_, _) => Keyword::First,
        Line::Last(_, _) => Keyword::Last,
        Line::ProposerList(_, _) => Keyword::Proposer,
        Line::ReviewerList(_, _) => Keyword::Reviewer,
        Line::Rotation(_, _) => Keyword::Rotation,
        Line::Needs(_, _) => Keyword::Needs,
        Line::Gain(_, _) => Keyword::Gain,
        Line::SecondGain(_, _) => Keyword::SecondGain,
        Line::Flow(_, _, _) => Keyword::Flow,
        Line::SecondFlow(_, _, _) => Keyword::SecondFlow,
        Line::Taken(_) => Keyword::Taken,
        Line::Value(_) => Keyword::Value,
        Line::SecondValue(_) => Keyword::SecondValue,
        Line::Cut(_) => Keyword::Cut,
        Line::SecondCut(_) => Keyword::SecondCut,
        Line::Total(_) => Keyword::Total,
        Line::SecondTotal(_) => Keyword::SecondTotal,
        Line::SomePair(_, _) => Keyword::Some,
        Line::AllPair(_, _) => Keyword::All,
        Line::Vector(_) => Keyword::Vector,
        Line::More(_) => Keyword::More,
        Line::Regret(_) => Keyword::Regret,
        Line::LeftPair(_, _) => Keyword::Left,
        Line::RightPair(_, _) => Keyword::Right,
        Line::Back(_) => Keyword::Back,
        Line::Forth(_) => Keyword::Forth,
        Line::Listed(_) => Keyword::Listed,
        Line::TallyLine(_, _) => Keyword::Tally,
        Line::Yes => Keyword::Yes,
        Line::No(_, _) => Keyword::No,
        Line::End => Keyword::End,
    }
}
