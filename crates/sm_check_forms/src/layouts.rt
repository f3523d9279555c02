//! Layouts: which lines of an answer follow which.

ghost use Rattle.std.specs.Prelude.{◌≡◌, ◌∷◌, ◌≤◌, ◌<◌, [], true, false, None, if◌then◌else◌, filter_map, drop, length, IfOk, MatchOption};
ghost use Rattle.std.specs.List.{list_any};
ghost use Rattle.sm_instance.specs.declared.inputs.Input.TheVariants.{Two, Room};
ghost use Rattle.sm_report.specs.Heads.{head_of};
ghost use Rattle.sm_report.specs.Lines.{line_of};
ghost use Rattle.std.specs.Str.{bytes_eq};
ghost use Rattle.sm_instance.specs.declared.inputs.Input.{Input};
ghost use Rattle.sm_check_forms.specs.Keywords.{word_of};
ghost use Rattle.sm_check_forms.specs.Layouts.{behind, word_at, later, is_empty};
ghost use Rattle.sm_check_forms.specs.Forms.{opening_of, number_in, layouts_of, layouts_of_two, layouts_of_room};
ghost use Rattle.sm_check_forms.specs.Lefts.{part_of, parts_of, opening_by, IsFit, IsTurn, AreTurns, IsTakenAt, IsRunning, AreRunning, layout_left, layouts_left};

use sm_instance::{Input, Instance};
use sm_report::{Head, Keyword, Line, keyword_of};
use sm_seats::has_two_levels;
use std::alloc::{AllocError, Global};

/// Whose turn it is among blocks of two lines, `rotation` and `needs`, of three, with `gain` behind them, or of four, with `gain2`
/// as well.
#[derive(Clone, Copy, Debug)]
pub struct BlockTurn {
    /// How many lines a block has.
    pub lines: u32,
    /// The place in the block of the line that comes next, from 0.
    pub place: u32,
    /// The number of the rotation of the block.
    pub number: u32,
}

/// Lines that stand together in a layout: one, or any number of them.
#[derive(Clone, Copy, Debug)]
pub enum LayoutPart {
    /// One line with this keyword.
    One(Keyword),
    /// Any number of lines with this keyword.
    Many(Keyword),
    /// Any number of blocks.
    Blocks(BlockTurn),
}

/// How a line begins: its keyword, and the number of a rotation behind that, 0 where there is none.
#[derive(Clone, Copy, Debug)]
pub struct Opening {
    pub keyword: Keyword,
    pub number: u32,
}

/// How a line begins.
pub(crate) fn opening_of(line: &Line) -> Opening
    ensures opening { (input : Input) → opening_by result ≡ opening_of input (line_of line.now) }
    ensures number { result.number ≡ number_in (line_of line.now) }
{
    Opening {
        keyword: keyword_of(line),
        number: number_in(line),
    }
}

/// The number of the rotation with which a line begins.
fn number_in(line: &Line) -> u32
    ensures { result ≡ number_in (line_of line.now) }
{
    match line {
        Line::Rotation(i, _) => *i,
        Line::Needs(i, _) => *i,
        Line::Gain(i, _) => *i,
        Line::SecondGain(i, _) => *i,
        _ => 0,
    }
}

/// The keyword of the line at a place of a block.
#[tactic(auto, unfolding(crate::specs::Keywords::word_of))]
fn keyword_at(place: u32) -> Keyword
    ensures { word_of result ≡ word_at place }
{
    if place == 0 {
        Keyword::Rotation
    } else if place == 1 {
        Keyword::Needs
    } else if place == 2 {
        Keyword::Gain
    } else {
        Keyword::SecondGain
    }
}

/// Whether two keywords are one.
fn is_same(a: Keyword, b: Keyword) -> bool
    ensures { result ≡ bytes_eq (word_of a) (word_of b) }
{
    a == b
}

/// Whose turn it is behind the line whose turn it was.
fn later(turn: BlockTurn) -> BlockTurn
    requires turn { IsTurn turn }
    requires number { turn.number ≤ 4294967294 }
    ensures later { result ≡ later turn }
    ensures turn { IsTurn result }
{
    if turn.place + 1 == turn.lines {
        BlockTurn {
            lines: turn.lines,
            place: 0,
            number: turn.number + 1,
        }
    } else {
        BlockTurn {
            lines: turn.lines,
            place: turn.place + 1,
            number: turn.number,
        }
    }
}

/// What a part does with a line.
#[derive(Clone, Copy)]
enum Fit {
    /// It takes the line.
    Takes,
    /// It leaves the line to the parts behind it.
    Passes,
    /// No part may take it.
    Ends,
}

/// What a part does with a line.
fn fit_part(part: LayoutPart, line: Opening) -> Fit
    ensures { IsFit (part_of part) (opening_by line) result }
{
    match part {
        LayoutPart::One(word) => if is_same(line.keyword, word) {
            Fit::Takes
        } else {
            Fit::Ends
        },
        LayoutPart::Many(word) => if is_same(line.keyword, word) {
            Fit::Takes
        } else {
            Fit::Passes
        },
        LayoutPart::Blocks(turn) => fit_block(turn, line),
    }
}

/// What blocks do with it.
fn fit_block(turn: BlockTurn, line: Opening) -> Fit
    ensures { IsFit (part_of (LayoutPart.Blocks turn)) (opening_by line) result }
{
    if is_same(line.keyword, keyword_at(turn.place)) {
        if line.number == turn.number {
            Fit::Takes
        } else {
            Fit::Ends
        }
    } else {
        if turn.place == 0 {
            Fit::Passes
        } else {
            Fit::Ends
        }
    }
}

/// The part that takes a line, of those from a place on.
fn taking_part(parts: &[LayoutPart], from: usize, line: Opening) -> Option<usize>
    requires { from ≤ length parts.now }
    ensures { MatchOption result
        (behind (parts_of (drop from parts.now)) (opening_by line) ≡ None)
        (λ at. IsTakenAt parts.now from (opening_by line) at) }
{
    for at in from..parts.len() {
        match fit_part(parts[at], line) {
            Fit::Takes => return Some(at),
            Fit::Passes => {}
            Fit::Ends => return None,
        }
    }
    None
}

/// What is left of a layout behind some lines, if they fit there.
#[derive(Drop)]
pub(crate) struct Layout {
    parts: Vec<LayoutPart>,
    at: usize,
    fits: bool,
}

impl Layout {
    /// A layout of which all is left.
    fn of(parts: Vec<LayoutPart>) -> Layout
        requires { AreTurns parts.items }
        ensures left { layout_left result ≡ parts_of parts.items ∷ [] }
        ensures running { IsRunning result }
    {
        Layout {
            parts,
            at: 0,
            fits: true,
        }
    }

    /// No layout.
    fn none(alloc: Global) -> Layout
        ensures left { layout_left result ≡ [] }
        ensures running { IsRunning result }
    {
        Layout {
            parts: Vec::new(alloc),
            at: 0,
            fits: false,
        }
    }

    /// Goes behind the next line, where it fits.
    fn take(&mut self, line: Opening)
        requires running { IsRunning self.old }
        requires number { line.number ≤ 4294967294 }
        ensures left { layout_left self.new ≡ filter_map (λ parts. behind parts (opening_by line))
            (layout_left self.old) }
        ensures running { IsRunning self.new }
    {
        if !self.fits {
            return;
        }
        match taking_part(&self.parts, self.at, line) {
            Some(at) => self.take_at(at, line),
            None => self.fits = false,
        }
    }

    /// Takes a line at a part that takes it.
    fn take_at(&mut self, at: usize, line: Opening)
        requires running { IsRunning self.old }
        requires number { line.number ≤ 4294967294 }
        requires taken { IsTakenAt self.old.parts.items self.old.at (opening_by line) at }
        requires fits { self.old.fits ≡ true }
        ensures left { layout_left self.new ≡ filter_map (λ parts. behind parts (opening_by line))
            (layout_left self.old) }
        ensures running { IsRunning self.new }
    {
        match self.parts[at] {
            LayoutPart::One(_) => self.at = at + 1,
            LayoutPart::Many(_) => self.at = at,
            LayoutPart::Blocks(turn) => {
                self.parts[at] = LayoutPart::Blocks(later(turn));
                self.at = at;
            }
        }
    }

    /// Whether they are a whole answer.
    fn is_whole(&self) -> bool
        requires { IsRunning self.now }
        ensures { result ≡ list_any is_empty (layout_left self.now) }
    {
        self.fits && self.at == self.parts.len()
    }
}

/// What is left of the layouts of an answer behind some lines. An answer has two layouts at most.
#[derive(Drop)]
pub(crate) struct Places {
    one: Layout,
    other: Layout,
}

impl Places {
    /// No layout.
    pub(crate) fn none(alloc: Global) -> Places
        ensures left { layouts_left result ≡ [] }
        ensures running { AreRunning result }
    {
        Places {
            one: Layout::none(alloc),
            other: Layout::none(alloc),
        }
    }

    /// The layouts of an answer with this head over an instance, of which there are none where it can't be checked.
    ///
    /// # Errors
    ///
    /// `AllocError` where memory ran out, and only then.
    pub(crate) fn of(alloc: Global, input: &Input, head: &Head) -> Result<Places, AllocError>
        ensures left { IfOk result (λ places. layouts_left places
            ≡ layouts_of input.now (head_of head.now)) }
        ensures running { IfOk result (λ places. AreRunning places) }
    {
        match input {
            Input::Two(instance) => places_of_two(alloc, instance, head),
            Input::Room(_) => places_of_room(alloc, head),
        }
    }

    /// Goes behind the next line.
    pub(crate) fn take(&mut self, line: Opening)
        requires running { AreRunning self.old }
        requires number { line.number ≤ 4294967294 }
        ensures left { layouts_left self.new ≡ filter_map (λ parts. behind parts (opening_by line))
            (layouts_left self.old) }
        ensures running { AreRunning self.new }
    {
        self.one.take(line);
        self.other.take(line);
    }

    /// Whether the lines begin an answer.
    pub(crate) fn are_begun(&self) -> bool
        ensures { result ≡ (if is_empty (layouts_left self.now) then false else true) }
    {
        self.one.fits || self.other.fits
    }

    /// Whether they are a whole one.
    pub(crate) fn are_whole(&self) -> bool
        requires { AreRunning self.now }
        ensures { result ≡ list_any is_empty (layouts_left self.now) }
    {
        self.one.is_whole() || self.other.is_whole()
    }
}

/// Those over an instance with two sides.
#[tactic(auto, unfolding(crate::specs::Keywords::word_of))]
fn places_of_two(alloc: Global, instance: &Instance, head: &Head) -> Result<Places, AllocError>
    ensures left { IfOk result (λ places. layouts_left places
        ≡ layouts_of_two instance.now (head_of head.now)) }
    ensures running { IfOk result (λ places. AreRunning places) }
{
    match head {
        Head::Solve(_) => only(alloc, &SOLVE),
        Head::Reduced => only(alloc, &REDUCED),
        Head::Rotations => only(alloc, &ROTATIONS),
        Head::List(_, _) => Ok(Places {
            one: laid(alloc, &LIST_TO_END)?,
            other: laid(alloc, &LIST_IN_PART)?,
        }),
        Head::Regret => only(alloc, &REGRET),
        Head::Weight(by) => if has_two_levels(instance, *by) {
            only(alloc, &WEIGHT_IN_TWO)
        } else {
            only(alloc, &WEIGHT)
        },
        Head::Meet => only(alloc, &GIVEN),
        Head::Join => only(alloc, &GIVEN),
        Head::Pairs => Ok(Places::none(alloc)),
        Head::Survey(_) => Ok(Places::none(alloc)),
        Head::Check => Ok(Places::none(alloc)),
        Head::Median => Ok(Places::none(alloc)),
        Head::Route => Ok(Places::none(alloc)),
        Head::Rest => Ok(Places::none(alloc)),
    }
}

/// Those over one of roommates.
#[tactic(auto, unfolding(crate::specs::Keywords::word_of))]
fn places_of_room(alloc: Global, head: &Head) -> Result<Places, AllocError>
    ensures left { IfOk result (λ places. layouts_left places ≡ layouts_of_room (head_of head.now)) }
    ensures running { IfOk result (λ places. AreRunning places) }
{
    match head {
        Head::Solve(_) => Ok(Places {
            one: laid(alloc, &SOLVE)?,
            other: laid(alloc, &PARTIES)?,
        }),
        _ => Ok(Places::none(alloc)),
    }
}

/// A single layout, of these parts.
fn only(alloc: Global, parts: &[LayoutPart]) -> Result<Places, AllocError>
    requires { AreTurns parts.now }
    ensures left { IfOk result (λ places. layouts_left places ≡ parts_of parts.now ∷ []) }
    ensures running { IfOk result (λ places. AreRunning places) }
{
    Ok(Places {
        one: laid(alloc, parts)?,
        other: Layout::none(alloc),
    })
}

/// The layout of a matching.
static SOLVE: [LayoutPart; 2] = [
    LayoutPart::Many(Keyword::Pair),
    LayoutPart::One(Keyword::End),
];

/// The layout of parties.
static PARTIES: [LayoutPart; 3] = [
    LayoutPart::One(Keyword::Nothing),
    LayoutPart::Many(Keyword::Party),
    LayoutPart::One(Keyword::End),
];

/// The layout of `reduced`.
static REDUCED: [LayoutPart; 5] = [
    LayoutPart::Many(Keyword::First),
    LayoutPart::Many(Keyword::Last),
    LayoutPart::Many(Keyword::Proposer),
    LayoutPart::Many(Keyword::Reviewer),
    LayoutPart::One(Keyword::End),
];

/// The layout of `rotations`.
static ROTATIONS: [LayoutPart; 3] = [
    LayoutPart::Many(Keyword::First),
    LayoutPart::Blocks(BlockTurn {
        lines: 2,
        place: 0,
        number: 1,
    }),
    LayoutPart::One(Keyword::End),
];

/// The layout of `list` up to its end.
static LIST_TO_END: [LayoutPart; 2] = [
    LayoutPart::Many(Keyword::Vector),
    LayoutPart::One(Keyword::End),
];

/// The layout of `list` where more follow.
static LIST_IN_PART: [LayoutPart; 2] = [
    LayoutPart::Many(Keyword::Vector),
    LayoutPart::One(Keyword::More),
];

/// The layout of `regret`.
static REGRET: [LayoutPart; 3] = [
    LayoutPart::One(Keyword::Regret),
    LayoutPart::Many(Keyword::Pair),
    LayoutPart::One(Keyword::End),
];

/// The layout of `weight` in one level.
static WEIGHT: [LayoutPart; 9] = [
    LayoutPart::Many(Keyword::First),
    LayoutPart::Blocks(BlockTurn {
        lines: 3,
        place: 0,
        number: 1,
    }),
    LayoutPart::Many(Keyword::Flow),
    LayoutPart::One(Keyword::Taken),
    LayoutPart::One(Keyword::Value),
    LayoutPart::One(Keyword::Cut),
    LayoutPart::One(Keyword::Total),
    LayoutPart::Many(Keyword::Pair),
    LayoutPart::One(Keyword::End),
];

/// The layout of `weight` in two levels.
static WEIGHT_IN_TWO: [LayoutPart; 13] = [
    LayoutPart::Many(Keyword::First),
    LayoutPart::Blocks(BlockTurn {
        lines: 4,
        place: 0,
        number: 1,
    }),
    LayoutPart::Many(Keyword::Flow),
    LayoutPart::Many(Keyword::SecondFlow),
    LayoutPart::One(Keyword::Taken),
    LayoutPart::One(Keyword::Value),
    LayoutPart::One(Keyword::Cut),
    LayoutPart::One(Keyword::Total),
    LayoutPart::One(Keyword::SecondValue),
    LayoutPart::One(Keyword::SecondCut),
    LayoutPart::One(Keyword::SecondTotal),
    LayoutPart::Many(Keyword::Pair),
    LayoutPart::One(Keyword::End),
];

/// The layout of `meet` and `join`.
static GIVEN: [LayoutPart; 4] = [
    LayoutPart::Many(Keyword::Left),
    LayoutPart::Many(Keyword::Right),
    LayoutPart::Many(Keyword::Pair),
    LayoutPart::One(Keyword::End),
];

/// A layout of these parts.
fn laid(alloc: Global, parts: &[LayoutPart]) -> Result<Layout, AllocError>
    requires { AreTurns parts.now }
    ensures left { IfOk result (λ layout. layout_left layout ≡ parts_of parts.now ∷ []) }
    ensures running { IfOk result (λ layout. IsRunning layout) }
{
    let mut kept = Vec::new(alloc);
    kept.extend_from_slice(parts)?;
    Ok(Layout::of(kept))
}
