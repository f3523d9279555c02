//! Which stays the bounds and conditions of a search leave open.

ghost use Rattle.std.specs.Prelude.{◌≡◌, ◌≢◌, ℕ, ◌+◌, ◌-◌, ◌<◌, ◌≤◌, ◌^◌, ◌↔◌, true, false, [], length, slice_index, slice_index_or, IfOk};
ghost use Rattle.sm_market.specs.Lists.{row};
ghost use Rattle.sm_market.specs.Vectors.{rows_of};
ghost use Rattle.sm_board.specs.Board.{Gates, IsBoard, is_shut};
ghost use Rattle.sm_board.specs.BoardOf.{AreGates};
ghost use Rattle.sm_theory.specs.Vectors.{AreInRange};
ghost use Rattle.sm_least.specs.Regrets.{AreForStays, AreOpenUpTo, AreShutAbove};
ghost use Rattle.sm_least.specs.Steps.{IsNarrowed, AreShut, rows_in, AreRowsFor, AreAvoided, NeverFall, IsDivided};
ghost use Rattle.sm_least.specs.Gates.{AreUnbounded, AreGatesOf};

use sm_board::Board;
use sm_lists::Rows;
use sm_poset::Conditions;
use std::alloc::{AllocError, Global};
use std::marker::Model;

/// Bounds on the levels of each proposer, and the stays that they and the conditions leave open.
#[derive(Debug, Drop)]
pub struct Gates {
    pub(crate) low: Vec<u32>,
    pub(crate) high: Vec<u32>,
    /// For each proposer the stay behind its last open one.
    pub(crate) until: Vec<usize>,
    /// For each stay of each proposer whether it is shut.
    pub(crate) shut: Vec<Vec<bool>>,
}

impl Model for Gates {
    ghost use Rattle.std.specs.Prelude.{◌≡◌, length, map};
    ghost use Rattle.sm_board.specs.Board.{Gates as Plain};

    ghost Value = { Plain };

    ghost view = { λ s. record { until = s.until.items; shut = map (λ v. v.items) s.shut.items } };

    ghost invariant = { λ s. (length s.low.items ≡ length s.until.items) × (length s.high.items
        ≡ length s.until.items) };
}

impl Gates {
    /// Gates for the stays of a board, all of them shut.
    pub(crate) fn new(alloc: Global, board: &Board) -> Result<Gates, AllocError>
        requires { IsBoard board.now }
        ensures { IfOk result (λ gates. AreGatesOf board.now gates) }
    {
        let proposers = board.proposers();
        Ok(Gates {
            low: vec![in alloc; 0; proposers]?,
            high: vec![in alloc; 0; proposers]?,
            until: vec![in alloc; 0; proposers]?,
            shut: closed_rows(alloc, board.all_levels())?,
        })
    }

    /// Leaves open the stays that meet the conditions, and no others. Takes as much time as [`Gates::set`].
    pub(crate) fn set_unbounded(&mut self, board: &Board, conditions: &Conditions)
        requires board { IsBoard board.now }
        requires gates { AreGatesOf board.now self.old }
        requires forced { AreInRange (length board.now.leaves) conditions.now.forced.items }
        requires forbidden { AreInRange (length board.now.leaves) conditions.now.forbidden.items }
        ensures gates { AreGatesOf board.now self.new }
        ensures open { AreUnbounded board.now conditions.now.forced.items
            conditions.now.forbidden.items self.new }
    {
        fill_unbounded(
            board,
            conditions,
            &mut self.low,
            &mut self.high,
            &mut self.shut,
            &mut self.until,
        );
    }

    /// Shuts the stays too whose ranks are above a bound. Takes time in proportion to the proposers and to the stays of those that
    /// are matched.
    pub(crate) fn shut_above(&mut self, board: &Board, ranks: &Rows, bound: u32)
        requires board { IsBoard board.now }
        requires few { length board.now.leaves < 2 ^ 32 }
        requires gates { AreGatesOf board.now self.old }
        requires ranks { AreForStays board.now ranks.now }
        ensures gates { AreGatesOf board.now self.new }
        ensures open { AreOpenUpTo board.now ranks.now bound self.old self.new }
    {
        cut(board, ranks, bound, &mut self.shut, &mut self.until);
    }

    /// Leaves open the stays whose levels lie within the bounds and meet the conditions, and no others. Takes time in
    /// proportion to the stays and the conditions, and for each forbidden pair to the logarithm of its proposer's stays.
    pub(crate) fn set(&mut self, board: &Board, low: &[u32], high: &[u32], conditions: &Conditions)
        requires board { IsBoard board.now }
        requires gates { AreGatesOf board.now self.old }
        requires low_each { length low.now ≡ length board.now.leaves }
        requires high_each { length high.now ≡ length board.now.leaves }
        requires forced { AreInRange (length board.now.leaves) conditions.now.forced.items }
        requires forbidden { AreInRange (length board.now.leaves) conditions.now.forbidden.items }
        ensures gates { AreGatesOf board.now self.new }
        ensures open { AreGates board.now low.now high.now conditions.now.forced.items
            conditions.now.forbidden.items self.new }
    {
        self.low.copy_from_slice(low);
        self.high.copy_from_slice(high);
        fill(
            board,
            conditions,
            &mut self.low,
            &mut self.high,
            &mut self.shut,
            &mut self.until,
        );
    }

    /// The stay behind a proposer's last open one.
    pub(crate) fn until(&self, p: u32) -> usize
        requires { p < length self.now.until }
        ensures { result ≡ slice_index self.now.until p }
    {
        self.until[p as usize]
    }

    /// Whether no stay behind this one is open.
    pub(crate) fn is_last(&self, p: u32, stay: usize) -> bool
        requires { p < length self.now.until }
        ensures last { result ≡ true → slice_index self.now.until p ≤ stay + 1 }
        ensures more { result ≡ false → stay + 1 < slice_index self.now.until p }
    {
        let until = self.until[p as usize];
        until <= stay || until - stay == 1
    }

    /// Whether a stay before a proposer's last open one is shut.
    pub(crate) fn is_shut(&self, p: u32, stay: usize) -> bool
        requires proposer { p < length self.now.shut }
        requires stay { stay < length (slice_index_or self.now.shut p []) }
        ensures { result ≡ is_shut self.now p stay }
    {
        self.shut[p as usize][stay]
    }
}

/// A mark for each stay of each proposer, with all shut.
fn closed_rows(alloc: Global, levels: &[Vec<u32>]) -> Result<Vec<Vec<bool>>, AllocError>
    ensures rows { IfOk result (λ rows. AreRowsFor (rows_of levels.now) (rows_in rows.items)) }
    ensures shut { IfOk result (λ rows. (p a : ℕ) → p < length levels.now → a
        < length (row (rows_of levels.now) p)
        → slice_index_or (slice_index_or (rows_in rows.items) p []) a false ≡ true) }
{
    let mut rows = Vec::with_capacity(alloc, levels.len())?;
    for row in levels {
        rows.push(vec![in alloc; true; row.len()]?)?;
    }
    Ok(rows)
}

/// Writes the last level of each proposer.
fn write_highest(levels: &[Vec<u32>], high: &mut [u32])
    requires high_each { length high.old ≡ length levels.now }
    requires some { (p : ℕ) → p < length levels.now → 0 < length (row (rows_of levels.now) p) }
    ensures high_each { length high.new ≡ length high.old }
    ensures highest { (p : ℕ) → p < length levels.now
        → slice_index high.new p ≡ slice_index (row (rows_of levels.now) p)
        (length (row (rows_of levels.now) p) - 1) }
{
    for p in 0..levels.len() {
        high[p] = levels[p][levels[p].len() - 1];
    }
}

/// Leaves open the stays that meet the conditions, and no others. The bounds become those that the conditions leave.
fn fill_unbounded(
    board: &Board,
    conditions: &Conditions,
    low: &mut [u32],
    high: &mut [u32],
    shut: &mut [Vec<bool>],
    until: &mut [usize],
)
    requires board { IsBoard board.now }
    requires rows { AreRowsFor board.now.levels (rows_in shut.old) }
    requires until_each { length until.old ≡ length board.now.leaves }
    requires low_each { length low.old ≡ length board.now.leaves }
    requires high_each { length high.old ≡ length board.now.leaves }
    requires forced { AreInRange (length board.now.leaves) conditions.now.forced.items }
    requires forbidden { AreInRange (length board.now.leaves) conditions.now.forbidden.items }
    ensures low_each { length low.new ≡ length low.old }
    ensures high_each { length high.new ≡ length high.old }
    ensures shut_each { length shut.new ≡ length shut.old }
    ensures until_each { length until.new ≡ length until.old }
    ensures gates { AreGatesOf board.now (record { until = until.new; shut = rows_in shut.new }) }
    ensures open { AreUnbounded board.now conditions.now.forced.items conditions.now.forbidden.items
        (record { until = until.new; shut = rows_in shut.new }) }
{
    low.fill(0);
    write_highest(board.all_levels(), high);
    fill(board, conditions, low, high, shut, until);
}

/// Leaves open the stays whose levels lie within the bounds and meet the conditions, and no others. The bounds are narrowed.
fn fill(
    board: &Board,
    conditions: &Conditions,
    low: &mut [u32],
    high: &mut [u32],
    shut: &mut [Vec<bool>],
    until: &mut [usize],
)
    requires board { IsBoard board.now }
    requires rows { AreRowsFor board.now.levels (rows_in shut.old) }
    requires until_each { length until.old ≡ length board.now.leaves }
    requires low_each { length low.old ≡ length board.now.leaves }
    requires high_each { length high.old ≡ length board.now.leaves }
    requires forced { AreInRange (length board.now.leaves) conditions.now.forced.items }
    requires forbidden { AreInRange (length board.now.leaves) conditions.now.forbidden.items }
    ensures low_each { length low.new ≡ length low.old }
    ensures high_each { length high.new ≡ length high.old }
    ensures shut_each { length shut.new ≡ length shut.old }
    ensures until_each { length until.new ≡ length until.old }
    ensures gates { AreGatesOf board.now (record { until = until.new; shut = rows_in shut.new }) }
    ensures open { AreGates board.now low.old high.old conditions.now.forced.items
        conditions.now.forbidden.items
        (record { until = until.new; shut = rows_in shut.new }) }
{
    let matched = board.matched();
    let levels = board.all_levels();
    narrow(matched, &conditions.forced, low, high);
    shut_rows(levels, low, high, shut);
    shut_forbidden(matched, levels, &conditions.forbidden, shut);
    find_last(shut, until);
}

/// Forced levels are lower and upper bounds at once; a forced level of a proposer that is unmatched leaves it none.
fn narrow(matched: &[bool], forced: &[(u32, u32)], low: &mut [u32], high: &mut [u32])
    requires low_each { length low.old ≡ length matched.now }
    requires high_each { length high.old ≡ length matched.now }
    requires in_range { AreInRange (length matched.now) forced.now }
    ensures { IsNarrowed matched.now forced.now (length forced.now) low.old high.old low.new
        high.new }
{
    for &(p, level) in forced {
        narrow_one(
            matched[p as usize],
            level,
            &mut low[p as usize],
            &mut high[p as usize],
        );
    }
}

/// One forced level of a proposer.
fn narrow_one(matched: bool, level: u32, low: &mut u32, high: &mut u32)
    ensures { (v : ℕ) → (low.new ≤ v) × (v ≤ high.new) ↔ (low.old ≤ v) × (v ≤ high.old)
        × (matched ≡ true) × (v ≡ level) }
{
    if !matched {
        *low = u32::MAX;
        *high = 0;
    } else {
        *low = level.max(*low);
        *high = level.min(*high);
    }
}

/// Shuts the stays whose levels aren't between these bounds, and opens all others.
fn shut_row(levels: &[u32], low: u32, high: u32, shut: &mut [bool])
    requires { length shut.old ≡ length levels.now }
    ensures { AreShut levels.now (λ v. (low ≤ v) × (v ≤ high)) shut.new }
{
    for a in 0..levels.len() {
        shut[a] = levels[a] < low || high < levels[a];
    }
}

/// Shuts the stays of a level. Takes time in proportion to how many they are, and to the logarithm of all stays.
fn shut_level(levels: &[u32], level: u32, shut: &mut [bool])
    requires one_each { length shut.old ≡ length levels.now }
    requires rising { NeverFall levels.now }
    ensures one_each { length shut.new ≡ length shut.old }
    ensures shut { (a : ℕ) → a < length levels.now → (slice_index_or shut.new a false ≡ false)
        ↔ (slice_index_or shut.old a false ≡ false) × (slice_index levels.now a ≢ level) }
{
    let mut a = lower(levels, level);
    'stays: while a < levels.len() && levels[a] == level {
        shut[a] = true;
        a += 1;
    }
}

/// How many levels are lower than this one, found by bisection.
pub(crate) fn lower(levels: &[u32], level: u32) -> usize
    requires { NeverFall levels.now }
    ensures { IsDivided levels.now level result }
{
    let mut low = 0;
    let mut high = levels.len();
    'halves: while low < high {
        let middle = low + (high - low) / 2;
        if levels[middle] < level {
            low = middle + 1;
        } else {
            high = middle;
        }
    }
    low
}

/// The place behind the last stay that isn't shut.
fn last_open(shut: &[bool]) -> usize
    ensures few { result ≤ length shut.now }
    ensures past { (a : ℕ) → result ≤ a → a < length shut.now → slice_index_or shut.now a false
        ≡ true }
{
    let mut until = shut.len();
    while until > 0 && shut[until - 1] {
        until -= 1;
    }
    until
}

/// Shuts the stays of each proposer whose levels aren't between its bounds, and opens all others.
fn shut_rows(levels: &[Vec<u32>], low: &[u32], high: &[u32], shut: &mut [Vec<bool>])
    requires low_each { length low.now ≡ length levels.now }
    requires high_each { length high.now ≡ length levels.now }
    requires rows { AreRowsFor (rows_of levels.now) (rows_in shut.old) }
    ensures rows { AreRowsFor (rows_of levels.now) (rows_in shut.new) }
    ensures shut { (p : ℕ) → p < length levels.now → AreShut (row (rows_of levels.now) p)
        (λ v. (slice_index low.now p ≤ v) × (v ≤ slice_index high.now p)) (slice_index_or
        (rows_in shut.new) p []) }
{
    for p in 0..levels.len() {
        shut_row(&levels[p], low[p], high[p], &mut shut[p]);
    }
}

/// Shuts the stays of the forbidden levels of matched proposers. Takes time in proportion to these stays, and for each pair to
/// the logarithm of the stays of its proposer.
fn shut_forbidden(
    matched: &[bool],
    levels: &[Vec<u32>],
    forbidden: &[(u32, u32)],
    shut: &mut [Vec<bool>],
)
    requires matched_each { length matched.now ≡ length levels.now }
    requires in_range { AreInRange (length levels.now) forbidden.now }
    requires rows { AreRowsFor (rows_of levels.now) (rows_in shut.old) }
    requires rising { (p : ℕ) → p < length levels.now → NeverFall (row (rows_of levels.now) p) }
    ensures { AreAvoided matched.now (rows_of levels.now) forbidden.now (length forbidden.now)
        (rows_in shut.old) (rows_in shut.new) }
{
    for &(p, level) in forbidden {
        shut_if(
            matched[p as usize],
            &levels[p as usize],
            level,
            &mut shut[p as usize],
        );
    }
}

/// Shuts the stays of a level, of a matched proposer.
fn shut_if(matched: bool, levels: &[u32], level: u32, shut: &mut [bool])
    requires one_each { length shut.old ≡ length levels.now }
    requires rising { NeverFall levels.now }
    ensures one_each { length shut.new ≡ length shut.old }
    ensures shut { (a : ℕ) → a < length levels.now → (slice_index_or shut.new a false ≡ false)
        ↔ (slice_index_or shut.old a false ≡ false) × (matched ≡ true → slice_index levels.now a
        ≢ level) }
{
    if matched {
        shut_level(levels, level, shut);
    }
}

/// Shuts the stays too whose ranks are above a bound.
fn cut(board: &Board, ranks: &Rows, bound: u32, shut: &mut [Vec<bool>], until: &mut [usize])
    requires board { IsBoard board.now }
    requires few { length board.now.leaves < 2 ^ 32 }
    requires gates { AreGatesOf board.now (record { until = until.old; shut = rows_in shut.old }) }
    requires ranks { AreForStays board.now ranks.now }
    ensures shut_each { length shut.new ≡ length shut.old }
    ensures until_each { length until.new ≡ length until.old }
    ensures gates { AreGatesOf board.now (record { until = until.new; shut = rows_in shut.new }) }
    ensures open { AreOpenUpTo board.now ranks.now bound
        (record { until = until.old; shut = rows_in shut.old }) (record { until = until.new; shut = rows_in shut.new }) }
{
    shut_ranks(board, ranks, bound, shut);
    find_last(shut, until);
}

/// Shuts the stays whose ranks are above a bound.
fn shut_ranks(board: &Board, ranks: &Rows, bound: u32, shut: &mut [Vec<bool>])
    requires board { IsBoard board.now }
    requires few { length board.now.leaves < 2 ^ 32 }
    requires ranks { AreForStays board.now ranks.now }
    requires rows { AreRowsFor board.now.levels (rows_in shut.old) }
    ensures { AreShutAbove board.now ranks.now bound (length board.now.leaves) (rows_in shut.old)
        (rows_in shut.new) }
{
    for p in 0..board.proposers() {
        shut_row_above(ranks.at(p as u32), bound, &mut shut[p]);
    }
}

/// Shuts the stays of a proposer whose ranks are above a bound. What has no rank stays as it is.
fn shut_row_above(ranks: &[u32], bound: u32, shut: &mut [bool])
    requires { length ranks.now ≤ length shut.old }
    ensures one_each { length shut.new ≡ length shut.old }
    ensures shut { (a : ℕ) → (slice_index_or shut.new a false ≡ false)
        ↔ (slice_index_or shut.old a false ≡ false) × (slice_index ranks.now a ≤ bound) }
{
    for a in 0..ranks.len() {
        let above = bound < ranks[a];
        let before = shut[a];
        shut[a] = before || above;
    }
}

/// Finds the last open stay of each proposer.
fn find_last(shut: &[Vec<bool>], until: &mut [usize])
    requires { length until.old ≡ length shut.now }
    ensures one_each { length until.new ≡ length shut.now }
    ensures few { (p : ℕ) → p < length shut.now → slice_index until.new p
        ≤ length (slice_index_or (rows_in shut.now) p []) }
    ensures past { (p a : ℕ) → p < length shut.now → slice_index until.new p ≤ a
        → a < length (slice_index_or (rows_in shut.now) p [])
        → slice_index_or (slice_index_or (rows_in shut.now) p []) a false ≡ true }
{
    for p in 0..shut.len() {
        until[p] = last_open(&shut[p]);
    }
}
