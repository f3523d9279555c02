//! What a walk needs before its first step.

ghost use Rattle.std.specs.Prelude.{◌≡◌, ℕ, ◌+◌, ◌^◌, ◌<◌, true, false, Bool, List, length, slice_index_or, option_map, IfOk, MatchOption};
ghost use Rattle.sm_theory.specs.Vectors.{IsOrder};
ghost use Rattle.sm_board.specs.Board.{Gates as PlainGates, Fits, IsLeast, IsClosedIn};
ghost use Rattle.sm_board.specs.Courses.{Held as PlainHeld, IsHeld};
ghost use Rattle.sm_least.specs.Gates.{AreGatesOf};
ghost use Rattle.sm_lister.specs.Walking.{cursor_of, AreSkips, AreLeast, IsKeptWalk, AreFirstChanges, SkipsNoFirstChange};

use crate::bars::Bars;
use crate::vector_walk::VectorWalk;
use sm_board::Course;
use std::alloc::{AllocError, Global};

impl VectorWalk {
    /// A walk behind a vector, or from the first one on where there is none. `any` says whether the least set that fits is held,
    /// or none fits.
    pub(crate) fn start(
        alloc: Global,
        course: &Course,
        after: Option<Vec<u32>>,
        any: bool,
    ) -> Result<VectorWalk, AllocError>
        requires order { IsOrder (length course.now.board.leaves) course.now.order }
        requires after { MatchOption after (Unit {0}) (λ v. length v.items
            ≡ length course.now.board.leaves) }
        ensures cursor { IfOk result (λ w. cursor_of w ≡ option_map (λ v. v.items) after) }
        ensures walking { IfOk result (λ w. (g : PlainGates) (h : PlainHeld)
            → IsHeld course.now.board h → IsClosedIn course.now.board h.set
            → AreGatesOf course.now.board g
            → (any ≡ true → IsLeast (Fits course.now.board g) h.set) → (any ≡ false
            → (D : List Bool) → ¬ Fits course.now.board g D)
            → IsKeptWalk course.now g h w) }
    {
        let n = course.proposers() as usize;
        let skip = skips(alloc, course)?;
        let least = least_behind(alloc, course)?;
        let marks = vec![in alloc; 0; n]?;
        let bars = Bars::start(alloc, course)?;
        let given = after.is_some();
        let vector = match after {
            Some(vector) => vector,
            None => vec![in alloc; 0; n]?,
        };
        Ok(VectorWalk {
            vector,
            given,
            marks,
            skip,
            least,
            changed_from: 0,
            bars,
            depth: 0,
            fresh: any,
        })
    }
}

/// For each depth the one behind the last position before it that is the first whose level some rotation changes.
fn skips(alloc: Global, course: &Course) -> Result<Vec<u32>, AllocError>
    requires order { IsOrder (length course.now.board.leaves) course.now.order }
    ensures skip_each { IfOk result (λ skip. length skip.items ≡ length course.now.board.leaves
        + 1) }
    ensures skips { IfOk result (λ skip. AreSkips course.now.board course.now.order skip.items) }
{
    let mut changes = vec![in alloc; false; course.proposers() as usize]?;
    note_first_changes(course, &mut changes);
    skips_of(alloc, &changes)
}

/// Marks the positions that are the first whose level some rotation changes.
fn note_first_changes(course: &Course, changes: &mut [bool])
    requires { length changes.old ≡ length course.now.board.leaves }
    ensures change_each { length changes.new ≡ length changes.old }
    ensures changes { AreFirstChanges course.now (length course.now.board.needs) changes.new }
{
    for &position in course.first_positions() {
        note_first_change(changes, position);
    }
}

/// Marks a position, where there is one.
fn note_first_change(changes: &mut [bool], position: u32)
    ensures change_each { length changes.new ≡ length changes.old }
    ensures marked { position < length changes.old → slice_index_or changes.new position false
        ≡ true }
    ensures others { (j : ℕ) → slice_index_or changes.old j false ≡ true
        → slice_index_or changes.new j false ≡ true }
{
    if (position as usize) < changes.len() {
        changes[position as usize] = true;
    }
}

/// For each depth the one behind the last position before it that is marked.
fn skips_of(alloc: Global, changes: &[bool]) -> Result<Vec<u32>, AllocError>
    requires { length changes.now < 2 ^ 32 }
    ensures skip_each { IfOk result (λ skip. length skip.items ≡ length changes.now + 1) }
    ensures skips { IfOk result (λ skip. SkipsNoFirstChange changes.now skip.items) }
{
    let mut skip = Vec::with_capacity(alloc, changes.len() + 1)?;
    skip.push(0)?;
    let mut last = 0;
    for d in 0..changes.len() as u32 {
        if changes[d as usize] {
            last = d + 1;
        }
        skip.push(last)?;
    }
    Ok(skip)
}

/// For each position the least of the proposers at it and behind it.
fn least_behind(alloc: Global, course: &Course) -> Result<Vec<u32>, AllocError>
    requires { IsOrder (length course.now.board.leaves) course.now.order }
    ensures least_each { IfOk result (λ least. length least.items ≡ length course.now.board.leaves) }
    ensures least { IfOk result (λ least. AreLeast course.now.order least.items) }
{
    let mut least = vec![in alloc; 0; course.proposers() as usize]?;
    note_least(course, &mut least);
    Ok(least)
}

/// Notes for each position the least of the proposers at it and behind it.
fn note_least(course: &Course, least: &mut [u32])
    requires order { IsOrder (length course.now.board.leaves) course.now.order }
    requires least_each { length least.old ≡ length course.now.board.leaves }
    ensures least_each { length least.new ≡ length least.old }
    ensures least { AreLeast course.now.order least.new }
{
    let mut i = course.proposers();
    let mut lowest = i;
    'positions: while i > 0 {
        i -= 1;
        lowest = lowest.min(course.proposer_at(i));
        least[i as usize] = lowest;
    }
}
