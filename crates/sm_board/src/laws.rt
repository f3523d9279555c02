//! What holds of the sets of a board. Each function does nothing: its contract is the law.

ghost use Rattle.sm_board.specs.BoardLaws.{MembersAreFirst, StaysGrow, LeaveIsIn, PastIsShut, LevelStays, LevelRises, EnterEndsStays};
ghost use Rattle.sm_board.specs.BoardOf.{BoardIsBoard, BoardShowsSets, GatesMeanConditions, LeastIsBest, GatesFromTests};
ghost use Rattle.sm_board.specs.Walks.{UpWhereRaised, NoneWhereNotRaised, NoneWithoutTurn, NextUpIsFirst, WalkGoesOn, WalkBegins, FollowOn, FollowEnds, WalkIsNext};
ghost use Rattle.sm_board.specs.Growing.{LogGrows, LogFalls, LogFits, ClosedWhenDone, NeedMayEnter, ShutLeaveIsIn, LowLeaveIsIn, IdleStays, FreeKeepsLevels, BarredChangesLevels, AskedIsIn, RaiseFinds, RaiseIsPast, RaiseIsLast, RaiseIsBarred, LeastIsFound, AskedIsClosed};

/// A closed set has the rotations that end the stays before a proposer's, and no other that moves it.
pub fn members_are_first()
    ensures { MembersAreFirst }
{}

/// With more members no stay is earlier and no level lower.
pub fn stays_grow()
    ensures { StaysGrow }
{}

/// Where a proposer has another stay in a greater closed set, this one has the rotation that ends its stay.
pub fn leave_is_in()
    ensures { LeaveIsIn }
{}

/// Past a proposer's last open stay there is none.
pub fn past_is_shut()
    ensures { PastIsShut }
{}

/// Where no new member changes a proposer's level it stays.
pub fn level_stays()
    ensures { LevelStays }
{}

/// A new member that changes a proposer's level makes it rise.
pub fn level_rises()
    ensures { LevelRises }
{}

/// A new member ends the stays of those that it moves, and of no others.
pub fn enter_ends_stays()
    ensures { EnterEndsStays }
{}

/// The board of a market with levels, its complete chain, the predecessors and the moves is one.
pub fn board_is_board()
    ensures { BoardIsBoard }
{}

/// The closed sets of the board are those of the chain, and its stays and levels are those of their matchings.
pub fn board_shows_sets()
    ensures { BoardShowsSets }
{}

/// A set fits the gates exactly where it is closed and its matching is within the bounds and allowed.
pub fn gates_mean_conditions()
    ensures { GatesMeanConditions }
{}

/// The least set that fits has the best matching within the bounds that is allowed; where none fits there is none.
pub fn least_is_best()
    ensures { LeastIsBest }
{}

/// Where a set can be raised from the mark behind a position it is the next one up there.
pub fn up_where_raised()
    ensures { UpWhereRaised }
{}

/// Where none can be raised there, none is above the vector there.
pub fn none_where_not_raised()
    ensures { NoneWhereNotRaised }
{}

/// Where no rotation changes the level at a position and none before it, none is above the vector there.
pub fn none_without_turn()
    ensures { NoneWithoutTurn }
{}

/// The next one up, with none behind, is the first above the vector.
pub fn next_up_is_first()
    ensures { NextUpIsFirst }
{}

/// A walk goes on at the next one up: the marks before stay, and all others are the new set.
pub fn walk_goes_on()
    ensures { WalkGoesOn }
{}

/// A walk begins at the least set that fits.
pub fn walk_begins()
    ensures { WalkBegins }
{}

/// Following a vector finds the mark behind a position or the next one up there.
pub fn follow_on()
    ensures { FollowOn }
{}

/// Where a vector can't be followed none is above it from there on.
pub fn follow_ends()
    ensures { FollowEnds }
{}

/// What a walk over the board of a market finds is the next level vector of an allowed stable matching.
pub fn walk_is_next()
    ensures { WalkIsNext }
{}

/// One more rotation enters what is held.
pub fn log_grows()
    ensures { LogGrows }
{}

/// The last one that entered leaves.
pub fn log_falls()
    ensures { LogFalls }
{}

/// A set is closed once the predecessors of all that it holds are members.
pub fn closed_when_done()
    ensures { ClosedWhenDone }
{}

/// What a member needs is in each closed set that has all held so far.
pub fn need_may_enter()
    ensures { NeedMayEnter }
{}

/// What ends a stay that isn't open is in each set that fits and has all held so far.
pub fn shut_leave_is_in()
    ensures { ShutLeaveIsIn }
{}

/// What ends a stay whose level is too low is in each closed set that reaches the level and has all held so far.
pub fn low_leave_is_in()
    ensures { LowLeaveIsIn }
{}

/// A proposer that no new member moves keeps its stay.
pub fn idle_stays()
    ensures { IdleStays }
{}

/// Where no new member changes a level before a position these levels stay.
pub fn free_keeps_levels()
    ensures { FreeKeepsLevels }
{}

/// Where a new member changes a level before a position not all of these levels stay.
pub fn barred_changes_levels()
    ensures { BarredChangesLevels }
{}

/// Where all that is held was asked for by stays that aren't open, it is in each set that fits.
pub fn asked_is_in()
    ensures { AskedIsIn }
{}

/// What a raise has found where it fits, reaches the level and changes no level before the bar.
pub fn raise_finds()
    ensures { RaiseFinds }
{}

/// A raise finds nothing where somebody is past its last open stay.
pub fn raise_is_past()
    ensures { RaiseIsPast }
{}

/// A raise finds nothing where the proposer stands too low at its last open stay.
pub fn raise_is_last()
    ensures { RaiseIsLast }
{}

/// A raise finds nothing where something new that it needs changes a level before the bar.
pub fn raise_is_barred()
    ensures { RaiseIsBarred }
{}

/// A closed set in each set that fits, in which all have open stays, is the least.
pub fn least_is_found()
    ensures { LeastIsFound }
{}

/// What was asked for before the first asker whose stay is open now is closed.
pub fn asked_is_closed()
    ensures { AskedIsClosed }
{}

/// Gates are right where behind the last open stay nothing is allowed, and before it just what isn't shut.
pub fn gates_from_tests()
    ensures { GatesFromTests }
{}

/// A log is no longer than there are rotations, and has room for one that isn't in it.
pub fn log_fits()
    ensures { LogFits }
{}
