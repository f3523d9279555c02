//! The answer of `pairs`.

ghost use Rattle.std.specs.Prelude.{◌≡◌, ◌<◌, ◌++◌, ◌==◌, ℕ, List, length, IfOk, OnOk};
ghost use Rattle.sm_report.specs.Lines.{line_of};
ghost use Rattle.sm_answer.specs.Giving.{HasRest};
ghost use Rattle.sm_answer.specs.Printing.{IsShown};
ghost use Rattle.sm_instance.specs.declared.inputs.Input.TheVariants.{Two};
ghost use Rattle.sm_seats.specs.Seating.{seating_of};
ghost use Rattle.sm_seats.specs.Correspondence.{IsSeating};
ghost use Rattle.sm_answer_pairs.specs.PairsAnswer.{IsPairsAnswer};
ghost use Rattle.sm_answer_pairs.specs.Found.{line_of_pair, pairs_given, pairs_at_levels, AreFromOne};

use sm_answer::{Answer, Lines, One, Printed, Then};
use sm_answer_rotations::find_poset;
use sm_instance::{Input, Instance};
use sm_lattice::stable_levels;
use sm_report::{Head, Line};
use sm_seats::Seats;
use std::alloc::{AllocError, AllocFailed, Global};

/// A pair that is in some stable matching. Agents are numbered from 0.
#[derive(Clone, Copy)]
pub struct StablePair {
    pub proposer: u32,
    pub reviewer: u32,
    /// Whether it is in every stable matching.
    pub fixed: bool,
}

/// The pairs of the stable matchings of an instance, by proposer and along its list.
///
/// Takes the time and the memory of [`find_poset`] and [`sm_lattice::stable_levels`]: a proposer has a place in a stable matching
/// where it is its first or a rotation moves it there (Gusfield and Irving 1989, section 2.3.3).
///
/// # Errors
///
/// `AllocError` where memory ran out, and only then.
pub fn find_pairs(
    alloc: Global,
    instance: &Instance,
    seats: &Seats,
) -> Result<Vec<StablePair>, AllocError>
    requires seats { seats.now ≡ seating_of instance.now }
    requires seating { IsSeating instance.now seats.now }
    ensures { IfOk result (λ pairs. IsPairsAnswer instance.now (pairs_given pairs.items)) }
{
    let poset = find_poset(alloc, seats)?;
    let levels = seats.levels(alloc)?;
    let rows = stable_levels(alloc, &poset, &levels)?;
    let mut pairs = Vec::new(alloc);
    for p in 0..instance.proposer_count() {
        push_pairs(&mut pairs, instance, p, &rows[p as usize])?;
    }
    Ok(pairs)
}

/// Adds the pairs of a proposer that has these levels in stable matchings.
fn push_pairs(
    pairs: &mut Vec<StablePair>,
    instance: &Instance,
    p: u32,
    levels: &[u32],
) -> Result<(), AllocFailed<StablePair>>
    requires in_range { p < length instance.now.proposers }
    requires from_one { AreFromOne levels.now }
    ensures { OnOk result (pairs.new.items
        ≡ pairs.old.items ++ pairs_at_levels instance.now (length levels.now == 1) p levels.now) }
{
    let past = instance.proposer_len(p);
    let fixed = levels.len() == 1;
    for level in levels {
        if *level <= past {
            pairs.push(StablePair {
                proposer: p,
                reviewer: instance.reviewer_at(p, *level - 1),
                fixed,
            })?;
        }
    }
    Ok(())
}

/// The lines of pairs that are left.
#[derive(Drop)]
pub struct PairsLeft<'a>(&'a [StablePair]);

impl Answer for PairsLeft<'_> {
    ghost use Rattle.std.specs.Prelude.{◌≡◌, map, length};

    ghost gives = { λ left rest. rest ≡ map line_of_pair left.0.now };

    ghost most = { λ left. length left.0.now };

    fn next(&mut self, _alloc: Global) -> Result<Option<Line>, AllocError> {
        match self.0.split_first() {
            Some((pair, rest)) => {
                self.0 = rest;
                Ok(Some(line_for(*pair)))
            }
            None => Ok(None),
        }
    }
}

/// The line of a pair.
fn line_for(pair: StablePair) -> Line
    ensures { line_of result ≡ line_of_pair pair }
{
    if pair.fixed {
        Line::AllPair(pair.proposer, pair.reviewer)
    } else {
        Line::SomePair(pair.proposer, pair.reviewer)
    }
}

/// The lines of the answer of `pairs`.
pub type PairsLines<'a> = Printed<'a, Then<One, Then<PairsLeft<'a>, One>>>;

/// The head, the stable pairs, and `end`. Takes constant time; the lines together take time linear in the pairs.
pub fn pairs_lines<'a>(
    input: &'a Input,
    instance: &Instance,
    pairs: &'a [StablePair],
) -> PairsLines<'a>
    requires input { input.now ≡ Two instance.now }
    requires found { IsPairsAnswer instance.now (pairs_given pairs.now) }
    ensures right { (lines : List (List ℕ)) → ⟦<PairsLines<'a> as Lines>⟧.gives result lines
        → IsShown input.now (IsPairsAnswer instance.now) lines }
    ensures some { HasRest (⟦<PairsLines<'a> as Lines>⟧.gives result) }
{
    let _count = instance.proposer_count();
    Printed {
        input,
        answer: Then {
            first: One(Some(Line::Answer(Head::Pairs))),
            second: Then {
                first: PairsLeft(pairs),
                second: One(Some(Line::End)),
            },
        },
    }
}
