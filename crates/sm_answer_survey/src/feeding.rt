//! Tallies that are told of the allowed stable matchings.

ghost use Rattle.std.specs.Prelude.{◌≡◌, None, map, IfOk};
ghost use Rattle.sm_tally.specs.Fold.{shown_as};
ghost use Rattle.sm_seats.specs.Seating.{seating_of};
ghost use Rattle.sm_seats.specs.Correspondence.{IsSeating};
ghost use Rattle.sm_seats.specs.Vectors.{IsAllowedRankVector};
ghost use Rattle.sm_lists.specs.Orders.{AreAlikeBelow};
ghost use Rattle.sm_answer_list.specs.Started.{IsListerOf};
ghost use Rattle.sm_answer_survey.specs.Surveying.{IsFed, AreTold, IsLastVector};
ghost use Rattle.sm_answer_survey.specs.Surveys.{IsSurvey};
ghost use Rattle.sm_answer_survey.specs.Regrets.{AreKeptOf};

use crate::regrets::Regrets;
use crate::survey::Survey;
use sm_answer_list::start_list;
use sm_instance::Instance;
use sm_lister::Lister;
use sm_seats::Seats;
use sm_tally::{Tally, feed_each};
use std::alloc::{AllocError, Global};

/// Tells each tally of the stable matchings that the conditions of an instance allow, of each once, by its rank vector and its
/// regret. They come in the order of `list`: that of their rank vectors, at most `limit` from the first one on (after Gusfield
/// and Irving 1989, section 3.3).
///
/// Takes the time and the memory of [`start_list`], and two numbers for each proposer, and then for each matching the time of a
/// step of the lister, in which no memory is taken, and time in proportion to the proposers from [`Lister::changed_from`] on,
/// to pieces of 64 proposers, and to the tallies.
///
/// # Errors
///
/// `AllocError` where memory ran out, and only then. Nothing is said then of what the tallies show.
pub fn take_survey(
    alloc: Global,
    instance: &Instance,
    seats: &Seats,
    limit: u32,
    tallies: &mut Vec<Box<dyn Tally>>,
) -> Result<Survey, AllocError>
    requires seats { seats.now ≡ seating_of instance.now }
    requires seating { IsSeating instance.now seats.now }
    ensures { IfOk result (λ survey. IsSurvey instance.now limit (map
        (λ t. shown_as (kind t) (shown t)) tallies.old.items)
        (map (λ t. shown_as (kind t) (shown t)) tallies.new.items) survey) }
{
    let mut lister = start_list(alloc, instance, seats, &None)?;
    let mut regrets = Regrets::new(alloc, instance)?;
    let listed = feed_listed(&mut lister, &mut regrets, instance, limit, tallies);
    let last = if listed < limit {
        None
    } else {
        last_of(alloc, &mut lister)?
    };
    Ok(Survey { listed, last })
}

/// Tells each tally of the matchings that a lister lists, at most so many, and says how many they are.
fn feed_listed(
    lister: &mut Lister,
    regrets: &mut Regrets,
    instance: &Instance,
    limit: u32,
    tallies: &mut Vec<Box<dyn Tally>>,
) -> u32
    requires lister { IsListerOf instance.now None lister.old }
    requires regrets { AreKeptOf instance.now regrets.old }
    ensures { AreTold instance.now limit lister.new result (map (λ t. shown_as (kind t) (shown t))
        tallies.old.items)
        (map (λ t. shown_as (kind t) (shown t)) tallies.new.items) }
{
    let mut listed = 0;
    'matchings: while listed < limit {
        if !lister.advance() {
            return listed;
        }
        let from = lister.changed_from();
        feed(tallies, regrets, instance, lister.current(), from);
        listed += 1;
    }
    listed
}

/// Tells each tally of the matching of a rank vector. Proposers before `from` have the ranks of the matching before.
fn feed(
    tallies: &mut Vec<Box<dyn Tally>>,
    regrets: &mut Regrets,
    instance: &Instance,
    ranks: &[u32],
    from: u32,
)
    requires vector { IsAllowedRankVector instance.now ranks.now }
    requires regrets { AreKeptOf instance.now regrets.old }
    requires alike { AreAlikeBelow from regrets.old.ranks ranks.now }
    ensures fed { IsFed instance.now ranks.now (map (λ t. shown_as (kind t) (shown t))
        tallies.old.items)
        (map (λ t. shown_as (kind t) (shown t)) tallies.new.items) }
    ensures regrets { AreKeptOf instance.now regrets.new }
    ensures ranks { regrets.new.ranks ≡ ranks.now }
{
    let regret = regrets.regret(instance, ranks, from);
    feed_each(tallies, ranks, regrets.counts(), regret);
}

/// The last vector to which a lister came, where another one follows it.
fn last_of(alloc: Global, lister: &mut Lister) -> Result<Option<Vec<u32>>, AllocError>
    ensures { IfOk result (λ last. IsLastVector lister.old last) }
{
    let last = lister.cursor(alloc)?;
    if lister.advance() { Ok(last) } else { Ok(None) }
}
