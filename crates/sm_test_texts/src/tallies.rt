//! Tallies in boxes.

ghost use Rattle.std.specs.Prelude.{◌≡◌, length};

use sm_tally::{
    CountTally, CountedRanks, ProfileTally, RegretTally, SumTally, Tally, feed_each, read_out,
};
use std::test::Fail;

#[test]
fn tallies_of_the_three_cycle(rt: HostRuntime) -> Result<(), Fail> {
    let alloc = rt.alloc();
    let mut tallies: Vec<Box<dyn Tally>> = Vec::new(alloc);
    tallies.push(Box::new(alloc, CountTally::new())?)?;
    tallies.push(Box::new(alloc, SumTally::new())?)?;
    tallies.push(Box::new(alloc, RegretTally::new())?)?;
    tallies.push(Box::new(alloc, ProfileTally::new())?)?;
    let mut ranks = CountedRanks::new(alloc, 3)?;
    tell(&mut tallies, &mut ranks, 1, 3);
    tell(&mut tallies, &mut ranks, 2, 2);
    for tally in tallies.iter_mut() {
        feed(tally, &[3, 3, 3], 3);
    }
    let mut shown = Vec::new(alloc);
    for tally in tallies.iter() {
        shown.push(read_out(alloc, tally)?)?;
    }
    let one = (1, vec![in alloc; 3]?);
    let two = (2, vec![in alloc; 18]?);
    let three = (3, vec![in alloc; 3, 2, 3]?);
    let four = (4, vec![in alloc; 3, 3, 3, 0]?);
    assert_eq!(rt; shown, vec![in alloc; one, two, three, four]?);
    Ok(())
}

/// Tells each tally of a matching that gives each of three proposers the same rank.
#[cfg(test)]
fn tell(tallies: &mut Vec<Box<dyn Tally>>, ranks: &mut CountedRanks, rank: u32, regret: u32)
    requires { length ranks.old ≡ 3 }
    ensures { length ranks.new ≡ 3 }
{
    ranks.set(0, rank);
    ranks.set(1, rank);
    ranks.set(2, rank);
    feed_each(tallies, ranks.ranks(), ranks.counts(), regret);
}

/// Tells a tally of a matching whose ranks aren't counted.
#[cfg(test)]
fn feed(tally: &mut Box<dyn Tally>, ranks: &[u32], regret: u32) {
    tally.feed(ranks, regret);
}
