//! Which of two places on a list a proposer gets.

ghost use Rattle.std.specs.Prelude.{◌≡◌};
ghost use Rattle.sm_theory.specs.Lattice.{better, worse};
ghost use Rattle.sm_theory.specs.Choices.{chosen};

/// Which of its two partners a proposer gets: the better one in a meet, and the worse one in a join.
#[derive(Clone, Copy, Debug, PartialEq, Eq)]
pub enum Choice {
    Better,
    Worse,
}

/// The chosen one of two places on a list, where being unmatched is worse than every place. Places count from 0, and `None` is
/// where a proposer is unmatched. Takes constant time (Gusfield and Irving 1989, section 1.3.1).
pub fn chosen_place(choice: Choice, first: Option<u32>, second: Option<u32>) -> Option<u32>
    ensures { result ≡ chosen choice first second }
{
    match choice {
        Choice::Better => better(first, second),
        Choice::Worse => worse(first, second),
    }
}

/// The better of two places.
fn better(first: Option<u32>, second: Option<u32>) -> Option<u32>
    ensures { result ≡ better first second }
{
    match (first, second) {
        (Some(i), Some(k)) => Some(i.min(k)),
        (Some(i), None) => Some(i),
        (None, other) => other,
    }
}

/// The worse of two places.
fn worse(first: Option<u32>, second: Option<u32>) -> Option<u32>
    ensures { result ≡ worse first second }
{
    Some(first?.max(second?))
}
