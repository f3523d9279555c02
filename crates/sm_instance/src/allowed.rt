//! The conditions of an instance.

ghost use Rattle.std.specs.Prelude.{◌≡◌, ◌<◌, ◌↔◌, length, IsTrue};
ghost use Rattle.std.specs.List.{All};
ghost use Rattle.sm_instance.specs.Matching.{is_at, IsMatching};
ghost use Rattle.sm_instance.specs.Allowed.{IsAllowed};

use crate::instance::Instance;
use sm_agents::Assignment;

impl Instance {
    /// Whether a matching holds every forced pair and no forbidden pair.
    ///
    /// [`Instance::breach`] has to be `None`. Takes time in proportion to these pairs.
    pub fn allowed(&self, a: &Assignment) -> bool
        requires matching { IsMatching self.now a.now.places.items }
        ensures { IsTrue result ↔ IsAllowed self.now a.now.places.items }
    {
        self.holds_forced(a) && self.holds_no_forbidden(a)
    }

    /// Is a proposer at a reviewer?
    fn is_at(&self, a: &Assignment, p: u32, r: u32) -> bool
        requires matching { IsMatching self.now a.now.places.items }
        requires in_range { p < length self.now.proposers }
        ensures { result ≡ is_at self.now a.now.places.items p r }
    {
        match self.place_held(a, p) {
            Some(place) => self.reviewer_at(p, place) == r,
            None => false,
        }
    }

    /// Does a matching hold every forced pair?
    fn holds_forced(&self, a: &Assignment) -> bool
        requires matching { IsMatching self.now a.now.places.items }
        ensures { IsTrue result
            ↔ All (λ pair. IsTrue (is_at self.now a.now.places.items pair.0 pair.1))
            self.now.forced }
    {
        let forced = self.forced();
        for n in 0..forced.len() {
            let (p, r) = forced[n];
            if !self.is_at(a, p, r) {
                return false;
            }
        }
        true
    }

    /// Does a matching hold no forbidden pair?
    fn holds_no_forbidden(&self, a: &Assignment) -> bool
        requires matching { IsMatching self.now a.now.places.items }
        ensures { IsTrue result
            ↔ All (λ pair. ¬ IsTrue (is_at self.now a.now.places.items pair.0 pair.1))
            self.now.forbidden }
    {
        let forbidden = self.forbidden();
        for n in 0..forbidden.len() {
            let (p, r) = forbidden[n];
            if self.is_at(a, p, r) {
                return false;
            }
        }
        true
    }
}
