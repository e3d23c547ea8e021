//! What the end of a statement tells of what was read.

ghost use Rattle.std.specs.Prelude.{◌≡◌, ◌-◌, ◌&&◌, ℕ, not, true};
ghost use Rattle.source_core.specs.Elaborated.{Evaluated as CorePrelude, Numbered as CoreNumber, Tested as CoreTested};
ghost use Rattle.source_value.specs.Kept.{is_within, is_small, have_small};
ghost use Rattle.source_value.specs.Stands.{StandsNumber, StandsTested, StandsEvaluated};

use crate::site::Site;
use crate::value::{Evaluated, Number, Tested};

impl Site {
    /// How many hidden variables were taken, where `next` is the one that comes next.
    pub fn hidden_before(self, next: u32) -> u32
        ensures { result ≡ next - self.variables }
    {
        next.saturating_sub(self.variables)
    }
}

impl Evaluated {
    /// Whether a condition of the prelude has more leaves than it may have, where no more hidden variables were taken than there may be.
    pub fn is_large(&self) -> bool
        ensures { (n : ℕ) (d : CorePrelude) → StandsEvaluated n self.now d → is_within n d.next ≡ true
            → result ≡ not (have_small d.prelude) }
    {
        !self.prelude.is_kept()
    }
}

impl Number {
    /// Whether a condition of the prelude has more leaves than it may have, where no more hidden variables were taken than there may be.
    pub fn is_large(&self) -> bool
        ensures { (n : ℕ) (a : CoreNumber) → StandsNumber n self.now a → is_within n a.next ≡ true
            → result ≡ not (have_small a.prelude) }
    {
        !self.prelude.is_kept()
    }
}

impl Tested {
    /// Whether the condition, or one of its prelude, has more leaves than it may have, where no more hidden variables were taken than there
    /// may be.
    pub fn is_large(&self) -> bool
        ensures { (n : ℕ) (a : CoreTested) → StandsTested n self.now a → is_within n a.next ≡ true
            → result ≡ not (have_small a.prelude && is_small a.condition) }
    {
        !(self.prelude.is_kept() && self.condition.is_kept())
    }
}
