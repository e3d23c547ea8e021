//! Laws of packs. The function does nothing: its contract is the laws.

ghost use Rattle.flow_packs.specs.Laws.{OneOfGroups, NoneAreIntervals, AllAreOctagons, NoMoreThanOctagons};

/// Packs are a function of which variables are together, and lie between intervals and octagons.
pub fn packs_laws()
    ensures once { OneOfGroups }
    ensures none { NoneAreIntervals }
    ensures all { AllAreOctagons }
    ensures most { NoMoreThanOctagons }
{}
