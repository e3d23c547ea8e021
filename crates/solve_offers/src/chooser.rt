//! Choosers.

ghost use Rattle.std.specs.Prelude.{◌≡◌, ℕ};
ghost use Rattle.solve_offers.specs.Offers.{Exceeds, SomeExceeds, Exceeds-prop};

use crate::offer::Offer;

/// A function that answers a position of an offer.
pub type Policy = fn(&Offer) -> usize;

/// A function that chooses from offers, kept beside the facts that it may be called on every offer in which some value exceeds
/// the bound, and that it answers there a position whose value exceeds it. It is a function pointer, of which a field can state
/// such facts; a closure that captures nothing serves too.
#[derive(Drop)]
pub struct Chooser {
    pub policy: fn(&Offer) -> usize,
    pub ghost takes: { (offer : _) → SomeExceeds offer.now → pre policy offer },
    pub ghost exceeds: { (offer : _) (k : ℕ) → SomeExceeds offer.now → post policy offer k
        → Exceeds offer.now k } by { λ p q i offer k some answers.
            Exceeds-prop offer.now k (p offer k some answers) (q offer k some answers) i },
}

impl Chooser {
    /// Keeps a function.
    pub fn new(policy: fn(&Offer) -> usize) -> Chooser
        requires takes { (offer : _) → SomeExceeds offer.now → Policy.pre policy offer }
        requires exceeds { (offer : _) (k : ℕ) → SomeExceeds offer.now → Policy.post policy offer k → Exceeds offer.now k }
        ensures { result.policy ≡ policy }
    {
        Chooser { policy }
    }

    /// The position that the kept function answers: one whose value exceeds the bound.
    pub fn choose(&self, offer: &Offer) -> usize
        requires { SomeExceeds offer.now }
        ensures answers { Policy.post self.now.policy offer.entry result }
        ensures exceeds { Exceeds offer.now result }
    {
        (self.policy)(offer)
    }
}
