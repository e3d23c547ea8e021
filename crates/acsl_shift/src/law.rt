//! The laws that the places of tokens carry no meaning but the lines, and the places of checks.

ghost use Rattle.acsl_shift.specs.Law.{TokensMayMove, WholeMayMove};

/// Tokens that mean a function mean it also where each stands at another place (docs/MEANING.md, "Annotations").
///
/// `means`: the same variables, and the same statements but for their lines and the places of tokens. `whole`: tokens that are a function
/// without a fault of its grammar are one there.
pub fn tokens_may_move()
    ensures means { TokensMayMove }
    ensures whole { WholeMayMove }
{}
