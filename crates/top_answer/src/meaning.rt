//! What the parts around the least bounds mean.

ghost use Rattle.top_texts.specs.Meanings.{Meanings};

/// Who says what the answers of a run mean that aren't reports of least bounds: which operations are too wide and which joint problems
/// too large, which certificates are made, accepted and refused, which text a certificate has, which verdicts are given on claims, which
/// programs are generated, and how messages read.
/// The contract of `run` speaks of these meanings alone, so that it can be read without them; `accepted_is_least`, `ending_is_one`
/// and their like are laws of them.
pub trait Meaning {
    /// The meanings, side by side.
    ghost means: { Meanings };
}

/// The meanings of the program: those of exact fractions, where an operation is refused exactly where its result doesn't fit.
#[derive(Clone, Copy, Debug, Drop)]
pub struct Exact;

impl Meaning for Exact {
    ghost use Rattle.top_texts.specs.Exact.{exact};

    ghost means = { exact };
}
