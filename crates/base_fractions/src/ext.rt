// Fractions with infinities.
use crate::exact::Frac;
use crate::text::Text;
use std::cmp::Ordering;
use std::hash::{Hash, Hasher};

/// A fraction, or an infinity below or above all fractions.
#[derive(Clone, Copy, Debug, Drop)]
pub enum Ext {
    NegInf,
    Fin(Frac),
    PosInf,
}

impl Ext {
    ghost use Rattle.std.specs.Prelude.{◌≡◌, ◌≢◌, MatchOption, Some};
    ghost use Rattle.base_fractions.specs.declared.ext.Ext.{Ext};
    ghost use Rattle.base_fractions.specs.Extended.{ext_text, ExtFits};

    /// The canonical text: that of the fraction, or `-inf` or `+inf`.
    pub fn text(self) -> Text
        ensures { result ≡ ext_text self }
    {
        match self {
            Ext::NegInf => Text::of(b"-inf"),
            Ext::Fin(number) => number.text(),
            Ext::PosInf => Text::of(b"+inf"),
        }
    }

    /// The value whose canonical text these bytes are; `None` exactly where they are the text of no value that fits.
    pub fn read(text: &[u8]) -> Option<Ext>
        ensures read { MatchOption result ((e : Ext) → ExtFits e → text.now ≢ ext_text e) (λ r. (text.now ≡ ext_text r) × ExtFits r) }
        ensures back { (e : Ext) → ExtFits e → text.now ≡ ext_text e → result ≡ Some e }
    {
        if text == b"-inf".as_slice() {
            return Some(Ext::NegInf);
        }
        if text == b"+inf".as_slice() {
            return Some(Ext::PosInf);
        }
        match Frac::read(text) {
            Some(number) => Some(Ext::Fin(number)),
            None => None,
        }
    }
}

impl PartialEq for Ext {
    ghost use Rattle.std.specs.Ordering.{eq_by_cmp};
    ghost use Rattle.std.specs.Cmp.{partial_equiv_from_equiv};
    ghost use Rattle.base_fractions.specs.Extended.{ext_cmp, ext_cmp_equiv};

    ghost eq = { eq_by_cmp ext_cmp };

    ghost laws = { partial_equiv_from_equiv ext_cmp_equiv };

    fn eq(&self, other: &Self) -> bool {
        self.cmp(other).is_eq()
    }
}

impl Eq for Ext {
    ghost use Rattle.base_fractions.specs.Extended.{ext_cmp_equiv};

    ghost laws = { ext_cmp_equiv };
}

impl Ord for Ext {
    ghost use Rattle.std.proofs.Common.{refl};
    ghost use Rattle.base_fractions.specs.Extended.{ext_cmp, ext_cmp_total};

    ghost cmp = { ext_cmp };

    ghost total = { ext_cmp_total };

    ghost matches_partial_cmp = { λ x y. refl };

    ghost matches_eq = { λ x y. refl };

    fn cmp(&self, other: &Self) -> Ordering {
        match (self, other) {
            (Ext::Fin(left), Ext::Fin(right)) => left.cmp(right),
            (Ext::NegInf, Ext::NegInf) | (Ext::PosInf, Ext::PosInf) => Ordering::Equal,
            (Ext::NegInf, _) | (_, Ext::PosInf) => Ordering::Less,
            _ => Ordering::Greater,
        }
    }
}

impl PartialOrd for Ext {
    ghost use Rattle.std.proofs.Common.{refl};
    ghost use Rattle.std.specs.Ordering.{as_partial_cmp};
    ghost use Rattle.std.specs.Cmp.{partial_order_from_agreeing_total};
    ghost use Rattle.base_fractions.specs.Extended.{ext_cmp, ext_cmp_total};

    ghost partial_cmp = { as_partial_cmp ext_cmp };

    ghost laws = { partial_order_from_agreeing_total ext_cmp ext_cmp_total (λ x y. refl) (λ x y. refl) };

    fn partial_cmp(&self, other: &Self) -> Option<Ordering> {
        Some(self.cmp(other))
    }
}

impl Hash for Ext {
    ghost use Rattle.base_fractions.specs.Hashed.{ext_hash, ext_hash_agrees};

    ghost hash_input = { ext_hash };

    ghost respects_eq = { ext_hash_agrees };

    fn hash<H: Hasher>(&self, state: &mut H) {
        match self {
            Ext::NegInf => state.write_u8(0),
            Ext::Fin(number) => {
                state.write_u8(1);
                number.hash(state);
            }
            Ext::PosInf => state.write_u8(2),
        }
    }
}
