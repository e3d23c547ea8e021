// Comparisons of fractions: those of the rational numbers.
use crate::exact::Exact;
use crate::limit::Limit;
use crate::parts::wide_product;
use std::cmp::Ordering;
use std::hash::{Hash, Hasher};

impl<L: Limit> PartialEq for Exact<L> {
    ghost use Rattle.std.specs.Ordering.{eq_by_cmp};
    ghost use Rattle.std.specs.Cmp.{partial_equiv_from_equiv};
    ghost use Rattle.base_numbers.specs.Compare.{cmp_ℚ};
    ghost use Rattle.base_numbers.proofs.compare.Compared.{eq_ℚ_equiv};

    ghost eq = { eq_by_cmp cmp_ℚ };

    ghost laws = { partial_equiv_from_equiv eq_ℚ_equiv };

    fn eq(&self, other: &Self) -> bool {
        self.cmp(other).is_eq()
    }
}

impl<L: Limit> Eq for Exact<L> {
    ghost use Rattle.base_numbers.proofs.compare.Compared.{eq_ℚ_equiv};

    ghost laws = { eq_ℚ_equiv };
}

impl<L: Limit> Ord for Exact<L> {
    ghost use Rattle.std.proofs.Common.{refl};
    ghost use Rattle.base_numbers.specs.Compare.{cmp_ℚ};
    ghost use Rattle.base_numbers.proofs.compare.Compared.{cmp_ℚ_total};

    ghost cmp = { cmp_ℚ };

    ghost total = { cmp_ℚ_total };

    ghost matches_partial_cmp = { λ x y. refl };

    ghost matches_eq = { λ x y. refl };

    fn cmp(&self, other: &Self) -> Ordering {
        wide_product(self.num, other.den).cmp(&wide_product(other.num, self.den))
    }
}

impl<L: Limit> PartialOrd for Exact<L> {
    ghost use Rattle.std.proofs.Common.{refl};
    ghost use Rattle.std.specs.Ordering.{as_partial_cmp};
    ghost use Rattle.std.specs.Cmp.{partial_order_from_agreeing_total};
    ghost use Rattle.base_numbers.specs.Compare.{cmp_ℚ};
    ghost use Rattle.base_numbers.proofs.compare.Compared.{cmp_ℚ_total};

    ghost partial_cmp = { as_partial_cmp cmp_ℚ };

    ghost laws = { partial_order_from_agreeing_total cmp_ℚ cmp_ℚ_total (λ x y. refl) (λ x y. refl) };

    fn partial_cmp(&self, other: &Self) -> Option<Ordering> {
        Some(self.cmp(other))
    }
}

impl<L: Limit> Hash for Exact<L> {
    ghost use Rattle.base_fractions.specs.HashedParts.{frac_hash, frac_hash_agrees};

    ghost hash_input = { frac_hash };

    ghost respects_eq = { frac_hash_agrees };

    fn hash<H: Hasher>(&self, state: &mut H) {
        self.num.hash(state);
        self.den.hash(state);
    }
}
