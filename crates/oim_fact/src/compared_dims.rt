//! Dimension sets compare and hash as their lists.

ghost use Rattle.std.specs.Prelude.{Some, refl};
ghost use Rattle.std.specs.Cmp.{eq_by_cmp_equiv, partial_equiv_from_equiv, partial_order_from_agreeing_total};
ghost use Rattle.std.specs.Hash.{same_Alike};
ghost use Rattle.filing_model.specs.Oim.Dimensions.{dims_cmp, dims_eq, dims_hash};
ghost use Rattle.filing_model.proofs.Oim.DimensionSets.{dims_cmp-total, dims_decides};

use crate::dims::DimSet;
use std::cmp::Ordering;
use std::hash::{Hash, Hasher};

impl PartialEq for DimSet {
    ghost eq = { dims_eq };

    ghost laws = { partial_equiv_from_equiv (eq_by_cmp_equiv dims_cmp-total) };

    fn eq(&self, other: &DimSet) -> bool {
        self.pairs() == other.pairs()
    }
}

impl Eq for DimSet {
    ghost laws = { eq_by_cmp_equiv dims_cmp-total };
}

impl PartialOrd for DimSet {
    ghost partial_cmp = { λ x y. Some (dims_cmp x y) };

    ghost laws = { partial_order_from_agreeing_total dims_cmp dims_cmp-total (λ x y. refl) (λ x y. refl) };

    fn partial_cmp(&self, other: &DimSet) -> Option<Ordering> {
        Some(self.cmp(other))
    }
}

impl Ord for DimSet {
    ghost cmp = { dims_cmp };

    ghost total = { dims_cmp-total };

    ghost matches_partial_cmp = { λ x y. refl };

    ghost matches_eq = { λ x y. refl };

    fn cmp(&self, other: &DimSet) -> Ordering {
        self.pairs().cmp(other.pairs())
    }
}

impl Hash for DimSet {
    ghost hash_input = { dims_hash };

    ghost respects_eq = { (same_Alike dims_hash dims_decides).fed };

    fn hash<H: Hasher>(&self, state: &mut H) {
        self.pairs().hash(state);
    }
}
