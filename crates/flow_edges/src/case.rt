//! The ways in which a condition can have a truth.

ghost use Rattle.std.specs.Prelude.{◌≡◌};

use base_list::Sequence;
use lang_tree::Form;
use std::alloc::AllocError;

/// Why the cases of a condition aren't listed.
#[derive(Clone, Copy, Debug, PartialEq, Eq, Drop)]
pub enum CasesFault {
    /// There are more than 64.
    TooMany,
    NoMemory,
}

impl From<AllocError> for CasesFault {
    ghost use Rattle.flow_edges.specs.declared.case.CasesFault.TheVariants.{NoMemory};

    ghost from_gives = { λ _ e. e ≡ NoMemory };

    fn from(_e: AllocError) -> CasesFault {
        CasesFault::NoMemory
    }
}

/// Guards in order: forms that are all at most 0.
pub type Case = Sequence<Form>;

/// Cases in order.
pub type Cases = Sequence<Case>;
