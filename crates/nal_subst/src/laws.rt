//! The laws of substitution.
ghost use Rattle.nal_subst.specs.Laws.{FreeAfter, FreeByPlaces, UndefinedByPlaces};

/// Which variables are free, and where a substitution is undefined, by the places of a formula; and which variables are
/// free in what it gives. The call does nothing.
pub fn variables_are_kept_apart()
    ensures free { FreeByPlaces }
    ensures undefined { UndefinedByPlaces }
    ensures after { FreeAfter }
{}
