// Why the rules refuse a listing, with the place.
ghost use Rattle.std.specs.Prelude.{◌≡◌};
ghost use Rattle.rules.specs.declared.fault.RuleFault.TheVariants.{Memory};

use std::alloc::{AllocError, AllocFailed};

#[derive(Clone, Copy)]
pub enum RuleFault {
    // 5: a tuple or a written type has more than 8 leaves
    Leaves { place: usize },
    // 6: a bound name is not new
    Taken { place: usize },
    // 7: a used or set name is not in scope, or a called one is no operation
    Unknown { place: usize },
    // 8: the called operation is not above the calling one
    Below { place: usize },
    // 9: a linear name is spent already
    Spent { place: usize },
    // 10: a linear name is bound outside a mut or set right side around it
    Outside { place: usize },
    // 11: the types do not fit
    Misfit { place: usize },
    // 12: a set name was not bound by mut
    Fixed { place: usize },
    // 13: the branches do not spend the same outside names
    Branches { place: usize },
    // 14: a linear name is not spent at the end of its scope
    Unspent { place: usize },
    // a case of the layer's fault, since it has no number and no place
    Memory,
}

impl From<AllocError> for RuleFault {
    ghost from_gives = { λ _ r. r ≡ Memory };

    fn from(_e: AllocError) -> RuleFault {
        RuleFault::Memory
    }
}

impl<T: Drop> From<AllocFailed<T>> for RuleFault {
    ghost from_gives = { λ _ r. r ≡ Memory };

    fn from(_e: AllocFailed<T>) -> RuleFault {
        RuleFault::Memory
    }
}
