#![tactic(auto)]

// The questions of the rules, asked in one walk over a listing, stand in specs/. Each function here names what is proved of them, and does nothing.
ghost use Rattle.questions.specs.Laws.{Sound, Complete, Exact, RefusedUnnamed, RefusedUntyped, MarksOnly};
ghost use Rattle.questions.specs.Listings.{Verdicts, Worked};

// Where the walk accepts a listing, the listing has that type.
pub fn soundness_stands()
    ensures { Sound }
{}

// Where a listing has a type, with few leaves, the walk accepts it with that type.
pub fn completeness_stands()
    ensures { Complete }
{}

// A listing within naming and the limit on leaves is accepted exactly when it has a typing, and with that type.
pub fn exactness_stands()
    ensures { Exact }
{}

// A listing refused with a question of naming does not keep the rules of naming; one refused with a question from 9 on has no typing.
pub fn refusals_stand()
    ensures naming { RefusedUnnamed }
    ensures typing { RefusedUntyped }
{}

// A term changes the names in scope in their spent marks alone.
pub fn marks_stand()
    ensures { MarksOnly }
{}

// Listings worked through: their verdicts, and what follows of their typings.
pub fn listings_stand()
    ensures verdicts { Verdicts }
    ensures worked { Worked }
{}
