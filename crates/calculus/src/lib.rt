#![tactic(auto)]

// The calculus of listings: types, values, terms, typing rules, need and steps stand in specs/. Each function here names laws that they satisfy, and does nothing.
ghost use Rattle.calculus.specs.Room.{Room, BodiesFound};
ghost use Rattle.calculus.specs.Runs.{OrdersCounted, Safety, SafetyKept, Soundness};
ghost use Rattle.calculus.specs.Typing.{OneType, LeavesCounted, NoHandle, Substitution, Renaming, Weakening, Absent};
ghost use Rattle.calculus.specs.Peak.{NetIs, PeakIs, SameNet, PeakOnce, PeaksFound, PeakOfListing, PeakOfLeft};
ghost use Rattle.calculus.specs.Examples.{Worked};
ghost use Rattle.calculus.specs.Pieces.{NetByPieces, PeakByPieces, PiecesFound, NeedByPieces};
ghost use Rattle.calculus.specs.Bounds.{StepWithin, RunWithin};
ghost use Rattle.calculus.specs.Laws.{Preservation, UnnamedEntries, Progress, Sends, StepsFall, Ends, Counted, Determined};

// A step keeps the type of what is left, and its linear names change as the live handles do; entries that are not named make no difference.
pub fn preservation_stands()
    ensures kept { Preservation }
    ensures entries { UnnamedEntries }
{}

// Whatever the machine answers, what is left is finished or has a step; and the orders that a step sends.
pub fn progress_stands()
    ensures goes { Progress }
    ensures sends { Sends }
{}

// A step takes one of the steps that are left, an if's at least one; none are left exactly when all is finished.
pub fn steps_stand()
    ensures fall { StepsFall }
    ensures end { Ends }
    ensures counted { Counted }
{}

// From b live handles, the most that are live from here on never rises by a step, and each prepare finds room within it.
pub fn room_stands()
    ensures room { Room }
    ensures found { BodiesFound }
{}

// What is left that is typed in exactly the live handles, with room for the most that it needs, goes on whatever the machine answers, and the machine accepts every order;
// a step leaves it so. Along every run of a listing with a type, on a machine with enough room, this holds, and steps and live handles stay within the need.
pub fn runs_stand()
    ensures safe { Safety }
    ensures kept { SafetyKept }
    ensures sound { Soundness }
    ensures counted { OrdersCounted }
{}

// The machine's answers and the new entries settle each step.
pub fn determinism_stands()
    ensures { Determined }
{}

// Terms have at most one type, values the leaves of theirs; substitution and weakening keep it; a linear name that is not given does not occur.
pub fn typing_stands()
    ensures once { OneType }
    ensures leaves { LeavesCounted }
    ensures plain { NoHandle }
    ensures values { Substitution }
    ensures entries { Renaming }
    ensures wider { Weakening }
    ensures absent { Absent }
{}

// Net and peak, as the language words them, are what the live handles do: the net is their change, the peak the most that are added.
pub fn need_stands()
    ensures net { NetIs }
    ensures peak { PeakIs }
    ensures branches { SameNet }
    ensures once { PeakOnce }
    ensures found { PeaksFound }
    ensures listing { PeakOfListing }
    ensures left { PeakOfLeft }
{}

// Live handles plus the peak of what is left never rise along a run, so they never pass the peak of the listing.
pub fn bounds_stand()
    ensures step { StepWithin }
    ensures run { RunWithin }
{}

// Net and peak found from the pieces of a term alone, without its types, are those of the types.
pub fn pieces_stand()
    ensures net { NetByPieces }
    ensures peak { PeakByPieces }
    ensures found { PiecesFound }
    ensures need { NeedByPieces }
{}

// Listings with a type and listings without one, their need, and what they come to.
pub fn examples_stand()
    ensures { Worked }
{}
