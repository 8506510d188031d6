#![tactic(auto)]

// Histories of a bench: what its calls do, and what holds after each, stand in specs/. Each function here names a law, and does nothing.
ghost use Rattle.histories.specs.Laws.{HistoriesSound, CallsKeep, OpenKeeps, RunsEnd, ValuesTyped};

// Every history is sound: what is left has the listing's type in exactly the live handles, steps and live handles stay within the need, each order is counted.
pub fn histories_stand()
    ensures { HistoriesSound }
{}

// An open, and a call that does what it is to do, go on with every history, soundly after each step too; in a history the machine refuses no order.
pub fn promises_stand()
    ensures opening { OpenKeeps }
    ensures calls { CallsKeep }
{}

// After an open, a load and an advance by the need's steps the run has ended; the value of an ended run has the listing's type, and its handles are the live ones.
pub fn ends_stand()
    ensures end { RunsEnd }
    ensures typed { ValuesTyped }
{}
