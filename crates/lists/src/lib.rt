#![tactic(auto)]

// Laws on lists that hold at most so many elements.
