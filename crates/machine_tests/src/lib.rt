#![tactic(auto)]

// Tests of the script machine and the coin machine.
#[cfg(test)]
mod coins;
#[cfg(test)]
mod expect;
#[cfg(test)]
mod scripts;
