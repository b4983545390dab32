//! Tests of the bench on examples. Expected values come from the rules in docs/.
#![tactic(auto)]

#[cfg(test)]
mod bundles;
#[cfg(test)]
mod faults;
#[cfg(test)]
mod joins;
#[cfg(test)]
mod packs;
