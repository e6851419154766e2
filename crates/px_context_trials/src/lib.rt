//! Trials of contexts: worked examples, and a slow program beside the calls; worked examples of chunks. Nothing
//! stands on this crate.
#![tactic(auto)]

#[cfg(test)]
mod chunks;
#[cfg(test)]
mod contexts;
#[cfg(test)]
mod generated;
#[cfg(test)]
mod kept;
#[cfg(test)]
mod states;
#[cfg(test)]
mod windows;
#[cfg(test)]
mod worked;
