//! Trials of calls that no document reaches: expressions, nodes, the planner and the state of an
//! evaluation; nodes on generated groups beside the rows of each group alone; runs, the plain programs and
//! the call of a library. Nothing stands on this crate.
#![tactic(auto)]

#[cfg(test)]
mod library;
#[cfg(test)]
mod nodes;
#[cfg(test)]
mod on_groups;
#[cfg(test)]
mod plain;
#[cfg(test)]
mod planner;
#[cfg(test)]
mod runs;
#[cfg(test)]
mod state;
#[cfg(test)]
mod trees;
