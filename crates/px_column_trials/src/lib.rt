//! Trials of calls that no document reaches: values, columns, frames and groups; and of kernels beside
//! slow programs, on generated columns. Nothing stands on this crate.
#![tactic(auto)]

#[cfg(test)]
mod columns;
#[cfg(test)]
mod frames;
#[cfg(test)]
mod generated;
#[cfg(test)]
mod groups;
#[cfg(test)]
mod random_columns;
#[cfg(test)]
mod random_groups;
#[cfg(test)]
mod slices;
#[cfg(test)]
mod slow_cells;
#[cfg(test)]
mod slow_rows;
#[cfg(test)]
mod values;
