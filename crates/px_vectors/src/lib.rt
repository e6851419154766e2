//! Worked examples of what frames, steps and texts mean, and plain programs that do what the definitions say.
#![tactic(auto)]

mod costs;
mod examples;
mod form_examples;
mod library_call;
mod node_examples;
mod plain;
mod plain_step;
mod worked;

pub use costs::cost_examples;
pub use examples::{
    fault_examples, group_examples, refusal_examples, select_examples, window_examples,
};
pub use form_examples::{choice_forms, row_forms, step_forms};
pub use library_call::totals;
pub use node_examples::{choice_examples, function_examples, row_examples};
pub use plain::plain_parts;
pub use plain_step::{Aggregation, plain_group_step};
pub use worked::{
    worked_documents, worked_lines, worked_parts, worked_refusals, worked_steps, worked_texts,
};
