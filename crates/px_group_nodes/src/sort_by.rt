//! Rows of a context in the order of some keys.
ghost use Rattle.std.specs.Prelude.{◌≡◌, ◌⊎◌, ◌+◌, ◌<◌, ◌≤◌, ◌^◌, ◌∷◌, Err, IfErr, IfOk, Ok, length, map};
ghost use Rattle.std.specs.List.{list_any};
ghost use Rattle.px_column.specs.Prelude.{AnswersBy, is_list_kind};
ghost use Rattle.px_frame.specs.CellView.{named_cell};
ghost use Rattle.px_context.specs.Context.{cell_kind};
ghost use Rattle.px_lanes.specs.Made.{IsFault, IsRefusal, KeepsGroups, counts_in};
ghost use Rattle.px_group_nodes.specs.Many.{AreAllPaired};
ghost use Rattle.px_group_nodes.specs.SortBy.{IsSortedBy, sort_by_answers, sort_by_kind};

use crate::each_many::{Many, each_many};
use px_column::{InvalidWhy, Px, PxError, SortMultipleOptions, Steps};
use px_context::AggregationContext;
use px_frame::Cell;
use px_lanes::laying::from_lists;
use px_nodes::sort_by_cells;
use std::alloc::Global;
use std::sync::ledger::Ledger;

impl Many for SortMultipleOptions {
    ghost use Rattle.px_group_nodes.specs.SortBy.{sort_first};

    ghost node = { sort_first };

    fn make<L: Ledger>(
        &self,
        alloc: Global,
        inputs: Vec<Cell>,
        kernels: &mut Steps<L>,
    ) -> Px<Cell> {
        let mut keys = inputs;
        if keys.is_empty() {
            return Err(PxError::InvalidOperation(InvalidWhy::Types));
        }
        let input = keys.remove(0);
        sort_by_cells(alloc, input, keys, self, kernels)
    }
}

/// Whether the cells of one of the keys have lists.
fn have_lists(keys: &[AggregationContext<'_>]) -> bool
    ensures { result ≡ list_any is_list_kind (map cell_kind keys.now) }
{
    for key in keys {
        if key.cell_type().is_list() {
            return true;
        }
    }
    false
}

/// The rows of a context in the order of some keys, group by group.
fn sort_each<'a, L: Ledger>(
    alloc: Global,
    input: AggregationContext<'a>,
    by: Vec<AggregationContext<'a>>,
    sort_options: &SortMultipleOptions,
    kernels: &mut Steps<L>,
) -> Px<Vec<Cell>>
    requires { AreAllPaired (input ∷ by.items) }
    ensures cells { IfOk result (λ v. sort_by_answers sort_options.now input.entry by.entry.items ≡ map Ok (map named_cell v.items)) }
    ensures count { IfOk result (λ v. length v.items ≡ length input.entry.groups.groups) }
    ensures few { IfOk result (λ v. length v.items < 2 ^ 32) }
    ensures faults { IfErr result (λ e. IsFault e (sort_by_answers sort_options.now input.entry by.entry.items)) }
    ensures most { kernels.new ≤ kernels.old + length input.entry.groups.groups }
    ensures rises { kernels.old ≤ kernels.new }
{
    let count = input.kept_groups().len();
    let mut inputs = by;
    inputs.insert(0, input)?;
    each_many(alloc, sort_options, &inputs, count, kernels)
}

/// The rows of a context in the order of some keys in turn, group by group, as lists under its name;
/// as they are without keys. `ListKey` where a key has lists, then `ShapeMismatch` where a key has
/// another number of rows in a group, and `TooLong` where all rows together are 2^32 or more.
pub fn sort_by_groups<'a, L: Ledger>(
    alloc: Global,
    input: AggregationContext<'a>,
    by: Vec<AggregationContext<'a>>,
    sort_options: &SortMultipleOptions,
    kernels: &mut Steps<L>,
) -> Px<AggregationContext<'a>>
    requires { AreAllPaired (input ∷ by.items) }
    ensures made { IfOk result (IsSortedBy sort_options.now input.entry by.entry.items) }
    ensures groups { IfOk result (KeepsGroups (input.entry ∷ by.entry.items)) }
    ensures refused { IfErr result (λ e. (sort_by_kind input.entry by.entry.items ≡ Err e) ⊎ IsRefusal e (sort_by_answers sort_options.now input.entry by.entry.items) (counts_in (sort_by_answers sort_options.now input.entry by.entry.items))) }
    ensures most { kernels.new ≤ kernels.old + (length input.entry.groups.groups + 1) }
    ensures rises { kernels.old ≤ kernels.new }
{
    if have_lists(&by) {
        return Err(PxError::InvalidOperation(InvalidWhy::ListKey));
    }
    let dtype = input.cell_type().try_clone(alloc)?;
    let name = input.get_values().name().try_clone(alloc)?;
    let cells = sort_each(alloc, input, by, sort_options, kernels)?;
    from_lists(alloc, &cells, name, dtype)
}
