//! The column of a window.
ghost use Rattle.std.specs.Prelude.{◌≡◌, ◌≤◌, ◌^◌, IfErr, IfOk, length, sum};
ghost use Rattle.px_value.specs.declared.error.ComputeWhy.TheVariants.{TooLong};
ghost use Rattle.px_value.specs.declared.error.PxError.TheVariants.{ComputeError};
ghost use Rattle.px_column.specs.Prelude.{Answers};
ghost use Rattle.px_context.specs.Changes.{counts_of};
ghost use Rattle.px_window.specs.Places.{HoldsEachRowOnce};
ghost use Rattle.px_window_node.specs.Placing.{placed_by, placed_kind};

use px_column::{Column, Px};
use px_context::AggregationContext;
use px_frame::GroupPositions;
use px_tree::WindowMapping;
use px_window::{inverse_map, place_explode, place_join, place_rows};
use std::alloc::Global;

/// The cells of a window's groups as a column, under their name: each at its group's rows, as a whole at
/// each of them, or one after another. There are as many cells as groups, which hold each row once.
/// `WindowLength` where a cell is to stand at the rows of its group and is a list of another length;
/// `TooLong` only where the cells together have 2^32 values.
pub fn place_window(
    alloc: Global,
    ac: &mut AggregationContext<'_>,
    parts: &GroupPositions,
    mapping: WindowMapping,
) -> Px<Column>
    requires cells { length ac.old.groups.groups ≡ length parts.now.groups }
    requires once { HoldsEachRowOnce parts.now }
    ensures answer { Answers result (placed_by mapping ac.old parts.now) }
    ensures name { IfOk result (λ s. s.name ≡ ac.old.values.name) }
    ensures kind { IfOk result (λ s. s.kind ≡ placed_kind mapping ac.old) }
    ensures long { IfErr result (λ e. e ≡ ComputeError TooLong → 2 ^ 32 ≤ sum (counts_of ac.old)) }
{
    match mapping {
        WindowMapping::GroupsToRows => {
            let map = inverse_map(alloc, parts)?;
            place_rows(alloc, ac, parts, &map)
        }
        WindowMapping::Join => place_join(alloc, ac, parts),
        WindowMapping::Explode => place_explode(alloc, ac),
    }
}
