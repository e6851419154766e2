//! Values without a frame.
ghost use Rattle.std.specs.Prelude.{◌≡◌, ◌<◌, Result, Ok, IfOk, map, option_map};
ghost use Rattle.px_column.specs.Prelude.{Answers, AnswersBy, kind_of};
ghost use Rattle.px_value.specs.declared.error.PxError.{PxError};
ghost use Rattle.px_frame.specs.CellView.{named_cell};
ghost use Rattle.px_frame.specs.Spread.{NamedCell};
ghost use Rattle.px_nodes.specs.Named.{cast_named, function_named};
ghost use Rattle.px_answers.specs.Inline.{AreInlineCells, IsInlineCell, column_or_none};
ghost use Rattle.px_physical.specs.NodeView.{plan_of};

use crate::phys_expr::PhysExpr;
use crate::physical::PhysicalExpr;
use px_column::{CastOptions, Column, DataType, Px, PxError, Steps};
use px_frame::Cell;
use px_nodes::{apply_cells, cast_cells};
use px_plan::FunctionExpr;
use std::alloc::Global;
use std::marker::Brand;
use std::sync::ledger::{Blank, Ledger};

/// A node's value without a frame as a cell, where there is one and it has one row.
#[cycle(inline)]
#[tactic(auto, using(crate::proofs::Inlined::inline_one, crate::proofs::Inlined::inline_many, crate::proofs::Inlined::inline_nothing))]
pub(crate) fn inline_cell(alloc: Global, node: &PhysExpr, depth_limit: u8) -> Px<Option<Cell>>
    ensures { IfOk result (λ c. IsInlineCell depth_limit (plan_of node.now).tree (option_map named_cell c)) }
{
    match node.evaluate_inline_impl(alloc, depth_limit)? {
        Some(column) => {
            if column.len() == 1 {
                Ok(Some(Cell::new(column, node.is_scalar())))
            } else {
                Ok(None)
            }
        }
        None => Ok(None),
    }
}

/// The values of some nodes without a frame as cells, where each has one and it has one row.
#[cycle(inline)]
pub(crate) fn inline_cells(
    alloc: Global,
    nodes: &[PhysExpr],
    depth_limit: u8,
) -> Px<Option<Vec<Cell>>>
    ensures { IfOk result (λ cs. AreInlineCells depth_limit (map plan_of nodes.now) (option_map (λ v. map named_cell v.items) cs)) }
{
    let mut cells = Vec::with_capacity(alloc, nodes.len())?;
    for node in nodes {
        match inline_cell(alloc, node, depth_limit)? {
            Some(cell) => cells.push(cell)?,
            None => return Ok(None),
        }
    }
    Ok(Some(cells))
}

/// A cell as a column, nothing in place of a refusal; want of memory is told.
fn unless_refused(answer: Px<Cell>) -> Px<Option<Column>>
    ensures { (made : Result NamedCell PxError) → AnswersBy named_cell answer made → Answers result (Ok (column_or_none made)) }
{
    match answer {
        Ok(cell) => Ok(Some(cell.into_column())),
        Err(PxError::OutOfMemory) => Err(PxError::OutOfMemory),
        Err(_) => Ok(None),
    }
}

/// A cast by a counter of its own.
fn counted_cast<L: Ledger>(
    alloc: Global,
    input: Cell,
    dtype: &DataType,
    options: CastOptions,
    kernels: Blank,
) -> Px<Option<Column>>
    requires name { kernels.name ≡ L.name }
    requires parts { kernels.parts ≡ L.parts }
    requires some { 0 < kernels.parts }
    ensures { Answers result (Ok (column_or_none (cast_named (kind_of dtype.now) options (named_cell input)))) }
{
    let mut kernels = Steps::<L>::new(kernels);
    unless_refused(cast_cells(alloc, input, dtype, options, &mut kernels))
}

/// The values of a cell in another type as a column, nothing where they are refused.
pub(crate) fn inline_cast(
    alloc: Global,
    input: Cell,
    dtype: &DataType,
    options: CastOptions,
) -> Px<Option<Column>>
    ensures { Answers result (Ok (column_or_none (cast_named (kind_of dtype.now) options (named_cell input)))) }
{
    counted_cast::<Brand>(alloc, input, dtype, options, Blank::new(1))
}

/// A function by a counter of its own.
fn counted_function<L: Ledger>(
    alloc: Global,
    inputs: Vec<Cell>,
    function: &FunctionExpr,
    kernels: Blank,
) -> Px<Option<Column>>
    requires name { kernels.name ≡ L.name }
    requires parts { kernels.parts ≡ L.parts }
    requires some { 0 < kernels.parts }
    ensures { Answers result (Ok (column_or_none (function_named function.now (map named_cell inputs.items)))) }
{
    let mut kernels = Steps::<L>::new(kernels);
    unless_refused(apply_cells(alloc, inputs, function, &mut kernels))
}

/// A function of some cells as a column, nothing where it is refused.
pub(crate) fn inline_function(
    alloc: Global,
    inputs: Vec<Cell>,
    function: &FunctionExpr,
) -> Px<Option<Column>>
    ensures { Answers result (Ok (column_or_none (function_named function.now (map named_cell inputs.items)))) }
{
    counted_function::<Brand>(alloc, inputs, function, Blank::new(1))
}
