//! Functions of nodes that were planned.
ghost use Rattle.std.specs.Prelude.{◌≡◌, map, Ok};
ghost use Rattle.px_column.specs.Prelude.{AnswersBy};
ghost use Rattle.px_tree.specs.Shape.{is_unit_call, is_unit_first, are_units};
ghost use Rattle.px_tree.specs.Tree.{called};
ghost use Rattle.px_tree.specs.View.{tree};
ghost use Rattle.px_physical.specs.NodeView.{plan_of};
ghost use Rattle.px_answers.specs.Parts.{call_in, call_on, plan_trees, plan_columns};

use crate::planner::nodes::share;
use px_column::{DataType, Name, Px};
use px_frame::{Field, SchemaRef};
use px_physical::{ApplyExpr, PhysExpr, PhysicalExpr};
use px_plan::{Expr, FunctionExpr};
use std::alloc::Global;

/// A function of nodes, with the expression of that call. The field has no name and no type: it is a
/// hint, and to find them at each node would not be linear in the expression.
pub(crate) fn plan_apply(
    alloc: Global,
    inputs: Vec<PhysExpr>,
    function: FunctionExpr,
    expr: &Expr,
    schema: &SchemaRef,
) -> Px<PhysExpr>
    requires tree { tree expr.now ≡ call_on (plan_trees (map plan_of inputs.items)) (call_in (tree expr.now)) }
    requires function { called (call_in (tree expr.now)) ≡ function }
    ensures { AnswersBy plan_of result (Ok (record { tree = tree expr.now; columns = plan_columns (map plan_of inputs.items) })) }
{
    let returns_scalar = is_scalar_call(function, &inputs);
    let output_field = no_field(alloc)?;
    let expr = share(alloc, expr)?;
    let input_schema = schema.clone()?;
    Ok(PhysExpr::Apply(ApplyExpr::new(
        inputs,
        function,
        expr,
        input_schema,
        output_field,
        returns_scalar,
    )))
}

/// A field without a name and a type.
fn no_field(alloc: Global) -> Px<Field>
    ensures { AnswersBy (λ _. tt {0}) result (Ok (tt {0})) }
{
    let name = Name::new(alloc, "")?;
    Ok(Field {
        name,
        dtype: DataType::Null,
    })
}

/// Whether a function of these nodes has one value, whatever the frame.
fn is_scalar_call(function: FunctionExpr, inputs: &[PhysExpr]) -> bool
    ensures { result ≡ is_unit_call function (is_unit_first (plan_trees (map plan_of inputs.now))) (are_units (plan_trees (map plan_of inputs.now))) }
{
    match function {
        FunctionExpr::IsNull | FunctionExpr::IsNotNull | FunctionExpr::Not | FunctionExpr::IsIn => {
            is_first_scalar(inputs)
        }
        FunctionExpr::IsBetween { .. } => are_scalars(inputs),
        FunctionExpr::NullCount => true,
        FunctionExpr::Reverse
        | FunctionExpr::Shift(_)
        | FunctionExpr::DropNulls
        | FunctionExpr::Explode => false,
    }
}

/// Whether there is a first node, and it has one value.
fn is_first_scalar(inputs: &[PhysExpr]) -> bool
    ensures { result ≡ is_unit_first (plan_trees (map plan_of inputs.now)) }
{
    match inputs.first() {
        None => false,
        Some(input) => input.is_scalar(),
    }
}

/// Whether each node has one value.
fn are_scalars(inputs: &[PhysExpr]) -> bool
    ensures { result ≡ are_units (plan_trees (map plan_of inputs.now)) }
{
    for input in inputs {
        if !input.is_scalar() {
            return false;
        }
    }
    true
}
