//! Reading reductions.
ghost use Rattle.std.specs.Prelude.{◌≡◌, [], ◌∷◌, option_and_then};
ghost use Rattle.serde_json.specs.View.{view};
ghost use Rattle.px_tree.specs.Tree.{agg};
ghost use Rattle.px_tree.specs.View.{agg_tree, tree};
ghost use Rattle.px_document.specs.ExprForm.{expr_within, reduction_parts};
ghost use Rattle.px_document.specs.Form.{ReadsBy, items};

use crate::document::expr::read_input;
use crate::document::fault::DocumentFault;
use crate::document::fields::items;
use crate::document::names::{is_text, read_method};
use crate::document::options::read_truth;
use px_column::GroupByMethod;
use px_tree::{AggExpr, Expr};
use serde_json::Value;
use std::alloc::Global;
use std::rc::Rc;

fn reduction_of(method: GroupByMethod, input: Rc<Expr>) -> AggExpr
    ensures { agg_tree result ≡ agg method (tree input.value) }
{
    match method {
        GroupByMethod::Min => AggExpr::Min(input),
        GroupByMethod::Max => AggExpr::Max(input),
        GroupByMethod::Sum => AggExpr::Sum(input),
        GroupByMethod::First => AggExpr::First(input),
        GroupByMethod::Last => AggExpr::Last(input),
        GroupByMethod::NUnique => AggExpr::NUnique(input),
        GroupByMethod::Count { include_nulls } => AggExpr::Count(input, include_nulls),
        GroupByMethod::Implode => AggExpr::Implode(input),
    }
}

/// A reduction that takes nothing but its input.
#[cycle(expr)]
fn read_plain_reduction(
    alloc: Global,
    levels: u32,
    method: &Value,
    input: &Value,
) -> Result<Expr, DocumentFault>
    ensures { ReadsBy tree result (reduction_parts (expr_within levels) (view method.now ∷ view input.now ∷ [])) }
{
    let method = read_method(method)?;
    let input = read_input(alloc, levels, input)?;
    Ok(Expr::Agg(reduction_of(method, input)))
}

/// A count, and whether nulls are counted.
#[cycle(expr)]
fn read_count(
    alloc: Global,
    levels: u32,
    method: &Value,
    input: &Value,
    nulls: &Value,
) -> Result<Expr, DocumentFault>
    ensures { ReadsBy tree result (reduction_parts (expr_within levels) (view method.now ∷ view input.now ∷ view nulls.now ∷ [])) }
{
    if !is_text("Count", method) {
        return Err(DocumentFault::BadDocument);
    }
    let input = read_input(alloc, levels, input)?;
    let nulls = read_truth(nulls)?;
    Ok(Expr::Agg(AggExpr::Count(input, nulls)))
}

/// A reduction of an expression: `[text, e]`, or `["Count", e, truth]`, which tells whether nulls are
/// counted.
#[cycle(expr)]
pub(crate) fn read_reduction(
    alloc: Global,
    levels: u32,
    value: &Value,
) -> Result<Expr, DocumentFault>
    ensures { ReadsBy tree result (option_and_then (reduction_parts (expr_within levels)) (items (view value.now))) }
{
    match items(value) {
        Some([method, input]) => read_plain_reduction(alloc, levels, method, input),
        Some([method, input, nulls]) => read_count(alloc, levels, method, input, nulls),
        _ => Err(DocumentFault::BadDocument),
    }
}
