//! The steps of a generated document.
ghost use Rattle.std.specs.Prelude.{◌≡◌, ◌-◌, ◌/◌, [], ◌∷◌, IfErr, IfOk, Ok, Some, codes, map};
ghost use Rattle.px_column.specs.Prelude.{AnswersBy};
ghost use Rattle.px_generated.specs.Generated.{generated_steps, k, s, x};
ghost use Rattle.px_tree.specs.Step.{filter, group, select, step_view};
ghost use Rattle.px_tree.specs.Tree.{agg, alias, binary, column, len, no_order, no_trees, one_tree, trees_of, window};
ghost use Rattle.px_tree.specs.View.{tree};
ghost use Rattle.px_tree.specs.declared.window.WindowMapping.TheVariants.{GroupsToRows};
ghost use Rattle.px_value.specs.declared.method.GroupByMethod.TheVariants.{First, Sum};
ghost use Rattle.px_value.specs.declared.operator.Operator.TheVariants.{EqValidity};

use px_column::{Name, Operator, Px};
use px_tree::{AggExpr, Expr, Exprs, Step, WindowMapping, WindowType};
use std::alloc::Global;
use std::rc::Rc;

fn column(alloc: Global, name: &str) -> Px<Expr>
    ensures { AnswersBy tree result (Ok (column name.now)) }
{
    Ok(Expr::Column(Name::new(alloc, name)?))
}

fn shared(alloc: Global, name: &str) -> Px<Rc<Expr>>
    ensures { AnswersBy (λ e. tree e.value) result (Ok (column name.now)) }
{
    Ok(Rc::new(alloc, column(alloc, name)?)?)
}

fn sum(of: Rc<Expr>) -> Expr
    ensures { tree result ≡ agg Sum (tree of.value) }
{
    Expr::Agg(AggExpr::Sum(of))
}

/// A function of the parts by some keys, beside each row.
fn over(function: Rc<Expr>, keys: Rc<Vec<Expr>>) -> Expr
    ensures { tree result ≡ window (tree function.value) (trees_of (map tree keys.value.items)) no_order GroupsToRows }
{
    Expr::Window {
        function,
        partition_by: Exprs { items: keys },
        order_by: None,
        options: WindowType::Over(WindowMapping::GroupsToRows),
    }
}

/// The sum of `x` over `k`, beside each row.
fn sum_beside(alloc: Global) -> Px<Expr>
    ensures { AnswersBy tree result (Ok (window (agg Sum x) (one_tree k no_trees) no_order GroupsToRows)) }
{
    let function = Rc::new(alloc, sum(shared(alloc, "x")?))?;
    let keys = Rc::new(alloc, vec![in alloc; column(alloc, "k")?]?)?;
    Ok(over(function, keys))
}

fn select_step(alloc: Global) -> Px<Step>
    ensures { AnswersBy step_view result (Ok (select (k ∷ x ∷ alias (window (agg Sum x) (one_tree k no_trees) no_order GroupsToRows) (codes "s") ∷ []))) }
{
    let beside = Rc::new(alloc, sum_beside(alloc)?)?;
    let named = Expr::Alias(beside, Name::new(alloc, "s")?);
    Ok(Step::Select(vec![in alloc; column(alloc, "k")?, column(alloc, "x")?, named]?))
}

fn group_step(alloc: Global, height: u32) -> Px<Step>
    ensures { AnswersBy step_view result (Ok (group (k ∷ []) (agg Sum x ∷ agg First s ∷ len ∷ []) (Some ((height / 2) ∷ 0 ∷ (height - height / 2) ∷ [])))) }
{
    let sums = sum(shared(alloc, "x")?);
    let first = Expr::Agg(AggExpr::First(shared(alloc, "s")?));
    let half = height / 2;
    Ok(Step::GroupAgg {
        keys: vec![in alloc; column(alloc, "k")?]?,
        aggs: vec![in alloc; sums, first, Expr::Len]?,
        chunks: Some(vec![in alloc; half, 0, height - half]?),
    })
}

fn filter_step(alloc: Global) -> Px<Step>
    ensures { AnswersBy step_view result (Ok (filter (binary x EqValidity s))) }
{
    Ok(Step::Filter(Expr::BinaryExpr {
        left: shared(alloc, "x")?,
        op: Operator::EqValidity,
        right: shared(alloc, "s")?,
    }))
}

/// The three steps of a generated document of `height` rows.
pub(crate) fn steps(alloc: Global, height: u32) -> Px<Vec<Step>>
    ensures { AnswersBy (λ v. map step_view v.items) result (Ok (generated_steps height)) }
{
    let first = select_step(alloc)?;
    let second = group_step(alloc, height)?;
    let third = filter_step(alloc)?;
    Ok(vec![in alloc; first, second, third]?)
}
