//! What typing finds of an expression.
ghost use Rattle.std.specs.Prelude.{◌≡◌, ◌&&◌};
ghost use Rattle.px_typing.specs.Facts.{have_list, all_units, all_literals, any_implode, is_scalar, is_first_unit};
ghost use Rattle.px_typing.specs.FactsView.{facts_of, all_facts_of};

use px_column::DataType;
use px_tree::Context;

/// The type of an expression, and the truths of its shape that refusals above it ask for.
#[derive(Drop)]
pub(crate) struct Typed {
    pub dtype: DataType,
    /// Whether it has one value, a unit.
    pub is_unit: bool,
    /// Whether each of its leaves is a literal.
    pub is_literal: bool,
    /// Whether an Implode stands in it.
    pub has_implode: bool,
}

/// Whether it is one value in each group that is not made of literals: no rows to choose from.
pub(crate) fn is_scalar(input: &Typed, context: Context) -> bool
    ensures { result ≡ is_scalar context (facts_of input.now) }
{
    context.is_on_groups() && input.is_unit && !input.is_literal
}

pub(crate) fn have_list(inputs: &[Typed]) -> bool
    ensures { result ≡ have_list (all_facts_of inputs.now) }
{
    for input in inputs {
        if input.dtype.is_list() {
            return true;
        }
    }
    false
}

pub(crate) fn all_units(inputs: &[Typed]) -> bool
    ensures { result ≡ all_units (all_facts_of inputs.now) }
{
    for input in inputs {
        if !input.is_unit {
            return false;
        }
    }
    true
}

pub(crate) fn all_literals(inputs: &[Typed]) -> bool
    ensures { result ≡ all_literals (all_facts_of inputs.now) }
{
    for input in inputs {
        if !input.is_literal {
            return false;
        }
    }
    true
}

pub(crate) fn any_implode(inputs: &[Typed]) -> bool
    ensures { result ≡ any_implode (all_facts_of inputs.now) }
{
    for input in inputs {
        if input.has_implode {
            return true;
        }
    }
    false
}

/// Whether there is a first one, and it is a unit.
pub(crate) fn is_first_unit(inputs: &[Typed]) -> bool
    ensures { result ≡ is_first_unit (all_facts_of inputs.now) }
{
    match inputs.first() {
        None => false,
        Some(input) => input.is_unit,
    }
}
