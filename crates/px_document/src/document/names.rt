//! The names of operators, casts, ends of intervals, reductions, functions and mappings.
ghost use Rattle.std.specs.Prelude.{◌≡◌, option_and_then};
ghost use Rattle.serde_json.specs.Find.{as_str};
ghost use Rattle.serde_json.specs.View.{view};
ghost use Rattle.px_document.specs.ExprForm.{arithmetic, cast_named, closed_named, comparisons, function_named, is_text, logical, mapping_named, meant_by, operator_named, reduction_named};
ghost use Rattle.px_document.specs.Form.{Reads};

use crate::document::fault::DocumentFault;
use px_column::{CastOptions, ClosedInterval, GroupByMethod, Operator};
use px_tree::{FunctionExpr, WindowMapping};
use serde_json::Value;

/// Whether a value is the text of a name.
pub(crate) fn is_text(name: &str, value: &Value) -> bool
    ensures { result ≡ is_text name.now (view value.now) }
{
    match value.as_str() {
        Some(text) => text == name,
        None => false,
    }
}

/// A comparison's operator.
fn comparison_named(text: &str) -> Option<Operator>
    ensures { result ≡ meant_by comparisons text.now }
{
    match text {
        "Eq" => Some(Operator::Eq),
        "EqValidity" => Some(Operator::EqValidity),
        "NotEq" => Some(Operator::NotEq),
        "NotEqValidity" => Some(Operator::NotEqValidity),
        "Lt" => Some(Operator::Lt),
        "LtEq" => Some(Operator::LtEq),
        "Gt" => Some(Operator::Gt),
        "GtEq" => Some(Operator::GtEq),
        _ => None,
    }
}

/// An operator of arithmetic.
fn arithmetic_named(text: &str) -> Option<Operator>
    ensures { result ≡ meant_by arithmetic text.now }
{
    match text {
        "Plus" => Some(Operator::Plus),
        "Minus" => Some(Operator::Minus),
        "Multiply" => Some(Operator::Multiply),
        "Divide" => Some(Operator::Divide),
        "FloorDivide" => Some(Operator::FloorDivide),
        "Modulus" => Some(Operator::Modulus),
        _ => None,
    }
}

/// An operator of logic.
fn logical_named(text: &str) -> Option<Operator>
    ensures { result ≡ meant_by logical text.now }
{
    match text {
        "And" => Some(Operator::And),
        "Or" => Some(Operator::Or),
        "Xor" => Some(Operator::Xor),
        "LogicalAnd" => Some(Operator::LogicalAnd),
        "LogicalOr" => Some(Operator::LogicalOr),
        _ => None,
    }
}

fn operator_named(text: &str) -> Option<Operator>
    ensures { result ≡ operator_named text.now }
{
    if let Some(operator) = comparison_named(text) {
        return Some(operator);
    }
    if let Some(operator) = arithmetic_named(text) {
        return Some(operator);
    }
    logical_named(text)
}

fn cast_named(text: &str) -> Option<CastOptions>
    ensures { result ≡ cast_named text.now }
{
    match text {
        "Strict" => Some(CastOptions::Strict),
        "NonStrict" => Some(CastOptions::NonStrict),
        "Overflowing" => Some(CastOptions::Overflowing),
        _ => None,
    }
}

fn closed_named(text: &str) -> Option<ClosedInterval>
    ensures { result ≡ closed_named text.now }
{
    match text {
        "Both" => Some(ClosedInterval::Both),
        "Left" => Some(ClosedInterval::Left),
        "Right" => Some(ClosedInterval::Right),
        "None" => Some(ClosedInterval::None),
        _ => None,
    }
}

fn reduction_named(text: &str) -> Option<GroupByMethod>
    ensures { result ≡ reduction_named text.now }
{
    match text {
        "Min" => Some(GroupByMethod::Min),
        "Max" => Some(GroupByMethod::Max),
        "Sum" => Some(GroupByMethod::Sum),
        "First" => Some(GroupByMethod::First),
        "Last" => Some(GroupByMethod::Last),
        "NUnique" => Some(GroupByMethod::NUnique),
        "Implode" => Some(GroupByMethod::Implode),
        _ => None,
    }
}

fn function_named(text: &str) -> Option<FunctionExpr>
    ensures { result ≡ function_named text.now }
{
    match text {
        "IsNull" => Some(FunctionExpr::IsNull),
        "IsNotNull" => Some(FunctionExpr::IsNotNull),
        "Not" => Some(FunctionExpr::Not),
        "Reverse" => Some(FunctionExpr::Reverse),
        "DropNulls" => Some(FunctionExpr::DropNulls),
        "NullCount" => Some(FunctionExpr::NullCount),
        _ => None,
    }
}

fn mapping_named(text: &str) -> Option<WindowMapping>
    ensures { result ≡ mapping_named text.now }
{
    match text {
        "GroupsToRows" => Some(WindowMapping::GroupsToRows),
        "Join" => Some(WindowMapping::Join),
        "Explode" => Some(WindowMapping::Explode),
        _ => None,
    }
}

/// The operator of a name, as `"Plus"`.
pub(crate) fn read_operator(value: &Value) -> Result<Operator, DocumentFault>
    ensures { Reads result (option_and_then operator_named (as_str (view value.now))) }
{
    let text = value.as_str().ok_or(DocumentFault::BadDocument)?;
    operator_named(text).ok_or(DocumentFault::BadDocument)
}

/// What a cast does with a value that it loses, as `"Strict"`.
pub(crate) fn read_cast_options(value: &Value) -> Result<CastOptions, DocumentFault>
    ensures { Reads result (option_and_then cast_named (as_str (view value.now))) }
{
    let text = value.as_str().ok_or(DocumentFault::BadDocument)?;
    cast_named(text).ok_or(DocumentFault::BadDocument)
}

/// Which ends belong to an interval, as `"Both"`.
pub(crate) fn read_closed(value: &Value) -> Result<ClosedInterval, DocumentFault>
    ensures { Reads result (option_and_then closed_named (as_str (view value.now))) }
{
    let text = value.as_str().ok_or(DocumentFault::BadDocument)?;
    closed_named(text).ok_or(DocumentFault::BadDocument)
}

/// The reduction of a name that takes nothing but its input, as `"Sum"`.
pub(crate) fn read_method(value: &Value) -> Result<GroupByMethod, DocumentFault>
    ensures { Reads result (option_and_then reduction_named (as_str (view value.now))) }
{
    let text = value.as_str().ok_or(DocumentFault::BadDocument)?;
    reduction_named(text).ok_or(DocumentFault::BadDocument)
}

/// The function of a name that takes nothing but one input, as `"IsNull"`.
pub(crate) fn read_function_name(value: &Value) -> Result<FunctionExpr, DocumentFault>
    ensures { Reads result (option_and_then function_named (as_str (view value.now))) }
{
    let text = value.as_str().ok_or(DocumentFault::BadDocument)?;
    function_named(text).ok_or(DocumentFault::BadDocument)
}

/// Where a window puts its results, as `"Join"`.
pub(crate) fn read_mapping(value: &Value) -> Result<WindowMapping, DocumentFault>
    ensures { Reads result (option_and_then mapping_named (as_str (view value.now))) }
{
    let text = value.as_str().ok_or(DocumentFault::BadDocument)?;
    mapping_named(text).ok_or(DocumentFault::BadDocument)
}
