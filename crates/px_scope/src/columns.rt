//! The column of a name, in a frame or beside it.
ghost use Rattle.std.specs.Prelude.{◌≡◌, IfOk, IfSome, None, Some, drop, length, option_map};
ghost use Rattle.std.specs.List.{flat_map};
ghost use Rattle.px_column.specs.Prelude.{Answers};
ghost use Rattle.px_frame.specs.External.{alone, look_in};
ghost use Rattle.px_frame.specs.Frame.{height_of, look};
ghost use Rattle.px_answers.specs.Planned.{found_by, is_added, is_reserved};
ghost use Rattle.px_answers.specs.Value.{column_of};
ghost use Rattle.px_window.specs.State.{beside};

use px_column::{Column, Name, Px, PxError};
use px_frame::{DataFrame, Schema};
use px_window::ExecutionState;
use std::alloc::Global;

/// The names that a plan keeps for columns which it adds itself begin so.
const RESERVED_PREFIX: &[u8] = b"__POLARS_CSER_";

fn is_reserved(name: &Name) -> bool
    ensures { result ≡ is_reserved name.now }
{
    name.as_str().as_bytes().starts_with(RESERVED_PREFIX)
}

/// Whether it is a reserved name that the schema lacks.
fn is_added(name: &Name, schema: &Schema) -> bool
    ensures { result ≡ is_added (record { name = name.now; schema = schema.now }) }
{
    is_reserved(name) && schema.get_full(name).is_none()
}

/// The column of a name behind this many columns.
fn column_behind<'a>(columns: &'a [Column], places: usize, name: &Name) -> Option<&'a Column>
    ensures { option_map (λ c. c.now) result ≡ look name.now (drop places columns.now) }
{
    columns
        .iter()
        .skip(places)
        .find(|column| column.name() == name)
}

/// The frame's column that a node of this name finds, which was planned over this schema: a reserved name
/// that the schema lacks is sought behind as many columns as the schema has.
pub fn found_column<'a>(df: &'a DataFrame, name: &Name, schema: &Schema) -> Option<&'a Column>
    ensures found { option_map (λ c. c.now) result ≡ found_by (record { name = name.now; schema = schema.now }) (alone df.now) }
    ensures column { IfSome result (λ c. look name.now df.now ≡ Some c.now) }
    ensures height { IfSome result (λ c. length c.now.slots ≡ height_of df.now) }
{
    if is_added(name, schema) {
        column_behind(df.get_columns(), schema.len(), name)
    } else {
        df.column(name)
    }
}

/// The first column of a name in some frames.
fn column_among<'a>(frames: &'a [DataFrame], name: &Name) -> Option<&'a Column>
    ensures { option_map (λ c. c.now) result ≡ look name.now (flat_map (λ f. f) frames.now) }
{
    for frame in frames {
        if let Some(column) = frame.column(name) {
            return Some(column);
        }
    }
    None
}

/// A copy of what a node of this name finds beside the frame, where it finds none of the frame's columns:
/// the first column of the name in the state's external frames. `ShapeMismatch` where that has not the
/// frame's height, `ColumnNotFound` where there is none, and for a reserved name that the schema lacks.
pub fn external_column(
    alloc: Global,
    df: &DataFrame,
    state: &ExecutionState,
    name: &Name,
    schema: &Schema,
) -> Px<Column>
    requires { found_by (record { name = name.now; schema = schema.now }) (alone df.now) ≡ None }
    ensures column { Answers result (column_of (record { name = name.now; schema = schema.now }) (beside df.now state.now)) }
    ensures height { IfOk result (λ c. length c.slots ≡ height_of df.now) }
{
    if is_added(name, schema) {
        return Err(PxError::ColumnNotFound(name.try_clone(alloc)?));
    }
    match column_among(&state.ext_contexts, name) {
        None => Err(PxError::ColumnNotFound(name.try_clone(alloc)?)),
        Some(column) => {
            if column.len() == df.height() {
                column.try_clone(alloc)
            } else {
                Err(PxError::ShapeMismatch)
            }
        }
    }
}

/// A copy of the column that a node of this name, planned over this schema, finds: the frame's own first,
/// else one beside it as `external_column` says.
pub fn copy_column(
    alloc: Global,
    df: &DataFrame,
    state: &ExecutionState,
    name: &Name,
    schema: &Schema,
) -> Px<Column>
    ensures column { Answers result (column_of (record { name = name.now; schema = schema.now }) (beside df.now state.now)) }
    ensures named { IfOk result (λ c. look_in name.now (beside df.now state.now) ≡ Some c) }
{
    match found_column(df, name, schema) {
        Some(column) => column.try_clone(alloc),
        None => external_column(alloc, df, state, name, schema),
    }
}
