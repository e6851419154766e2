//! The names and types that an expression sees.
ghost use Rattle.std.specs.Prelude.{◌≡◌, Ok, OnOk, IfErr, fold};
ghost use Rattle.px_column.specs.Prelude.{Answers, AnswersBy};
ghost use Rattle.px_value.specs.declared.error.PxError.TheVariants.{OutOfMemory};
ghost use Rattle.px_frame.specs.External.{scope_of, with_field};
ghost use Rattle.px_frame.specs.Schema.{column_field};
ghost use Rattle.px_frame.specs.SchemaView.{field_kind};
ghost use Rattle.px_window.specs.State.{beside};

use px_column::{Column, Px};
use px_frame::{DataFrame, Field, Schema};
use px_window::ExecutionState;
use std::alloc::Global;

/// A column's name and type.
fn field_of(alloc: Global, column: &Column) -> Px<Field>
    ensures { AnswersBy field_kind result (Ok (column_field column.now)) }
{
    Ok(Field {
        name: column.name().try_clone(alloc)?,
        dtype: column.dtype().try_clone(alloc)?,
    })
}

/// Adds the names and types of the columns whose names are new.
fn add_fields(alloc: Global, schema: &mut Schema, columns: &[Column]) -> Px<()>
    ensures added { OnOk result (schema.new ≡ fold with_field schema.old columns.now) }
    ensures memory { IfErr result (λ e. e ≡ OutOfMemory) }
{
    for column in columns {
        if schema.get_full(column.name()).is_none() {
            schema.push(field_of(alloc, column)?)?;
        }
    }
    Ok(())
}

/// The names and types of a frame's columns, then those of the columns of the state's external frames
/// whose names are not there yet.
pub fn scope_beside(alloc: Global, frame: &DataFrame, state: &ExecutionState) -> Px<Schema>
    ensures { Answers result (Ok (scope_of (beside frame.now state.now))) }
{
    let mut schema = frame.schema(alloc)?;
    for external in &state.ext_contexts {
        add_fields(alloc, &mut schema, external.get_columns())?;
    }
    Ok(schema)
}
