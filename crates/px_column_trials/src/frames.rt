//! Frames, their schemas, and cells side by side.

use px_column::{Column, DataType, Name, Px, PxError, Value};
use px_frame::{Cell, DataFrame, Field, Schema, UnitColumn, assemble, spread};
use px_trial_texts::{column, four_rows, is_text, text_of_column, text_of_frame};
use std::alloc::Global;
use std::test::Fail;

fn text_of_take(alloc: Global) -> Px<Name> {
    let frame = four_rows(alloc)?;
    if frame.height() != 4 {
        return Err(PxError::OutOfBounds);
    }
    text_of_frame(alloc, frame.take_rows(alloc, &[3, 0]))
}

fn text_of_slice(alloc: Global) -> Px<Name> {
    let frame = four_rows(alloc)?;
    if frame.height() != 4 {
        return Err(PxError::OutOfBounds);
    }
    text_of_frame(alloc, frame.slice(alloc, 1, 2))
}

fn text_of_clone(alloc: Global) -> Px<Name> {
    let frame = four_rows(alloc)?;
    text_of_frame(alloc, frame.try_clone(alloc))
}

const ROWS: &str = "[\"k\",\"x\"]\n[\"Int64\",\"Int64\"]\n[7,0]\n[9,1]\n[7,2]\n[7,3]\n";

#[test]
fn rows_of_a_frame_are_taken(rt: HostRuntime) -> Result<(), Fail> {
    let alloc = rt.alloc();
    assert!(rt;
        is_text(
            text_of_take(alloc),
            "[\"k\",\"x\"]\n[\"Int64\",\"Int64\"]\n[7,3]\n[7,0]\n"
        )?
    );
    assert!(rt;
        is_text(
            text_of_slice(alloc),
            "[\"k\",\"x\"]\n[\"Int64\",\"Int64\"]\n[9,1]\n[7,2]\n"
        )?
    );
    assert!(rt; is_text(text_of_clone(alloc), ROWS)?);
    Ok(())
}

fn push(alloc: Global, schema: &mut Schema, name: &str) -> Px<()> {
    schema.push(Field {
        name: Name::new(alloc, name)?,
        dtype: DataType::Int64,
    })
}

// What the second push of a name comes to.
fn push_twice(alloc: Global) -> Px<()> {
    let mut schema = Schema::new(alloc)?;
    push(alloc, &mut schema, "a")?;
    push(alloc, &mut schema, "a")
}

fn has_field(alloc: Global, schema: &Schema, name: &str) -> Px<bool> {
    let field = schema.get_field(alloc, &Name::new(alloc, name)?)?;
    Ok(matches!(field, Some(field) if field.name.as_str() == name))
}

// Whether the schema of four rows of `k` and `x` has two fields, and one of this name.
fn is_field(alloc: Global, name: &str) -> Px<bool> {
    let frame = four_rows(alloc)?;
    let schema = frame.schema(alloc)?;
    Ok(schema.len() == 2 && has_field(alloc, &schema, name)?)
}

#[test]
fn a_field_stands_once(rt: HostRuntime) -> Result<(), Fail> {
    let alloc = rt.alloc();
    assert!(rt; matches!(push_twice(alloc), Err(PxError::Duplicate(_))));
    assert!(rt; is_field(alloc, "x")?);
    assert!(rt; !is_field(alloc, "y")?);
    Ok(())
}

// The one value 5.
fn five(alloc: Global) -> Px<Cell> {
    let name = Name::new(alloc, "a")?;
    let column = Column::full(alloc, name, DataType::Int64, Value::Int(5), 1)?;
    Ok(Cell::Unit(UnitColumn::new(column)))
}

// The rows 1 and 2.
fn two_rows(alloc: Global) -> Px<Cell> {
    let rows = column(alloc, "Int64", "[1,2]")?;
    Ok(Cell::Rows(rows.with_name(Name::new(alloc, "b")?)))
}

fn text_of_spread(alloc: Global, cell: Px<Cell>) -> Px<Name> {
    text_of_column(alloc, spread(alloc, cell?, 3))
}

fn side_by_side(alloc: Global) -> Px<Name> {
    let unit = five(alloc)?;
    let cells = vec![in alloc; unit, two_rows(alloc)?]?;
    text_of_frame(alloc, assemble(alloc, cells))
}

#[test]
fn a_unit_stands_beside_rows(rt: HostRuntime) -> Result<(), Fail> {
    let alloc = rt.alloc();
    assert!(rt;
        is_text(
            text_of_spread(alloc, five(alloc)),
            "[\"a\"]\n[\"Int64\"]\n[5]\n[5]\n[5]\n"
        )?
    );
    assert!(rt;
        is_text(
            text_of_spread(alloc, two_rows(alloc)),
            "error: ShapeMismatch\n"
        )?
    );
    assert!(rt;
        is_text(
            side_by_side(alloc),
            "[\"a\",\"b\"]\n[\"Int64\",\"Int64\"]\n[5,1]\n[5,2]\n"
        )?
    );
    Ok(())
}
