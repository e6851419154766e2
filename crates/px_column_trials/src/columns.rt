//! Columns: their rows, copies of them, and columns of one value.

use px_column::{Column, DataType, Name, Px, PxError, Value, ValueRef};
use px_trial_texts::{column, is_text, pair, text_of_column};
use std::alloc::Global;
use std::test::Fail;

fn three_rows(alloc: Global) -> Px<Column> {
    column(alloc, "Int64", "[4,5,6]")
}

fn second_row(column: &Column) -> Option<ValueRef<'_>> {
    if column.len() != 3 {
        return None;
    }
    column.get(1)
}

// The number that stands in the middle, lent and copied.
fn middle(alloc: Global) -> Px<(i128, i128)> {
    let column = three_rows(alloc)?;
    let Some(value) = second_row(&column) else {
        return Err(PxError::OutOfBounds);
    };
    match (value, value.to_value(alloc)?) {
        (ValueRef::Int(lent), Value::Int(copied)) => Ok((lent, copied)),
        _ => Err(PxError::OutOfBounds),
    }
}

fn text_of_repeat(alloc: Global) -> Px<Name> {
    let column = three_rows(alloc)?;
    if column.len() != 3 {
        return Err(PxError::OutOfBounds);
    }
    text_of_column(alloc, column.new_from_index(alloc, 1, 2))
}

fn text_of_clone(alloc: Global) -> Px<Name> {
    let column = three_rows(alloc)?;
    text_of_column(alloc, column.try_clone(alloc))
}

#[test]
fn a_row_is_lent_and_copied(rt: HostRuntime) -> Result<(), Fail> {
    let alloc = rt.alloc();
    assert_eq!(rt; middle(alloc)?, (5, 5));
    assert!(rt; is_text(text_of_repeat(alloc), "[\"x\"]\n[\"Int64\"]\n[5]\n[5]\n")?);
    assert!(rt;
        is_text(
            text_of_clone(alloc),
            "[\"x\"]\n[\"Int64\"]\n[4]\n[5]\n[6]\n"
        )?
    );
    Ok(())
}

fn fives(alloc: Global) -> Px<Column> {
    let name = Name::new(alloc, "x")?;
    Column::full(alloc, name, DataType::Int64, Value::Int(5), 3)
}

// The last row of the longest column, each row of which is 5.
fn last_five(alloc: Global) -> Px<i128> {
    let name = Name::new(alloc, "x")?;
    let column = Column::full(alloc, name, DataType::Int64, Value::Int(5), u32::MAX)?;
    if column.len() != u32::MAX {
        return Err(PxError::OutOfBounds);
    }
    match column.get(u32::MAX - 1) {
        Some(ValueRef::Int(value)) => Ok(value),
        _ => Err(PxError::OutOfBounds),
    }
}

fn nulls(alloc: Global) -> Px<Column> {
    Column::full_null(alloc, Name::new(alloc, "x")?, 2, DataType::Int64)
}

fn small(alloc: Global) -> Px<Column> {
    let rows = vec![in alloc; Some(Value::Int(1)), Some(Value::Int(200))]?;
    Column::from_values(alloc, Name::new(alloc, "x")?, DataType::Int8, rows)
}

#[test]
fn a_value_stands_at_each_row_and_fits(rt: HostRuntime) -> Result<(), Fail> {
    let alloc = rt.alloc();
    assert!(rt;
        is_text(
            text_of_column(alloc, fives(alloc)),
            "[\"x\"]\n[\"Int64\"]\n[5]\n[5]\n[5]\n"
        )?
    );
    assert!(rt;
        is_text(
            text_of_column(alloc, nulls(alloc)),
            "[\"x\"]\n[\"Int64\"]\n[null]\n[null]\n"
        )?
    );
    assert!(rt;
        is_text(
            text_of_column(alloc, small(alloc)),
            "error: InvalidOperation(Types)\n"
        )?
    );
    assert_eq!(rt; last_five(alloc)?, 5);
    Ok(())
}

// The two rows behind the first, and how many rows are viewed behind the last.
fn rows_of_views(alloc: Global) -> Px<(i128, i128, u32)> {
    let column = three_rows(alloc)?;
    if column.len() != 3 {
        return Err(PxError::OutOfBounds);
    }
    let view = column.view(1, 2);
    if view.len() != 2 {
        return Err(PxError::OutOfBounds);
    }
    match (view.get(0), view.get(1)) {
        (Some(ValueRef::Int(first)), Some(ValueRef::Int(second))) => {
            Ok((first, second, column.view(3, 0).len()))
        }
        _ => Err(PxError::OutOfBounds),
    }
}

#[test]
fn rows_are_viewed_from_an_offset_on(rt: HostRuntime) -> Result<(), Fail> {
    let alloc = rt.alloc();
    assert_eq!(rt; rows_of_views(alloc)?, (5, 6, 0));
    Ok(())
}

// These rows of three, under the name `y`.
fn text_of_take(alloc: Global, rows: &[Option<u32>]) -> Px<Name> {
    if rows.len() > 2 {
        return Err(PxError::OutOfBounds);
    }
    let name = Name::new(alloc, "y")?;
    let column = three_rows(alloc)?.with_name(name);
    text_of_column(alloc, column.take(alloc, rows))
}

// The row 1, and behind it the row 2.
fn text_of_append(alloc: Global) -> Px<Name> {
    let (mut first, second) = pair(alloc, "Int64", "[1]", "[2]")?;
    first.append(alloc, &second)?;
    text_of_column(alloc, Ok(first))
}

fn null_count(alloc: Global) -> Px<u32> {
    let column = column(alloc, "Int64", "[4,null,null]")?;
    Ok(column.null_count())
}

#[test]
fn rows_are_taken_under_another_name(rt: HostRuntime) -> Result<(), Fail> {
    let alloc = rt.alloc();
    assert!(rt;
        is_text(
            text_of_take(alloc, &[Some(2), None]),
            "[\"y\"]\n[\"Int64\"]\n[6]\n[null]\n"
        )?
    );
    assert!(rt; is_text(text_of_take(alloc, &[Some(3)]), "error: OutOfBounds\n")?);
    assert!(rt; is_text(text_of_append(alloc), "[\"x\"]\n[\"Int64\"]\n[1]\n[2]\n")?);
    assert_eq!(rt; null_count(alloc)?, 2);
    Ok(())
}
