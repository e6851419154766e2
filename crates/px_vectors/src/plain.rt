//! Plain, slow programs that go through the rows as the definitions do.
ghost use Rattle.std.specs.Prelude.{◌≡◌, Ok, map};
ghost use Rattle.std.specs.List.{list_any};
ghost use Rattle.px_column.specs.Prelude.{AnswersBy};
ghost use Rattle.px_column.specs.Equality.{row_eq};
ghost use Rattle.px_column.specs.Key.{key_at, keys_of};
ghost use Rattle.px_frame.specs.Parts.{distinct, numbers, parts_of};

use px_column::{Column, Px, RowKey};
use std::alloc::Global;

/// Whether a row has the key of one of these.
fn has_key_of(by: &[Column], firsts: &[u32], row: u32) -> bool
    ensures { result ≡ list_any (row_eq (key_at by.now row)) (map (key_at by.now) firsts.now) }
{
    for first in firsts {
        if RowKey::new(by, row) == RowKey::new(by, *first) {
            return true;
        }
    }
    false
}

/// The first row of each key.
fn first_rows(alloc: Global, by: &[Column], height: u32) -> Px<Vec<u32>>
    ensures { AnswersBy (λ v. map (key_at by.now) v.items) result (Ok (distinct row_eq (keys_of by.now height))) }
{
    let mut firsts = Vec::new(alloc);
    for row in 0..height {
        if !has_key_of(by, &firsts, row) {
            firsts.push(row)?;
        }
    }
    Ok(firsts)
}

/// The rows that have the key of one.
fn rows_like(alloc: Global, by: &[Column], height: u32, first: u32) -> Px<Vec<u32>>
    ensures { AnswersBy (λ v. v.items) result (Ok (numbers (row_eq (key_at by.now first)) 0 (keys_of by.now height))) }
{
    let mut rows = Vec::new(alloc);
    for row in 0..height {
        if RowKey::new(by, first) == RowKey::new(by, row) {
            rows.push(row)?;
        }
    }
    Ok(rows)
}

/// For each key in these columns, in order of first appearance, the numbers of the rows that have it, rising.
/// Rows past a column's end hold nulls there.
pub fn plain_parts(alloc: Global, by: &[Column], height: u32) -> Px<Vec<Vec<u32>>>
    ensures { AnswersBy (λ v. map (λ p. p.items) v.items) result (Ok (parts_of by.now height)) }
{
    let firsts = first_rows(alloc, by, height)?;
    let mut parts = Vec::new(alloc);
    for first in &firsts {
        parts.push(rows_like(alloc, by, height, *first)?)?;
    }
    Ok(parts)
}
