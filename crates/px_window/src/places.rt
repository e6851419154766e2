//! Places of rows when the rows of groups are joined.
ghost use Rattle.std.specs.Prelude.{◌≡◌, ◌++◌, ◌<◌, ◌^◌, Ok, OnOk, length, replicate, true};
ghost use Rattle.std.specs.List.{concat, range_with_len};
ghost use Rattle.std.specs.List.Sorted.{IsPermutation};
ghost use Rattle.px_column.specs.Prelude.{Answers, AnswersBy};
ghost use Rattle.px_frame.specs.Groups.{is_group, rows_of};
ghost use Rattle.px_frame.specs.GroupsView.{lent_group};
ghost use Rattle.px_window.specs.Places.{HoldsEachRowOnce, numbers_from, part_numbers, put_at, row_places};

use px_column::Px;
use px_frame::{GroupPositions, GroupsIndicator};
use std::alloc::Global;

/// Adds the rows of a group.
fn push_rows(rows: &mut Vec<u32>, group: GroupsIndicator<'_>) -> Px<()>
    requires { is_group (2 ^ 32) (lent_group group) ≡ true }
    ensures answer { Answers result (Ok tt) }
    ensures ok { OnOk result (rows.new.items ≡ rows.old.items ++ (lent_group group.entry).rows) }
{
    for index in 0..group.len() {
        rows.push(group.row(index))?;
    }
    Ok(())
}

/// The rows of all groups, one group after another.
fn joined_rows(alloc: Global, parts: &GroupPositions) -> Px<Vec<u32>>
    ensures { AnswersBy (λ v. v.items) result (Ok (concat (rows_of parts.now))) }
{
    let mut rows = Vec::with_capacity(alloc, parts.height() as usize)?;
    for index in 0..parts.len() {
        push_rows(&mut rows, parts.group(index))?;
    }
    Ok(rows)
}

/// Adds a number so many times.
fn push_number(numbers: &mut Vec<u32>, number: u32, count: u32) -> Px<()>
    ensures answer { Answers result (Ok tt) }
    ensures ok { OnOk result (numbers.new.items ≡ numbers.old.items ++ replicate count number) }
{
    for _ in 0..count {
        numbers.push(number)?;
    }
    Ok(())
}

/// The number of each group, once for each of its rows, one group after another.
fn joined_numbers(alloc: Global, parts: &GroupPositions) -> Px<Vec<u32>>
    ensures { AnswersBy (λ v. v.items) result (Ok (numbers_from 0 (rows_of parts.now))) }
{
    let mut numbers = Vec::with_capacity(alloc, parts.height() as usize)?;
    for index in 0..parts.len() {
        push_number(&mut numbers, index, parts.group(index).len())?;
    }
    Ok(numbers)
}

/// The numbers below `len`.
fn numbers_below(alloc: Global, len: u32) -> Px<Vec<u32>>
    ensures { AnswersBy (λ v. v.items) result (Ok (range_with_len 0 len)) }
{
    let mut numbers = Vec::with_capacity(alloc, len as usize)?;
    for number in 0..len {
        numbers.push(number)?;
    }
    Ok(numbers)
}

/// Each number at its row, where each row below `height` stands once among the rows.
fn put_at(alloc: Global, height: u32, rows: &[u32], numbers: &[u32]) -> Px<Vec<u32>>
    requires once { IsPermutation (range_with_len 0 height) rows.now }
    requires beside { length numbers.now ≡ length rows.now }
    ensures { AnswersBy (λ v. v.items) result (Ok (put_at height rows.now numbers.now)) }
{
    let mut placed = vec![in alloc; 0; height as usize]?;
    for index in 0..rows.len() {
        placed[rows[index] as usize] = numbers[index];
    }
    Ok(placed)
}

/// Each row's place when the rows of the groups are joined; each row of the height stands in the groups
/// once.
pub fn inverse_map(alloc: Global, parts: &GroupPositions) -> Px<Vec<u32>>
    requires { HoldsEachRowOnce parts.now }
    ensures { AnswersBy (λ v. v.items) result (Ok (row_places parts.now)) }
{
    let height = parts.height();
    let rows = joined_rows(alloc, parts)?;
    let places = numbers_below(alloc, height)?;
    put_at(alloc, height, &rows, &places)
}

/// The number of each row's group; each row of the height stands in the groups once.
pub(crate) fn group_numbers(alloc: Global, parts: &GroupPositions) -> Px<Vec<u32>>
    requires { HoldsEachRowOnce parts.now }
    ensures numbers { AnswersBy (λ v. v.items) result (Ok (part_numbers parts.now)) }
    ensures few { parts.now.height < 2 ^ 32 }
{
    let height = parts.height();
    let rows = joined_rows(alloc, parts)?;
    let numbers = joined_numbers(alloc, parts)?;
    put_at(alloc, height, &rows, &numbers)
}
