//! Kernels beside slow programs, on generated columns of every type.
ghost use Rattle.std.specs.Prelude.{◌≡◌, ◌<◌};

use crate::generated::{Places, TYPES, close, column_at, random_places, values_of};
use crate::slow_cells::{push_cast, push_exploded, push_reduction, push_result, reduced_type};
use crate::slow_rows::{
    Question, answer, choose, join, keep, present, reverse, rows_in_slice, shift, slice, sort,
};
use px_column::{
    CastOptions, ClosedInterval, Column, Flags, GroupByMethod, Name, Operator, Px, PxError,
    SortMultipleOptions, SortOptions, Steps, prepare_bool_vec, slice_window,
};
use px_trial_texts::{column, text_of_column};
use rand_core::Rng;
use rand_pcg::Pcg32;
use std::alloc::Global;
use std::marker::Brand;
use std::sync::ledger::{Blank, Ledger};
use std::test::Fail;

/// What is made of a column, beside which stand two others of its type and a mask.
#[derive(Clone, Copy)]
enum Kernel {
    Reverse,
    Shift(i64),
    Slice(i64, Option<u32>),
    Filter,
    DropNulls,
    Append,
    ZipWith,
    Explode,
    Ask(Question),
    Calculate(Operator),
    Cast(&'static str, CastOptions),
    Sort(SortOptions),
    SortMultiple([SortOptions; 2]),
    Reduce(GroupByMethod),
}

const FALLING: SortOptions = SortOptions {
    descending: true,
    nulls_last: false,
};

const RISING: SortOptions = SortOptions {
    descending: false,
    nulls_last: true,
};

pub(crate) const METHODS: [GroupByMethod; 9] = [
    GroupByMethod::Min,
    GroupByMethod::Max,
    GroupByMethod::Sum,
    GroupByMethod::First,
    GroupByMethod::Last,
    GroupByMethod::NUnique,
    GroupByMethod::Count {
        include_nulls: false,
    },
    GroupByMethod::Count {
        include_nulls: true,
    },
    GroupByMethod::Implode,
];

const MOVES: [Kernel; 16] = [
    Kernel::Reverse,
    Kernel::Shift(1),
    Kernel::Shift(-2),
    Kernel::Slice(1, Some(2)),
    Kernel::Slice(-3, Some(2)),
    Kernel::Slice(-9, Some(8)),
    Kernel::Slice(-2, None),
    Kernel::Filter,
    Kernel::DropNulls,
    Kernel::Append,
    Kernel::ZipWith,
    Kernel::Explode,
    Kernel::Sort(FALLING),
    Kernel::Sort(RISING),
    Kernel::SortMultiple([FALLING, RISING]),
    Kernel::SortMultiple([RISING, FALLING]),
];

const QUESTIONS: [Question; 21] = [
    Question::IsNull,
    Question::IsNotNull,
    Question::Not,
    Question::IsIn,
    Question::IsBetween(ClosedInterval::Both),
    Question::IsBetween(ClosedInterval::Left),
    Question::IsBetween(ClosedInterval::Right),
    Question::IsBetween(ClosedInterval::None),
    Question::Compare(Operator::Eq),
    Question::Compare(Operator::NotEq),
    Question::Compare(Operator::Lt),
    Question::Compare(Operator::LtEq),
    Question::Compare(Operator::Gt),
    Question::Compare(Operator::GtEq),
    Question::Compare(Operator::EqValidity),
    Question::Compare(Operator::NotEqValidity),
    Question::Logic(Operator::And),
    Question::Logic(Operator::Or),
    Question::Logic(Operator::Xor),
    Question::Logic(Operator::LogicalAnd),
    Question::Logic(Operator::LogicalOr),
];

const OPERATORS: [Operator; 9] = [
    Operator::Plus,
    Operator::Minus,
    Operator::Multiply,
    Operator::Divide,
    Operator::FloorDivide,
    Operator::Modulus,
    Operator::And,
    Operator::Or,
    Operator::Xor,
];

const TARGETS: [&str; 8] = [
    "Boolean",
    "Int8",
    "Int64",
    "UInt8",
    "UInt64",
    "String",
    "Binary",
    "List(UInt8)",
];

fn is_integer(dtype: &str) -> bool {
    matches!(
        dtype,
        "Int8" | "Int16" | "Int32" | "Int64" | "UInt8" | "UInt16" | "UInt32" | "UInt64"
    )
}

fn can_cast(from: &str, to: &str) -> bool {
    match (from, to) {
        ("Null", _) => true,
        ("String", "Boolean") => false,
        ("String", "Binary") => true,
        (_, "Binary") => from == "Binary",
        (_, "List(UInt8)") => from == "List(Int64)",
        _ => from == "Boolean" || from == "String" || is_integer(from),
    }
}

/// Whether a question is asked of values of a type: lists have no order and are no keys.
fn asks(question: Question, dtype: &str) -> bool {
    match question {
        Question::IsNull | Question::IsNotNull => true,
        Question::Not | Question::Logic(Operator::And | Operator::Or | Operator::Xor) => {
            dtype == "Boolean"
        }
        Question::Logic(_) => dtype == "Boolean" || is_integer(dtype),
        _ => dtype != "List(Int64)",
    }
}

/// Whether a reduction takes values of a type.
pub(crate) fn reduces(method: GroupByMethod, dtype: &str) -> bool {
    match method {
        GroupByMethod::Sum => dtype == "Boolean" || is_integer(dtype),
        GroupByMethod::Min | GroupByMethod::Max | GroupByMethod::NUnique => {
            dtype != "List(Int64)"
        }
        _ => true,
    }
}

/// Whether a kernel takes columns of a type.
fn takes(kernel: Kernel, dtype: &str) -> bool {
    match kernel {
        Kernel::Explode => dtype == "List(Int64)",
        Kernel::Ask(question) => asks(question, dtype),
        Kernel::Calculate(Operator::Plus) => dtype == "String" || is_integer(dtype),
        Kernel::Calculate(_) => is_integer(dtype),
        Kernel::Cast(to, _) => can_cast(dtype, to),
        Kernel::Sort(_) | Kernel::SortMultiple(_) => dtype != "List(Int64)",
        Kernel::Reduce(method) => reduces(method, dtype),
        _ => true,
    }
}

/// The places of the values of three columns, and those of a mask.
#[derive(Drop)]
struct Sample {
    rows: Places,
    others: Places,
    highs: Places,
    mask: Places,
}

fn random_sample(alloc: Global, rng: &mut Pcg32, count: usize) -> Px<Sample> {
    let len = rng.next_u32() % 9;
    Ok(Sample {
        rows: random_places(alloc, rng, len, count)?,
        others: random_places(alloc, rng, len, count)?,
        highs: random_places(alloc, rng, len, count)?,
        mask: random_places(alloc, rng, len, 2)?,
    })
}

/// The rows that a kernel is to give, of those that there are.
fn slow_rows(alloc: Global, kernel: Kernel, dtype: &str, sample: &Sample) -> Px<Places> {
    let (rows, others) = (&sample.rows, &sample.others);
    match kernel {
        Kernel::Reverse => reverse(alloc, rows),
        Kernel::Shift(periods) => shift(alloc, rows, periods),
        Kernel::Slice(offset, length) => slice(alloc, rows, offset, length),
        Kernel::Filter => keep(alloc, rows, &sample.mask),
        Kernel::DropNulls => present(alloc, rows),
        Kernel::Append => join(alloc, rows, others),
        Kernel::ZipWith => choose(alloc, rows, others, &sample.mask),
        Kernel::Sort(options) => sort(alloc, rows, rows, [options, options]),
        Kernel::SortMultiple(by) => sort(alloc, rows, others, by),
        Kernel::Ask(question) => answer(alloc, question, dtype, rows, others, &sample.highs),
        _ => Err(PxError::OutOfBounds),
    }
}

/// The new values that a kernel is to make, row by row.
fn slow_cells(alloc: Global, kernel: Kernel, dtype: &str, sample: &Sample) -> Px<String> {
    let mut cells = String::new(alloc);
    for (row, other) in sample.rows.iter().zip(&sample.others) {
        match kernel {
            Kernel::Calculate(op) => push_result(alloc, &mut cells, op, dtype, *row, *other)?,
            Kernel::Cast(to, options) => {
                push_cast(alloc, &mut cells, dtype, to, options, *row)?;
            }
            _ => push_exploded(&mut cells, *row)?,
        }
    }
    close(&mut cells)?;
    Ok(cells)
}

fn slow_reduction(
    alloc: Global,
    method: GroupByMethod,
    dtype: &str,
    rows: &[Option<u32>],
) -> Px<Column> {
    let mut cells = String::new(alloc);
    push_reduction(alloc, &mut cells, dtype, method, rows)?;
    close(&mut cells)?;
    column(alloc, reduced_type(alloc, dtype, method)?.as_str(), &cells)
}

/// What a kernel is to make.
fn slow(alloc: Global, kernel: Kernel, dtype: &str, sample: &Sample) -> Px<Column> {
    let to = match kernel {
        Kernel::Reduce(method) => return slow_reduction(alloc, method, dtype, &sample.rows),
        Kernel::Calculate(_) => dtype,
        Kernel::Cast(to, _) => to,
        Kernel::Explode => "Int64",
        Kernel::Ask(_) => {
            let answers = slow_rows(alloc, kernel, dtype, sample)?;
            return column_at(alloc, "Boolean", &answers);
        }
        _ => return column_at(alloc, dtype, &slow_rows(alloc, kernel, dtype, sample)?),
    };
    column(alloc, to, &slow_cells(alloc, kernel, dtype, sample)?)
}

/// The rows of a column in an order.
fn take(alloc: Global, column: &Column, order: &[u32]) -> Px<Column> {
    let mut rows = Vec::new(alloc);
    for row in order {
        rows.push(Some(*row))?;
    }
    if rows.len() > u32::MAX as usize {
        return Err(PxError::OutOfBounds);
    }
    column.take(alloc, &rows)
}

fn flags(alloc: Global, first: bool, second: bool) -> Px<Flags> {
    Ok(Flags::from_vec(vec![in alloc; first, second]?))
}

/// The second column in the order of both.
fn sort_by_two<L: Ledger>(
    alloc: Global,
    first: &Column,
    second: &Column,
    by: [SortOptions; 2],
    kernels: &mut Steps<L>,
) -> Px<Column> {
    let options = SortMultipleOptions {
        descending: flags(alloc, by[0].descending, by[1].descending)?,
        nulls_last: flags(alloc, by[0].nulls_last, by[1].nulls_last)?,
    };
    let rest = vec![in alloc; second.try_clone(alloc)?]?;
    let order = Column::arg_sort_multiple(alloc, first, &rest, &options, kernels)?;
    take(alloc, second, &order)
}

/// The answers to a question.
fn fast_answers<L: Ledger>(
    alloc: Global,
    question: Question,
    column: &Column,
    other: &Column,
    high: &Column,
    kernels: &mut Steps<L>,
) -> Px<Column> {
    match question {
        Question::IsNull => column.is_null(alloc, kernels),
        Question::IsNotNull => column.is_not_null(alloc, kernels),
        Question::Not => column.not(alloc, kernels),
        Question::IsIn => column.is_in(alloc, other, kernels),
        Question::IsBetween(closed) => column.is_between(alloc, other, high, closed, kernels),
        Question::Compare(op) | Question::Logic(op) => {
            Column::apply_operator(alloc, column, other, op, kernels)
        }
    }
}

fn slice_column(alloc: Global, column: &Column, offset: i64, length: Option<u32>) -> Px<Column> {
    let length = match length {
        Some(length) => Some(length as i128),
        None => None,
    };
    column.slice(alloc, offset as i128, length)
}

fn append(alloc: Global, column: &Column, other: &Column) -> Px<Column> {
    let mut all = column.try_clone(alloc)?;
    all.append(alloc, other)?;
    Ok(all)
}

/// The three columns and the mask of a sample.
#[derive(Drop)]
struct Columns {
    column: Column,
    other: Column,
    high: Column,
    mask: Column,
}

fn columns_of(alloc: Global, dtype: &str, sample: &Sample) -> Px<Columns> {
    Ok(Columns {
        column: column_at(alloc, dtype, &sample.rows)?,
        other: column_at(alloc, dtype, &sample.others)?,
        high: column_at(alloc, dtype, &sample.highs)?,
        mask: column_at(alloc, "Boolean", &sample.mask)?,
    })
}

/// What a kernel makes.
fn fast<L: Ledger>(alloc: Global, kernel: Kernel, columns: &Columns, blank: Blank) -> Px<Column>
    requires name { blank.name ≡ L.name }
    requires parts { blank.parts ≡ L.parts }
    requires some { 0 < blank.parts }
{
    let mut kernels = Steps::<L>::new(blank);
    let (column, other) = (&columns.column, &columns.other);
    match kernel {
        Kernel::Reverse => column.reverse(alloc),
        Kernel::Shift(periods) => column.shift(alloc, periods),
        Kernel::Slice(offset, length) => slice_column(alloc, column, offset, length),
        Kernel::Filter => column.filter(alloc, &columns.mask),
        Kernel::DropNulls => column.drop_nulls(alloc),
        Kernel::Append => append(alloc, column, other),
        Kernel::ZipWith => column.zip_with(alloc, &columns.mask, other, &mut kernels),
        Kernel::Explode => column.explode(alloc),
        Kernel::Ask(question) => {
            fast_answers(alloc, question, column, other, &columns.high, &mut kernels)
        }
        Kernel::Calculate(op) => Column::apply_operator(alloc, column, other, op, &mut kernels),
        Kernel::Cast(to, options) => {
            let target = px_trial_texts::column(alloc, to, "[]")?;
            column.cast_with_options(alloc, target.dtype(), options, &mut kernels)
        }
        Kernel::Sort(options) => {
            let order = column.arg_sort(alloc, options, &mut kernels)?;
            take(alloc, column, &order)
        }
        Kernel::SortMultiple(by) => sort_by_two(alloc, column, other, by, &mut kernels),
        Kernel::Reduce(method) => column.reduce(alloc, method, &mut kernels),
    }
}

fn fast_text(alloc: Global, kernel: Kernel, dtype: &str, sample: &Sample) -> Px<Name> {
    let columns = columns_of(alloc, dtype, sample)?;
    let made = fast::<Brand>(alloc, kernel, &columns, Blank::new(1));
    text_of_column(alloc, made)
}

/// Whether a kernel makes of generated columns what the slow program does, three times.
fn agree(alloc: Global, kernel: Kernel, dtype: &str, rng: &mut Pcg32) -> Px<bool> {
    for _ in 0..3u32 {
        let sample = random_sample(alloc, rng, values_of(dtype).len())?;
        let made = fast_text(alloc, kernel, dtype, &sample)?;
        if made != text_of_column(alloc, slow(alloc, kernel, dtype, &sample))? {
            return Ok(false);
        }
    }
    Ok(true)
}

fn push_questions(kernels: &mut Vec<Kernel>) -> Px<()> {
    for question in QUESTIONS {
        kernels.push(Kernel::Ask(question))?;
    }
    Ok(())
}

fn push_operators(kernels: &mut Vec<Kernel>) -> Px<()> {
    for op in OPERATORS {
        kernels.push(Kernel::Calculate(op))?;
    }
    Ok(())
}

fn push_casts(kernels: &mut Vec<Kernel>, options: CastOptions) -> Px<()> {
    for to in TARGETS {
        kernels.push(Kernel::Cast(to, options))?;
    }
    Ok(())
}

fn push_reductions(kernels: &mut Vec<Kernel>) -> Px<()> {
    for method in METHODS {
        kernels.push(Kernel::Reduce(method))?;
    }
    Ok(())
}

fn all_kernels(alloc: Global) -> Px<Vec<Kernel>> {
    let mut kernels = Vec::from_slice(alloc, &MOVES)?;
    push_questions(&mut kernels)?;
    push_operators(&mut kernels)?;
    push_casts(&mut kernels, CastOptions::Strict)?;
    push_casts(&mut kernels, CastOptions::NonStrict)?;
    push_casts(&mut kernels, CastOptions::Overflowing)?;
    push_reductions(&mut kernels)?;
    Ok(kernels)
}

/// The number of the first kernel that makes something else than its slow program.
fn first_apart(
    alloc: Global,
    kernels: &[Kernel],
    dtype: &str,
    rng: &mut Pcg32,
) -> Px<Option<usize>> {
    for (number, kernel) in kernels.iter().enumerate() {
        if takes(*kernel, dtype) && !agree(alloc, *kernel, dtype, rng)? {
            return Ok(Some(number));
        }
    }
    Ok(None)
}

#[test]
fn kernels_make_what_slow_programs_do(rt: HostRuntime) -> Result<(), Fail> {
    let alloc = rt.alloc();
    let kernels = all_kernels(alloc)?;
    let mut rng = Pcg32::new(42, 54);
    for dtype in TYPES {
        let apart = first_apart(alloc, &kernels, dtype, &mut rng)?;
        assert!(rt; apart.is_none(), "kernel {} of {dtype}", apart.unwrap_or(0));
    }
    Ok(())
}

/// Whether a window begins behind the rows before a slice, and has the rows in it.
fn is_window(offset: i64, length: Option<u32>, len: u32) -> bool {
    let limit = match length {
        Some(length) => Some(length as i128),
        None => None,
    };
    let (first, count) = slice_window(offset as i128, limit, len);
    let before = if offset < 0 {
        len as i128 + offset as i128
    } else {
        offset as i128
    };
    first as i128 == before.max(0).min(len as i128) && count == rows_in_slice(offset, length, len)
}

fn are_windows(offset: i64) -> bool {
    for len in 0..6u32 {
        if !(is_window(offset, None, len)
            && is_window(offset, Some(0), len)
            && is_window(offset, Some(3), len))
        {
            return false;
        }
    }
    true
}

#[test]
fn windows_have_the_rows_of_slices(rt: HostRuntime) -> Result<(), Fail> {
    for offset in -7..8i64 {
        assert!(rt; are_windows(offset), "windows from {offset}");
    }
    Ok(())
}

/// Each flag where there are as many as keys, else the first for all keys, and false without flags.
fn are_flags(alloc: Global, given: &[bool], keys: u32) -> Px<bool> {
    let flags = prepare_bool_vec(alloc, given, keys)?;
    for (i, flag) in flags.iter().enumerate() {
        let of = if given.len() == keys as usize { i } else { 0 };
        if *flag != given.get(of).copied().unwrap_or(false) {
            return Ok(false);
        }
    }
    Ok(flags.len() == keys as usize)
}

#[test]
fn flags_are_brought_to_the_number_of_keys(rt: HostRuntime) -> Result<(), Fail> {
    let alloc = rt.alloc();
    for keys in 0..4u32 {
        assert!(rt; are_flags(alloc, &[], keys)?, "no flags for {keys}");
        assert!(rt; are_flags(alloc, &[true], keys)?, "a flag for {keys}");
        assert!(rt;
            are_flags(alloc, &[true, false], keys)?,
            "two flags for {keys}"
        );
    }
    Ok(())
}
