//! Nodes on groups that overlap, repeat rows and are empty, beside the same nodes on the rows of each
//! group alone.
ghost use Rattle.std.specs.Prelude.{◌≡◌, ◌<◌};

use px_column::{ByteString, Column, GroupByMethod, Px, PxError, Steps};
use px_document::{Document, read_document};
use px_expr::{
    ExpressionConversionState, PhysExpr, PhysicalExpr, create_physical_expr, evaluate_cell,
};
use px_frame::{Cell, DataFrame, GroupPositions, GroupsType, IdxVec};
use px_plan::{Arena, Context, Expr, ExprIR, fits_arena, to_arena};
use px_text::frame_text;
use px_tree::Step;
use px_window::ExecutionState;
use rand_core::Rng;
use rand_pcg::Pcg32;
use std::alloc::Global;
use std::marker::Brand;
use std::rc::Rc;
use std::sync::ledger::{Blank, Ledger};
use std::test::Fail;

/// A frame, and expressions of every kind that groups do not refuse.
const DOCUMENT: &str = r#"{"columns":[{"name":"k","type":"Int64","values":[2,0,1,null,1,0]},
{"name":"x","type":"Int64","values":[7,-1,3,null,300,3]},
{"name":"s","type":"String","values":["b","","a",null,"b","12"]},
{"name":"l","type":"List(Int64)","values":[[1],[],[2,null],null,[3],[4,4]]}],"steps":[{"select":[
{"col":"x"},{"len":null},{"lit":{"type":"Int64","value":5}},{"series":{"name":"r","type":"Int64","values":[4,null]}},
{"alias":[{"col":"s"},"t"]},{"bin":["Plus",{"col":"x"},{"bin":["Multiply",{"col":"k"},{"agg":["Max",{"col":"x"}]}]}]},
{"bin":["Plus",{"filter":[{"col":"x"},{"bin":["Gt",{"col":"k"},{"lit":{"type":"Int64","value":0}}]}]},{"lit":{"type":"Int64","value":1}}]},
{"bin":["Lt",{"sort":[{"col":"x"},{"descending":true,"nulls_last":false}]},{"col":"k"}]},
{"when":[{"bin":["Gt",{"col":"x"},{"lit":{"type":"Int64","value":2}}]},{"col":"k"},{"agg":["First",{"col":"x"}]}]},
{"cast":[{"col":"x"},"UInt8","Strict"]},{"cast":[{"col":"s"},"Int64","NonStrict"]},
{"cast":[{"filter":[{"col":"x"},{"bin":["GtEq",{"col":"x"},{"lit":{"type":"Int64","value":0}}]}]},"UInt32","Strict"]},
{"fn":["IsNull",{"col":"s"}]},{"fn":["IsIn",{"col":"x"},{"filter":[{"col":"x"},{"bin":["Gt",{"col":"k"},{"lit":{"type":"Int64","value":0}}]}]}]},
{"fn":["IsBetween","Both",{"col":"x"},{"lit":{"type":"Int64","value":0}},{"agg":["Last",{"col":"x"}]}]},
{"fn":["Reverse",{"col":"s"}]},{"fn":["Shift",1,{"col":"x"}]},{"fn":["DropNulls",{"col":"x"}]},{"fn":["NullCount",{"col":"x"}]},{"explode":{"col":"l"}},
{"filter":[{"col":"s"},{"fn":["IsNotNull",{"col":"x"}]}]},{"slice":[{"col":"x"},{"lit":{"type":"Int64","value":-2}},{"lit":{"type":"Int64","value":2}}]},
{"slice":[{"col":"x"},{"lit":{"type":"Int64","value":1}},{"len":null}]},{"gather":[{"col":"x"},{"lit":{"type":"Int64","value":0}},true]},
{"gather":[{"col":"x"},{"agg":["Min",{"col":"k"}]},true]},{"gather":[{"col":"s"},{"cast":[{"fn":["Shift",-1,{"col":"k"}]},"UInt32","NonStrict"]},false]},
{"sort":[{"col":"s"},{"descending":false,"nulls_last":true}]},{"sort_by":[{"col":"x"},[{"col":"k"},{"col":"s"}],{"descending":[true,false],"nulls_last":[]}]},
{"agg":["Sum",{"bin":["Multiply",{"col":"x"},{"col":"k"}]}]},{"agg":["NUnique",{"col":"s"}]},{"agg":["Count",{"col":"x"},false]},{"agg":["Implode",{"col":"l"}]},
{"agg":["Last",{"sort":[{"col":"x"},{"descending":false,"nulls_last":false}]}]},{"agg":["Sum",{"filter":[{"col":"x"},{"bin":["Eq",{"col":"k"},{"agg":["Min",{"col":"k"}]}]}]}]}]}]}"#;

/// The document of a text.
pub(crate) fn document(alloc: Global, text: &str) -> Result<Document, Fail> {
    let document = read_document(alloc, text.as_bytes());
    Ok(document.ok().ok_or("the text is a document")?)
}

/// The expressions of the first select step.
fn expressions(steps: &[Step]) -> Result<&[Expr], Fail> {
    for step in steps {
        if let Step::Select(exprs) = step {
            return Ok(exprs);
        }
    }
    Err(Fail::from("the document has a select step"))
}

fn plan(alloc: Global, expr: &Expr, frame: &DataFrame) -> Px<PhysExpr> {
    let mut arena = Arena::new(alloc)?;
    if !fits_arena(expr, &arena) {
        return Err(PxError::OutOfBounds);
    }
    let expr = ExprIR::new(to_arena(alloc, expr, &mut arena)?, None);
    let schema = Rc::new(alloc, frame.schema(alloc)?)?;
    let mut noted = ExpressionConversionState::new(0);
    create_physical_expr(
        alloc,
        &expr,
        Context::Aggregation,
        &arena,
        &schema,
        &mut noted,
    )
}

/// A list or a value for each group, of all groups at once.
fn on_groups<L: Ledger, M: Ledger>(
    alloc: Global,
    node: &PhysExpr,
    frame: &DataFrame,
    groups: &GroupPositions,
    kernels: Blank,
    groupings: Blank,
) -> Px<Column>
    requires kernels_name { kernels.name ≡ L.name }
    requires kernels_parts { kernels.parts ≡ L.parts }
    requires kernels_some { 0 < kernels.parts }
    requires groupings_name { groupings.name ≡ M.name }
    requires groupings_parts { groupings.parts ≡ M.parts }
    requires groupings_some { 0 < groupings.parts }
{
    if frame.height() != groups.height() {
        return Err(PxError::ShapeMismatch);
    }
    let mut state = ExecutionState::new(alloc, false)?;
    let mut kernels = Steps::<L>::new(kernels);
    let mut groupings = Steps::<M>::new(groupings);
    let mut context = node.evaluate_on_groups(
        alloc,
        frame,
        groups,
        &mut state,
        &mut kernels,
        &mut groupings,
    )?;
    context.finalize(alloc)
}

/// A list or a value of a frame, as one row.
fn on_frame<L: Ledger, M: Ledger>(
    alloc: Global,
    node: &PhysExpr,
    frame: &DataFrame,
    kernels: Blank,
    groupings: Blank,
) -> Px<Column>
    requires kernels_name { kernels.name ≡ L.name }
    requires kernels_parts { kernels.parts ≡ L.parts }
    requires kernels_some { 0 < kernels.parts }
    requires groupings_name { groupings.name ≡ M.name }
    requires groupings_parts { groupings.parts ≡ M.parts }
    requires groupings_some { 0 < groupings.parts }
{
    let mut state = ExecutionState::new(alloc, false)?;
    let mut kernels = Steps::<L>::new(kernels);
    let mut groupings = Steps::<M>::new(groupings);
    let cell = evaluate_cell(alloc, node, frame, &mut state, &mut kernels, &mut groupings)?;
    match &cell {
        Cell::Unit(unit) => unit.as_column().try_clone(alloc),
        Cell::Rows(rows) => rows.reduce(alloc, GroupByMethod::Implode, &mut kernels),
    }
}

/// A list or a value of the frame of one group's rows.
fn on_group(
    alloc: Global,
    node: &PhysExpr,
    frame: &DataFrame,
    groups: &GroupPositions,
    index: u32,
) -> Px<Column> {
    if frame.height() != groups.height() || index >= groups.len() {
        return Err(PxError::OutOfBounds);
    }
    let rows = groups.group(index).to_rows(alloc)?;
    let frame = frame.take_rows(alloc, &rows)?;
    on_frame::<Brand, Brand>(alloc, node, &frame, Blank::new(1), Blank::new(1))
}

/// A list or a value for each group, one group after another.
fn one_by_one(
    alloc: Global,
    node: &PhysExpr,
    frame: &DataFrame,
    groups: &GroupPositions,
) -> Px<Column> {
    let mut made = on_group(alloc, node, frame, groups, 0)?;
    for index in 1..groups.len() {
        made.append(alloc, &on_group(alloc, node, frame, groups, index)?)?;
    }
    Ok(made)
}

/// The text of a column as a frame of its own; nothing where there is none.
fn text_of_column(alloc: Global, answer: Px<Column>) -> Px<ByteString> {
    match answer {
        Ok(column) => frame_text(alloc, &DataFrame::new(alloc, vec![in alloc; column]?)?),
        Err(PxError::OutOfMemory) => Err(PxError::OutOfMemory),
        Err(_) => ByteString::from_slice(alloc, b""),
    }
}

/// Three groups of six rows: rows that may repeat, no row, and one row.
fn lists(alloc: Global, rng: &mut Pcg32) -> Px<GroupPositions> {
    let (first, last) = (rng.next_u32() % 6, rng.next_u32() % 6);
    let mut many = IdxVec::new(alloc);
    many.push(first)?;
    many.push(rng.next_u32() % 6)?;
    many.push(rng.next_u32() % 6)?;
    let mut one = IdxVec::new(alloc);
    one.push(last)?;
    let groups = vec![in alloc; (first, many), (0, IdxVec::new(alloc)), (last, one)]?;
    GroupPositions::new(GroupsType::Idx(groups), 6)
}

/// Two windows of six rows, which may overlap and be empty.
fn slices(alloc: Global, rng: &mut Pcg32) -> Px<GroupPositions> {
    let (first, second) = (rng.next_u32() % 4, rng.next_u32() % 4);
    let groups = vec![in alloc; [first, rng.next_u32() % 3], [second, rng.next_u32() % 4]]?;
    let slices = GroupsType::Slice {
        groups,
        rolling: false,
    };
    GroupPositions::new(slices, 6)
}

fn groups(alloc: Global, rng: &mut Pcg32) -> Px<GroupPositions> {
    if rng.next_u32() % 2 == 0 {
        lists(alloc, rng)
    } else {
        slices(alloc, rng)
    }
}

/// What a node gives on generated groups, of all at once and one by one.
fn both_ways(
    alloc: Global,
    node: &PhysExpr,
    frame: &DataFrame,
    rng: &mut Pcg32,
) -> Px<(ByteString, ByteString)> {
    let groups = groups(alloc, rng)?;
    let answer = on_groups::<Brand, Brand>(
        alloc,
        node,
        frame,
        &groups,
        Blank::new(1),
        Blank::new(1),
    );
    let expected = one_by_one(alloc, node, frame, &groups);
    Ok((
        text_of_column(alloc, answer)?,
        text_of_column(alloc, expected)?,
    ))
}

#[test]
fn groups_have_the_values_of_their_rows(rt: HostRuntime) -> Result<(), Fail> {
    let alloc = rt.alloc();
    let mut rng = Pcg32::new(3, 54);
    let Document { frame, steps } = document(alloc, DOCUMENT)?;
    for (number, expr) in expressions(&steps)?.iter().enumerate() {
        let node = plan(alloc, expr, &frame)?;
        for _ in 0..12u32 {
            let (all, each) = both_ways(alloc, &node, &frame, &mut rng)?;
            assert_eq!(rt; all.as_slice(), each.as_slice(), "expression {number}");
        }
    }
    Ok(())
}
