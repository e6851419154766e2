//! Worked examples of frames that are cut into chunks, and of expressions that can be evaluated chunk by
//! chunk.
use px_column::{Name, Px, PxError};
use px_document::{Document, read_document};
use px_frame::DataFrame;
use px_partition::{cut_frame, is_elementwise, partition_safe};
use px_tree::{Expr, Step};
use px_trial_texts::{four_rows, frame, is_text, text_of_frame, text_of_refusal};
use std::alloc::Global;
use std::test::Fail;

// The texts of frames, one after another.
fn text_of_frames(alloc: Global, frames: Vec<DataFrame>) -> Px<Name> {
    let mut text = Name::new(alloc, "")?;
    for frame in frames {
        let next = text_of_frame(alloc, Ok(frame))?;
        let joined = format!(in alloc; "{}{}", text.as_str(), next.as_str())?;
        text = Name::new(alloc, joined.as_str())?;
    }
    Ok(text)
}

// The texts of a frame's chunks, or the line of a refusal.
fn text_of_cut(alloc: Global, frame: &DataFrame, lengths: &[u32]) -> Px<Name> {
    match cut_frame(alloc, frame, lengths) {
        Ok(chunks) => text_of_frames(alloc, chunks),
        Err(error) => text_of_refusal(alloc, error),
    }
}

const FIELDS: &str = "[\"k\",\"x\"]\n[\"Int64\",\"Int64\"]\n";

const WRONG: &str = "error: ComputeError(ChunkLengths)\n";

#[test]
fn a_frame_is_cut_into_chunks(rt: HostRuntime) -> Result<(), Fail> {
    let alloc = rt.alloc();
    let rows = four_rows(alloc)?;
    let whole = format!(in alloc; "{FIELDS}[7,0]\n[9,1]\n[7,2]\n[7,3]\n")?;
    assert!(rt; is_text(text_of_cut(alloc, &rows, &[4]), whole.as_str())?);
    let three = format!(in alloc; "{FIELDS}[7,0]\n{FIELDS}[9,1]\n[7,2]\n{FIELDS}[7,3]\n")?;
    assert!(rt; is_text(text_of_cut(alloc, &rows, &[1, 2, 1]), three.as_str())?);
    let none_between = format!(in alloc; "{FIELDS}[7,0]\n[9,1]\n{FIELDS}{FIELDS}[7,2]\n[7,3]\n")?;
    assert!(rt; is_text(text_of_cut(alloc, &rows, &[2, 0, 2]), none_between.as_str())?);
    Ok(())
}

#[test]
fn a_frame_of_no_rows_is_cut_into_any_number_of_chunks(rt: HostRuntime) -> Result<(), Fail> {
    let alloc = rt.alloc();
    let empty = frame(alloc, r#"[{"name":"k","type":"Int64","values":[]}]"#)?;
    assert!(rt; is_text(text_of_cut(alloc, &empty, &[]), "")?);
    let twice = "[\"k\"]\n[\"Int64\"]\n[\"k\"]\n[\"Int64\"]\n";
    assert!(rt; is_text(text_of_cut(alloc, &empty, &[0, 0]), twice)?);
    assert!(rt; is_text(text_of_cut(alloc, &empty, &[1]), WRONG)?);
    Ok(())
}

#[test]
fn lengths_that_do_not_sum_to_the_height_are_refused(rt: HostRuntime) -> Result<(), Fail> {
    let alloc = rt.alloc();
    let rows = four_rows(alloc)?;
    assert!(rt; is_text(text_of_cut(alloc, &rows, &[2, 1]), WRONG)?);
    assert!(rt; is_text(text_of_cut(alloc, &rows, &[2, 3]), WRONG)?);
    assert!(rt; is_text(text_of_cut(alloc, &rows, &[]), WRONG)?);
    assert!(rt; is_text(text_of_cut(alloc, &rows, &[4_294_967_295, 5]), WRONG)?);
    Ok(())
}

// A document of a select step.
fn document(alloc: Global, exprs: &str) -> Px<Document> {
    let text = format!(in alloc; "{{\"columns\":[],\"steps\":[{{\"select\":{exprs}}}]}}")?;
    read_document(alloc, text.as_bytes()).map_err(|_| PxError::OutOfBounds)
}

// The expressions of its select step.
fn selected(document: &Document) -> &[Expr] {
    match document.steps.first() {
        Some(Step::Select(exprs)) => exprs.as_slice(),
        _ => &[],
    }
}

// Which of these are elementwise over `k` and `x`.
fn elementwise(alloc: Global, exprs: &str) -> Px<Vec<bool>> {
    let schema = four_rows(alloc)?.schema(alloc)?;
    let document = document(alloc, exprs)?;
    let mut answers = Vec::new(alloc);
    for expr in selected(&document) {
        answers.push(is_elementwise(expr, &schema))?;
    }
    Ok(answers)
}

// Which of these have values that can be merged, over `k` and `x`.
fn safe(alloc: Global, exprs: &str) -> Px<Vec<bool>> {
    let schema = four_rows(alloc)?.schema(alloc)?;
    let document = document(alloc, exprs)?;
    let mut answers = Vec::new(alloc);
    for expr in selected(&document) {
        answers.push(partition_safe(expr, &schema))?;
    }
    Ok(answers)
}

#[test]
fn rows_that_come_from_themselves_alone_are_elementwise(rt: HostRuntime) -> Result<(), Fail> {
    let alloc = rt.alloc();
    let made = elementwise(
        alloc,
        r#"[{"col":"x"},{"lit":{"type":"Int64","value":5}},{"alias":[{"cast":[{"col":"x"},"String","Strict"]},"t"]},
            {"when":[{"bin":["Gt",{"col":"x"},{"col":"k"}]},{"col":"x"},{"lit":{"type":"Int64","value":0}}]},
            {"fn":["Not",{"fn":["IsBetween","Both",{"col":"x"},{"col":"k"},{"col":"k"}]}]}]"#,
    )?;
    assert!(rt; made.as_slice() == [true, true, true, true, true].as_slice());
    let others = elementwise(
        alloc,
        r#"[{"col":"y"},{"series":{"name":"s","type":"Int64","values":[1]}},{"fn":["Reverse",{"col":"x"}]},
            {"fn":["IsIn",{"col":"x"},{"col":"k"}]},{"filter":[{"col":"x"},{"fn":["IsNull",{"col":"x"}]}]},
            {"agg":["Sum",{"col":"x"}]},{"len":null},{"bin":["Plus",{"col":"x"},{"col":"y"}]}]"#,
    )?;
    assert_eq!(rt; others.len(), 8);
    assert!(rt; !others.contains(&true));
    Ok(())
}

#[test]
fn values_of_reductions_but_unique_numbers_are_merged(rt: HostRuntime) -> Result<(), Fail> {
    let alloc = rt.alloc();
    let merged = safe(
        alloc,
        r#"[{"agg":["Min",{"col":"x"}]},{"agg":["Max",{"col":"x"}]},{"agg":["Sum",{"col":"x"}]},{"agg":["First",{"col":"x"}]},
            {"agg":["Last",{"col":"x"}]},{"agg":["Implode",{"col":"x"}]},{"agg":["Count",{"col":"x"},true]},
            {"agg":["Count",{"col":"x"},false]},{"len":null},{"alias":[{"alias":[{"len":null},"n"]},"m"]},
            {"agg":["Sum",{"bin":["Plus",{"col":"x"},{"col":"k"}]}]}]"#,
    )?;
    assert_eq!(rt; merged.len(), 11);
    assert!(rt; !merged.contains(&false));
    let others = safe(
        alloc,
        r#"[{"agg":["NUnique",{"col":"x"}]},{"col":"x"},{"agg":["Sum",{"col":"y"}]},{"agg":["Sum",{"fn":["DropNulls",{"col":"x"}]}]},
            {"bin":["Plus",{"agg":["Sum",{"col":"x"}]},{"len":null}]},{"cast":[{"len":null},"Int64","Strict"]}]"#,
    )?;
    assert_eq!(rt; others.len(), 6);
    assert!(rt; !others.contains(&true));
    Ok(())
}
