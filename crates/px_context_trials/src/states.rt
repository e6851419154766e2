//! A worked example of the state of an evaluation: its cache of frames, its copies, and the mark to stop.

use px_column::{Column, ComputeWhy, DataType, Name, Px, PxError, Value};
use px_frame::{DataFrame, Schema};
use px_window::ExecutionState;
use std::alloc::Global;
use std::rc::Rc;
use std::test::Fail;

// A frame of one row.
fn one_row(alloc: Global) -> Px<DataFrame> {
    let mut values = Vec::new(alloc);
    values.push(Some(Value::Int(7)))?;
    if values.len() >= 1 << 32 {
        return Err(PxError::OutOfBounds);
    }
    let name = Name::new(alloc, "x")?;
    let column = Column::from_values(alloc, name, DataType::Int64, values)?;
    DataFrame::new(alloc, vec![in alloc; column]?)
}

// A state that has a schema, a frame from outside, and a frame under the key 4.
fn full_state(alloc: Global) -> Px<ExecutionState> {
    let mut state = ExecutionState::new(alloc, false)?;
    state.branch_idx = 3;
    state.set_schema(Rc::new(alloc, Schema::new(alloc)?)?);
    state.ext_contexts.push(one_row(alloc)?)?;
    let cached = state.get_df_cache(4, 2)?;
    cached.hits -= 1;
    cached.frame = Some(one_row(alloc)?);
    Ok(state)
}

// Whether a state has what `full_state` put in.
fn is_full(state: &mut ExecutionState) -> Px<bool> {
    let outside = match state.ext_contexts.as_slice() {
        [frame] => frame.height() == 1,
        _ => false,
    };
    let cached = state.get_df_cache(4, 9)?;
    let inside = match &cached.frame {
        Some(frame) => cached.hits == 1 && frame.height() == 1,
        None => false,
    };
    Ok(outside && inside && state.branch_idx == 3 && state.cache_window())
}

#[test]
fn a_new_state_has_nothing_cached(rt: HostRuntime) -> Result<(), Fail> {
    let mut state = ExecutionState::new(rt.alloc(), false)?;
    assert!(rt; !state.has_df_cache(4) && state.ext_contexts.is_empty());
    let cached = state.get_df_cache(4, 2)?;
    assert!(rt; cached.hits == 2 && cached.frame.is_none());
    assert!(rt; state.has_df_cache(4));
    state.remove_df_cache(4);
    assert!(rt; !state.has_df_cache(4));
    Ok(())
}

// Changes the hits under the key 4, after which the state is not as `full_state` made it.
fn change_hits(state: &mut ExecutionState) -> Px<bool> {
    state.get_df_cache(4, 9)?.hits = 8;
    Ok(!is_full(state)?)
}

// Whether a state for a branch has what it was made of, without the schema, once that has changed.
fn is_split_its_own(alloc: Global) -> Px<bool> {
    let mut state = full_state(alloc)?;
    let mut split = state.split(alloc)?;
    Ok(change_hits(&mut state)? && is_full(&mut split)? && split.get_schema().is_none())
}

// Whether a copy has what it was made of, with the schema, once that has changed.
fn is_copy_its_own(alloc: Global) -> Px<bool> {
    let mut state = full_state(alloc)?;
    let mut copy = state.clone(alloc)?;
    Ok(change_hits(&mut state)? && is_full(&mut copy)? && copy.get_schema().is_some())
}

#[test]
fn copies_own_what_a_state_has(rt: HostRuntime) -> Result<(), Fail> {
    let alloc = rt.alloc();
    assert!(rt; is_split_its_own(alloc)?);
    assert!(rt; is_copy_its_own(alloc)?);
    Ok(())
}

#[test]
fn a_state_that_is_to_stop_is_interrupted(rt: HostRuntime) -> Result<(), Fail> {
    let mut state = ExecutionState::new(rt.alloc(), false)?;
    assert!(rt; state.should_stop().is_ok());
    state.set_stop(true);
    assert!(rt;
        matches!(
            state.should_stop(),
            Err(PxError::ComputeError(ComputeWhy::Interrupted)),
        )
    );
    state.set_stop(false);
    assert!(rt; state.should_stop().is_ok());
    Ok(())
}
