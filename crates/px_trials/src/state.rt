//! The state of an evaluation and its flags.

use px_trial_texts::four_rows;
use px_window::{ExecutionState, StateFlags};
use std::convert::From;
use std::default::Default;
use std::rc::Rc;
use std::test::Fail;

#[test]
fn bits_without_a_name_are_dropped(rt: HostRuntime) -> Result<(), Fail> {
    assert_eq!(rt; StateFlags::from(255).as_u8(), 15);
    assert_eq!(rt; StateFlags::from(16).as_u8(), 0);
    assert_eq!(rt; StateFlags::default().as_u8(), 2);
    Ok(())
}

#[test]
fn a_new_state_caches_windows(rt: HostRuntime) -> Result<(), Fail> {
    let mut state = ExecutionState::new(rt.alloc(), false)?;
    assert!(rt; state.cache_window() && !state.has_window() && !state.verbose());
    assert!(rt; state.branch_idx == 0 && state.get_schema().is_none());
    state.insert_has_window_function_flag();
    state.remove_cache_window_flag();
    assert_eq!(rt; state.flags.as_u8(), 4);
    state.insert_cache_window_flag();
    assert_eq!(rt; state.flags.as_u8(), 6);
    Ok(())
}

#[test]
fn a_schema_is_kept_and_cleared(rt: HostRuntime) -> Result<(), Fail> {
    let alloc = rt.alloc();
    let schema = four_rows(alloc)?.schema(alloc)?;
    let mut state = ExecutionState::new(alloc, true)?;
    assert!(rt; state.verbose());
    state.set_schema(Rc::new(alloc, schema)?);
    assert_eq!(rt; state.get_schema().map_or(0, |schema| schema.len()), 2);
    state.clear_schema_cache();
    assert!(rt; state.get_schema().is_none());
    Ok(())
}
