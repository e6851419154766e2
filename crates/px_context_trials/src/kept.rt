//! Worked examples of what is kept of windows: entries of keys that differ in one part alone, copies of them,
//! and what lets them go.
ghost use Rattle.std.specs.Prelude.{◌≡◌, ◌+◌, ◌<◌, OnOk, false, true};
ghost use Rattle.px_frame.specs.Frame.{all_have_height};
ghost use Rattle.px_window.specs.Cache.{has_entry};
ghost use Rattle.px_window.specs.Key.{with_order};

use crate::contexts::slices;
use crate::windows::has_group;
use px_column::{Column, Name, Px, PxError, SortOptions, Steps};
use px_frame::{GroupPositions, GroupsIndicator};
use px_trial_texts::column;
use px_window::{CacheKey, ExecutionState, WindowCache, keep_groups, keep_map};
use std::alloc::Global;
use std::marker::Brand;
use std::sync::ledger::{Blank, Ledger};
use std::test::Fail;

// The key of a column of four rows under a name, in the order of another.
fn key_of(alloc: Global, branch: u64, name: &str, descending: bool) -> Px<CacheKey> {
    let keys = column(alloc, "Int64", "[7,9,7,7]")?.with_name(Name::new(alloc, name)?);
    let options = SortOptions {
        descending,
        nulls_last: false,
    };
    let order = column(alloc, "Int64", "[0,1,2,3]")?;
    Ok(CacheKey::new(branch, vec![in alloc; keys]?, Some((order, options))))
}

// Whether this is one column of four rows.
fn is_four_rows(columns: &[Column]) -> bool
    ensures { result ≡ true → all_have_height 4 columns.now ≡ true }
{
    match columns {
        [column] => column.len() == 4,
        _ => false,
    }
}

// Whether a key has one column, and each of its columns four rows.
fn has_four_rows(key: &CacheKey) -> bool
    ensures { result ≡ true → all_have_height 4 (with_order key.now.order key.now.keys) ≡ true }
{
    match key.order() {
        None => is_four_rows(key.keys()),
        Some((column, _)) => column.len() == 4 && is_four_rows(key.keys()),
    }
}

// Keeps the groups of a key, and then those of an equal key: rows are grouped once.
fn keep_twice<L: Ledger, M: Ledger>(
    alloc: Global,
    key: &CacheKey,
    cache: &mut WindowCache,
    kernels: &mut Steps<L>,
    groupings: &mut Steps<M>,
) -> Px<()>
    ensures there { OnOk result (has_entry key.now cache.new.groups ≡ true) }
    ensures once { OnOk result (has_entry key.now cache.old.groups ≡ false → groupings.new ≡ groupings.old + 1) }
{
    keep_groups(alloc, 4, key, cache, kernels, groupings)?;
    let same = key.try_clone(alloc)?;
    keep_groups(alloc, 4, &same, cache, kernels, groupings)?;
    Ok(())
}

fn keep_all<L: Ledger, M: Ledger>(
    alloc: Global,
    keys: &[CacheKey],
    kernels: Blank,
    groupings: Blank,
) -> Px<WindowCache>
    requires kernel_name { kernels.name ≡ L.name }
    requires kernel_parts { kernels.parts ≡ L.parts }
    requires some_kernel { 0 < kernels.parts }
    requires grouping_name { groupings.name ≡ M.name }
    requires grouping_parts { groupings.parts ≡ M.parts }
    requires some_grouping { 0 < groupings.parts }
{
    let mut kernels = Steps::<L>::new(kernels);
    let mut groupings = Steps::<M>::new(groupings);
    let mut cache = WindowCache::new(alloc)?;
    for key in keys {
        if !has_four_rows(key) {
            return Err(PxError::ShapeMismatch);
        }
        keep_twice(alloc, key, &mut cache, &mut kernels, &mut groupings)?;
        keep_map(alloc, 4, key, &mut cache)?;
        keep_map(alloc, 4, key, &mut cache)?;
        if cache.groups_of(4, key).height() as usize != cache.map_of(key).len() {
            return Err(PxError::ShapeMismatch);
        }
    }
    Ok(cache)
}

// A cache with the groups and the places of some keys.
fn kept(alloc: Global, keys: &[CacheKey]) -> Px<WindowCache> {
    keep_all::<Brand, Brand>(alloc, keys, Blank::new(1), Blank::new(1))
}

// A cache that what another keeps under a key is put into.
fn put(alloc: Global, key: &CacheKey) -> Px<WindowCache> {
    let from = kept(alloc, &[key.try_clone(alloc)?])?;
    let mut cache = WindowCache::new(alloc)?;
    if let Some(groups) = from.get_groups(key) {
        cache.insert_groups(key.try_clone(alloc)?, groups.try_clone(alloc)?)?;
    }
    if let Some(places) = from.get_map(key) {
        cache.insert_map(key.try_clone(alloc)?, Vec::from_slice(alloc, places)?)?;
    }
    Ok(cache)
}

// Whether groups are the rows 0, 2 and 3, in an order, and the row 1.
fn are_groups(groups: &GroupPositions, falling: bool) -> bool {
    let is_first = if falling {
        has_group(groups, 0, 3, &[3, 2, 0])
    } else {
        has_group(groups, 0, 0, &[0, 2, 3])
    };
    groups.len() == 2 && is_first && has_group(groups, 1, 1, &[1])
}

// Whether these are the places of the rows in such groups.
fn are_places(places: &[u32], falling: bool) -> bool {
    if falling {
        places == [2, 3, 1, 0].as_slice()
    } else {
        places == [0, 3, 1, 2].as_slice()
    }
}

// Whether a cache has such groups under a key, and the places of the rows in them.
fn has_entries(cache: &WindowCache, key: &CacheKey, falling: bool) -> bool {
    match (cache.get_groups(key), cache.get_map(key)) {
        (Some(groups), Some(places)) => are_groups(groups, falling) && are_places(places, falling),
        _ => false,
    }
}

// Whether a cache has no entry of a key.
fn has_none(cache: &WindowCache, key: &CacheKey) -> bool {
    cache.get_groups(key).is_none() && cache.get_map(key).is_none()
}

// Whether a cache has the entries of each of two keys, and none of two others.
fn has_own(
    cache: &WindowCache,
    keys: &[CacheKey; 2],
    others: &[CacheKey; 2],
    falling: bool,
) -> bool {
    cache.len() == 2
        && has_entries(cache, &keys[0], false)
        && has_entries(cache, &keys[1], falling)
        && has_none(cache, &others[0])
        && has_none(cache, &others[1])
}

#[test]
fn keys_that_differ_in_a_part_have_entries_of_their_own(rt: HostRuntime) -> Result<(), Fail> {
    let alloc = rt.alloc();
    let keys = [key_of(alloc, 0, "k", false)?, key_of(alloc, 0, "k", true)?];
    let others = [key_of(alloc, 1, "k", false)?, key_of(alloc, 0, "l", false)?];
    assert!(rt; has_own(&kept(alloc, &keys)?, &keys, &others, true));
    assert!(rt; has_own(&kept(alloc, &others)?, &others, &keys, false));
    Ok(())
}

// Whether what is put in under a key is lent as such, as long as it is not let go.
fn is_put(alloc: Global, key: &CacheKey) -> Px<bool> {
    let mut cache = put(alloc, key)?;
    let is_there = has_entries(&cache, key, true) && cache.len() == 1;
    cache.clear();
    Ok(is_there && has_none(&cache, key) && cache.is_empty())
}

// A state with the entries of a key.
fn state_of(alloc: Global, key: &CacheKey) -> Px<ExecutionState> {
    let mut state = ExecutionState::new(alloc, false)?;
    state.window_cache = put(alloc, key)?;
    Ok(state)
}

// Whether a copy keeps what a state lets go, and a state for a branch has nothing of it.
fn is_copied(alloc: Global, key: &CacheKey) -> Px<bool> {
    let mut state = state_of(alloc, key)?;
    let copy = state.clone(alloc)?;
    let split = state.split(alloc)?;
    state.clear_window_expr_cache();
    Ok(
        has_none(&state.window_cache, key)
            && has_none(&split.window_cache, key)
            && has_entries(&copy.window_cache, key, true),
    )
}

#[test]
fn entries_are_put_in_and_copied_and_let_go(rt: HostRuntime) -> Result<(), Fail> {
    let alloc = rt.alloc();
    let key = key_of(alloc, 0, "k", true)?;
    assert!(rt; is_put(alloc, &key)?);
    assert!(rt; is_copied(alloc, &key)?);
    Ok(())
}

// Whether groups are the slice of two rows from the row 1 on.
fn is_slice(groups: &GroupPositions) -> bool {
    if groups.len() != 1 {
        return false;
    }
    let GroupsIndicator::Slice(range) = groups.group(0) else {
        return false;
    };
    range[0] == 1 && range[1] == 2
}

#[test]
fn groups_are_copied_as_they_are(rt: HostRuntime) -> Result<(), Fail> {
    let alloc = rt.alloc();
    let slices = slices(vec![in alloc; [1, 2]]?, 4)?;
    assert!(rt; is_slice(&slices.try_clone(alloc)?));
    let key = key_of(alloc, 0, "k", true)?;
    let cache = put(alloc, &key)?;
    if let Some(groups) = cache.get_groups(&key) {
        assert!(rt; are_groups(&groups.try_clone(alloc)?, true));
    }
    Ok(())
}
