//! What is kept of windows: the groups of their keys, and the places of rows in them.
ghost use Rattle.std.specs.Prelude.{◌≡◌, ◌==◌, ◌+◌, ◌≤◌, None, Ok, OnOk, OnErr, IfErr, IfSome, length, false, true, option_map};
ghost use Rattle.std.specs.List.{IsDistinct};
ghost use Rattle.std.specs.Map.{keys_of, lookup};
ghost use Rattle.indexmap.specs.IndexMap.{insert_entry};
ghost use Rattle.px_column.specs.Prelude.{Answers, AnswersBy};
ghost use Rattle.px_frame.specs.Frame.{all_have_height};
ghost use Rattle.px_frame.specs.Parts.{parts_of};
ghost use Rattle.px_value.specs.Answer.{Refuses};
ghost use Rattle.px_value.specs.declared.error.PxError.TheVariants.{OutOfMemory};
ghost use Rattle.px_window.specs.Cache.{Grown, IsExactGroups, IsExactMap, has_entry, no_entries};
ghost use Rattle.px_window.specs.Key.{key_eq, ordered_grouped, with_order};
ghost use Rattle.px_window.specs.Places.{HoldsEachRowOnce};

use crate::key::CacheKey;
use crate::ordering::ordered_groups;
use crate::places::inverse_map;
use indexmap::IndexMap;
use px_column::{Px, Steps};
use px_frame::GroupPositions;
use std::alloc::Global;
use std::marker::Model;
use std::sync::ledger::Ledger;

/// The places of rows; seen as their list.
pub(crate) struct RowMap {
    places: Vec<u32>,
}

/// One call where places are let go, so that proofs see no more of what is inside.
impl Drop for RowMap {
    fn drop(self) {
        let RowMap { places: _places } = self;
    }
}

impl Model for RowMap {
    ghost use Rattle.std.specs.Prelude.{List, ℕ};
    ghost use Rattle.std.specs.Coded.{coded_list, coded_ℕ};

    ghost Value = { List ℕ };

    ghost coded = { coded_list coded_ℕ };

    ghost view = { λ m. m.places.items };
}

impl RowMap {
    fn try_clone(&self, alloc: Global) -> Px<RowMap>
        ensures { Answers result (Ok self.now) }
    {
        Ok(RowMap {
            places: Vec::from_slice(alloc, &self.places)?,
        })
    }

    fn as_slice(&self) -> &[u32]
        ensures { result.now ≡ self.now }
    {
        &self.places
    }
}

/// Groups, and places of rows in them, each under a key (polars `WindowCache`, whose keys are texts);
/// seen as these, in the order in which they came. Each is exactly what its key names.
pub struct WindowCache {
    groups: IndexMap<CacheKey, GroupPositions>,
    maps: IndexMap<CacheKey, RowMap>,
}

/// One call where a cache is let go, so that proofs see no more of what is inside.
impl Drop for WindowCache {
    fn drop(self) {
        let WindowCache {
            groups: _groups,
            maps: _maps,
        } = self;
    }
}

impl Model for WindowCache {
    ghost use Rattle.std.specs.List.{AllByRecursion};
    ghost use Rattle.px_window.specs.Cache.{Entries, coded_entries, IsExactGroups, IsExactMap};

    ghost Value = { Entries };

    ghost coded = { coded_entries };

    ghost view = { λ c. record { groups = c.groups.entries; maps = c.maps.entries } };

    ghost invariant = { λ c. AllByRecursion (λ e. IsExactGroups e.0 e.1) c.groups.entries × AllByRecursion (λ e. IsExactMap e.0 e.1) c.maps.entries };
}

impl WindowCache {
    /// A cache with no entry (polars `WindowCache::default`).
    pub fn new(alloc: Global) -> Px<WindowCache>
        ensures { Answers result (Ok no_entries) }
    {
        Ok(WindowCache {
            groups: IndexMap::new(alloc),
            maps: IndexMap::new(alloc),
        })
    }

    /// An equal cache, which owns copies of the keys, the groups and the places.
    pub fn try_clone(&self, alloc: Global) -> Px<WindowCache>
        ensures { Answers result (Ok self.now) }
    {
        let groups = copy_groups(alloc, &self.groups)?;
        let maps = copy_maps(alloc, &self.maps)?;
        Ok(WindowCache { groups, maps })
    }

    /// The number of keys that have groups, which are distinct.
    pub fn len(&self) -> usize
        ensures len { result ≡ length self.now.groups }
        ensures unique { IsDistinct key_eq (keys_of self.now.groups) }
    {
        self.groups.len()
    }

    /// Whether no key has groups.
    pub fn is_empty(&self) -> bool
        ensures { result ≡ (length self.now.groups == 0) }
    {
        self.len() == 0
    }

    /// The groups under an equal key, lent (polars `WindowCache::get_groups`, which copies them).
    pub fn get_groups(&self, key: &CacheKey) -> Option<&GroupPositions>
        ensures there { option_map (λ g. g.now) result ≡ lookup (key_eq key.now) self.now.groups }
        ensures exact { IfSome result (λ g. IsExactGroups key.now g.now) }
    {
        self.groups.get(key)
    }

    /// The places under an equal key, lent (polars `WindowCache::get_map`).
    pub fn get_map(&self, key: &CacheKey) -> Option<&[u32]>
        ensures there { option_map (λ g. g.now) result ≡ lookup (key_eq key.now) self.now.maps }
        ensures exact { IfSome result (λ m. IsExactMap key.now m.now) }
    {
        match self.maps.get(key) {
            None => None,
            Some(map) => Some(map.as_slice()),
        }
    }

    /// The groups under an equal key, which is there: of the height that its columns have, each row in
    /// one of them.
    #[tactic(auto, using(crate::proofs::Entries::groups_told, crate::proofs::Entries::exact_once))]
    pub fn groups_of(&self, height: u32, key: &CacheKey) -> &GroupPositions
        requires there { has_entry key.now self.now.groups ≡ true }
        requires height { all_have_height height (with_order key.now.order key.now.keys) ≡ true }
        ensures exact { IsExactGroups key.now result.now }
        ensures groups { ordered_grouped height key.now ≡ Ok result.now }
        ensures once { HoldsEachRowOnce result.now }
    {
        match self.get_groups(key) {
            Some(groups) => groups,
            None => unreachable!(),
        }
    }

    /// The places under an equal key, which is there.
    pub fn map_of(&self, key: &CacheKey) -> &[u32]
        requires { has_entry key.now self.now.maps ≡ true }
        ensures { IsExactMap key.now result.now }
    {
        match self.get_map(key) {
            Some(map) => map,
            None => unreachable!(),
        }
    }

    /// Puts its groups under a key, in the place of those that were there; after a refusal all is as it
    /// was (polars `WindowCache::insert_groups`).
    pub fn insert_groups(&mut self, key: CacheKey, groups: GroupPositions) -> Px<()>
        requires exact { IsExactGroups key groups }
        ensures added { OnOk result (self.new ≡ record self.old { groups = insert_entry key_eq self.old.groups key groups }) }
        ensures unchanged { OnErr result (self.new ≡ self.old) }
        ensures unique { IsDistinct key_eq (keys_of self.new.groups) }
        ensures memory { IfErr result (λ e. e ≡ OutOfMemory) }
    {
        self.groups.insert(key, groups)?;
        Ok(())
    }

    /// Puts the places of rows in its groups under a key, in the place of those that were there; after a
    /// refusal all is as it was (polars `WindowCache::insert_map`).
    pub fn insert_map(&mut self, key: CacheKey, map: Vec<u32>) -> Px<()>
        requires exact { IsExactMap key map.items }
        ensures added { OnOk result (self.new ≡ record self.old { maps = insert_entry key_eq self.old.maps key map.items }) }
        ensures unchanged { OnErr result (self.new ≡ self.old) }
        ensures memory { IfErr result (λ e. e ≡ OutOfMemory) }
    {
        self.maps.insert(key, RowMap { places: map })?;
        Ok(())
    }

    /// Lets all entries go, the places too (polars `WindowCache::clear`, which keeps the places).
    pub fn clear(&mut self)
        ensures { self.new ≡ no_entries }
    {
        self.groups.clear();
        self.maps.clear();
    }
}

/// Keeps the groups of so many rows under their key. Where an equal key has groups, nothing is done; else
/// rows are grouped once, and a refusal is that of `ordered_groups` or of memory, after which the cache is
/// as it was (what polars `WindowExpr::evaluate` does with `get_groups` and `insert_groups`).
pub fn keep_groups<L: Ledger, M: Ledger>(
    alloc: Global,
    height: u32,
    key: &CacheKey,
    cache: &mut WindowCache,
    kernels: &mut Steps<L>,
    groupings: &mut Steps<M>,
) -> Px<()>
    ensures kept { OnOk result (has_entry key.now cache.new.groups ≡ true) }
    ensures groups { Grown (λ k. k ≡ key.now) cache.old.groups cache.new.groups }
    ensures maps { cache.new.maps ≡ cache.old.maps }
    ensures counted { OnOk result (groupings.new + length cache.old.groups ≡ groupings.old + length cache.new.groups) }
    ensures most { groupings.new + length cache.old.groups ≤ groupings.old + length cache.new.groups + 1 }
    ensures rises { groupings.old ≤ groupings.new }
    ensures hit { has_entry key.now cache.old.groups ≡ true → groupings.new ≡ groupings.old }
    ensures hit_runs_nothing { has_entry key.now cache.old.groups ≡ true → kernels.new ≡ kernels.old }
    ensures missed { OnOk result (has_entry key.now cache.old.groups ≡ false → groupings.new ≡ groupings.old + 1) }
    ensures once { groupings.new ≤ groupings.old + 1 }
    ensures unique { IsDistinct key_eq (keys_of cache.old.groups) × IsDistinct key_eq (keys_of cache.new.groups) }
    ensures kernels_most { kernels.new ≤ kernels.old + length (parts_of key.now.keys height) }
    ensures kernels_rise { kernels.old ≤ kernels.new }
    ensures unordered { key.now.order ≡ None → kernels.new ≡ kernels.old }
    ensures refused { IfErr result (λ e. Refuses e (ordered_grouped height key.now)) }
    ensures unchanged { OnErr result (cache.new ≡ cache.old) }
{
    // No two keys of the cache are equal.
    let _ = cache.len();
    if cache.get_groups(key).is_some() {
        return Ok(());
    }
    let groups = ordered_groups(alloc, height, key, kernels, groupings)?;
    cache.insert_groups(key.try_clone(alloc)?, groups)?;
    Ok(())
}

/// Keeps the places of the rows in the groups of a key, which are kept. Where an equal key has places,
/// nothing is done (what polars `WindowExpr::evaluate` does with `get_map` and `insert_map`).
pub fn keep_map(alloc: Global, height: u32, key: &CacheKey, cache: &mut WindowCache) -> Px<()>
    requires there { has_entry key.now cache.old.groups ≡ true }
    requires height { all_have_height height (with_order key.now.order key.now.keys) ≡ true }
    ensures kept { OnOk result (has_entry key.now cache.new.maps ≡ true) }
    ensures maps { Grown (λ k. k ≡ key.now) cache.old.maps cache.new.maps }
    ensures groups { cache.new.groups ≡ cache.old.groups }
    ensures memory { IfErr result (λ e. e ≡ OutOfMemory) }
    ensures unchanged { OnErr result (cache.new ≡ cache.old) }
{
    if cache.get_map(key).is_some() {
        return Ok(());
    }
    let map = inverse_map(alloc, cache.groups_of(height, key))?;
    cache.insert_map(key.try_clone(alloc)?, map)?;
    Ok(())
}

fn put_groups(
    alloc: Global,
    copies: &mut IndexMap<CacheKey, GroupPositions>,
    key: &CacheKey,
    groups: &GroupPositions,
) -> Px<()>
    ensures answer { Answers result (Ok tt) }
    ensures put { OnOk result (copies.new.entries ≡ insert_entry key_eq copies.old.entries key.now groups.now) }
{
    copies.insert(key.try_clone(alloc)?, groups.try_clone(alloc)?)?;
    Ok(())
}

/// Equal groups under equal keys.
fn copy_groups(
    alloc: Global,
    groups: &IndexMap<CacheKey, GroupPositions>,
) -> Px<IndexMap<CacheKey, GroupPositions>>
    ensures { AnswersBy (λ m. m.entries) result (Ok groups.now.entries) }
{
    let mut copies = IndexMap::new(alloc);
    for (key, value) in groups.iter() {
        put_groups(alloc, &mut copies, key, value)?;
    }
    Ok(copies)
}

fn put_map(
    alloc: Global,
    copies: &mut IndexMap<CacheKey, RowMap>,
    key: &CacheKey,
    map: &RowMap,
) -> Px<()>
    ensures answer { Answers result (Ok tt) }
    ensures put { OnOk result (copies.new.entries ≡ insert_entry key_eq copies.old.entries key.now map.now) }
{
    copies.insert(key.try_clone(alloc)?, map.try_clone(alloc)?)?;
    Ok(())
}

/// Equal places under equal keys.
fn copy_maps(alloc: Global, maps: &IndexMap<CacheKey, RowMap>) -> Px<IndexMap<CacheKey, RowMap>>
    ensures { AnswersBy (λ m. m.entries) result (Ok maps.now.entries) }
{
    let mut copies = IndexMap::new(alloc);
    for (key, map) in maps.iter() {
        put_map(alloc, &mut copies, key, map)?;
    }
    Ok(copies)
}
