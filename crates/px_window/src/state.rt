//! The state of an evaluation.
ghost use Rattle.std.specs.Prelude.{◌≡◌, ◌<◌, Ok, Some, None, IfOk, IfErr, OnOk, OnErr, true, length, option_map, slice_get};
ghost use Rattle.std.specs.Borrow.{sem};
ghost use Rattle.px_column.specs.Prelude.{Answers, AnswersBy};
ghost use Rattle.px_value.specs.declared.error.PxError.TheVariants.{OutOfMemory};
ghost use Rattle.px_window.specs.Flags.{is_set, with_flag, without_flag, verbose_bit, cache_window_bit, has_window_bit};
ghost use Rattle.px_window.specs.Cache.{no_entries};
ghost use Rattle.px_window.specs.State.{new_state, without_cache, unless_stopped, is_cached, cached_or_new, with_cached, without_cached, place_of};

use crate::cached_value::{CachedValue, copy_cache};
use crate::flags::StateFlags;
use crate::window_cache::WindowCache;
use bitflags::Flags;
use indexmap::IndexMap;
use px_column::{ComputeWhy, Px, PxError};
use px_frame::{DataFrame, SchemaRef};
use std::alloc::Global;
use std::marker::Model;

/// What an evaluation keeps beside the frame (polars `ExecutionState`), seen as the schema, the branch,
/// the flags, the list of frames from outside, the mark to stop, the list of keys with what is cached under
/// them, in the order in which they came, and what is kept of windows.
pub struct ExecutionState {
    /// The schema of the frame that is evaluated next, where it is known.
    pub schema_cache: Option<SchemaRef>,
    /// The number of the branch of a plan.
    pub branch_idx: u64,
    /// Truths about the evaluation.
    pub flags: StateFlags,
    /// The frames from outside.
    pub ext_contexts: Vec<DataFrame>,
    /// The groups that windows keep for each other.
    pub window_cache: WindowCache,
    is_stopped: bool,
    df_cache: IndexMap<u64, CachedValue>,
}

/// One call where a state is let go, so that proofs see no more of what is inside.
impl Drop for ExecutionState {
    fn drop(self) {
        let ExecutionState {
            schema_cache: _schema_cache,
            branch_idx: _,
            flags: _,
            ext_contexts: _ext_contexts,
            window_cache: _window_cache,
            is_stopped: _,
            df_cache: _df_cache,
        } = self;
    }
}

impl Model for ExecutionState {
    ghost use Rattle.std.specs.Prelude.{option_map};
    ghost use Rattle.px_window.specs.State.{State, coded_state};

    ghost Value = { State };

    ghost coded = { coded_state };

    ghost view = { λ s. record {
      schema_cache = option_map (λ schema. schema.value) s.schema_cache;
      branch_idx = s.branch_idx;
      flags = s.flags;
      ext_contexts = s.ext_contexts.items;
      is_stopped = s.is_stopped;
      df_cache = s.df_cache.entries;
      window_cache = s.window_cache;
    } };
}

fn copy_frames(alloc: Global, frames: &[DataFrame]) -> Px<Vec<DataFrame>>
    ensures { AnswersBy (λ v. v.items) result (Ok frames.now) }
{
    let mut copies = Vec::with_capacity(alloc, frames.len())?;
    for frame in frames {
        copies.push(frame.try_clone(alloc)?)?;
    }
    Ok(copies)
}

fn share_schema(schema: &Option<SchemaRef>) -> Px<Option<SchemaRef>>
    ensures { AnswersBy (option_map (λ s. s.value)) result (Ok (option_map (λ s. s.value) schema.now)) }
{
    match schema {
        None => Ok(None),
        Some(schema) => Ok(Some(schema.clone()?)),
    }
}

impl ExecutionState {
    ghost use Rattle.px_window.specs.StateLends.{LendsCached, LendsPlace};

    /// The state of a new evaluation: windows keep the groups of their keys, and nothing else is kept
    /// or set, but `VERBOSE` where `verbose` is.
    pub fn new(alloc: Global, verbose: bool) -> Px<ExecutionState>
        ensures { Answers result (Ok (new_state verbose)) }
    {
        let mut flags = StateFlags::default();
        if verbose {
            flags.insert(StateFlags::VERBOSE);
        }
        Ok(ExecutionState {
            schema_cache: None,
            branch_idx: 0,
            flags,
            ext_contexts: Vec::new(alloc),
            window_cache: WindowCache::new(alloc)?,
            is_stopped: false,
            df_cache: IndexMap::new(alloc),
        })
    }

    /// An equal state, but with no schema and nothing of windows kept; it owns copies of the frames, both
    /// those from outside and those in the cache (polars `ExecutionState::split`).
    pub fn split(&self, alloc: Global) -> Px<ExecutionState>
        ensures { Answers result (Ok (record self.now { schema_cache = None; window_cache = no_entries })) }
    {
        Ok(ExecutionState {
            schema_cache: None,
            branch_idx: self.branch_idx,
            flags: self.flags,
            ext_contexts: copy_frames(alloc, &self.ext_contexts)?,
            window_cache: WindowCache::new(alloc)?,
            is_stopped: self.is_stopped,
            df_cache: copy_cache(alloc, &self.df_cache)?,
        })
    }

    /// An equal state, which shares the schema, and owns copies of the frames and of what is kept of windows
    /// (polars `ExecutionState::clone`).
    pub fn clone(&self, alloc: Global) -> Px<ExecutionState>
        ensures { Answers result (Ok self.now) }
    {
        let schema_cache = share_schema(&self.schema_cache)?;
        let window_cache = self.window_cache.try_clone(alloc)?;
        let mut copy = self.split(alloc)?;
        copy.schema_cache = schema_cache;
        copy.window_cache = window_cache;
        Ok(copy)
    }

    /// The schema that is kept.
    pub fn get_schema(&self) -> Option<&SchemaRef>
        ensures { option_map (λ s. s.now.value) result ≡ self.now.schema_cache }
    {
        self.schema_cache.as_ref()
    }

    /// Keeps a schema, in the place of one that was kept.
    pub fn set_schema(&mut self, schema: SchemaRef)
        ensures { self.new ≡ record self.old { schema_cache = Some schema.value } }
    {
        self.schema_cache = Some(schema);
    }

    /// Keeps no schema.
    pub fn clear_schema_cache(&mut self)
        ensures { self.new ≡ record self.old { schema_cache = None } }
    {
        self.schema_cache = None;
    }

    /// Keeps nothing of windows from now on (polars `ExecutionState::clear_window_expr_cache`).
    pub fn clear_window_expr_cache(&mut self)
        ensures { self.new ≡ without_cache self.old }
    {
        self.window_cache.clear();
    }

    /// Whether windows keep the groups of their keys for each other.
    pub fn cache_window(&self) -> bool
        ensures { result ≡ is_set self.now.flags.0 cache_window_bit }
    {
        self.flags.contains(StateFlags::CACHE_WINDOW_EXPR)
    }

    /// Whether a window stands among the expressions.
    pub fn has_window(&self) -> bool
        ensures { result ≡ is_set self.now.flags.0 has_window_bit }
    {
        self.flags.contains(StateFlags::HAS_WINDOW)
    }

    /// Whether more is told while it runs.
    pub fn verbose(&self) -> bool
        ensures { result ≡ is_set self.now.flags.0 verbose_bit }
    {
        self.flags.contains(StateFlags::VERBOSE)
    }

    /// Windows keep no groups from now on.
    pub fn remove_cache_window_flag(&mut self)
        ensures { self.new ≡ record self.old { flags = record self.old.flags { 0 = without_flag self.old.flags.0 cache_window_bit } } }
    {
        self.flags.remove(StateFlags::CACHE_WINDOW_EXPR);
    }

    /// Windows keep their groups from now on.
    pub fn insert_cache_window_flag(&mut self)
        ensures { self.new ≡ record self.old { flags = record self.old.flags { 0 = with_flag self.old.flags.0 cache_window_bit } } }
    {
        self.flags.insert(StateFlags::CACHE_WINDOW_EXPR);
    }

    /// A window stands among the expressions from now on.
    pub fn insert_has_window_function_flag(&mut self)
        ensures { self.new ≡ record self.old { flags = record self.old.flags { 0 = with_flag self.old.flags.0 has_window_bit } } }
    {
        self.flags.insert(StateFlags::HAS_WINDOW);
    }

    fn cached_place(&mut self, key: u64, cache_hits: u32) -> Px<usize>
        ensures place { IfOk result (λ place. place ≡ place_of key self.old.df_cache) }
        ensures kept { OnOk result (self.new ≡ record self.old { df_cache = with_cached key (cached_or_new key cache_hits self.old.df_cache) self.old.df_cache }) }
        ensures unchanged { OnErr result (self.new ≡ self.old) }
        ensures memory { IfErr result (λ e. e ≡ OutOfMemory) }
    {
        if let Some(place) = self.df_cache.get_index_of(&key) {
            return Ok(place);
        }
        let place = self.df_cache.len();
        self.df_cache.insert(
            key,
            CachedValue {
                hits: cache_hits as i64,
                frame: None,
            },
        )?;
        Ok(place)
    }

    fn cached_mut(&mut self, place: usize) -> &mut CachedValue
        requires { place < length self.old.df_cache }
        ensures* after { sem 𝓛 (LendsPlace self.entry place result) }
        ensures value { option_map (λ e. e.1) (slice_get self.old.df_cache place) ≡ Some result.now }
    {
        &mut self.df_cache[place]
    }

    /// What is cached under the key. Where nothing is, a new value is put in, with `cache_hits` and no
    /// frame. What is written through it is kept; after a refusal all is as it was (polars
    /// `ExecutionState::get_df_cache`).
    pub fn get_df_cache(&mut self, key: u64, cache_hits: u32) -> Px<&mut CachedValue>
        ensures value { IfOk result (λ v. v.now ≡ cached_or_new key cache_hits self.old.df_cache) }
        ensures memory { IfErr result (λ e. e ≡ OutOfMemory) }
        ensures* after { sem 𝓛 (LendsCached self.entry key result) }
    {
        let place = self.cached_place(key, cache_hits)?;
        Ok(self.cached_mut(place))
    }

    /// Whether something is cached under the key.
    pub fn has_df_cache(&self, key: u64) -> bool
        ensures { result ≡ is_cached key self.now.df_cache }
    {
        self.df_cache.contains_key(&key)
    }

    /// Removes what is cached under the key, and nothing else (polars
    /// `ExecutionState::remove_df_cache`).
    pub fn remove_df_cache(&mut self, key: u64)
        requires { is_cached key self.old.df_cache ≡ true }
        ensures { self.new ≡ record self.old { df_cache = without_cached key self.old.df_cache } }
    {
        self.df_cache.shift_remove(&key);
    }

    /// `Interrupted` where the evaluation is to stop (polars `ExecutionState::should_stop`).
    pub fn should_stop(&self) -> Px<()>
        ensures { result ≡ unless_stopped self.now.is_stopped }
    {
        if self.is_stopped {
            Err(PxError::ComputeError(ComputeWhy::Interrupted))
        } else {
            Ok(())
        }
    }

    /// Sets whether the evaluation is to stop (the mark that polars `ExecutionState::should_stop` reads).
    pub fn set_stop(&mut self, stop: bool)
        ensures { self.new ≡ record self.old { is_stopped = stop } }
    {
        self.is_stopped = stop;
    }
}
