//! Frames that are cached under keys.
ghost use Rattle.std.specs.Prelude.{◌≡◌, Ok, OnOk};
ghost use Rattle.px_column.specs.Prelude.{Answers, AnswersBy};
ghost use Rattle.px_window.specs.State.{with_cached};

use indexmap::IndexMap;
use px_column::Px;
use px_frame::DataFrame;
use std::alloc::Global;

/// A frame that is cached for those that ask for it again (polars `CachedValue`).
pub struct CachedValue {
    /// How often it is still to be asked for.
    pub hits: i64,
    /// The frame, `None` until it is there.
    pub frame: Option<DataFrame>,
}

/// One call where a value is let go, so that proofs see no more of what is inside.
impl Drop for CachedValue {
    fn drop(self) {
        let CachedValue {
            hits: _,
            frame: _frame,
        } = self;
    }
}

impl CachedValue {
    /// An equal value, with a copy of the frame.
    pub(crate) fn try_clone(&self, alloc: Global) -> Px<CachedValue>
        ensures { Answers result (Ok self.now) }
    {
        let frame = match &self.frame {
            None => None,
            Some(frame) => Some(frame.try_clone(alloc)?),
        };
        Ok(CachedValue {
            hits: self.hits,
            frame,
        })
    }
}

fn put_copy(
    alloc: Global,
    copies: &mut IndexMap<u64, CachedValue>,
    key: u64,
    value: &CachedValue,
) -> Px<()>
    ensures answer { Answers result (Ok tt) }
    ensures put { OnOk result (copies.new.entries ≡ with_cached key value.now copies.old.entries) }
{
    copies.insert(key, value.try_clone(alloc)?)?;
    Ok(())
}

/// An equal cache, with copies of the frames.
pub(crate) fn copy_cache(
    alloc: Global,
    cache: &IndexMap<u64, CachedValue>,
) -> Px<IndexMap<u64, CachedValue>>
    ensures { AnswersBy (λ m. m.entries) result (Ok cache.now.entries) }
{
    let mut copies = IndexMap::new(alloc);
    for (key, value) in cache.iter() {
        put_copy(alloc, &mut copies, *key, value)?;
    }
    Ok(copies)
}
