//! Frames that are cut into chunks.
ghost use Rattle.px_column.specs.Prelude.{AnswersBy};
ghost use Rattle.px_partition.specs.Cutting.{cut};

use px_column::{ComputeWhy, Px, PxError};
use px_frame::DataFrame;
use std::alloc::Global;

/// The chunks of a frame, one after another, each as long as its length says, which may be 0; their columns
/// share the frame's values. `ChunkLengths` exactly where the lengths do not sum to the height.
pub fn cut_frame(alloc: Global, df: &DataFrame, lengths: &[u32]) -> Px<Vec<DataFrame>>
    ensures { AnswersBy (λ v. v.items) result (cut df.now lengths.now) }
{
    let mut chunks = Vec::with_capacity(alloc, lengths.len())?;
    let height = df.height();
    let mut first = 0u32;
    for length in lengths {
        if *length > height - first {
            return Err(PxError::ComputeError(ComputeWhy::ChunkLengths));
        }
        chunks.push(df.slice(alloc, first, *length)?)?;
        first += *length;
    }
    if first == height {
        Ok(chunks)
    } else {
        Err(PxError::ComputeError(ComputeWhy::ChunkLengths))
    }
}
