//! What is written for an input.
ghost use Rattle.std.specs.Prelude.{◌≡◌, ℕ, List, IfOk, OnOk};
ghost use Rattle.px_value.specs.declared.error.PxError.TheVariants.{OutOfMemory};
ghost use Rattle.px_frame.specs.Frame.{height_of};
ghost use Rattle.px_text.specs.Label.{line_of};
ghost use Rattle.px_steps.specs.Replies.{Bounded, Grouped, Replies, Ticked};
ghost use Rattle.px_text.specs.Text.{text_of};
ghost use Rattle.px_steps.specs.declared.reply.Reply.TheVariants.{Frame, Refusal};

use crate::runner::run_steps;
use px_column::{ByteString, PxError, Steps};
use px_document::{DocumentFault, read_document};
use px_frame::DataFrame;
use px_text::{error_line, frame_text};
use px_window::ExecutionState;
use std::alloc::{AllocError, Global};
use std::sync::ledger::Ledger;

/// What is written for an input.
#[derive(Drop)]
pub(crate) enum Reply {
    /// The text of the frame that the steps make.
    Frame(ByteString),
    /// The line of what keeps a step from its frame.
    Refusal(ByteString),
    /// The line of an input that is no document.
    BadDocument,
}

fn frame_reply(alloc: Global, frame: &DataFrame) -> Result<Reply, AllocError>
    ensures { IfOk result (λ r. (t : List ℕ) × (r ≡ Frame t) × (t ≡ text_of frame.now (height_of frame.now))) }
{
    match frame_text(alloc, frame) {
        Ok(text) => Ok(Reply::Frame(text)),
        Err(_) => Err(AllocError),
    }
}

fn refusal_reply(alloc: Global, fault: &PxError) -> Result<Reply, AllocError>
    ensures { IfOk result (λ r. (t : List ℕ) × (r ≡ Refusal t) × (t ≡ line_of fault.now)) }
{
    match error_line(alloc, fault) {
        Ok(line) => Ok(Reply::Refusal(line)),
        Err(_) => Err(AllocError),
    }
}

/// The line of a refusal; want of memory is told without one.
fn fault_reply(alloc: Global, fault: &PxError) -> Result<Reply, AllocError>
    ensures line { IfOk result (λ r. (t : List ℕ) × (r ≡ Refusal t) × (t ≡ line_of fault.now)) }
    ensures cause { OnOk result (fault.now ≡ OutOfMemory → ⊥) }
{
    match fault {
        PxError::OutOfMemory => Err(AllocError),
        _ => refusal_reply(alloc, fault),
    }
}

/// The text of the frame that the document's steps make, the line of what keeps a step from its
/// frame, or that the input is no document.
pub(crate) fn reply_to<L: Ledger, M: Ledger>(
    alloc: Global,
    bytes: &[u8],
    kernels: &mut Steps<L>,
    groupings: &mut Steps<M>,
) -> Result<Reply, AllocError>
    ensures reply { IfOk result (λ r. Replies bytes.now r) }
    ensures grouped { IfOk result (λ r. Grouped bytes.now r groupings.old groupings.new) }
    ensures ticks { IfOk result (λ r. Ticked bytes.now r kernels.old kernels.new) }
    ensures most { IfOk result (λ r. Bounded bytes.now r kernels.old kernels.new) }
{
    let document = match read_document(alloc, bytes) {
        Ok(document) => document,
        Err(DocumentFault::BadDocument) => return Ok(Reply::BadDocument),
        Err(DocumentFault::OutOfMemory) => return Err(AllocError),
    };
    let Ok(mut state) = ExecutionState::new(alloc, false) else {
        return Err(AllocError);
    };
    match run_steps(
        alloc,
        &document.frame,
        &document.steps,
        &mut state,
        kernels,
        groupings,
    ) {
        Ok(frame) => frame_reply(alloc, &frame),
        Err(fault) => fault_reply(alloc, &fault),
    }
}
