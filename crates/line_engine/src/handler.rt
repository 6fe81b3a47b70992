//! What answers the lines of a run.
ghost use Rattle.std.specs.Prelude.{ℕ, ◌≤◌, Bool, List, length};
ghost use Rattle.line_engine.specs.Outcome.{is_refusal};
ghost use Rattle.line_engine.specs.Replies.{IsAnswered, max_head_bytes, Numbered};

use crate::reply_text::ReplyText;
use std::alloc::{AllocError, Global};

/// Whether a reply is a refusal.
#[derive(Clone, Copy)]
pub enum Outcome {
    Answered,
    Refused,
}

impl Outcome {
    ghost use Rattle.std.specs.Prelude.{◌≡◌};
    ghost use Rattle.line_engine.specs.Outcome.{is_refusal};

    pub fn is_refusal(self) -> bool
        ensures { result ≡ is_refusal self }
    {
        self == Outcome::Refused
    }
}

/// What answers lines, one after the other.
pub trait Handler {
    /// What a line may change, and the lines after it see.
    type State;

    /// From a state, a line may get this reply behind its number, be refused or not, and leave that state.
    ghost answers: { Self.State → List ℕ → List ℕ → Bool → Self.State → Type 0 };

    /// What a state may become at a line whose reply is refused for memory.
    ghost runs_out: { Self.State → List ℕ → Self.State → Type 0 };

    /// Adds the reply to a line, with its line feed, behind the line's number. Where memory is refused, what was added
    /// is dropped and the reply is `refused 1`. Where `more` is true, another line that isn't blank has been read, so what
    /// need not be done at once can wait for it; no contract says so.
    fn answer(
        &self,
        alloc: Global,
        state: &mut Self::State,
        line: &[u8],
        more: bool,
        reply: &mut ReplyText,
    ) -> Result<Outcome, AllocError>
        requires short { length reply.old ≤ max_head_bytes }
        ensures { IsAnswered answers runs_out line.now (reply.old, state.old) (reply.new, state.new) result };
}

/// What replies to lines, one after the other, each reply a whole text.
pub trait Responder {
    /// What a line may change, and the lines after it see.
    type State;

    /// Line number n may take the state from old to new, get this text, and be refused or not.
    ghost replies: { ℕ → Self.State → List ℕ → List ℕ → Bool → Self.State → Type 0 };

    /// Puts the reply to a line that isn't blank, with its line feed, in place of what stood in `reply`. `more` is as a
    /// handler's.
    fn respond(
        &self,
        alloc: Global,
        state: &mut Self::State,
        number: u64,
        line: &[u8],
        more: bool,
        reply: &mut ReplyText,
    ) -> Outcome
        ensures { replies number state.old line.now reply.new (is_refusal result) state.new };
}

/// A handler's replies, each behind its line's number.
#[derive(Drop)]
pub(crate) struct NumberedReplies<'h, H> {
    pub handler: &'h H,
}

impl<H: Handler> Responder for NumberedReplies<'_, H> {
    type State = H::State;

    ghost replies = { Numbered H.answers H.runs_out };

    fn respond(
        &self,
        alloc: Global,
        state: &mut H::State,
        number: u64,
        line: &[u8],
        more: bool,
        reply: &mut ReplyText,
    ) -> Outcome {
        reply.begin(number);
        match self.handler.answer(alloc, state, line, more, reply) {
            Ok(outcome) => outcome,
            Err(_) => {
                reply.refuse_for_memory(number);
                Outcome::Refused
            }
        }
    }
}
