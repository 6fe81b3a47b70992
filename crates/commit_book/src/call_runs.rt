//! Runs of calls, which are values.
ghost use Rattle.std.specs.Prelude.{◌≡◌, IfOk, OnErr};
ghost use Rattle.commit_book.specs.BookStep.{IsCall, IsRun};
ghost use Rattle.commit_book.specs.Books.{answer_of};
ghost use Rattle.commit_book.specs.inner.Entered.{answer_or};
ghost use Rattle.commit_book.specs.declared.call.Call.TheVariants as call;

use crate::{Answer, Book, Call, Refusal, Reply};
use move_messages::Event;
use rail_codes::Moment;
use std::alloc::{AllocError, Global};

impl Book {
    /// Makes these calls one after the other, and gives their answers. Where the memory for the answers is refused, no
    /// call is made; where that for the copy of an event is, the event is answered as `answer_without_memory` says.
    pub fn run(&mut self, alloc: Global, calls: &[Call]) -> Result<Vec<Answer>, AllocError>
        ensures run { IfOk result (λ answers. IsRun self.old.setting self.old.state calls.now answers.items self.new.state) }
        ensures setting { self.new.setting ≡ self.old.setting }
        ensures unchanged { OnErr result (self.new ≡ self.old) }
    {
        let mut answers = Vec::with_capacity(alloc, calls.len())?;
        for call in calls {
            let answer = match self.answer(alloc, call) {
                Ok(answer) => answer,
                Err(refusal) => Answer::Refused(refusal),
            };
            answers.push_reserved(answer);
        }
        Ok(answers)
    }

    /// Makes a call: its answer, or why it is refused.
    fn answer(&mut self, alloc: Global, call: &Call) -> Result<Answer, Refusal>
        ensures call { IsCall self.old.setting self.old.state call.now (answer_or result) self.new.state }
        ensures setting { self.new.setting ≡ self.old.setting }
    {
        match call {
            Call::Event(event) => {
                let reply = self.submit_copy(alloc, event)?;
                Ok(Answer::Done(reply))
            }
            Call::Begin(at) => self.begin_answer(alloc, *at),
        }
    }

    /// Submits a copy of an event.
    fn submit_copy(&mut self, alloc: Global, event: &Event) -> Result<Reply, Refusal>
        ensures call { IsCall self.old.setting self.old.state (call.Event event.now) (answer_of result) self.new.state }
        ensures setting { self.new.setting ≡ self.old.setting }
    {
        match event.copy(alloc) {
            Ok(copy) => self.submit(alloc, copy),
            Err(_) => self.answer_without_memory(event),
        }
    }

    /// Begins, and answers the version.
    fn begin_answer(&mut self, alloc: Global, at: Moment) -> Result<Answer, Refusal>
        ensures call { IsCall self.old.setting self.old.state (call.Begin at) (answer_or result) self.new.state }
        ensures setting { self.new.setting ≡ self.old.setting }
    {
        let snap = self.begin(alloc, at)?;
        Ok(Answer::Begun(snap.version()))
    }
}
