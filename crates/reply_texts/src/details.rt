//! The details of a refusal, behind its number.
ghost use Rattle.std.specs.Prelude.{◌≡◌, ◌++◌, ℕ, List, OnOk};
ghost use Rattle.reply_texts.specs.Details.{book_details, check_details, line_details};

use crate::words::{push_number, push_numbers, push_pair, push_word};
use faults::{NamedFault, Refusal};
use line_engine::ReplyText;
use line_fields::LineFault;
use std::alloc::AllocError;

/// A fault or a refusal that has details in its reply.
pub trait Detailed {
    // the details, each behind a space
    ghost details: { Self → List ℕ };

    /// Adds the details. `Err` only when out of memory; part of them may be there then.
    fn push_details(&self, reply: &mut ReplyText) -> Result<(), AllocError>
        ensures { OnOk result (reply.new ≡ reply.old ++ details self.now) };
}

impl Detailed for LineFault {
    ghost details = { line_details };

    fn push_details(&self, reply: &mut ReplyText) -> Result<(), AllocError> {
        match self {
            LineFault::MissingField(field) => push_word(reply, field.name().as_bytes()),
            LineFault::BadField(field, fault) => {
                push_word(reply, field.name().as_bytes())?;
                push_number(reply, u128::from(fault.number()))
            }
            LineFault::OutOfMemory
            | LineFault::NotJson
            | LineFault::NotAnObject
            | LineFault::UnknownType => Ok(()),
        }
    }
}

impl Detailed for NamedFault {
    ghost details = { check_details };

    fn push_details(&self, reply: &mut ReplyText) -> Result<(), AllocError> {
        match self {
            NamedFault::NotAllowed(wagon, order)
            | NamedFault::UsedTwice(wagon, order)
            | NamedFault::PriceGap(wagon, order)
            | NamedFault::NotInProblem(wagon, order) => push_pair(reply, wagon, order),
            NamedFault::OverPenalty(order) => push_word(reply, order.as_bytes()),
            NamedFault::SumsDiffer(left, right) => push_numbers(reply, *left, *right),
            NamedFault::OutOfMemory | NamedFault::WrongLengths => Ok(()),
        }
    }
}

impl Detailed for Refusal {
    ghost details = { book_details };

    fn push_details(&self, reply: &mut ReplyText) -> Result<(), AllocError> {
        match self {
            Refusal::Check(fault) => fault.push_details(reply),
            Refusal::WagonChanged(wagon) => push_word(reply, wagon.digits()),
            Refusal::OrderChanged(order) => push_word(reply, order.as_bytes()),
            Refusal::OutOfMemory
            | Refusal::Step(_)
            | Refusal::IdReused
            | Refusal::BookFull
            | Refusal::UnknownWagon
            | Refusal::OrderKnown
            | Refusal::TooManyOpen
            | Refusal::UnknownOrder
            | Refusal::OrderClosed
            | Refusal::UnknownNetwork
            | Refusal::SameNetwork
            | Refusal::NotKept => Ok(()),
        }
    }
}
