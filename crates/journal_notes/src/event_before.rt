//! What the notes of an event need of the office before it.
ghost use Rattle.std.specs.Prelude.{◌≡◌};
ghost use Rattle.journal_notes.specs.EventBefore.{IsBefore};

use crate::known_wagon::KnownWagon;
use crate::note::Note;
use crate::office_notes::{waiting_names, withdrawal_notes};
use crate::order_notes::order_notes;
use line_network::Network;
use move_messages::Event;
use operating_db::OfficeState;
use rail_codes::OrderId;
use std::alloc::{AllocError, Global};

/// What the notes of an event need of the office before it. Memory that was refused for it shows in `notes_of`.
#[derive(Drop)]
pub struct EventBefore {
    /// Of a message: what the office knows of its wagon.
    pub(crate) known: Option<KnownWagon>,
    /// Of an order and of a withdrawal: their notes.
    pub(crate) said: Result<Vec<Note>, AllocError>,
    /// Of a commit: the names of the orders that wait.
    pub(crate) waiting: Result<Vec<OrderId>, AllocError>,
}

impl EventBefore {
    /// What the notes of an event need of this office, where these are the networks.
    pub fn of(
        alloc: Global,
        networks: &[Network],
        state: &OfficeState,
        event: &Event,
    ) -> EventBefore
        ensures { IsBefore networks.now state.now.office event.now result }
    {
        match event {
            Event::Message(message) => {
                EventBefore::of_message(alloc, KnownWagon::of(state, message.wagon))
            }
            Event::Place(order) => {
                EventBefore::of_notes(
                    alloc,
                    order_notes(alloc, networks, state.wagon_rows(), order),
                )
            }
            Event::Withdraw(order) => {
                EventBefore::of_notes(alloc, withdrawal_notes(alloc, state, *order))
            }
            Event::Commit(commit) => {
                EventBefore::of_names(alloc, waiting_names(alloc, state, commit.at))
            }
            Event::Revise(_) => EventBefore::of_message(alloc, None),
        }
    }

    /// Of a message.
    fn of_message(alloc: Global, known: Option<KnownWagon>) -> EventBefore
        ensures { result.known ≡ known }
    {
        EventBefore {
            known,
            said: Ok(Vec::new(alloc)),
            waiting: Ok(Vec::new(alloc)),
        }
    }

    /// Of an event whose notes are known before it.
    fn of_notes(alloc: Global, said: Result<Vec<Note>, AllocError>) -> EventBefore
        ensures { result.said ≡ said }
    {
        EventBefore {
            known: None,
            said,
            waiting: Ok(Vec::new(alloc)),
        }
    }

    /// Of a commit.
    fn of_names(alloc: Global, waiting: Result<Vec<OrderId>, AllocError>) -> EventBefore
        ensures { result.waiting ≡ waiting }
    {
        EventBefore {
            known: None,
            said: Ok(Vec::new(alloc)),
            waiting,
        }
    }
}
