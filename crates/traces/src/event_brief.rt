//! What a step keeps of its event.
ghost use Rattle.std.specs.Prelude.{◌≡◌};
ghost use Rattle.traces.specs.Events.{IsWordOfKind, brief_of, company_of, event_word, kind_word, moment_of, version_of, wagon_of};

use move_messages::{Event, Message, MessageKind};
use rail_codes::{Company, Moment, WagonNumber};

/// What a step keeps of its event.
#[derive(Clone, Copy)]
pub enum EventBrief {
    /// A movement message came.
    Message(Message),
    /// An order was placed.
    Place,
    /// An order was withdrawn.
    Withdraw,
    /// A plan was to be promised.
    Commit(CommitBrief),
    /// A network was to be put in force.
    Revise,
}

/// Which problem a commit names.
#[derive(Clone, Copy)]
pub struct CommitBrief {
    /// The version of the problem.
    pub version: u64,
    /// The moment of the problem, in seconds since 1970.
    pub at: Moment,
}

impl EventBrief {
    /// What a step keeps of an event. Takes no memory.
    pub fn of(event: &Event) -> EventBrief
        ensures { result ≡ brief_of event.now }
    {
        match event {
            Event::Message(message) => EventBrief::Message(*message),
            Event::Place(_) => EventBrief::Place,
            Event::Withdraw(_) => EventBrief::Withdraw,
            Event::Commit(commit) => EventBrief::Commit(CommitBrief {
                version: commit.version,
                at: commit.at,
            }),
            Event::Revise(_) => EventBrief::Revise,
        }
    }

    /// The type of a line that says such an event.
    pub fn word(&self) -> &'static str
        ensures { result.now ≡ event_word self.now }
    {
        match self {
            EventBrief::Message(message) => kind_word(message.kind),
            EventBrief::Place => "order",
            EventBrief::Withdraw => "withdraw",
            EventBrief::Commit(_) => "commit",
            EventBrief::Revise => "network",
        }
    }

    /// The company that sent a message.
    pub fn company(&self) -> Option<Company>
        ensures { result ≡ company_of self.now }
    {
        match self {
            EventBrief::Message(message) => Some(message.id.company),
            _ => None,
        }
    }

    /// The moment of a message, or that of the problem that a commit names.
    pub fn moment(&self) -> Option<Moment>
        ensures { result ≡ moment_of self.now }
    {
        match self {
            EventBrief::Message(message) => Some(message.moment),
            EventBrief::Commit(commit) => Some(commit.at),
            _ => None,
        }
    }

    /// The version that a commit names.
    pub fn version(&self) -> Option<u64>
        ensures { result ≡ version_of self.now }
    {
        match self {
            EventBrief::Commit(commit) => Some(commit.version),
            _ => None,
        }
    }

    /// The wagon of a message.
    pub fn wagon(&self) -> Option<WagonNumber>
        ensures { result ≡ wagon_of self.now }
    {
        match self {
            EventBrief::Message(message) => Some(message.wagon),
            _ => None,
        }
    }
}

/// The type of a line that says a message of a kind.
fn kind_word(kind: MessageKind) -> &'static str
    ensures word { result.now ≡ kind_word kind }
    ensures reads { IsWordOfKind kind result.now }
{
    match kind {
        MessageKind::Release => "release",
        MessageKind::Departure => "departure",
        MessageKind::YardArrival => "yard_arrival",
        MessageKind::YardDeparture => "yard_departure",
        MessageKind::Exception(_) => "exception",
        MessageKind::Arrival => "arrival",
        MessageKind::Delivery => "delivery",
    }
}
