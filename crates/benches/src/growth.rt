//! A book whose history grows.

use anyhow::{Context, Result};
use commit_book::{Book, Limits, MAX_ENTRIES, Refusal, Reply};
use fleet_rows::Roster;
use line_network::{Networks, Tables, read_lines, tables};
use move_messages::{Classes, Message, MessageKind, OrderText};
use rail_codes::{ClassCode, Company, MessageId, Moment, OrderId, Place, WagonNumber};
use std::alloc::Global;
use std::sync::Arc;
use test_samples::{NETWORK, roster_of};

/// The class of all wagons, and one that none has.
pub(crate) const SUITED: &str = "Eanos";

const UNSUITED: &str = "Zkk";

const DAY: &str = "2026-03-01T00:00:00Z";

/// A book, and how many messages and orders it was given.
#[derive(Drop)]
pub(crate) struct Growth {
    pub(crate) book: Book,
    /// The distances of its network, which are those of each of its two.
    pub(crate) distances: Tables,
    numbers: Vec<WagonNumber>,
    messages: u32,
    orders: u32,
}

impl Growth {
    /// A book of so many free wagons.
    pub(crate) fn new(alloc: Global, wagons: u32) -> Result<Growth> {
        let distances = distances(alloc)?;
        let roster = roster(alloc, wagons)?;
        let numbers = numbers_of(alloc, &roster)?;
        Ok(Growth {
            book: book_of(alloc, roster)?,
            distances,
            numbers,
            messages: 0,
            orders: 0,
        })
    }

    /// How many entries the book has.
    pub(crate) fn entries(&self) -> u64 {
        self.book.len()
    }

    /// Places so many orders that no wagon suits.
    pub(crate) fn let_wait(&mut self, alloc: Global, waiting: u32) -> Result<()> {
        for _ in 0..waiting {
            let text = self.next_order(alloc, UNSUITED)?;
            entered(self.book.place(alloc, &text))?;
        }
        Ok(())
    }

    /// Lets the history grow until so many rounds of calls lead to so many entries.
    pub(crate) fn fill(&mut self, alloc: Global, entries: u32, rounds: u32) -> Result<()> {
        let last = u64::from(entries).saturating_sub(u64::from(rounds).saturating_mul(7));
        for _ in 0..entries / 4 {
            if last < self.book.len().saturating_add(4) {
                break;
            }
            self.one_cycle(alloc)?;
        }
        Ok(())
    }

    /// A wagon is held and let go, and an order placed and withdrawn.
    fn one_cycle(&mut self, alloc: Global) -> Result<()> {
        let held = self.next_message(true)?;
        entered(self.book.message(alloc, &held))?;
        let let_go = self.next_message(false)?;
        entered(self.book.message(alloc, &let_go))?;
        let text = self.next_order(alloc, SUITED)?;
        entered(self.book.place(alloc, &text))?;
        entered(self.book.withdraw(alloc, text.id()))
    }

    /// The next message, which holds a wagon or lets that one go.
    pub(crate) fn next_message(&mut self, hold: bool) -> Result<Message> {
        self.messages = self.messages.wrapping_add(1);
        let turn = self.messages.wrapping_sub(u32::from(!hold)) as usize;
        let count = self.numbers.len().max(1);
        let number = self.numbers.get(turn % count).context("no wagon")?;
        Ok(Message {
            id: MessageId {
                company: Company::read("0080")?,
                number: self.messages,
            },
            kind: MessageKind::Exception(hold),
            wagon: *number,
            place: Place::read("DE00001")?,
            moment: Moment::read(DAY)?,
        })
    }

    /// The next order, for a wagon of a class.
    pub(crate) fn next_order(&mut self, alloc: Global, class: &str) -> Result<OrderText> {
        self.orders = self.orders.wrapping_add(1);
        let name = format!(in alloc; "O{}", self.orders)?;
        let id = OrderId::read(&name)?;
        let classes = Classes::from_slice(&[ClassCode::read(class)?]).context("no class")?;
        let latest = Moment::read("2026-03-02T00:00:00Z")?;
        OrderText::new(id, Place::read("DE00003")?, classes, 0, latest, 1000, 1).context("no order")
    }

    /// The moment of all problems.
    pub(crate) fn at(&self) -> Result<Moment> {
        Ok(Moment::read(DAY)?)
    }

    /// How many wagons are free, and how many orders wait.
    pub(crate) fn last_problem(&mut self, alloc: Global) -> Result<(usize, usize)> {
        let at = self.at()?;
        let snap = self.book.begin(alloc, at)?;
        Ok((snap.problem().wagons().len(), snap.problem().orders().len()))
    }
}

/// A roster of so many empty wagons.
fn roster(alloc: Global, wagons: u32) -> Result<Roster> {
    let text = roster_of(alloc, wagons, "empty")?;
    Ok(Roster::read_rows(alloc, text.as_bytes())?)
}

/// The numbers of a roster's wagons.
fn numbers_of(alloc: Global, roster: &Roster) -> Result<Vec<WagonNumber>> {
    let numbers = roster
        .rows()
        .iter()
        .map(|row| row.number)
        .collect::<Vec<WagonNumber>>(alloc)?;
    Ok(numbers)
}

/// A book of these wagons over the sample's network, twice.
fn book_of(alloc: Global, roster: Roster) -> Result<Book> {
    let networks = two_networks(alloc)?;
    let limits = Limits::new(MAX_ENTRIES, 8).context("limits")?;
    Ok(Book::new(alloc, roster, networks, limits)?)
}

/// The sample's network, twice.
fn two_networks(alloc: Global) -> Result<Arc<Networks>> {
    let mut networks = Vec::new(alloc);
    networks.push(distances(alloc)?)?;
    networks.push(distances(alloc)?)?;
    Ok(Arc::new(alloc, Networks::new(networks)?)?)
}

/// The distances of the sample's network.
fn distances(alloc: Global) -> Result<Tables> {
    let network = read_lines(alloc, NETWORK.as_bytes())?;
    Ok(tables(alloc, &network)?)
}

/// Whether a call became an entry.
pub(crate) fn entered(reply: Result<Reply, Refusal>) -> Result<()> {
    match reply {
        Ok(_) => Ok(()),
        Err(refusal) => Err(anyhow::anyhow!("refused {}", refusal.number())),
    }
}
