//! Entries of movement messages.

pub(crate) const EARLIER: &str = "## 31 Earlier

The message is older than the last message accepted of its wagon.

- Where: movement messages: `run`, `feed`.
- Cause: messages of one wagon that came in another order than they happened, as
  from two railways, or a clock or an offset that is wrong.
- Remedy: if the wagon has moved on, nothing. If the moment is wrong, send the
  message with the right one; its number is still free.
";

pub(crate) const WRONG_STATUS: &str = "## 32 WrongStatus

What the wagon is doing doesn't allow this message, as a departure of a wagon
that stands at a siding to be loaded.

- Where: movement messages: `run`, `feed`.
- Cause: a message before it is missing or was refused, or it is about another
  wagon.
- Remedy: send what is missing first. The sheet has the wagon's status, and the
  service gives it with the refusal; `trace --wagon` shows how it came there.
  The manual's status table in MESSAGES.md says what may follow what.
";

pub(crate) const WRONG_PLACE: &str = "## 33 WrongPlace

The message names another place than the wagon's own.

- Where: `release`, `departure` and `yard_departure`: `run`, `feed`.
- Cause: an arrival before it is missing, or one of the two places is wrong.
- Remedy: send the missing arrival first, or the message with the right place;
  its number is still free. The sheet has the wagon's place, and the service
  gives it with the refusal.
";
