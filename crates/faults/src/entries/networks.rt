//! Entries of networks and their distances.

pub(crate) const BAD_ROW: &str = "## 41 BadRow

A record of a network, or of the names of places, isn't as its rule asks; or its
place has a name already. The number after it is the record's; the header is
record 1.

- Where: on standard error, as `wagons: 41 17`: `run`, `feed`; of the names of
  places each word that has `--places`.
- Cause: for record 1 a missing or other header, or an empty file; else
  semicolons in place of commas, a place of another form, kilometres or minutes
  of 0, over 10,000 or with a fraction, or a way other than `one` and `both`. Of
  the names of places a name of over 60 bytes, one coordinate without the other,
  or one that is no decimal number.
- Remedy: correct the record. In a text editor it is the line of that number,
  unless the file has empty lines or line breaks in quotes.
";

pub(crate) const TOO_MANY_PLACES: &str = "## 42 TooManyPlaces

A network names over 2,000 places, or the names of places have over 2,000
records.

- Where: on standard error, as `wagons: 42`: `run`, `feed`; of the names of
  places each word that has `--places`.
- Cause: a network larger than the office is made for, or misspelled places.
- Remedy: leave out places at which wagons only pass, and give one line the
  kilometres and minutes of the two that met there.
";

pub(crate) const TOO_MANY_RECORDS: &str = "## 43 TooManyLines

A network has over 20,000 records below its header.

- Where: on standard error, as `wagons: 43`: `run`, `feed`.
- Cause: a network larger than the office is made for, or a file that was put
  together from several.
- Remedy: leave out doubled records, and write `both` in place of two records.
";

pub(crate) const BAD_WORKER_COUNT: &str = "## 45 BadWorkerCount

The distances were to be worked out by no thread, or by over 64.

- Where: only in the library call `tables_by_workers`. The program answers a
  wrong `--workers` with the text of a wrong argument.
- Cause: a number of threads that the caller didn't check.
- Remedy: pass a number from 1 to 64.
";

pub(crate) const NO_THREAD: &str = "## 46 NoThread

A thread couldn't be started.

- Where: on standard error, as `wagons: 46`: `run`, `feed`, for the distances,
  and `feed` for a file.
- Cause: a limit on the threads of the account or the container (`ulimit -u`).
- Remedy: raise the limit, give fewer `--workers`, or feed fewer files at once.
";

pub(crate) const BAD_NETWORK_COUNT: &str = "## 47 BadNetworkCount

There is no network, or there are over 8.

- Where: on standard error, as `wagons: 47`: `run`, `feed`, for over 8; no
  network was read. Without any network the program says which argument is
  missing.
- Cause: `--network` was given over 8 times.
- Remedy: give the networks that the day needs.
";
