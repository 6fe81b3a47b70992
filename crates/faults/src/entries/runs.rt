//! Entries of runs that stop, and of offices that several callers share.

pub(crate) const TOO_MANY_INPUT_LINES: &str = "## 91 TooManyLines

The input has over 1,000,000 lines. The number after it is that of the first
line too many.

- Where: on standard error, as `wagons: 91 1000001`: `check`, `solve`, `run`; in
  `feed` as `file K failed 91`, which names no line: it is line 1,000,001.
- Cause: a journal of many days.
- Remedy: save a checkpoint of the lines before, which were done, with `wagons
  save --upto 1000000`, and begin a new journal with it.
";

pub(crate) const LINE_TOO_LONG: &str = "## 92 LineTooLong

A line has over 65,536 bytes, or more than `--line-bytes` says. The number
after it is the line's.

- Where: on standard error, as `wagons: 92 17`: `check`, `solve`, `run`; in
  `feed` as `file K failed 92`, which names no line:
  `LC_ALL=C awk 'length > 65536 { print NR; exit }' FILE` finds it. In a reply
  of `solve`: the table with its plan would be so long.
- Cause: line feeds that are missing between objects, a file of another kind, or
  a large table.
- Remedy: put the line right, or an empty one in its place, and start again. The
  lines before were done. For large tables `check` and `solve` have the option
  `--line-bytes`.
";

pub(crate) const READ_FAILED: &str = "## 93 ReadFailed

An input couldn't be read on, or a file couldn't be opened.

- Where: on standard error, `wagons: 93 17` for standard input at that line
  (`check`, `solve`, `run`), `wagons: 93` for a file (`run`, `feed`); in `feed`
  as `file K failed 93`.
- Cause: a misspelled path, a file that the account may not read, a folder in
  place of a file, or a disk or network drive that failed.
- Remedy: try to read the file with another tool, as `head`. The lines before
  were done.
";

pub(crate) const WRITE_FAILED: &str = "## 94 WriteFailed

What the program prints couldn't be written.

- Where: on standard error, `wagons: 94 17` for the reply to that line (`check`,
  `solve`, `run`), `wagons: 94` for any other output.
- Cause: the reader of a pipe ended first, as `head` does, or the disk is full.
- Remedy: write into a file on a disk that has room. What that line asked for
  was done all the same, and its reply may be there in part.
";

pub(crate) const SEATS_MISSING: &str = "## 95 SeatsMissing

An office that several callers share was to be closed, and not all seats came
back.

- Where: only in the library call `close`; the program never answers it.
- Cause: a seat that another thread still has.
- Remedy: join the threads and close with all seats. Office and seats are handed
  back.
";

pub(crate) const RECEIPT_LOST: &str = "## 96 ReceiptLost

An entry of the book isn't what its sender's receipt says. The numbers after it
are the seat's and the entry's.

- Where: on standard error, as `wagons: 96 2 17`: `feed`. Also in the library
  call `close`.
- Cause: the program is wrong: this never happens otherwise.
- Remedy: keep the files and tell the people who maintain the program.
";
