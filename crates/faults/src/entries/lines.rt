//! Entries of lines, and of memory.

pub(crate) const OUT_OF_MEMORY: &str = "## 1 OutOfMemory

The machine refused memory that the program asked for. Nothing has changed; only
the problem of a `plan` line may be kept.

- Where: any reply of `check`, `solve` and `run`, and the next line is read; in
  `feed` a refused line, or `file K failed 1` before a file's first line; on
  standard error `wagons: 1`, before the first line is read, or in place of what
  `feed`, `map` and `explain` print at their end.
- Cause: a limit on the memory of the account or the container (`ulimit -v`), or
  other programs that took it all.
- Remedy: free memory or raise the limit. Send a refused line again as it is.
";

pub(crate) const NOT_JSON: &str = "## 21 NotJson

The line isn't one JSON value.

- Where: any line of `check`, `solve`, `run` and `feed`.
- Cause: a line that was torn apart or joined with the next one, a comment or
  log line among the lines, bytes that aren't UTF-8, or lists nested over 127
  deep.
- Remedy: look at the line whose number the reply has, and send each object
  whole and on a line of its own. `jq -c .` writes objects so.
";

pub(crate) const NOT_AN_OBJECT: &str = "## 22 NotAnObject

The line is a JSON value, but no object.

- Where: any line of `check`, `solve`, `run` and `feed`.
- Cause: a list of objects on one line.
- Remedy: write one object a line. `jq -c '.[]'` makes such lines of a list.
";

pub(crate) const UNKNOWN_TYPE: &str = "## 23 UnknownType

`type` is a text that names no command.

- Where: command lines: `run`, `feed`.
- Cause: a misspelled name, or capital letters in it.
- Remedy: write the name as the manual has it, as `yard_arrival`.
";

pub(crate) const MISSING_FIELD: &str = "## 24 MissingField

A field that the line must have is missing. The reply names it; `24 type` says
that the line has no `type`.

- Where: any line of `check`, `solve`, `run` and `feed`.
- Cause: a misspelled field (another name counts for nothing), or a line for
  another word of the program: table lines have no `type`, command lines must.
- Remedy: add the field. Fields are tried in the order of the manual's tables,
  so a later one may be missing too.
";

pub(crate) const BAD_FIELD: &str = "## 25 BadField

A field is there and wrong. The reply names it and says why by a number from 11
to 20.

- Where: any line of `check`, `solve`, `run` and `feed`.
- Cause: see the entry of the second number: 12 for `25 wagon 12`.
- Remedy: correct the field and send the line again. Nothing of the line was
  done.
";
