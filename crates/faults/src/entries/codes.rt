//! Entries of codes, names and values of fields.

pub(crate) const NOT_TWELVE_DIGITS: &str = "## 11 NotTwelveDigits

Without its spaces and hyphens, a wagon number isn't twelve digits.

- Where: after the field of a refusal 25, as in `25 wagon 11`. In a roster such
  a record is refused with 78. A fault of the arguments names it too.
- Cause: a digit was lost or doubled, or another code stands in the field.
- Remedy: compare it with the number on the side of the wagon.
";

pub(crate) const CHECK_DIGIT: &str = "## 12 CheckDigit

The last digit of a wagon number isn't the check digit of the eleven before it.

- Where: after the field of a refusal 25, as in `25 wagon 12`. In a roster such
  a record is refused with 78. A fault of the arguments names it too.
- Cause: a digit was mistyped, or two neighbours changed places.
- Remedy: compare it with the number on the side of the wagon. Don't compute a
  new check digit: the mistake is mostly in another digit.
";

pub(crate) const BAD_PLACE: &str = "## 13 BadPlace

A place isn't two letters A-Z and five digits.

- Where: after the field of a refusal 25, as in `25 place 13`. In a network
  such a record is refused with 41, in a roster with 78.
- Cause: a station's name or another system's code in its place, small letters,
  or spaces.
- Remedy: write the code as the network has it, as `DE00001`.
";

pub(crate) const BAD_CLASS: &str = "## 14 BadClass

A wagon class isn't 1 to 12 letters A-Z, a-z.

- Where: in `25 classes 14`, to an `order` line. In a roster such a record is
  refused with 78.
- Cause: digits, spaces or hyphens in the class, or no letter at all.
- Remedy: write the letters alone. Small and capital letters differ, so write
  them as the roster does: `Eanos` isn't `eanos`.
";

pub(crate) const BAD_COMPANY: &str = "## 15 BadCompany

A company isn't four characters 0-9, A-Z.

- Where: in `25 company 15`, to a movement message.
- Cause: the company's name in place of its code, small letters, or zeros in
  front that were lost.
- Remedy: write all four characters, as `\"0080\"`.
";

pub(crate) const BAD_ORDER_ID: &str = "## 16 BadOrderId

An order name isn't 1 to 16 characters A-Z, 0-9, hyphen.

- Where: after the field of a refusal 25, as in `25 order 16`. A fault of the
  arguments names it too.
- Cause: small letters, spaces, slashes or underscores, or a longer name.
- Remedy: give the order a name of these characters, and use the same one in
  each line about it.
";

pub(crate) const BAD_MOMENT: &str = "## 17 BadMoment

A moment can't be read as a date, a time of day and an offset from UTC.

- Where: after the field of a refusal 25, as in `25 moment 17`. In a roster
  such a record is refused with 78. A fault of the arguments names it too.
- Cause: the offset is missing, or the text is in a local form such as
  `1.3.2026 02:00`.
- Remedy: write it as `2026-03-01T02:00:00Z` or `2026-03-01T03:00:00+01:00`.
";

pub(crate) const MOMENT_OUT_OF_RANGE: &str = "## 18 MomentOutOfRange

A moment lies before 2000-01-01T00:00:00Z or after 2099-12-31T23:59:59Z.

- Where: after the field of a refusal 25, as in `25 at 18`. In a roster such a
  record is refused with 78. A fault of the arguments names it too.
- Cause: a year of two digits, a clock that was never set, or a field that was
  left at its first value (1970).
- Remedy: send the right moment.
";

pub(crate) const WRONG_KIND: &str = "## 19 WrongKind

A field has another kind of JSON value than its table says: a text, a list,
`null`, .. in place of a number, or the other way round.

- Where: after the field of a refusal 25, as in `25 number 19`.
- Cause: a number in quotes or a code without them; a number with a sign, a
  fraction or an exponent; `null` for a field that should be left out.
- Remedy: write the value as the field's table in the manual says.
";

pub(crate) const OUT_OF_RANGE: &str = "## 20 OutOfRange

A number is above or below its limits, or a list has too few or too many items.

- Where: after the field of a refusal 25, as in `25 load 20`.
- Cause: another unit (grams in place of kilograms), an order for no wagon or
  over 20, a pair of other than two items.
- Remedy: keep to the limits in the field's table in the manual. Split an order
  that wants over 20 wagons.
";
