//! The texts of help. No line of help, as it is printed, is longer than 80 characters; `tools/scripts` tries that.

use crate::arguments::{Argument, Group, Takes};
use crate::moves_options::MAX_SILENT_HOURS;
use crate::why_options::MAX_NEAR;
use line_engine::{LARGEST_LINE_LIMIT, MAX_INPUT_LINES};
use line_network::MAX_WORKERS;
use price_checker::{MAX_ENTRIES, MAX_KEPT_PROBLEMS};

/// The help of a word.
#[derive(Clone, Copy)]
pub(crate) struct WordHelp {
    /// The word.
    pub(crate) name: &'static str,
    /// What it does, on a line.
    pub(crate) about: &'static str,
    /// What it does.
    pub(crate) long_about: &'static str,
    /// How it is called.
    pub(crate) example: &'static str,
    /// What usage lines say in place of clap's own line, if that would be too long.
    pub(crate) usage: Option<&'static str>,
    /// What it takes.
    pub(crate) arguments: &'static [&'static [Argument]],
    /// Which of its options shut each other out.
    pub(crate) groups: &'static [Group],
}

/// What the program is.
pub(crate) const ABOUT: &str =
    "The fleet office: keeps where freight wagons are, and plans which empty wagon\n\
     goes to which order, with prices that prove that no other plan costs less.\n\
     Without a word it does `check`.";

/// How the program is called.
pub(crate) const EXAMPLES: &str = "Examples:\n  \
     wagons solve < problems.jsonl | wagons check\n  \
     wagons run --roster roster.csv --network network.csv < day.jsonl\n  \
     wagons explain 82\n\n\
     The manual: `man wagons`, and docs/FORMATS.md";

/// The help of `check`.
pub(crate) const CHECK: WordHelp = WordHelp {
    name: "check",
    about: "Checks plans and their prices, one JSON object a line",
    long_about: "Reads table lines from standard input, one JSON object a line: wagons, orders,\n\
     the cost of each allowed pair in kilometres, penalties, a plan and its prices.\n\
     Replies `N optimal COST` if the prices prove the plan of line N least, else\n\
     `N refused CODE` and details. Exits with 0, with 1 if a line was refused, with\n\
     2 if it could not run or stopped.",
    example: "Example:\n  wagons check < tables.jsonl",
    usage: None,
    arguments: &[&[LINE_BYTES]],
    groups: &[],
};

/// The help of `solve`.
pub(crate) const SOLVE: WordHelp = WordHelp {
    name: "solve",
    about: "Plans cost tables, one JSON object a line",
    long_about: "Reads cost tables from standard input, one JSON object a line: wagons, orders,\n\
     the cost of each allowed pair in kilometres, and penalties. Prints each with a\n\
     plan of the lowest cost and the prices that prove it, as JSON that `wagons\n\
     check` reads. For a line that is refused it prints `line` and `refused`. Exits\n\
     with 0, with 1 if a line was refused, with 2 if it could not run or stopped.",
    example: "Example:\n  wagons solve < problems.jsonl | wagons check",
    usage: None,
    arguments: &[&[LINE_BYTES]],
    groups: &[],
};

/// The help of `run`.
pub(crate) const RUN: WordHelp = WordHelp {
    name: "run",
    about: "Keeps a fleet: messages and orders in, replies and plans out",
    long_about: "Reads the fleet and the network from files, then commands from standard input,\n\
     one JSON object a line: movement messages of the wagons, orders for wagons and\n\
     their withdrawals, `begin`, `plan`, `commit`, `network` and `sheet`. Answers\n\
     each line at once; a reply begins with the number of its line. With `--notes`\n\
     it also writes to a file what a person should hear of. Exits with 0, with 1 if\n\
     a line was refused, with 2 if it could not run or stopped, or if the notes\n\
     could not be written.",
    example: "Examples:\n  \
     wagons run --roster roster.csv --network network.csv < day.jsonl\n  \
     wagons run --notes notes.jsonl --roster roster.csv \\\n    \
     --network network.csv < day.jsonl",
    usage: None,
    arguments: &[OFFICE, &[RUN_NOTES]],
    groups: &[START],
};

/// The help of `feed`.
pub(crate) const FEED: WordHelp = WordHelp {
    name: "feed",
    about: "Keeps a fleet: several files of commands in at once",
    long_about: "Reads the fleet and the network from files, then commands from 1 to 16 files at\n\
     once, each by a thread of its own; named pipes are files too. A `plan` line is\n\
     planned and committed, a `sheet` line is skipped. At the end prints for each\n\
     file how many lines were accepted, repeated and refused, or why it failed, and\n\
     then the sheet. With `--notes` it also writes to a file what a person should\n\
     hear of. Exits with 0, with 1 if a line was refused, with 2 if a file failed or\n\
     it could not run.",
    example: "Example:\n  \
     wagons feed --roster roster.csv --network network.csv north.jsonl south.jsonl",
    usage: Some(
        "wagons feed [OPTIONS] --network <FILE>\n       \
     <--roster <FILE>|--from <FILE>> <FILE>...",
    ),
    arguments: &[OFFICE, &[FEED_NOTES, FILES]],
    groups: &[START],
};

/// The help of `moves`.
pub(crate) const MOVES: WordHelp = WordHelp {
    name: "moves",
    about: "Shows promised wagons and which are late: commands in, a table out",
    long_about: "Reads the fleet and the network from files, then commands from standard input\n\
     as `run` does, without a reply. At the end prints a table of the promised\n\
     wagons at a moment: where each is, to which order it goes, the kilometres and\n\
     minutes left, its earliest arrival, the order's latest moment, and minutes to\n\
     spare or late. The orders that are not withdrawn follow; those that are short\n\
     or past their latest moment are marked. With `--silent` the wagons not heard\n\
     from follow too.\n\
     Exits with 0, even if a line was refused, or with 2 if it could not run or\n\
     stopped; then there is no table.",
    example: "Examples:\n  \
     wagons moves --at 2026-03-02T11:00:00Z --roster roster.csv \\\n    \
     --network network.csv --places places.csv < day.jsonl\n  \
     wagons moves --late --silent 24 --at 2026-03-02T11:00:00Z \\\n    \
     --roster roster.csv --network network.csv < day.jsonl",
    usage: Some(
        "wagons moves [OPTIONS] --network <FILE> --at <MOMENT>\n       \
     <--roster <FILE>|--from <FILE>>",
    ),
    arguments: &[OFFICE, &[MOVES_AT], STATE, MOVES_CHOICE],
    groups: &[START, PRINTED, ASKED],
};

/// The help of `fleet`.
pub(crate) const FLEET: WordHelp = WordHelp {
    name: "fleet",
    about: "Lists a fleet's wagons: commands in, a table out",
    long_about: "Reads the fleet and the network from files, then commands from standard input\n\
     as `run` does, without a reply. At the end prints a table of the wagons: each\n\
     with its class, its load limit in kilograms, its status and place, the moment\n\
     of its last message, whether it is held, and the order that it is promised to.\n\
     Exits with 0, even if a line was refused, or with 2 if it could not run or\n\
     stopped; then there is no table.",
    example: "Examples:\n  \
     wagons fleet --roster roster.csv --network network.csv < day.jsonl\n  \
     wagons fleet --csv --places places.csv --roster roster.csv \\\n    \
     --network network.csv < day.jsonl > fleet.csv",
    usage: None,
    arguments: &[OFFICE, STATE],
    groups: &[START, PRINTED],
};

/// The help of `orders`.
pub(crate) const ORDERS: WordHelp = WordHelp {
    name: "orders",
    about: "Lists a fleet's orders: commands in, a table out",
    long_about: "Reads the fleet and the network from files, then commands from standard input\n\
     as `run` does, without a reply. At the end prints a table of the orders: each\n\
     with its place, the classes and the load that it asks for, its latest moment,\n\
     its penalty and its state. Each row also says how many wagons the order wants\n\
     and misses, and which are promised to it or fill it.\n\
     Exits with 0, even if a line was refused, or with 2 if it could not run or\n\
     stopped; then there is no table.",
    example: "Examples:\n  \
     wagons orders --roster roster.csv --network network.csv < day.jsonl\n  \
     wagons orders --json --zone Europe/Berlin --roster roster.csv \\\n    \
     --network network.csv < day.jsonl",
    usage: None,
    arguments: &[OFFICE, STATE],
    groups: &[START, PRINTED],
};

/// The help of `trace`.
pub(crate) const TRACE: WordHelp = WordHelp {
    name: "trace",
    about: "Shows what happened to a wagon or an order: commands in, a table out",
    long_about: "Reads the fleet and the network from files, then commands from standard input\n\
     as `run` does, without a reply. At the end prints a table with a row for each\n\
     line that changed or named the wagon or the order. A row has the line's number,\n\
     its entry or the refusal's number, what it said, who sent it and when, and what\n\
     the office knew before and after. That is for a wagon its status, its place,\n\
     whether it was held, and its order; for an order its state and its wagons.\n\
     Exits with 0, even if a line was refused, or with 2 if it could not run or\n\
     stopped; then there is no table.",
    example: "Examples:\n  \
     wagons trace --wagon 318127710016 --roster roster.csv \\\n    \
     --network network.csv --places places.csv < day.jsonl\n  \
     wagons trace --json --order MALT-1 --roster roster.csv \\\n    \
     --network network.csv < day.jsonl",
    usage: Some(
        "wagons trace [OPTIONS] --network <FILE> <--roster <FILE>|--from <FILE>>\n       \
     <--order <NAME>|--wagon <NUMBER>>",
    ),
    arguments: &[OFFICE, STATE, &[TRACE_ORDER, TRACE_WAGON]],
    groups: &[START, PRINTED, FOLLOWED],
};

/// The help of `map`.
pub(crate) const MAP: WordHelp = WordHelp {
    name: "map",
    about: "Draws a fleet: commands in, a Graphviz graph out",
    long_about: "Reads the fleet and the network from files, then commands from standard input\n\
     as `run` does, without a reply. At the end prints the office as a graph in the\n\
     DOT language, of which Graphviz makes a picture. The graph has places with\n\
     their free, promised and other wagons and with what orders lack, lines with\n\
     kilometres and minutes, and promised wagons as arrows.\n\
     Exits with 0, even if a line was refused, or with 2 if it could not run or\n\
     stopped; then there is no graph.",
    example: "Examples:\n  \
     wagons map --roster roster.csv --network network.csv < day.jsonl |\n    \
     neato -Tsvg > day.svg\n  \
     wagons map --busy --class Eanos --roster roster.csv --network network.csv \\\n    \
     < day.jsonl | neato -Tpdf > eanos.pdf",
    usage: None,
    arguments: &[OFFICE, &[PLACES, BUSY, ORDER_ALONE, MAP_CLASS]],
    groups: &[START],
};

/// The help of `plan`.
pub(crate) const PLAN: WordHelp = WordHelp {
    name: "plan",
    about: "Prints a plan for people: commands in, a table out",
    long_about: "Reads the fleet and the network from files, then commands from standard input\n\
     as `run` does, without a reply. At the end plans the problem at a moment and\n\
     prints a table: each wagon that goes, from where to where, its kilometres and\n\
     minutes, when it is there, and its order. Each order that misses wagons\n\
     follows, with the penalty of each and why, and then the sum. The office is not\n\
     changed.\n\
     Exits with 0, even if a line was refused, or with 2 if it could not run or\n\
     stopped; then there is no table.",
    example: "Example:\n  \
     wagons plan --at 2026-03-02T11:00:00Z --roster roster.csv \\\n    \
     --network network.csv --places places.csv < day.jsonl",
    usage: Some(
        "wagons plan [OPTIONS] --network <FILE> --at <MOMENT>\n       \
     <--roster <FILE>|--from <FILE>>",
    ),
    arguments: &[OFFICE, &[AT, PLACES, ZONE, CSV]],
    groups: &[START],
};

/// The help of `table`.
pub(crate) const TABLE: WordHelp = WordHelp {
    name: "table",
    about: "Prints a fleet's problem: commands in, a cost table out",
    long_about: "Reads the fleet and the network from files, then commands from standard input\n\
     as `run` does, without a reply. At the end prints the problem at a moment as a\n\
     table line, which `wagons solve` reads. It has the free wagons, the waiting\n\
     orders, the kilometres of each wagon that suits an order and is there in time,\n\
     what each order lacks, and its penalty.\n\
     Exits with 0, even if a line was refused, or with 2 if it could not run or\n\
     stopped; then there is no table.",
    example: "Example:\n  \
     wagons table --at 2026-03-02T11:00:00Z --roster roster.csv \\\n    \
     --network network.csv < day.jsonl | wagons solve",
    usage: Some(
        "wagons table [OPTIONS] --network <FILE> --at <MOMENT>\n       \
     <--roster <FILE>|--from <FILE>>",
    ),
    arguments: &[OFFICE, &[AT]],
    groups: &[START],
};

/// The help of `why`.
pub(crate) const WHY: WordHelp = WordHelp {
    name: "why",
    about: "Says why a plan is as it is: commands in, reasons and costs out",
    long_about: "Reads the fleet and the network from files, then commands from standard input\n\
     as `run` does, without a reply. At the end plans the problem at a moment, or\n\
     that of a plan line, a begin or a commit among them. For each order it says how\n\
     many free wagons pass which test, and what one wagon more or less for it costs\n\
     or saves. For each wagon that goes it says what the best plan without it costs\n\
     more, in kilometres. With `--order` or `--wagon` it says which test each pair\n\
     fails, and of the others what the best plan with that pair costs more.\n\
     `--quick` gives bounds in place of exact numbers.\n\
     Exits with 0, even if a line was refused, or with 2 if it could not run or\n\
     stopped; then nothing is said.",
    example: "Examples:\n  \
     wagons why --at 2026-03-02T11:00:00Z --roster roster.csv \\\n    \
     --network network.csv < day.jsonl\n  \
     wagons why --line 26 --order MALT-1 --near 3 --roster roster.csv \\\n    \
     --network network.csv < day.jsonl",
    usage: Some(
        "wagons why [OPTIONS] --network <FILE> <--roster <FILE>|--from <FILE>>\n       \
     <--at <MOMENT>|--line <N>>",
    ),
    arguments: &[
        OFFICE,
        &[WHY_AT, LINE, PLACES, ORDER, WAGON, NEAR, JSON, QUICK],
    ],
    groups: &[START, WHEN, ASKED],
};

/// The help of `review`.
pub(crate) const REVIEW: WordHelp = WordHelp {
    name: "review",
    about: "Notes what passes in silence: commands in, notes out",
    long_about: "Reads the fleet and the network from files, then commands from standard input\n\
     as `run` does. In place of replies it prints notes on what is seldom meant: an\n\
     order whose place, class or load nothing fits or whose latest moment is past,\n\
     an unknown member, a message a day ahead of those around it. It also notes a\n\
     byte order mark, JSON over several lines, a last line without its end, and a\n\
     book that is nearly full. Exits with 0, with 1 if there is a note, with 2 if it\n\
     could not run or stopped.",
    example: "Example:\n  \
     wagons review --roster roster.csv --network network.csv < day.jsonl",
    usage: None,
    arguments: &[OFFICE, &[PLACES, NOTES]],
    groups: &[START, NAMED],
};

/// The help of `save`.
pub(crate) const SAVE: WordHelp = WordHelp {
    name: "save",
    about: "Saves a fleet: commands in, a checkpoint out",
    long_about: "Reads the fleet and the network from files, then commands from standard input\n\
     as `run` does, without a reply. At the end prints the office as a checkpoint,\n\
     JSON lines from which a new journal goes on with `--from`: each wagon with its\n\
     hold and promise, each open order with its wagons, and the network in force.\n\
     Exits with 0, even if a line was refused, or with 2 if it could not run or\n\
     stopped; then there is no checkpoint.",
    example: "Example:\n  \
     wagons save --roster roster.csv --network network.csv < day.jsonl \\\n    \
     > night.jsonl\n  \
     wagons run --from night.jsonl --network network.csv < next.jsonl",
    usage: None,
    arguments: &[OFFICE, &[UPTO, WITH, WITHOUT]],
    groups: &[START],
};

/// The help of `explain`.
pub(crate) const EXPLAIN: WordHelp = WordHelp {
    name: "explain",
    about: "Says what a refusal means, and what to do about it",
    long_about: "Says what a refusal means, by its code or its name, in which words it comes, its\n\
     usual cause and what to do about it. Without a code it says this of all\n\
     refusals.",
    example: "Examples:\n  wagons explain 82\n  wagons explain WagonChanged",
    usage: None,
    arguments: &[&[CODE]],
    groups: &[],
};

/// The argument of `explain`.
const CODE: Argument = Argument {
    name: "code",
    takes: Takes::Own("CODE"),
    help: "The number behind `refused` or `wagons:`, or a refusal's name",
    long_help: None,
};

/// The most bytes of a line.
const LINE_BYTES: Argument = Argument {
    name: "line-bytes",
    takes: Takes::NumberOr(LARGEST_LINE_LIMIT as u64, "65536"),
    help: "Most bytes of a line, 1 to 67108864",
    long_help: Some(
        "The most bytes of a line, its line feed not counted, 1 to 67108864. A\n\
     longer line stops the program. If the line of a plan would be longer,\n\
     `solve` refuses the table with 92",
    ),
};

/// The roster's file.
const ROSTER: Argument = Argument {
    name: "roster",
    takes: Takes::Value("FILE"),
    help: "The wagons and where they are at the start, a CSV file",
    long_help: Some(
        "The wagons and where they are at the start: a CSV file with the header\n\
     `wagon,class,load,status,place,moment`. Either this or `--from`",
    ),
};

/// The checkpoint's file.
const FROM: Argument = Argument {
    name: "from",
    takes: Takes::Value("FILE"),
    help: "The office at the start, a checkpoint of `save`",
    long_help: Some(
        "The office at the start: a checkpoint that `wagons save` printed, with\n\
     its wagons, holds, promises, open orders and network in force. Either\n\
     this or `--roster`",
    ),
};

/// A network's file.
const NETWORK: Argument = Argument {
    name: "network",
    takes: Takes::NeededValues("FILE"),
    help: "The lines between places, a CSV file; up to 8 times",
    long_help: Some(
        "The lines between places: a CSV file with the header\n\
     `from,to,km,minutes,way`. May stand up to 8 times: the networks are\n\
     numbered from 1 in this order; at first network 1 is in force, or the\n\
     one that the checkpoint names",
    ),
};

/// How many entries a book may have.
const ENTRIES: Argument = Argument {
    name: "entries",
    takes: Takes::NumberOr(MAX_ENTRIES, "100000"),
    help: "Most events accepted, 1 to 1000000",
    long_help: Some(
        "The most events that are accepted, 1 to 1000000: messages, orders,\n\
     withdrawals, commits and changes of the network. Later ones are\n\
     refused",
    ),
};

/// How many problems a book keeps.
const KEPT: Argument = Argument {
    name: "kept",
    takes: Takes::NumberOr(MAX_KEPT_PROBLEMS as u64, "8"),
    help: "Most problems kept for commits, 1 to 64",
    long_help: Some(
        "The most problems that are kept for commits, 1 to 64: a new one goes\n\
     last, and the first is dropped if there are more; one that is kept\n\
     already stays where it is. A commit of a dropped one is refused",
    ),
};

/// How many threads compute the distances.
const WORKERS: Argument = Argument {
    name: "workers",
    takes: Takes::NumberOr(MAX_WORKERS as u64, "4"),
    help: "Threads that compute distances, 1 to 64",
    long_help: Some(
        "How many threads compute the distances before the first line is read,\n\
     1 to 64. The replies are the same for any number",
    ),
};

/// The files of `feed`.
const FILES: Argument = Argument {
    name: "file",
    takes: Takes::Files,
    help: "Files of commands, one JSON object a line; 1 to 16",
    long_help: Some(
        "Files of commands, one JSON object a line; 1 to 16. A file that can't\n\
     be opened stops the program before it begins; one that fails while it\n\
     is read doesn't stop the others",
    ),
};

/// The moment of a problem.
const AT: Argument = Argument {
    name: "at",
    takes: Takes::Needed("MOMENT"),
    help: "The moment at which the wagons may start",
    long_help: Some(
        "The moment of the problem, at which the wagons may start, as\n\
     2026-03-02T11:00:00Z",
    ),
};

/// The moment of a list of movements.
const MOVES_AT: Argument = Argument {
    name: "at",
    takes: Takes::Needed("MOMENT"),
    help: "The moment from which arrivals are computed",
    long_help: Some(
        "The moment at which the office is looked at, from which arrivals are\n\
     computed, as 2026-03-02T11:00:00Z",
    ),
};

/// The file of the names of places.
const PLACES: Argument = Argument {
    name: "places",
    takes: Takes::Value("FILE"),
    help: "The names of places, a CSV file",
    long_help: Some("The names of places: a CSV file with the header `place,name,x,y`"),
};

/// A time zone.
const ZONE: Argument = Argument {
    name: "zone",
    takes: Takes::Value("ZONE"),
    help: "The time zone of the moments, such as Europe/Berlin",
    long_help: Some(
        "The time zone in which moments are shown, by its name, such as\n\
     Europe/Berlin: a file below /usr/share/zoneinfo. Without it they are\n\
     shown in UTC",
    ),
};

/// Whether CSV is printed.
const CSV: Argument = Argument {
    name: "csv",
    takes: Takes::Nothing,
    help: "Prints CSV for a spreadsheet",
    long_help: None,
};

/// Whether quiet places are left out of a map.
const BUSY: Argument = Argument {
    name: "busy",
    takes: Takes::Nothing,
    help: "Leaves out places with nothing on them",
    long_help: Some(
        "Leaves out places with no wagon and no order on the map, and the\n\
     lines that lead there",
    ),
};

/// The order that is shown alone.
const ORDER_ALONE: Argument = Argument {
    name: "order",
    takes: Takes::Value("NAME"),
    help: "Only this order, with the wagons promised to it",
    long_help: None,
};

/// The class that a map shows alone.
const MAP_CLASS: Argument = Argument {
    name: "class",
    takes: Takes::Value("CODE"),
    help: "Only wagons of this class and orders that accept it",
    long_help: None,
};

/// The order that is asked about.
const ORDER: Argument = Argument {
    name: "order",
    takes: Takes::Value("NAME"),
    help: "Only this order, with each free wagon",
    long_help: Some(
        "Only this order: which test each free wagon fails, and of the others\n\
     what the best plan costs more in which it goes there",
    ),
};

/// The wagon that is asked about.
const WAGON: Argument = Argument {
    name: "wagon",
    takes: Takes::Value("NUMBER"),
    help: "Only this free wagon, with each waiting order",
    long_help: Some(
        "Only this free wagon: which test it fails for each waiting order, and\n\
     of the others what the best plan costs more in which it goes there",
    ),
};

/// Whether notes are JSON lines, which tell of more.
const NOTES: Argument = Argument {
    name: "json",
    takes: Takes::Nothing,
    help: "JSON lines, with promises, deliveries and refusals too",
    long_help: Some("Notes as JSON lines, with promises, deliveries and refusals too"),
};

/// Whether JSON lines are printed.
const JSON: Argument = Argument {
    name: "json",
    takes: Takes::Nothing,
    help: "Prints JSON lines",
    long_help: None,
};

/// Whether what needs a person is shown alone.
const LATE: Argument = Argument {
    name: "late",
    takes: Takes::Nothing,
    help: "Only what is late, short or past its latest moment",
    long_help: Some(
        "Only what needs a person: wagons that come too late or have no way,\n\
     and orders that are short or past their latest moment",
    ),
};

/// The wagon that is shown alone.
const WAGON_ALONE: Argument = Argument {
    name: "wagon",
    takes: Takes::Value("NUMBER"),
    help: "Only this wagon, and no order",
    long_help: None,
};

/// The company whose wagons are shown alone.
const COMPANY: Argument = Argument {
    name: "company",
    takes: Takes::Value("CODE"),
    help: "Only wagons that this company moved last, and no order",
    long_help: Some(
        "Only the wagons whose last accepted message this company sent, and\n\
     no order",
    ),
};

/// The order that is followed.
const TRACE_ORDER: Argument = Argument {
    name: "order",
    takes: Takes::Value("NAME"),
    help: "What happened to this order",
    long_help: None,
};

/// The wagon that is followed.
const TRACE_WAGON: Argument = Argument {
    name: "wagon",
    takes: Takes::Value("NUMBER"),
    help: "What happened to this wagon",
    long_help: None,
};

/// Whether bounds are printed in place of exact numbers.
const QUICK: Argument = Argument {
    name: "quick",
    takes: Takes::Nothing,
    help: "Bounds, without a plan for each number",
    long_help: Some(
        "Prints what other plans cost more, at least, by the plan's own\n\
     prices; without it each number is exact, by a plan of its own",
    ),
};

/// The moment of a plan that is explained.
const WHY_AT: Argument = Argument {
    name: "at",
    takes: Takes::Value("MOMENT"),
    help: "The moment at which the wagons may start",
    long_help: Some(
        "The moment of the problem, at which the wagons may start, as\n\
     2026-03-02T11:00:00Z. Either this or `--line`",
    ),
};

/// The line whose plan is explained.
const LINE: Argument = Argument {
    name: "line",
    takes: Takes::Number(MAX_INPUT_LINES),
    help: "The plan of line N: a plan, begin or accepted commit",
    long_help: Some(
        "The plan of line N, 1 to 1000000: a plan line, a begin, or a commit\n\
     that is accepted. Later lines are not read. Either this or `--at`",
    ),
};

/// How many pairs that fit are printed.
const NEAR: Argument = Argument {
    name: "near",
    takes: Takes::Number(MAX_NEAR),
    help: "Only the N best pairs that fit, 1 to 1000",
    long_help: Some(
        "With `--order` or `--wagon`: only the N pairs that fit and cost least\n\
     more, 1 to 1000",
    ),
};

/// The file that notes are written to.
const RUN_NOTES: Argument = Argument {
    name: "notes",
    takes: Takes::Value("FILE"),
    help: "Also appends notes to this file, as JSON lines",
    long_help: Some(
        "Also appends to this file a JSON line for each thing that a person\n\
     should hear of, as `wagons review --json` prints it",
    ),
};

/// The file that the notes of a feed are written to.
const FEED_NOTES: Argument = Argument {
    name: "notes",
    takes: Takes::Value("FILE"),
    help: "Also writes notes to this file, as JSON lines, once all\n\
     files have ended",
    long_help: Some(
        "Also writes notes to this file, as JSON lines, once all files have\n\
     ended, each with the number of the file and of the line",
    ),
};

/// For how long a wagon was not heard from.
const SILENT: Argument = Argument {
    name: "silent",
    takes: Takes::Number(MAX_SILENT_HOURS),
    help: "Also wagons not heard from for N hours, 1 to 100000",
    long_help: Some(
        "Also the wagons whose last message is N hours or more older than the\n\
     moment of `--at`, 1 to 100000",
    ),
};

/// How many lines are read.
const UPTO: Argument = Argument {
    name: "upto",
    takes: Takes::Number(MAX_INPUT_LINES),
    help: "Only the first N lines are read, 1 to 1000000",
    long_help: None,
};

/// The roster of wagons that come.
const WITH: Argument = Argument {
    name: "with",
    takes: Takes::Value("FILE"),
    help: "Wagons that are added or changed, a CSV file",
    long_help: Some(
        "Wagons that are added: a CSV file in the form of `--roster`. The row\n\
     of a wagon that is there already takes the place of the old one. A\n\
     wagon that is promised is refused",
    ),
};

/// A wagon that leaves.
const WITHOUT: Argument = Argument {
    name: "without",
    takes: Takes::Values("NUMBER"),
    help: "A wagon that leaves; may stand several times",
    long_help: Some(
        "A wagon that leaves the fleet; may stand several times. A wagon that\n\
     is promised is refused",
    ),
};

/// The arguments of each word that opens an office.
const OFFICE: &[Argument] = &[ROSTER, FROM, NETWORK, ENTRIES, KEPT, WORKERS];

/// The arguments of each word that lists an office.
const STATE: &[Argument] = &[PLACES, ZONE, CSV, JSON];

/// The arguments that say what `moves` shows.
const MOVES_CHOICE: &[Argument] = &[LATE, ORDER_ALONE, WAGON_ALONE, COMPANY, SILENT];

/// An office begins with a roster or with a checkpoint.
const START: Group = Group {
    name: "start",
    options: ["roster", "from"],
    required: true,
};

/// Places have names, or notes are JSON lines, or neither.
const NAMED: Group = Group {
    name: "named",
    options: ["places", "json"],
    required: false,
};

/// CSV is printed, or JSON lines, or neither.
const PRINTED: Group = Group {
    name: "printed",
    options: ["csv", "json"],
    required: false,
};

/// An order is followed, or a wagon.
const FOLLOWED: Group = Group {
    name: "followed",
    options: ["order", "wagon"],
    required: true,
};

/// A plan is that of a moment, or of a line.
const WHEN: Group = Group {
    name: "when",
    options: ["at", "line"],
    required: true,
};

/// An order is asked about, or a wagon, or neither.
const ASKED: Group = Group {
    name: "asked",
    options: ["order", "wagon"],
    required: false,
};
