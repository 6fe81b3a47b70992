//! Lines of a network.
ghost use Rattle.std.specs.Prelude.{◌≡◌, ◌+◌, ◌++◌, ◌<◌, ◌||◌, not, OnOk, count_by, length, option_map, slice_get, string_bytes};
ghost use Rattle.office_map.specs.Lines.{direction_words, has_shown_ends, is_back, is_second, is_shown, length_words, lies_at, line_edge, line_label, line_middle, line_name, line_node, line_part, line_parts, place_name};
ghost use Rattle.office_map.specs.Words.{quoted};

use crate::named::coordinates_of;
use crate::position::push_middle;
use crate::words::{push_number, push_quoted, push_words};
use line_network::{Line, Network};
use place_names::{Coordinates, Places};
use std::alloc::AllocError;

/// Adds the lines of a network whose ends are shown, of which `shown` tells by place. A line that is followed by the same one
/// back is drawn once, for both.
pub(crate) fn push_lines(
    text: &mut String,
    named: &Places,
    network: &Network,
    shown: &[bool],
) -> Result<(), AllocError>
    ensures { OnOk result (string_bytes text.new ≡ string_bytes text.old ++ line_parts named.now network.now shown.now) }
{
    let mut is_drawn = false;
    for i in 0..network.lines().len() {
        let both = takes_next(network, i, is_drawn);
        push_line_at(text, named, network, shown, i, is_drawn, both)?;
        is_drawn = both;
    }
    Ok(())
}

/// How many lines have both ends shown.
pub(crate) fn count_shown(network: &Network, shown: &[bool]) -> usize
    ensures { result ≡ count_by (has_shown_ends shown.now) network.now.lines }
{
    network
        .lines()
        .iter()
        .filter(|line| has_shown_ends(shown, line))
        .count()
}

/// Adds line `i`, as one that is run both ways where the line after it is drawn with it. Nothing where it `is_drawn` with the
/// line before it, or where an end of it isn't shown.
fn push_line_at(
    text: &mut String,
    named: &Places,
    network: &Network,
    shown: &[bool],
    i: usize,
    is_drawn: bool,
    both: bool,
) -> Result<(), AllocError>
    requires drawn { is_drawn ≡ is_second network.now.lines i }
    requires both { both ≡ is_second network.now.lines (i + 1) }
    ensures { OnOk result (string_bytes text.new ≡ string_bytes text.old ++ line_part named.now network.now shown.now i) }
{
    let Some(line) = line_at(network.lines(), i) else {
        return Ok(());
    };
    if is_left_out(shown, &line, is_drawn) {
        return Ok(());
    }
    push_line_node(text, named, network, i, &line)?;
    push_line_edge(text, network, i, &line, both)
}

/// Whether a line is left out: it `is_drawn` with the line before it, or an end of it isn't shown.
fn is_left_out(shown: &[bool], line: &Line, is_drawn: bool) -> bool
    ensures { result ≡ (is_drawn || not (has_shown_ends shown.now line.now)) }
{
    is_drawn || !has_shown_ends(shown, line)
}

/// Whether both ends of a line are shown.
fn has_shown_ends(shown: &[bool], line: &Line) -> bool
    ensures { result ≡ has_shown_ends shown.now line.now }
{
    is_shown(shown, line.from) && is_shown(shown, line.to)
}

/// Whether place `k` is shown.
fn is_shown(shown: &[bool], k: usize) -> bool
    ensures { result ≡ is_shown (slice_get shown.now k) }
{
    match shown.get(k) {
        Some(shown) => *shown,
        None => false,
    }
}

/// Whether the line after line `i` is drawn with it. A line that `is_drawn` with the line before it takes no other.
fn takes_next(network: &Network, i: usize, is_drawn: bool) -> bool
    requires place { i < length network.now.lines }
    requires drawn { is_drawn ≡ is_second network.now.lines i }
    ensures { result ≡ is_second network.now.lines (i + 1) }
{
    goes_back(network.lines(), i, i + 1) && !is_drawn
}

/// Line `i`.
fn line_at(lines: &[Line], i: usize) -> Option<Line>
    ensures { result ≡ slice_get lines.now i }
{
    lines.get(i).copied()
}

/// Adds the kilometres and minutes of line `i`, in the middle of the line.
fn push_line_node(
    text: &mut String,
    named: &Places,
    network: &Network,
    i: usize,
    line: &Line,
) -> Result<(), AllocError>
    ensures { OnOk result (string_bytes text.new ≡ string_bytes text.old ++ line_node named.now network.now.places i line.now) }
{
    push_line_label(text, i, line)?;
    push_line_middle(text, named, network, line)?;
    push_words(text, "];\n")
}

/// Adds the middle of a line, if it is said where both its ends lie.
fn push_line_middle(
    text: &mut String,
    named: &Places,
    network: &Network,
    line: &Line,
) -> Result<(), AllocError>
    ensures { OnOk result (string_bytes text.new ≡ string_bytes text.old ++ line_middle named.now network.now.places line.now) }
{
    let from = lies_at(named, network, line.from);
    let to = lies_at(named, network, line.to);
    push_middle(text, from, to)
}

/// Where place `k` lies, if that is said.
fn lies_at<'a>(named: &'a Places, network: &Network, k: usize) -> Option<&'a Coordinates>
    ensures { option_map (λ at. at.now) result ≡ lies_at named.now (slice_get network.now.places k) }
{
    match network.place_at(k) {
        Some(place) => coordinates_of(named, place),
        None => None,
    }
}

/// Adds the name of line `i`, and a label with its kilometres and minutes.
fn push_line_label(text: &mut String, i: usize, line: &Line) -> Result<(), AllocError>
    ensures { OnOk result (string_bytes text.new ≡ string_bytes text.old ++ line_label i line.now) }
{
    text.push_str("  ")?;
    push_line_name(text, i)?;
    text.push_str(" [label=\"")?;
    push_number(text, u64::from(line.km))?;
    text.push_str(" km\\n")?;
    push_number(text, u64::from(line.minutes))?;
    text.push_str(" min\"")
}

/// Adds the way of line `i`, over its kilometres and minutes.
fn push_line_edge(
    text: &mut String,
    network: &Network,
    i: usize,
    line: &Line,
    both: bool,
) -> Result<(), AllocError>
    ensures { OnOk result (string_bytes text.new ≡ string_bytes text.old ++ line_edge network.now.places i line.now both) }
{
    text.push_str("  ")?;
    push_place_name(text, network, line.from)?;
    text.push_str(" -> ")?;
    push_line_name(text, i)?;
    text.push_str(" -> ")?;
    push_place_name(text, network, line.to)?;
    text.push_str(" [len=")?;
    text.push_str(length_words(line.km))?;
    text.push_str(direction_words(both))?;
    text.push_str("];\n")
}

/// Adds the name that line `i` has on the map.
fn push_line_name(text: &mut String, i: usize) -> Result<(), AllocError>
    ensures { OnOk result (string_bytes text.new ≡ string_bytes text.old ++ line_name i) }
{
    text.push_str("\"line ")?;
    push_number(text, i as u64)?;
    text.push_str("\"")
}

/// Adds the name of place `k`.
fn push_place_name(text: &mut String, network: &Network, k: usize) -> Result<(), AllocError>
    ensures { OnOk result (string_bytes text.new ≡ string_bytes text.old ++ quoted (place_name network.now.places k)) }
{
    match network.place_at(k) {
        Some(place) => push_quoted(text, place.as_bytes()),
        None => text.push_str("\"\""),
    }
}

/// Whether line `k` is line `i` the other way, with the same kilometres and minutes.
fn goes_back(lines: &[Line], i: usize, k: usize) -> bool
    ensures { result ≡ is_back (slice_get lines.now i) (slice_get lines.now k) }
{
    match (lines.get(i), lines.get(k)) {
        (Some(line), Some(back)) => {
            line.from == back.to
                && line.to == back.from
                && line.km == back.km
                && line.minutes == back.minutes
        }
        _ => false,
    }
}

/// How a line is drawn that is run both ways.
fn direction_words(both: bool) -> &'static str
    ensures { result.now ≡ direction_words both }
{
    if both { ", dir=none" } else { "" }
}

/// How long each half of a line is drawn, in inches.
fn length_words(km: u32) -> &'static str
    ensures { result.now ≡ length_words km }
{
    if km <= 25 {
        "0.6"
    } else if km <= 50 {
        "0.8"
    } else if km <= 100 {
        "1"
    } else if km <= 200 {
        "1.2"
    } else if km <= 400 {
        "1.5"
    } else {
        "1.8"
    }
}
