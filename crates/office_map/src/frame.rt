//! What is the same on every map: the legend, and how places, lines and promises are drawn.
ghost use Rattle.std.specs.Prelude.{◌≡◌};
ghost use Rattle.office_map.specs.Frame.{layout_words, room_words};

/// The first part of the head, up to the room between boxes.
pub(crate) const FIRST: &str = "digraph office {
  graph [";

/// The second part of the head, up to the number of the network in force.
pub(crate) const HEAD: &str = "];
  graph [overlap=prism, outputorder=edgesfirst];
  graph [fontname=\"Helvetica\", fontsize=10, labelloc=b, label=<
    <TABLE BORDER=\"0\" CELLBORDER=\"1\" CELLSPACING=\"4\">
      <TR>
        <TD BORDER=\"0\">Network ";

/// The rest of the head: the legend, and how a place of the network is drawn.
pub(crate) const LEGEND: &str = " is in force. Wagons of a class:</TD>
        <TD BGCOLOR=\"darkseagreen1\">free</TD>
        <TD BGCOLOR=\"lightskyblue1\">promised</TD>
        <TD>others</TD>
        <TD BORDER=\"0\">Orders:</TD>
        <TD BGCOLOR=\"orange\">lack wagons</TD>
        <TD BGCOLOR=\"lightskyblue1\">lack none</TD>
        <TD BORDER=\"0\">Places:</TD>
        <TD STYLE=\"rounded,dashed\">not in the network</TD>
      </TR>
      <TR>
        <TD BORDER=\"0\" COLSPAN=\"9\">Wagons on a journey are counted where they left. An order has the last moment at which wagons may arrive.</TD>
      </TR>
      <TR>
        <TD BORDER=\"0\" COLSPAN=\"9\">Thin lines have their kilometres and minutes; with arrows they lead one way. Dashed arrows are promised wagons.</TD>
      </TR>
    </TABLE>>];
  node [fontname=\"Helvetica\", fontsize=9, width=0, height=0];
  edge [fontname=\"Helvetica\", fontsize=9, arrowsize=0.6];
  node [shape=box, style=\"rounded,filled\", fillcolor=white, color=gray35, margin=\"0.05,0.03\"];
";

/// How a place is drawn that isn't in the network.
pub(crate) const OUTSIDE: &str = "  node [style=\"rounded,filled,dashed\"];
";

/// How a line is drawn, and its kilometres and minutes.
pub(crate) const LINES: &str =
    "  node [shape=plaintext, style=filled, fontcolor=gray20, fontsize=8, margin=\"0.01,0\"];
  edge [color=gray45];
";

/// How promised wagons are drawn.
pub(crate) const PROMISES: &str =
    "  edge [color=blue4, fontcolor=blue4, style=dashed, penwidth=1.5, len=1.2];
";

/// The room between few boxes, or between many, and how lines and arrows go.
pub(crate) fn room_words(few: bool) -> &'static str
    ensures { result.now ≡ room_words few }
{
    if few {
        "sep=\"+6\", esep=\"+3\", splines=true"
    } else {
        "sep=\"+1\", splines=line"
    }
}

/// How places without coordinates are set, where names or coordinates are known.
pub(crate) fn layout_words(is_named: bool) -> &'static str
    ensures { result.now ≡ layout_words is_named }
{
    if is_named { "  graph [mode=KK];\n" } else { "" }
}
