//! What help says of each subcommand.
use crate::asked::Subcommand;

/// What the program's help says below its subcommands.
pub const PROGRAM_HELP: &str =
    "Without a command it does what `why` does, with the options of `why`. `mdlview --version` prints its version.

Examples:
  mysql -B -e \"$(mdlview query)\" | mdlview
  mysql -B -e \"$(mdlview query)\" | mdlview waits --json
  mdlview --script --at 8 < examples/alter_stops_a_table.replay";

const WHY_EXAMPLES: &str = "Examples:
  mysql -B -e \"$(mdlview query)\" | mdlview why
  mdlview why --script --at 8 < examples/alter_stops_a_table.replay

Rows don't show in which order sessions began to wait: waits are taken in the order of the rows.";

const LOCKS_EXAMPLES: &str = "Examples:
  mysql -B -e \"$(mdlview query)\" | mdlview locks
  mdlview locks --script --json < examples/alter_stops_a_table.replay";

const WAITS_EXAMPLES: &str = "Examples:
  mysql -B -e \"$(mdlview query)\" | mdlview waits
  mdlview waits --script --at 8 < examples/alter_stops_a_table.replay

Rows don't show in which order sessions began to wait: waits are taken in the order of the rows.";

const GRAPH_EXAMPLES: &str = "Examples:
  mysql -B -e \"$(mdlview query)\" | mdlview graph | dot -Tsvg > waits.svg
  mdlview graph --script --at 8 < examples/alter_stops_a_table.replay

Rows don't show in which order sessions began to wait: waits are taken in the order of the rows.";

const TIMELINE_EXAMPLES: &str = "Examples:
  mdlview timeline --script < examples/alter_stops_a_table.replay > timeline.svg
  mdlview timeline --script --html < examples/alter_stops_a_table.replay > timeline.html

Lines go from left to right, and each session has a row. A server's rows show one moment only, so there is no timeline of them.";

const QUERY_EXAMPLES: &str = "Examples:
  mysql -B -e \"$(mdlview query)\" | mdlview
  mariadb -B -e \"$(mdlview query --server mariadb)\" | mdlview";

/// What it does, in a line.
pub fn about_text(subcommand: Subcommand) -> &'static str {
    match subcommand {
        Subcommand::Why => {
            "Prints how many requests wait, whom to end so that they go on, and the deadlocks; this is done without a command, too"
        }
        Subcommand::Locks => "Prints a row for each lock that is held or waited for",
        Subcommand::Waits =>
            "Prints a row for each request that waits, and each session in its way",
        Subcommand::Graph => "Prints the waits as a graph, in the DOT language of Graphviz",
        Subcommand::Timeline => {
            "Prints a picture of a script, as SVG or in a page: who waits for whom, and from which line to which"
        }
        Subcommand::Query =>
            "Prints the query for the rows of a server, which the other commands read",
    }
}

/// Its examples.
pub fn examples_of(subcommand: Subcommand) -> &'static str {
    match subcommand {
        Subcommand::Why => WHY_EXAMPLES,
        Subcommand::Locks => LOCKS_EXAMPLES,
        Subcommand::Waits => WAITS_EXAMPLES,
        Subcommand::Graph => GRAPH_EXAMPLES,
        Subcommand::Timeline => TIMELINE_EXAMPLES,
        Subcommand::Query => QUERY_EXAMPLES,
    }
}

/// What `--script` does.
pub fn script_help(subcommand: Subcommand) -> &'static str {
    if subcommand == Subcommand::Timeline {
        "Reads a script of statements: a server's rows have no timeline"
    } else {
        "Looks at the locks that a script of statements leaves, in place of a server's rows"
    }
}

/// What `--at` does.
pub fn at_help(subcommand: Subcommand) -> &'static str {
    if subcommand == Subcommand::Timeline {
        "Ends with this line of the script, and all that follows from it"
    } else {
        "Looks at the locks after this line of the script, with all that follows from it"
    }
}
