//! What a subcommand asks for with its options.
ghost use Rattle.std.specs.Prelude.{◌≡◌, Some, None, IfOk, OnErr, unwrap_or};
ghost use Rattle.mdlview.specs.CommandLine.{asked_by, form_of, last_line, question_asked, timeline_form};

use mdl_view_program::{Form, Question};

/// A subcommand.
#[derive(Clone, Copy, Debug, PartialEq, Eq)]
pub enum Subcommand {
    /// Who blocks whom, and what would follow if a session ended.
    Why,
    /// The locks.
    Locks,
    /// The waits.
    Waits,
    /// The waits, as a graph.
    Graph,
    /// A picture of a script, or a page.
    Timeline,
    /// The query for a server's rows.
    Query,
}

/// The options that were given.
#[derive(Clone, Copy, Debug, PartialEq, Eq)]
pub struct Options {
    /// A script is read, and not rows.
    pub is_script: bool,
    /// The answer is an object of JSON.
    pub is_json: bool,
    /// The number of the last line that is played.
    pub last: Option<u64>,
    /// The kind of server whose query is asked for.
    pub server: Option<Server>,
    /// The timeline is a page.
    pub is_html: bool,
}

/// A kind of server.
#[derive(Clone, Copy, Debug, PartialEq, Eq)]
pub enum Server {
    /// MySQL.
    MySql,
    /// MariaDB.
    MariaDb,
}

/// What a command line asks for.
#[derive(Clone, Copy, Debug, PartialEq, Eq)]
pub enum Asked {
    /// The answer to a question about the locks of a server's rows.
    OfRows(Question),
    /// The answer to a request about a script, played to the end of the line of this number.
    OfScript(Look, u64),
    /// The query for the rows of such a server.
    Query(Server),
}

/// A request about a script.
#[derive(Clone, Copy, Debug, PartialEq, Eq)]
pub enum Look {
    /// A question about the locks that it leaves.
    Locks(Question),
    /// A picture of it.
    Timeline,
    /// A page with that picture.
    Page,
}

/// Why options are refused.
#[derive(Clone, Copy, Debug, PartialEq, Eq)]
pub enum Misuse {
    /// `--at` without `--script`.
    LineOfRows,
    /// `timeline` without `--script`.
    TimelineOfRows,
    /// `--json` for `graph`, `timeline` or `query`.
    NoJson,
    /// `--server` for another subcommand than `query`.
    NoServer,
    /// `--html` for another subcommand than `timeline`.
    NoHtml,
    /// `--server` with another name.
    UnknownServer,
    /// `--script` or `--at` for `query`.
    QueryOfScript,
}

impl Misuse {
    /// The refusal, as it is printed.
    pub fn as_str(self) -> &'static str {
        match self {
            Misuse::LineOfRows => {
                "'--at' is the line of a script: it needs '--script'. Rows show one moment only"
            }
            Misuse::TimelineOfRows => {
                "'timeline' needs '--script': a server's rows show one moment only"
            }
            Misuse::NoJson => "'--json' goes with 'why', 'locks' and 'waits' only",
            Misuse::NoServer => "'--server' goes with 'query' only",
            Misuse::NoHtml => "'--html' goes with 'timeline' only",
            Misuse::UnknownServer => "'--server' takes 'mysql' or 'mariadb'",
            Misuse::QueryOfScript => "'query' reads no script: it takes '--server' only",
        }
    }
}

/// What a subcommand asks for with these options.
pub fn asked_by(subcommand: Subcommand, options: Options) -> Result<Asked, Misuse>
    ensures asked { IfOk result (λ asked. asked_by subcommand options ≡ Some asked) }
    ensures refused { OnErr result (asked_by subcommand options ≡ None) }
{
    match subcommand {
        Subcommand::Why => locks_asked(Question::Why(form_of(options)), options),
        Subcommand::Locks => locks_asked(Question::Locks(form_of(options)), options),
        Subcommand::Waits => locks_asked(Question::Waits(form_of(options)), options),
        Subcommand::Graph => graph_asked(options),
        Subcommand::Timeline => timeline_asked(options),
        Subcommand::Query => query_asked(options),
    }
}

// The form that the options name.
fn form_of(options: Options) -> Form
    ensures { result ≡ form_of options.is_json }
{
    if options.is_json {
        Form::Json
    } else {
        Form::Text
    }
}

// A question about the locks that the options name.
fn locks_asked(question: Question, options: Options) -> Result<Asked, Misuse>
    ensures asked { IfOk result (λ asked. question_asked question options ≡ Some asked) }
    ensures refused { OnErr result (question_asked question options ≡ None) }
{
    match options {
        Options {
            server: Some(_),
            ..
        } => Err(Misuse::NoServer),
        Options { is_html: true, .. } => Err(Misuse::NoHtml),
        Options {
            is_script: true,
            last,
            ..
        } => Ok(Asked::OfScript(Look::Locks(question), last_of(last))),
        Options { last: Some(_), .. } => Err(Misuse::LineOfRows),
        _ => Ok(Asked::OfRows(question)),
    }
}

// The graph of the waits that the options name.
fn graph_asked(options: Options) -> Result<Asked, Misuse>
    ensures asked { IfOk result (λ asked. asked_by Subcommand.Graph options ≡ Some asked) }
    ensures refused { OnErr result (asked_by Subcommand.Graph options ≡ None) }
{
    if options.is_json {
        return Err(Misuse::NoJson);
    }
    locks_asked(Question::Graph, options)
}

// A picture of a script, or a page.
fn timeline_asked(options: Options) -> Result<Asked, Misuse>
    ensures asked { IfOk result (λ asked. asked_by Subcommand.Timeline options ≡ Some asked) }
    ensures refused { OnErr result (asked_by Subcommand.Timeline options ≡ None) }
{
    match options {
        Options { is_json: true, .. } => Err(Misuse::NoJson),
        Options {
            server: Some(_),
            ..
        } => Err(Misuse::NoServer),
        Options {
            is_script: true,
            last,
            is_html,
            ..
        } => Ok(Asked::OfScript(timeline_form(is_html), last_of(last))),
        _ => Err(Misuse::TimelineOfRows),
    }
}

// The form of a timeline.
fn timeline_form(is_html: bool) -> Look
    ensures { result ≡ timeline_form is_html }
{
    if is_html { Look::Page } else { Look::Timeline }
}

// The query for the rows of a server.
fn query_asked(options: Options) -> Result<Asked, Misuse>
    ensures asked { IfOk result (λ asked. asked_by Subcommand.Query options ≡ Some asked) }
    ensures refused { OnErr result (asked_by Subcommand.Query options ≡ None) }
{
    match options {
        Options { is_json: true, .. } => Err(Misuse::NoJson),
        Options {
            is_script: true,
            ..
        } => Err(Misuse::QueryOfScript),
        Options { last: Some(_), .. } => Err(Misuse::QueryOfScript),
        Options { is_html: true, .. } => Err(Misuse::NoHtml),
        Options {
            server: Some(server),
            ..
        } => Ok(Asked::Query(server)),
        _ => Ok(Asked::Query(Server::MySql)),
    }
}

// The number of the last line that is played. If none is given, the whole script is.
fn last_of(last: Option<u64>) -> u64
    ensures { result ≡ unwrap_or last last_line }
{
    match last {
        Some(line) => line,
        None => u64::MAX,
    }
}
