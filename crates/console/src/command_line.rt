//! The words after the program's name, read by `clap`. The definition is `command_line` (`specs/CommandLine.antt`).
//! Command lines and help: `tests/program.sh`. Wrong bodies: `must-fail/` and `must-fail-more/`.
ghost use Rattle.std.specs.Prelude.{◌≡◌, ◌∷◌, ◌⊎◌, ℕ, Bool, IfOk, IsErrAnd, IsSomeAnd, List, MatchResult, None, Option};
ghost use Rattle.std.specs.Prelude.{Some, [], codes, false, is_some, map, option_map, string_bytes, true};
ghost use Rattle.std.specs.List.{list_all};
ghost use Rattle.std.specs.Option.{option_map_or};
ghost use Rattle.clap.specs.Walk.{Text, texts};
ghost use Rattle.clap.specs.Words.{FailsBy, HasKind, all_of, fault_of, first_of, found_of, kind_of, rows_of};
ghost use Rattle.clap.specs.Words.{rule_of, subcommand_of, subcommand_rows_of};
ghost use Rattle.clap.specs.declared.error.kind.ErrorKind.TheVariants.{OutOfMemory, ValueValidation};
ghost use Rattle.console.specs.Arguments.{IsNoBoard, HasAll, HasArguments, HasFlag, HasWholeNumber};
ghost use Rattle.console.specs.CommandLine.{AreArguments, AreSubcommands, IsCommandOfApp, IsActionOf, IsFollowedBy, arguments_of, bare, board_fault, command_line, days_fault, days_found, line_fault};
ghost use Rattle.console.specs.CommandLine.{connections, last_number, last_port, is_json, is_on, is_only_open, most_connections, number_found};
ghost use Rattle.console.specs.CommandLine.{number_up_to, optional, optional_flag, request_number, rule, subcommand, subcommand_table, wanted, wanted_number};
ghost use Rattle.console.specs.Plain.{IsDo, IsDuty, IsImport, IsInit, IsReport, IsServe};
ghost use Rattle.console.specs.Plain.{asked_connections, board_words, do_words, duty_words, exceedances_words, import_words, init_words};
ghost use Rattle.console.specs.Plain.{is_plain, limits_words, members_words, pairing_words, pairings_words, request_words, roster_words, serve_words};
ghost use Rattle.request.specs.Days.{Days, days_read};
ghost use Rattle.request.specs.declared.form.Form.{Form};
ghost use Rattle.request.specs.declared.subject.Listed.{Listed};
ghost use Rattle.request.specs.declared.subject.Subject.TheVariants as of;

use crate::actions::Action;
use clap::error::ErrorKind;
use clap::{Arg, ArgAction, ArgMatches, Command, Error, value_parser};
use request::{Days, Form, Listed, RequestNumber, Subject};
use std::alloc::{AllocError, Global};

const ARGUMENTS: &str = "\
Arguments of the commands:
  FILE     file of the book
  ZONE     time zone of the base, a POSIX rule such as EST5EDT,M3.2.0,M11.1.0
  NUMBER   number of the request, 1 to 9223372036854775807
  PORT     port of 127.0.0.1, 1 to 65535
  FROM, TO first and last day by UTC, such as 2025-06-01, at most 62 days
  CREW     id of a crew member, such as C1
  PAIRING  id of a pairing, such as B101
  REPORT   report, a UTC instant such as 2025-06-10T15:59Z
  TIME     block-out and block-in in turn, UTC instants as 2025-06-10T16:30Z

'rosterbook COMMAND --help' says more of a command. The usual causes of each
refusal, and what to do, are in REFUSALS.md: in docs/ of the repository, in
share/doc/rosterbook of an installation. See also 'man rosterbook'.";

const DUTY_EXAMPLE: &str = "\
Example:
  rosterbook duty EST5EDT,M3.2.0,M11.1.0 2025-06-10T15:59Z \\
    2025-06-10T16:30Z 2025-06-10T20:30Z

Exit status: 0 within the limits, 1 exceeds one or refused, 2 a mistake in
the command line, 3 no memory or a failed output";

const INIT_EXAMPLE: &str = "\
Example:
  rosterbook init roster.db EST5EDT,M3.2.0,M11.1.0

The zone is that of the base HOME, which every book has. It can't be changed
later. A member at another place belongs to another base: 'rosterbook do'
adds one by the command add-base, with its own zone.

Exit status: 0 done, 1 the zone is refused, 2 a mistake in the command line,
3 the file has a book already, or the file, memory or the output fails";

const DO_EXAMPLE: &str = "\
Example:
  echo '{\"number\":1,\"do\":\"add-crew\",\"crew\":\"C1\",\"seat\":\"captain\",
    \"name\":\"Ada Ray\"}' | rosterbook do roster.db
  rosterbook do roster.db --lines < commands.txt

A command is one JSON object in UTF-8. It has \"number\", a whole number from 1
to 9223372036854775807, \"do\", which is one of these words, and more members:
  add-base        base, zone
  add-crew        crew, seat, name, base
  add-pairing     pairing, periods
  cancel-pairing  pairing
  assign          pairing, crew
  release         pairing, crew
  swap            pairing, crew, other_pairing, other_crew
  add-ground      ground, crew, begin, end, task
  cancel-ground   ground
  actual          pairing, period, report, release, segments
  record-outside  outside, crew, report, release, segments

All of them are required, in any order, but for base of add-crew: without it the
base is HOME. Members of other names are ignored.
  base, crew, pairing, ground, outside, other_crew, other_pairing
                  an id: 1 to 12 of A-Z, 0-9 and -
  zone            a POSIX rule such as \"MST7MDT,M3.2.0,M11.1.0\"
  seat            \"captain\" or \"first officer\"
  name, task      a text of 1 to 60 bytes
  period          a whole number from 1 to 10
  report, release, begin, end, out, in
                  a UTC instant such as \"2025-06-10T15:59Z\"
  periods         an array of 1 to 10 objects with report, release, segments
  segments        an array of 1 to 12 objects with flight, from, out, to, in;
                  those of actual and record-outside have out and in
  flight          1 to 8 of A-Z and 0-9
  from, to        an airport: 3 or 4 of A-Z and 0-9

If you send an accepted command again under its number, you get its answer
again, and it is done once. A refused one is judged anew. 'rosterbook --help'
says where refusals are explained.
One program at a time has a book: the others are refused with 90 Store.

--dry-run prints the answer that the command would get now, and keeps nothing.
--lines reads one command a line, and prints one reply a line, each once its
command is kept: up to the end of the input, or to a fault. Empty lines are
skipped, and a reply doesn't say its number. With both, each line is judged
alone: lines that are accepted one by one may break a limit together.

Exit status: 0 accepted, 1 refused, 2 a mistake in the command line, 3 there is
no book in the file, or the file, memory, the input or the output fails";

const IMPORT_EXAMPLE: &str = "\
Example:
  rosterbook import roster.db 500 < schedule.csv

The first line of the schedule is this header, which refusals call record 1:
  pairing,period,report,release,flight,from,out,to,in
Each line after it is a segment.

The pairings are the parts 1, 2, .. of the request NUMBER. If an import was
stopped, hand in the whole schedule again under the same number: each part is
done once. 'rosterbook --help' says where refusals are explained.
One program at a time has a book: the others are refused with 90 Store.

Exit status: 0 all accepted, 1 the schedule or a part is refused, 2 a mistake
in the command line, 3 there is no book in the file, or the file, memory, the
input or the output fails";

const ROSTER_EXAMPLE: &str = "\
Example:
  rosterbook roster roster.db C1

Prints the member's id, seat and name, the base in a line of its own if it isn't
HOME, and then the duties in order of time: 'plan' is as planned, 'actual' as
flown, 'outside' as flown for another certificate holder. Times are UTC. Lengths
are hours and minutes.

With --json it is one object of JSON: the duties by kind and id, each period
with plan and actual, the lengths in whole minutes, and the zone of the base.

Exit status: 0 done, 1 there is no such member, 2 a mistake in the command line,
3 there is no book in the file, or the file, memory or the output fails";

const PAIRING_EXAMPLE: &str = "\
Example:
  rosterbook pairing roster.db B101

Prints who holds the seats ('-' if nobody does), and then the periods with
their segments: 'plan' is as planned, 'actual' as flown. Times are UTC. With
--json it is one object of JSON, with the plan and the actual of each period.

Exit status: 0 done, 1 there is no such pairing, 2 a mistake in the command
line, 3 there is no book in the file, or the file, memory or the output fails";

const LIMITS_EXAMPLE: &str = "\
Example:
  rosterbook limits roster.db C1 --with B102

Prints the member's id, seat and name, and then a line for each of the eight
limits. It says what is nearest to the limit: the section of 14 CFR Part 117,
the hours and minutes that there are and those of the limit, the flight duty
period or the first minute of the window where that is, and 'exceeds' or
'within'. The last two lines are of rest: there must be at least this much.
Times are UTC.

With --with the pairing is judged beside the member's other duties, as if the
member held it, and nothing is kept. If the member doesn't hold it, the lines
with 'exceeds' are the sections for which an assignment of it would be refused
with 12 Limits.

With --json it is one object of JSON, and lengths are whole minutes.

Exit status: 0 done, also where a limit is exceeded, 1 there is no such member
or pairing, 2 a mistake in the command line, 3 there is no book in the file, or
the file, memory or the output fails";

const EXCEEDANCES_EXAMPLE: &str = "\
Example:
  rosterbook exceedances roster.db

Prints how many there are, and a line for each: the number of the request that
recorded it, the member, the section of 14 CFR Part 117, and the period of the
pairing, or 'outside' and the id of what was flown for another holder. With
--json it is one object of JSON.

Exit status: 0 done, 2 a mistake in the command line, 3 there is no book in the
file, or the file, memory or the output fails";

const MEMBERS_EXAMPLE: &str = "\
Example:
  rosterbook members roster.db

Prints how many members there are, and a line for each: id, seat, base and name,
in the order of the ids. With --json it is one object of JSON, which has the
bases and their zones too.

Exit status: 0 done, 2 a mistake in the command line, 3 there is no book in the
file, or the file, memory or the output fails";

const PAIRINGS_EXAMPLE: &str = "\
Example:
  rosterbook pairings roster.db --open

Prints how many pairings there are, and a line for each: id, first report, last
release, 'flown' if a period of it has flown times and else 'plan', captain and
first officer ('-' for a free seat), in the order of first reports. With --open
only those with a free seat are printed and counted. Times are UTC.

With --json it is one object of JSON, with the periods of each pairing, in the
order of the ids.

Exit status: 0 done, 2 a mistake in the command line, 3 there is no book in the
file, or the file, memory or the output fails";

const BOARD_EXAMPLE: &str = "\
Example:
  rosterbook board roster.db 2025-06-01 2025-06-30

Prints the roster of each member, in the order of the ids, with the duties that
have a minute in these days, and then the pairings with a free seat that do.
Days and times are UTC. At most 62 days are shown.

With --json it is one object of JSON, in which each period has the sections of
14 CFR Part 117 for which an exceedance is recorded.

Exit status: 0 done, 2 a mistake in the command line, 3 there is no book in the
file, or the file, memory or the output fails";

const REQUEST_EXAMPLE: &str = "\
Example:
  rosterbook request roster.db 7

Prints what is kept under the number of a request: of each part the command and
the reply, in JSON. A single command has part 0, the pairings of an import have
the parts 1, 2, .. Nothing is kept of what was refused, or of a number that
wasn't used. With --json it is one object of JSON.

Exit status: 0 done, 2 a mistake in the command line, 3 there is no book in the
file, or the file, memory or the output fails";

const SERVE_EXAMPLE: &str = "\
Example:
  rosterbook serve roster.db 8117 --connections 2 &
  curl http://127.0.0.1:8117/crew/C1

Prints 'listening PORT' once clients can connect, and then answers one request
of HTTP in each connection, once that has come whole. If a connection fails, it
prints 'refused 92 Channel' or 'refused 93 Network' on standard error, and
counts the connection. It ends after N connections, or after an answer 90.
One program at a time has a book: the others are refused with 90 Store.

Exit status: 0 after N connections, 2 a mistake in the command line, 3 an answer
was 90, the port can't be had, there is no book in the file, or the file, memory
or the output fails";

const NEW_FILE_HELP: &str = "File of the book, new or empty";

const FILE_HELP: &str = "File of the book";

const NUMBER_HELP: &str = "\
Number of the request whose parts the pairings are,
a whole number from 1 to 9223372036854775807";

const KEPT_HELP: &str = "\
Number of the request,
a whole number from 1 to 9223372036854775807";

const FROM_HELP: &str = "First day by UTC, YYYY-MM-DD, such as 2025-06-01";

const TO_HELP: &str = "\
Last day by UTC, such as 2025-06-30,
at most 61 days after the first";

const NO_DAYS: &str = "\
FROM and TO must be days such as 2025-06-01 and 2025-06-30,
of the years 2000 to 2099, TO not before FROM, at most 62 days";

const CREW_HELP: &str = "Id of the crew member";

const PAIRING_HELP: &str = "Id of the pairing";

const WITH_HELP: &str = "\
Id of a pairing to judge as if the member held it too;
nothing is kept";

const DRY_RUN_HELP: &str = "\
Answer as the command would be answered now;
nothing is kept";

const LINES_HELP: &str = "\
Answer one command a line of the input, one reply a line;
empty lines are skipped";

const OPEN_HELP: &str = "Print the pairings with a free seat alone";

const JSON_HELP: &str = "Print one object of JSON, for programs (see FORMATS.md)";

const PORT_HELP: &str = "\
Port of 127.0.0.1 to listen on,
a whole number from 1 to 65535";

const CONNECTIONS_HELP: &str = "\
How many connections to serve,
a whole number from 1 to 1000000";

const ZONE_HELP: &str = "\
Time zone of the base of the crew, a POSIX rule, which gives the
hours WEST of UTC: EST5EDT,M3.2.0,M11.1.0 or UTC0 or '<+0530>-5:30'";

const REPORT_HELP: &str = "\
Report, a UTC instant YYYY-MM-DDThh:mmZ,
such as 2025-06-10T15:59Z";

const TIME_HELP: &str = "\
Block-out and block-in of 1 to 12 segments in turn, UTC instants
YYYY-MM-DDThh:mmZ such as 2025-06-10T16:30Z 2025-06-10T20:30Z";

/// Reads `words`, the command line after the program's name. An error is `clap`'s own for these
/// words: a mistake, a call for help or the version, or out of memory.
pub fn action(alloc: Global, words: &[&str]) -> Result<Action, Error>
    // By the definition of the command line: what is asked for, or the mistake.
    ensures ok { IfOk result
        (λ a. IsSomeAnd (subcommand_of command_line (texts words.now)) (IsActionOf a)) }
    ensures refused { FailsBy (line_fault (texts words.now)) result }

    // What the words of each subcommand ask for, where none of them begins as an option does.
    ensures duty { (zone report time : Text) (times : List Text)
        → texts words.now ≡ duty_words zone report time times
        → list_all is_plain (zone ∷ report ∷ time ∷ times) ≡ true
        → MatchResult result (IsDuty zone report (time ∷ times))
        (λ e. kind_of e ≡ OutOfMemory) }
    ensures init { (file zone : Text)
        → texts words.now ≡ init_words file zone
        → list_all is_plain (file ∷ zone ∷ []) ≡ true
        → MatchResult result (IsInit file zone) (λ e. kind_of e ≡ OutOfMemory) }
    ensures do_one { (file : Text) (dry_run lines : Bool)
        → texts words.now ≡ do_words file dry_run lines → is_plain file ≡ true
        → MatchResult result (IsDo file dry_run lines) (λ e. kind_of e ≡ OutOfMemory) }
    ensures import { (file number : Text) (n : ℕ)
        → texts words.now ≡ import_words file number
        → list_all is_plain (file ∷ number ∷ []) ≡ true → request_number number ≡ Some n
        → MatchResult result (IsImport file n) (λ e. kind_of e ≡ OutOfMemory) }
    ensures roster { (file crew : Text) (form : Form)
        → texts words.now ≡ roster_words file crew form
        → list_all is_plain (file ∷ crew ∷ []) ≡ true
        → MatchResult result (IsReport file (of.Crew crew) form) (λ e. kind_of e ≡ OutOfMemory) }
    ensures pairing { (file id : Text) (form : Form)
        → texts words.now ≡ pairing_words file id form
        → list_all is_plain (file ∷ id ∷ []) ≡ true
        → MatchResult result (IsReport file (of.Pairing id) form)
        (λ e. kind_of e ≡ OutOfMemory) }
    ensures limits { (file crew : Text) (id : Option Text) (form : Form)
        → texts words.now ≡ limits_words file crew id form
        → list_all is_plain (file ∷ crew ∷ []) ≡ true → option_map_or is_plain id true ≡ true
        → MatchResult result (IsReport file (of.Limits crew id) form)
        (λ e. kind_of e ≡ OutOfMemory) }
    ensures exceedances { (file : Text) (form : Form)
        → texts words.now ≡ exceedances_words file form → is_plain file ≡ true
        → MatchResult result (IsReport file of.Exceedances form)
        (λ e. kind_of e ≡ OutOfMemory) }
    ensures members { (file : Text) (form : Form)
        → texts words.now ≡ members_words file form → is_plain file ≡ true
        → MatchResult result (IsReport file of.Members form) (λ e. kind_of e ≡ OutOfMemory) }
    ensures pairings { (file : Text) (which : Listed) (form : Form)
        → texts words.now ≡ pairings_words file which form → is_plain file ≡ true
        → MatchResult result (IsReport file (of.Pairings which) form)
        (λ e. kind_of e ≡ OutOfMemory) }
    ensures board { (file from to : Text) (days : Days) (form : Form)
        → texts words.now ≡ board_words file from to form
        → list_all is_plain (file ∷ from ∷ to ∷ []) ≡ true → days_read from to ≡ Some days
        → MatchResult result (IsReport file (of.Board days) form)
        (λ e. kind_of e ≡ OutOfMemory) }
    ensures request { (file number : Text) (n : ℕ) (form : Form)
        → texts words.now ≡ request_words file number form
        → list_all is_plain (file ∷ number ∷ []) ≡ true → request_number number ≡ Some n
        → MatchResult result (IsReport file (of.Request n) form) (λ e. kind_of e ≡ OutOfMemory) }
    ensures serve { (file port : Text) (count : Option Text) (p n : ℕ)
        → texts words.now ≡ serve_words file port count
        → list_all is_plain (file ∷ port ∷ []) ≡ true → option_map_or is_plain count true ≡ true
        → number_up_to last_port port ≡ Some p → asked_connections count ≡ Some n
        → MatchResult result (IsServe file p n) (λ e. kind_of e ≡ OutOfMemory) }

    // Numbers out of their ranges, and days that can't be shown.
    ensures board_days { (file from to : Text) (form : Form)
        → texts words.now ≡ board_words file from to form
        → list_all is_plain (file ∷ from ∷ to ∷ []) ≡ true → days_read from to ≡ None
        → IsErrAnd result (HasKind (ValueValidation ∷ [])) }
    ensures kept_number { (file number : Text) (form : Form)
        → texts words.now ≡ request_words file number form
        → list_all is_plain (file ∷ number ∷ []) ≡ true → request_number number ≡ None
        → IsErrAnd result (HasKind (ValueValidation ∷ [])) }
    ensures import_number { (file number : Text)
        → texts words.now ≡ import_words file number
        → list_all is_plain (file ∷ number ∷ []) ≡ true → request_number number ≡ None
        → IsErrAnd result (HasKind (ValueValidation ∷ [])) }
    ensures serve_numbers { (file port : Text) (count : Option Text)
        → texts words.now ≡ serve_words file port count
        → list_all is_plain (file ∷ port ∷ []) ≡ true → option_map_or is_plain count true ≡ true
        → (number_up_to last_port port ≡ None) ⊎ (asked_connections count ≡ None)
        → IsErrAnd result (HasKind (ValueValidation ∷ [])) }
{
    read(alloc, words)
}

/// Reads the same, as `clap` and the days of a board state it alone. It serves the prover alone: the other clauses of `action` are proved of one
/// result, and not of each way in which this function may end.
fn read(alloc: Global, words: &[&str]) -> Result<Action, Error>
    ensures ok { IfOk result
        (λ a. IsSomeAnd (subcommand_of command_line (texts words.now)) (IsActionOf a)) }
    ensures refused { FailsBy (line_fault (texts words.now)) result }
{
    let matches = command(alloc)?.try_get_matches_from(words)?;
    action_of(alloc, &matches)
}

/// Makes the whole command line.
fn command<'a>(alloc: Global) -> Result<Command<'a>, AllocError>
    ensures { IfOk result (IsCommandOfApp command_line) }
{
    let mut subcommands = Vec::new(alloc);
    add_subcommands(alloc, &mut subcommands)?;
    bare_command(alloc)?.subcommands(subcommands)
}

/// Adds all subcommands to an empty list, in the order in which help lists them.
fn add_subcommands<'a>(alloc: Global, list: &mut Vec<Command<'a>>) -> Result<(), AllocError>
    requires { list.now.items ≡ [] }
    ensures { IfOk result (λ _. AreSubcommands list.new.items subcommand_table) }
{
    add_duty(alloc, list)?;
    add_init(alloc, list)?;
    add_do(alloc, list)?;
    add_import(alloc, list)?;
    add_roster(alloc, list)?;
    add_pairing(alloc, list)?;
    add_limits(alloc, list)?;
    add_exceedances(alloc, list)?;
    add_members(alloc, list)?;
    add_pairings(alloc, list)?;
    add_board(alloc, list)?;
    add_request(alloc, list)?;
    add_serve(alloc, list)
}

/// Makes the program without its subcommands.
fn bare_command<'a>(alloc: Global) -> Result<Command<'a>, AllocError>
    ensures { IfOk result (IsCommandOfApp bare) }
{
    Command::new(alloc, "rosterbook")
        .version("0.1.0")
        .about("The roster book of a crew office under 14 CFR Part 117")
        .after_help(ARGUMENTS)
        .no_binary_name(true)
        .subcommand_required(true)
        .arg_required_else_help(true)
        .disable_help_subcommand(true)
        .bin_name("rosterbook")
}

/// Adds a subcommand of its name, what help says before and after its arguments, and these in order.
fn add_subcommand<'a>(
    alloc: Global,
    list: &mut Vec<Command<'a>>,
    name: &'a str,
    about: &'a str,
    example: &'a str,
    arguments: Vec<Arg<'a>>,
) -> Result<(), AllocError>
    requires { AreArguments arguments.items (arguments_of name.now) }
    ensures { IfOk result (λ _. IsFollowedBy (subcommand name.entry.now)
        list.old.items list.new.items) }
{
    let command = Command::new(alloc, name)
        .about(about)
        .after_help(example)
        .args(arguments)?;
    Ok(list.push(command)?)
}

/// Adds the subcommand `duty`.
fn add_duty<'a>(alloc: Global, list: &mut Vec<Command<'a>>) -> Result<(), AllocError>
    ensures { IfOk result (λ _. IsFollowedBy (subcommand (codes "duty"))
        list.old.items list.new.items) }
{
    let about = "Judge one flight duty period by Tables A and B of 14 CFR Part 117";
    let zone = positional(alloc, "zone", "ZONE").help(ZONE_HELP);
    let report = positional(alloc, "report", "REPORT").help(REPORT_HELP);
    let times = positional(alloc, "time", "TIME")
        .action(ArgAction::Append)
        .help(TIME_HELP);
    let arguments = vec![in alloc; zone, report, times]?;
    add_subcommand(alloc, list, "duty", about, DUTY_EXAMPLE, arguments)
}

/// Adds the subcommand `init`.
fn add_init<'a>(alloc: Global, list: &mut Vec<Command<'a>>) -> Result<(), AllocError>
    ensures { IfOk result (λ _. IsFollowedBy (subcommand (codes "init"))
        list.old.items list.new.items) }
{
    let about = "Make a book in a new or empty file";
    let file = positional(alloc, "file", "FILE").help(NEW_FILE_HELP);
    let zone = positional(alloc, "zone", "ZONE").help(ZONE_HELP);
    let arguments = vec![in alloc; file, zone]?;
    add_subcommand(alloc, list, "init", about, INIT_EXAMPLE, arguments)
}

/// Adds the subcommand `do`.
fn add_do<'a>(alloc: Global, list: &mut Vec<Command<'a>>) -> Result<(), AllocError>
    ensures { IfOk result (λ _. IsFollowedBy (subcommand (codes "do"))
        list.old.items list.new.items) }
{
    let about = "Answer one command, which is JSON on standard input";
    let file = positional(alloc, "file", "FILE").help(FILE_HELP);
    let dry_run = flag(alloc, "dry-run").help(DRY_RUN_HELP);
    let lines = flag(alloc, "lines").help(LINES_HELP);
    let arguments = vec![in alloc; file, dry_run, lines]?;
    add_subcommand(alloc, list, "do", about, DO_EXAMPLE, arguments)
}

/// Adds the subcommand `import`.
fn add_import<'a>(alloc: Global, list: &mut Vec<Command<'a>>) -> Result<(), AllocError>
    ensures { IfOk result (λ _. IsFollowedBy (subcommand (codes "import"))
        list.old.items list.new.items) }
{
    let about = "Add the pairings of a schedule, which is CSV on standard input";
    let file = positional(alloc, "file", "FILE").help(FILE_HELP);
    let number = number_argument(alloc);
    let arguments = vec![in alloc; file, number]?;
    add_subcommand(alloc, list, "import", about, IMPORT_EXAMPLE, arguments)
}

/// Adds the subcommand `roster`.
fn add_roster<'a>(alloc: Global, list: &mut Vec<Command<'a>>) -> Result<(), AllocError>
    ensures { IfOk result (λ _. IsFollowedBy (subcommand (codes "roster"))
        list.old.items list.new.items) }
{
    let about = "Print a member's roster: each duty, as planned or as flown";
    let file = positional(alloc, "file", "FILE").help(FILE_HELP);
    let crew = positional(alloc, "crew", "CREW").help(CREW_HELP);
    let json = json_flag(alloc);
    let arguments = vec![in alloc; file, crew, json]?;
    add_subcommand(alloc, list, "roster", about, ROSTER_EXAMPLE, arguments)
}

/// Adds the subcommand `pairing`.
fn add_pairing<'a>(alloc: Global, list: &mut Vec<Command<'a>>) -> Result<(), AllocError>
    ensures { IfOk result (λ _. IsFollowedBy (subcommand (codes "pairing"))
        list.old.items list.new.items) }
{
    let about = "Print a pairing: who flies it, its periods and segments";
    let file = positional(alloc, "file", "FILE").help(FILE_HELP);
    let id = positional(alloc, "pairing", "PAIRING").help(PAIRING_HELP);
    let json = json_flag(alloc);
    let arguments = vec![in alloc; file, id, json]?;
    add_subcommand(alloc, list, "pairing", about, PAIRING_EXAMPLE, arguments)
}

/// Adds the subcommand `limits`.
fn add_limits<'a>(alloc: Global, list: &mut Vec<Command<'a>>) -> Result<(), AllocError>
    ensures { IfOk result (λ _. IsFollowedBy (subcommand (codes "limits"))
        list.old.items list.new.items) }
{
    let about = "Print how near a member's duties are to each of the eight limits";
    let file = positional(alloc, "file", "FILE").help(FILE_HELP);
    let crew = positional(alloc, "crew", "CREW").help(CREW_HELP);
    let with = with_option(alloc);
    let json = json_flag(alloc);
    let arguments = vec![in alloc; file, crew, with, json]?;
    add_subcommand(alloc, list, "limits", about, LIMITS_EXAMPLE, arguments)
}

/// Adds the subcommand `exceedances`.
fn add_exceedances<'a>(alloc: Global, list: &mut Vec<Command<'a>>) -> Result<(), AllocError>
    ensures { IfOk result (λ _. IsFollowedBy (subcommand (codes "exceedances"))
        list.old.items list.new.items) }
{
    let about = "Print which flown duties went over a limit, and over which";
    let file = positional(alloc, "file", "FILE").help(FILE_HELP);
    let json = json_flag(alloc);
    let arguments = vec![in alloc; file, json]?;
    add_subcommand(
        alloc,
        list,
        "exceedances",
        about,
        EXCEEDANCES_EXAMPLE,
        arguments,
    )
}

/// Adds the subcommand `members`.
fn add_members<'a>(alloc: Global, list: &mut Vec<Command<'a>>) -> Result<(), AllocError>
    ensures { IfOk result (λ _. IsFollowedBy (subcommand (codes "members"))
        list.old.items list.new.items) }
{
    let about = "Print the members of the crew";
    let file = positional(alloc, "file", "FILE").help(FILE_HELP);
    let json = json_flag(alloc);
    let arguments = vec![in alloc; file, json]?;
    add_subcommand(alloc, list, "members", about, MEMBERS_EXAMPLE, arguments)
}

/// Adds the subcommand `pairings`.
fn add_pairings<'a>(alloc: Global, list: &mut Vec<Command<'a>>) -> Result<(), AllocError>
    ensures { IfOk result (λ _. IsFollowedBy (subcommand (codes "pairings"))
        list.old.items list.new.items) }
{
    let about = "Print the pairings, a line each";
    let file = positional(alloc, "file", "FILE").help(FILE_HELP);
    let only_open = flag(alloc, "open").help(OPEN_HELP);
    let json = json_flag(alloc);
    let arguments = vec![in alloc; file, only_open, json]?;
    add_subcommand(alloc, list, "pairings", about, PAIRINGS_EXAMPLE, arguments)
}

/// Adds the subcommand `board`.
fn add_board<'a>(alloc: Global, list: &mut Vec<Command<'a>>) -> Result<(), AllocError>
    ensures { IfOk result (λ _. IsFollowedBy (subcommand (codes "board"))
        list.old.items list.new.items) }
{
    let about = "Print what all members do in some days, and what is open then";
    let arguments = board_arguments(alloc)?;
    add_subcommand(alloc, list, "board", about, BOARD_EXAMPLE, arguments)
}

/// Makes the arguments of `board`.
fn board_arguments<'a>(alloc: Global) -> Result<Vec<Arg<'a>>, AllocError>
    ensures { IfOk result (λ list. AreArguments list.items (arguments_of (codes "board"))) }
{
    let file = positional(alloc, "file", "FILE").help(FILE_HELP);
    let from = positional(alloc, "from", "FROM").help(FROM_HELP);
    let to = positional(alloc, "to", "TO").help(TO_HELP);
    let json = json_flag(alloc);
    Ok(vec![in alloc; file, from, to, json]?)
}

/// Adds the subcommand `request`.
fn add_request<'a>(alloc: Global, list: &mut Vec<Command<'a>>) -> Result<(), AllocError>
    ensures { IfOk result (λ _. IsFollowedBy (subcommand (codes "request"))
        list.old.items list.new.items) }
{
    let about = "Print what is kept under a request's number";
    let file = positional(alloc, "file", "FILE").help(FILE_HELP);
    let number = number_argument(alloc).help(KEPT_HELP);
    let json = json_flag(alloc);
    let arguments = vec![in alloc; file, number, json]?;
    add_subcommand(alloc, list, "request", about, REQUEST_EXAMPLE, arguments)
}

/// Adds the subcommand `serve`.
fn add_serve<'a>(alloc: Global, list: &mut Vec<Command<'a>>) -> Result<(), AllocError>
    ensures { IfOk result (λ _. IsFollowedBy (subcommand (codes "serve"))
        list.old.items list.new.items) }
{
    let about = "Answer requests of HTTP on 127.0.0.1";
    let file = positional(alloc, "file", "FILE").help(FILE_HELP);
    let port = port_argument(alloc);
    let count = connections_option(alloc);
    let arguments = vec![in alloc; file, port, count]?;
    add_subcommand(alloc, list, "serve", about, SERVE_EXAMPLE, arguments)
}

/// Makes the argument for the number of a request.
fn number_argument<'a>(alloc: Global) -> Arg<'a>
    ensures rule { rule_of result ≡ wanted_number last_number (codes "number") }
    ensures local { result.global ≡ false }
{
    positional(alloc, "number", "NUMBER")
        .help(NUMBER_HELP)
        .value_parser(value_parser!(u64).range(1..=i64::MAX))
}

/// Makes the argument for the port of `serve`.
fn port_argument<'a>(alloc: Global) -> Arg<'a>
    ensures rule { rule_of result ≡ wanted_number last_port (codes "port") }
    ensures local { result.global ≡ false }
{
    positional(alloc, "port", "PORT")
        .help(PORT_HELP)
        .value_parser(value_parser!(u64).range(1..=65_535))
}

/// Makes the option for how many connections `serve` takes: 1,000,000 where it isn't given.
fn connections_option<'a>(alloc: Global) -> Arg<'a>
    ensures rule { rule_of result ≡ rule connections }
    ensures local { result.global ≡ false }
{
    Arg::new(alloc, "connections")
        .long("connections")
        .value_name("N")
        .help(CONNECTIONS_HELP)
        .default_value("1000000")
        .value_parser(value_parser!(u64).range(1..=1_000_000))
}

/// Makes the option for a pairing that `limits` judges as if it were held.
fn with_option<'a>(alloc: Global) -> Arg<'a>
    ensures rule { rule_of result ≡ optional (codes "with") }
    ensures local { result.global ≡ false }
{
    Arg::new(alloc, "with")
        .long("with")
        .value_name("PAIRING")
        .help(WITH_HELP)
}

/// Makes the flag for a report in JSON, which each report has.
fn json_flag<'a>(alloc: Global) -> Arg<'a>
    ensures rule { rule_of result ≡ optional_flag (codes "json") }
    ensures local { result.global ≡ false }
{
    flag(alloc, "json").help(JSON_HELP)
}

/// Makes a flag, which may be left out.
fn flag<'a>(alloc: Global, id: &'a str) -> Arg<'a>
    ensures rule { rule_of result ≡ optional_flag id.entry.now }
    ensures local { result.global ≡ false }
{
    Arg::new(alloc, id).long(id).action(ArgAction::SetTrue)
}

/// Makes an argument by its place that must be there.
fn positional<'a>(alloc: Global, id: &'a str, value_name: &'a str) -> Arg<'a>
    ensures rule { rule_of result ≡ wanted id.entry.now }
    ensures local { result.global ≡ false }
{
    Arg::new(alloc, id).value_name(value_name).required(true)
}

/// Reads the action that the subcommand of the matches asks for.
fn action_of(alloc: Global, matches: &ArgMatches<'_>) -> Result<Action, Error>
    requires { HasArguments (subcommand_rows_of matches.now) }
    ensures ok { IfOk result (λ a. IsSomeAnd (subcommand_rows_of matches.now) (IsActionOf a)) }
    ensures refused { FailsBy (days_fault (subcommand_rows_of matches.now)) result }
{
    let (name, arguments) = matches.subcommand().unwrap();
    match name {
        "board" => board_of(alloc, arguments),
        name => Ok(other_action_of(alloc, name, arguments)?),
    }
}

/// Reads the action of a subcommand of this name, which isn't `board`.
fn other_action_of(
    alloc: Global,
    name: &str,
    arguments: &ArgMatches<'_>,
) -> Result<Action, AllocError>
    requires { IsNoBoard (name.now, rows_of (found_of arguments.now)) }
    ensures { IfOk result (λ a. IsActionOf a (name.now, rows_of (found_of arguments.now))) }
{
    match name {
        "duty" => duty_of(alloc, arguments),
        "init" => init_of(alloc, arguments),
        "do" => do_of(alloc, arguments),
        "import" => import_of(alloc, arguments),
        "roster" => roster_of(alloc, arguments),
        "pairing" => pairing_of(alloc, arguments),
        "limits" => limits_of(alloc, arguments),
        "exceedances" => exceedances_of(alloc, arguments),
        "members" => members_of(alloc, arguments),
        "pairings" => pairings_of(alloc, arguments),
        "request" => request_of(alloc, arguments),
        "serve" => serve_of(alloc, arguments),
        _ => unreachable!(),
    }
}

/// Reads the arguments of `duty`.
fn duty_of(alloc: Global, matches: &ArgMatches<'_>) -> Result<Action, AllocError>
    requires { HasAll (codes "duty") (rows_of (found_of matches.now)) }
    ensures { IfOk result (λ a. IsActionOf a (codes "duty", rows_of (found_of matches.now))) }
{
    Ok(Action::Duty {
        zone: text_of(alloc, matches, "zone")?,
        report: text_of(alloc, matches, "report")?,
        times: texts_of(alloc, matches, "time")?,
    })
}

/// Reads the arguments of `init`.
fn init_of(alloc: Global, matches: &ArgMatches<'_>) -> Result<Action, AllocError>
    requires { HasAll (codes "init") (rows_of (found_of matches.now)) }
    ensures { IfOk result (λ a. IsActionOf a (codes "init", rows_of (found_of matches.now))) }
{
    let file = text_of(alloc, matches, "file")?;
    let zone = text_of(alloc, matches, "zone")?;
    Ok(Action::Init { file, zone })
}

/// Reads the arguments of `do`.
fn do_of(alloc: Global, matches: &ArgMatches<'_>) -> Result<Action, AllocError>
    requires { HasAll (codes "do") (rows_of (found_of matches.now)) }
    ensures { IfOk result (λ a. IsActionOf a (codes "do", rows_of (found_of matches.now))) }
{
    let file = text_of(alloc, matches, "file")?;
    let dry_run = flag_of(matches, "dry-run");
    let lines = flag_of(matches, "lines");
    Ok(Action::Do {
        file,
        dry_run,
        lines,
    })
}

/// Reads the arguments of `import`.
fn import_of(alloc: Global, matches: &ArgMatches<'_>) -> Result<Action, AllocError>
    requires { HasAll (codes "import") (rows_of (found_of matches.now)) }
    ensures { IfOk result (λ a. IsActionOf a (codes "import", rows_of (found_of matches.now))) }
{
    let file = text_of(alloc, matches, "file")?;
    let number = number_of(matches, "number");
    Ok(Action::Import { file, number })
}

/// Reads the arguments of `roster`.
fn roster_of(alloc: Global, matches: &ArgMatches<'_>) -> Result<Action, AllocError>
    requires { HasAll (codes "roster") (rows_of (found_of matches.now)) }
    ensures { IfOk result (λ a. IsActionOf a (codes "roster", rows_of (found_of matches.now))) }
{
    let file = text_of(alloc, matches, "file")?;
    let subject = Subject::Crew(text_of(alloc, matches, "crew")?);
    let form = form_of(matches);
    Ok(Action::Report {
        file,
        subject,
        form,
    })
}

/// Reads the arguments of `pairing`.
fn pairing_of(alloc: Global, matches: &ArgMatches<'_>) -> Result<Action, AllocError>
    requires { HasAll (codes "pairing") (rows_of (found_of matches.now)) }
    ensures { IfOk result (λ a. IsActionOf a (codes "pairing", rows_of (found_of matches.now))) }
{
    let file = text_of(alloc, matches, "file")?;
    let subject = Subject::Pairing(text_of(alloc, matches, "pairing")?);
    let form = form_of(matches);
    Ok(Action::Report {
        file,
        subject,
        form,
    })
}

/// Reads the arguments of `limits`.
fn limits_of(alloc: Global, matches: &ArgMatches<'_>) -> Result<Action, AllocError>
    requires { HasAll (codes "limits") (rows_of (found_of matches.now)) }
    ensures { IfOk result (λ a. IsActionOf a (codes "limits", rows_of (found_of matches.now))) }
{
    let file = text_of(alloc, matches, "file")?;
    let crew = text_of(alloc, matches, "crew")?;
    let with = optional_text_of(alloc, matches, "with")?;
    let subject = Subject::Limits { crew, with };
    let form = form_of(matches);
    Ok(Action::Report {
        file,
        subject,
        form,
    })
}

/// Reads the arguments of `exceedances`.
fn exceedances_of(alloc: Global, matches: &ArgMatches<'_>) -> Result<Action, AllocError>
    requires { HasAll (codes "exceedances") (rows_of (found_of matches.now)) }
    ensures { IfOk result
        (λ a. IsActionOf a (codes "exceedances", rows_of (found_of matches.now))) }
{
    let file = text_of(alloc, matches, "file")?;
    let subject = Subject::Exceedances;
    let form = form_of(matches);
    Ok(Action::Report {
        file,
        subject,
        form,
    })
}

/// Reads the arguments of `members`.
fn members_of(alloc: Global, matches: &ArgMatches<'_>) -> Result<Action, AllocError>
    requires { HasAll (codes "members") (rows_of (found_of matches.now)) }
    ensures { IfOk result (λ a. IsActionOf a (codes "members", rows_of (found_of matches.now))) }
{
    let file = text_of(alloc, matches, "file")?;
    let subject = Subject::Members;
    let form = form_of(matches);
    Ok(Action::Report {
        file,
        subject,
        form,
    })
}

/// Reads the arguments of `pairings`.
fn pairings_of(alloc: Global, matches: &ArgMatches<'_>) -> Result<Action, AllocError>
    requires { HasAll (codes "pairings") (rows_of (found_of matches.now)) }
    ensures { IfOk result (λ a. IsActionOf a (codes "pairings", rows_of (found_of matches.now))) }
{
    let file = text_of(alloc, matches, "file")?;
    let subject = Subject::Pairings(listed_by(flag_of(matches, "open")));
    let form = form_of(matches);
    Ok(Action::Report {
        file,
        subject,
        form,
    })
}

/// Reads the arguments of `board`.
fn board_of(alloc: Global, matches: &ArgMatches<'_>) -> Result<Action, Error>
    requires { HasAll (codes "board") (rows_of (found_of matches.now)) }
    ensures ok { IfOk result
        (λ a. IsActionOf a (codes "board", rows_of (found_of matches.now))) }
    ensures refused { FailsBy (board_fault (days_found (rows_of (found_of matches.now)))) result }
{
    let Some(days) = days_of(matches) else {
        return Err(no_days(alloc)?);
    };
    let file = text_of(alloc, matches, "file")?;
    let subject = Subject::Board(days);
    let form = form_of(matches);
    Ok(Action::Report {
        file,
        subject,
        form,
    })
}

/// Reads the days of `board`.
fn days_of(matches: &ArgMatches<'_>) -> Option<Days>
    requires from { is_some (first_of (codes "from") (rows_of (found_of matches.now))) ≡ true }
    requires to { is_some (first_of (codes "to") (rows_of (found_of matches.now))) ≡ true }
    ensures { result ≡ days_found (rows_of (found_of matches.now)) }
{
    Days::read(str_of(matches, "from"), str_of(matches, "to"))
}

/// Makes the error of days that can't be shown.
fn no_days(alloc: Global) -> Result<Error, AllocError>
    ensures { IfOk result (λ e. kind_of e ≡ ValueValidation) }
{
    let mut board = Command::new(alloc, "board")
        .bin_name("rosterbook board")?
        .args(board_arguments(alloc)?)?;
    board.error(ErrorKind::ValueValidation, NO_DAYS)
}

/// Reads the arguments of `request`.
fn request_of(alloc: Global, matches: &ArgMatches<'_>) -> Result<Action, AllocError>
    requires { HasAll (codes "request") (rows_of (found_of matches.now)) }
    ensures { IfOk result (λ a. IsActionOf a (codes "request", rows_of (found_of matches.now))) }
{
    let file = text_of(alloc, matches, "file")?;
    let subject = Subject::Request(number_of(matches, "number"));
    let form = form_of(matches);
    Ok(Action::Report {
        file,
        subject,
        form,
    })
}

/// Returns which pairings are listed: those with a free seat alone, or all.
fn listed_by(only_open: bool) -> Listed
    ensures { is_only_open result ≡ only_open }
{
    if only_open { Listed::Open } else { Listed::All }
}

/// Reads the form of a report: JSON, if the flag for that is given.
fn form_of(matches: &ArgMatches<'_>) -> Form
    requires { HasFlag (codes "json") (rows_of (found_of matches.now)) }
    ensures { is_json result ≡ is_on (codes "json") (rows_of (found_of matches.now)) }
{
    form_by(flag_of(matches, "json"))
}

/// Returns the form of a report: JSON or text.
fn form_by(as_json: bool) -> Form
    ensures { is_json result ≡ as_json }
{
    if as_json { Form::Json } else { Form::Text }
}

/// Reads the arguments of `serve`.
fn serve_of(alloc: Global, matches: &ArgMatches<'_>) -> Result<Action, AllocError>
    requires { HasAll (codes "serve") (rows_of (found_of matches.now)) }
    ensures { IfOk result (λ a. IsActionOf a (codes "serve", rows_of (found_of matches.now))) }
{
    let file = text_of(alloc, matches, "file")?;
    let port = port_of(matches, "port");
    let connections = connections_of(matches, "connections");
    Ok(Action::Serve {
        file,
        port,
        connections,
    })
}

/// Reads the value of an argument that is a port.
fn port_of(matches: &ArgMatches<'_>, id: &str) -> u16
    requires { HasWholeNumber last_port id.now (rows_of (found_of matches.now)) }
    ensures { number_found last_port id.now (rows_of (found_of matches.now)) ≡ Some result }
{
    whole_of(matches, id) as u16
}

/// Reads the value of an argument that is a number of connections.
fn connections_of(matches: &ArgMatches<'_>, id: &str) -> u32
    requires { HasWholeNumber most_connections id.now (rows_of (found_of matches.now)) }
    ensures { number_found most_connections id.now (rows_of (found_of matches.now)) ≡ Some result }
{
    whole_of(matches, id) as u32
}

/// Reads the value of an argument that is a request's number.
fn number_of(matches: &ArgMatches<'_>, id: &str) -> RequestNumber
    requires { HasWholeNumber last_number id.now (rows_of (found_of matches.now)) }
    ensures { number_found last_number id.now (rows_of (found_of matches.now)) ≡ Some result }
{
    RequestNumber::new(whole_of(matches, id)).unwrap()
}

/// Reads the value of an argument that is a whole number.
fn whole_of(matches: &ArgMatches<'_>, id: &str) -> u64
    requires { (most : ℕ) × HasWholeNumber most id.now (rows_of (found_of matches.now)) }
    ensures { (most : ℕ) → HasWholeNumber most id.now (rows_of (found_of matches.now))
        → number_found most id.now (rows_of (found_of matches.now)) ≡ Some result }
{
    matches.get_one::<u64>(id).unwrap()
}

/// Lends the first value of an argument that has one.
fn str_of<'m>(matches: &'m ArgMatches<'_>, id: &str) -> &'m str
    requires { is_some (first_of id.now (rows_of (found_of matches.now))) ≡ true }
    ensures { first_of id.now (rows_of (found_of matches.now)) ≡ Some result.now }
{
    matches.get_str(id).unwrap()
}

/// Copies the first value of an argument that has one.
fn text_of(alloc: Global, matches: &ArgMatches<'_>, id: &str) -> Result<String, AllocError>
    requires { is_some (first_of id.now (rows_of (found_of matches.now))) ≡ true }
    ensures { IfOk result
        (λ s. first_of id.now (rows_of (found_of matches.now)) ≡ Some (string_bytes s)) }
{
    String::from_str(alloc, str_of(matches, id))
}

/// Returns the first value of an argument, if it has one.
fn optional_text_of(
    alloc: Global,
    matches: &ArgMatches<'_>,
    id: &str,
) -> Result<Option<String>, AllocError>
    ensures { IfOk result
        (λ o. first_of id.now (rows_of (found_of matches.now)) ≡ option_map string_bytes o) }
{
    match matches.get_str(id) {
        Some(text) => Ok(Some(String::from_str(alloc, text)?)),
        None => Ok(None),
    }
}

/// Returns whether a flag was given.
fn flag_of(matches: &ArgMatches<'_>, id: &str) -> bool
    requires { HasFlag id.now (rows_of (found_of matches.now)) }
    ensures { result ≡ is_on id.now (rows_of (found_of matches.now)) }
{
    matches.get_flag(id)
}

/// Returns the values of an argument that was used.
fn texts_of(alloc: Global, matches: &ArgMatches<'_>, id: &str) -> Result<Vec<String>, AllocError>
    requires { is_some (all_of id.now (rows_of (found_of matches.now))) ≡ true }
    ensures { IfOk result
        (λ v. all_of id.now (rows_of (found_of matches.now)) ≡ Some (map string_bytes v.items)) }
{
    copies_of(alloc, matches.get_strs(id).unwrap())
}

/// Copies each text.
fn copies_of(alloc: Global, words: &[&str]) -> Result<Vec<String>, AllocError>
    ensures { IfOk result (λ v. map string_bytes v.items ≡ texts words.now) }
{
    let mut copies = Vec::new(alloc);
    for word in words {
        copies.push(String::from_str(alloc, word)?)?;
    }
    Ok(copies)
}
