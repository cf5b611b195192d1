use clap::{Arg, ArgAction, ArgMatches, Command, Error, value_parser};
use std::alloc::{AllocError, Global};
use std::num::NonZeroU8;

/// What the words ask the program to do.
#[derive(Drop)]
pub enum Job {
    /// Runs a script.
    Run,
    /// Runs a script, and ends with status 1 where a command was refused.
    RunStrictly,
    /// Runs a script, and says why each refused command was.
    RunExplained {
        /// Whether it ends with status 1 where a command was refused.
        strictly: bool,
    },
    /// Prints the record of a site after a script.
    Record {
        /// The site's name, as it was given.
        site: String,
    },
    /// Checks a record.
    Check,
    /// Checks the records of a site, one after another.
    CheckSeries,
    /// Checks the records of several sites of one store, one after another.
    CheckSites,
    /// Prints the lag of a site, as its record tells it.
    Lag,
    /// Prints the lag of a site, as its records tell it, one after another.
    LagSeries,
    /// Prints the declarations of the successor of a script's store.
    Next,
    /// Prints the declarations of the objects of a record, at their values after its last update, and of its groups.
    NextOfRecord,
    /// Runs a plan in threads.
    Threads {
        /// How many callers there are, at most 16.
        callers: NonZeroU8,
    },
}

/// The job that the words name. The first word is the program's name. None where they name no job.
///
/// It is an error where the words are wrong, where they ask for the help or the version, and where an allocation was refused.
pub fn job_of(alloc: Global, words: &[&str]) -> Result<Option<Job>, Error> {
    let matches = command(alloc)?.try_get_matches_from(words)?;
    let job = job_in(alloc, &matches);
    drop(matches);
    Ok(job?)
}

/// The job that the words name, which were found to be right. None where they name no job.
fn job_in(alloc: Global, matches: &ArgMatches<'_>) -> Result<Option<Job>, AllocError> {
    let Some((name, words)) = matches.subcommand() else {
        return Ok(None);
    };
    match name {
        "run" => Ok(Some(run_of(words.get_flag("strict"), words.get_flag("explain")))),
        "record" => record_of(alloc, words.get_str("SITE")),
        "check" => Ok(Some(check_of(words.get_flag("series"), words.get_flag("sites")))),
        "lag" => Ok(Some(lag_of(words.get_flag("series")))),
        "next" => Ok(Some(next_of(words.get_flag("record")))),
        "threads" => Ok(callers_of(words.get_one::<u8>("CLIENTS"))),
        _ => Ok(None),
    }
}

/// The job of running a script.
fn run_of(strictly: bool, explained: bool) -> Job {
    if explained {
        Job::RunExplained { strictly }
    } else if strictly {
        Job::RunStrictly
    } else {
        Job::Run
    }
}

/// The job of printing the record of this site. None for no site.
fn record_of(alloc: Global, site: Option<&str>) -> Result<Option<Job>, AllocError> {
    let Some(site) = site else {
        return Ok(None);
    };
    let site = site.to_string(alloc)?;
    Ok(Some(Job::Record { site }))
}

/// The job of checking a series of records, those of several sites, or one.
fn check_of(is_series: bool, are_sites: bool) -> Job {
    if is_series {
        Job::CheckSeries
    } else if are_sites {
        Job::CheckSites
    } else {
        Job::Check
    }
}

/// The job of printing the lag of a site, by a series of records, or by one.
fn lag_of(is_series: bool) -> Job {
    if is_series { Job::LagSeries } else { Job::Lag }
}

/// The job of printing declarations: of a record, or of a script.
fn next_of(is_record: bool) -> Job {
    if is_record {
        Job::NextOfRecord
    } else {
        Job::Next
    }
}

/// The job of running a plan by this many callers. None for no callers.
fn callers_of(callers: Option<u8>) -> Option<Job> {
    let callers = NonZeroU8::new(callers?)?;
    Some(Job::Threads { callers })
}

/// The words that the program takes, with their help.
fn command<'a>(alloc: Global) -> Result<Command<'a>, AllocError> {
    let ordup = with_job(Ok(program(alloc)), run(alloc));
    let ordup = with_job(ordup, record(alloc));
    let ordup = with_job(ordup, check(alloc));
    let ordup = with_job(ordup, lag(alloc));
    let ordup = with_job(ordup, next(alloc));
    with_job(ordup, threads(alloc))
}

/// The words of the program before those of its jobs.
fn program<'a>(alloc: Global) -> Command<'a> {
    words_of(
        alloc,
        "ordup",
        "A replicated store of whole numbers: every site applies the updates in one order",
        HELP,
    )
    .version(VERSION)
    .subcommand_required(true)
}

/// The words of a program with those of one job more.
fn with_job<'a>(
    program: Result<Command<'a>, AllocError>,
    job: Result<Command<'a>, AllocError>,
) -> Result<Command<'a>, AllocError> {
    match job {
        Ok(job) => with_words(program, job),
        Err(error) => {
            drop(program);
            Err(error)
        }
    }
}

/// The same, where the words of the job could be made.
fn with_words<'a>(
    program: Result<Command<'a>, AllocError>,
    job: Command<'a>,
) -> Result<Command<'a>, AllocError> {
    match program {
        Ok(program) => program.subcommand(job),
        Err(error) => {
            drop(job);
            Err(error)
        }
    }
}

/// The words of `ordup run`.
fn run<'a>(alloc: Global) -> Result<Command<'a>, AllocError> {
    words_of(
        alloc,
        "run",
        "Runs a script: answers each command that it reads",
        RUN_HELP,
    )
    .arg(
        Arg::new(alloc, "strict")
            .long("strict")
            .action(ArgAction::SetTrue)
            .help("Ends with status 1 where a command was refused"),
    )?
    .arg(
        Arg::new(alloc, "explain")
            .long("explain")
            .action(ArgAction::SetTrue)
            .help("Says on standard error why each refused command was"),
    )
}

/// The words of `ordup check`.
fn check<'a>(alloc: Global) -> Result<Command<'a>, AllocError> {
    let check = words_of(
        alloc,
        "check",
        "Checks whether a record shows that the site's forced rounds are the fewest",
        CHECK_HELP,
    )
    .arg(series(alloc));
    match sites(alloc) {
        Ok(sites) => with_arg(check, sites),
        Err(error) => {
            drop(check);
            Err(error)
        }
    }
}

/// The words of a job with one word more, where they could be made.
fn with_arg<'a>(
    job: Result<Command<'a>, AllocError>,
    word: Arg<'a>,
) -> Result<Command<'a>, AllocError> {
    match job {
        Ok(job) => job.arg(word),
        Err(error) => {
            drop(word);
            Err(error)
        }
    }
}

/// The word that asks for the records of several sites.
fn sites<'a>(alloc: Global) -> Result<Arg<'a>, AllocError> {
    Arg::new(alloc, "sites")
        .long("sites")
        .action(ArgAction::SetTrue)
        .help("Reads the records of several sites of one store, one after another")
        .conflicts_with("series")
}

/// The words of `ordup lag`.
fn lag<'a>(alloc: Global) -> Result<Command<'a>, AllocError> {
    words_of(
        alloc,
        "lag",
        "Prints the lag of a site at each decision, as its record tells it",
        LAG_HELP,
    )
    .arg(series(alloc))
}

/// The word that asks for a series of records.
fn series<'a>(alloc: Global) -> Arg<'a> {
    Arg::new(alloc, "series")
        .long("series")
        .action(ArgAction::SetTrue)
        .help("Reads the records of a site, one after another")
}

/// The words of `ordup record`.
fn record<'a>(alloc: Global) -> Result<Command<'a>, AllocError> {
    words_of(
        alloc,
        "record",
        "Runs a script and prints the record of a site: what an auditor checks",
        RECORD_HELP,
    )
    .arg(
        Arg::new(alloc, "SITE")
            .required(true)
            .help("The site's name"),
    )
}

/// The words of `ordup next`.
fn next<'a>(alloc: Global) -> Result<Command<'a>, AllocError> {
    words_of(
        alloc,
        "next",
        "Runs a script and prints the declarations of the successor of its store",
        NEXT_HELP,
    )
    .arg(
        Arg::new(alloc, "record")
            .long("record")
            .action(ArgAction::SetTrue)
            .help("Reads a record in place of a script"),
    )
}

/// The words of `ordup threads`.
fn threads<'a>(alloc: Global) -> Result<Command<'a>, AllocError> {
    words_of(
        alloc,
        "threads",
        "Runs a plan by callers in threads, and prints what came of it",
        THREADS_HELP,
    )
    .arg(
        Arg::new(alloc, "CLIENTS")
            .required(true)
            .value_parser(value_parser!(u8).range(1..=16))
            .help("How many callers there are, 1 to 16"),
    )
}

/// The words of this name, without those of arguments: what they are about, and the help on them.
fn words_of<'a>(alloc: Global, name: &'a str, about: &'a str, help: &'a str) -> Command<'a> {
    Command::new(alloc, name).about(about).after_help(help)
}

/// What `ordup --version` shows after the program's name.
const VERSION: &str = "0.3.0-dev";

/// What follows the message about a word that the program does not take, such as the name of a file.
pub const FILE_TIP: &str = "
A script, a record or a plan comes on standard input: ordup run < FILE
";

const HELP: &str = "\
`ordup run` reads a script from standard input, line by line, and prints an
answer for each command on standard output:

    object x 0         ok object x
    site a 4           ok site a
    start              ok start
    propose add:x:5    ok proposed 1
    settle             ok acked 1

`ordup record SITE` runs a script and prints the record of a site, and
`ordup check` says whether a record shows that the site's forced rounds are the
fewest that keep its limits: `yes N`, or `no ROW REASON`. `ordup lag` prints, from
the same record, how far behind the site was at each decision.

`ordup next` prints the declarations of the successor of a script's store.

`ordup threads CLIENTS` reads a plan, which is declarations, `start` and then
proposals alone, and lets callers in threads of their own make the proposals,
with a thread for each site that applies them.

Exit statuses: 0 done, 1 a record that is not valid or an update that is not
acknowledged, 2 wrong words or no such site, 3 input or output failed or the
script did not start, 4 no memory.
The lines, commands, answers and faults: docs/FORMATS.md.
A first script: ./ordup run < examples/first.ordup";

const RUN_HELP: &str = "\
Reads lines from standard input to its end. A script declares, starts the store,
and then makes things happen:

    object N V   group G X..   site S CAP   limit S object X N
    limit S group G N   limit S all N   limit S count N   start
    propose C..   send S   apply S   report S   settle   show S
    begin Q S LIMIT   read Q X   end Q   abandon Q   certify S
    relimit S object X N   relimit S group G N   relimit S all N
    relimit S count N

A change C is add:X:n, set:X:n, mul:X:n, max:X:n, min:X:n or take:X:Y.

Prints an answer line for each, on standard output: `ok ..`, or
`refused N NAME`, after which all is as it was. Blank lines and lines that begin
with # are skipped. Five lines, and their answers:

    object x 0         ok object x
    site a 4           ok site a
    start              ok start
    propose add:x:5    ok proposed 1
    settle             ok acked 1

With --explain each refused line has a line on standard error too, which says what
is wrong and what to do:

    line 7: refused 1 Syntax: there is a tab: put spaces in its place

Exit statuses: 0 for every script that was read to its end, also where commands
were refused, but with --strict 1 then. 3 with `read fault`, `write fault` or `input too long` (more than
1,073,741,824 bytes) on standard error, 4 with `no memory`, 2 for wrong words.
The commands, their refusals and their answers: docs/FORMATS.md";

const RECORD_HELP: &str = "\
Reads a script from standard input to its end and prints no answers. Then it
prints the record of the site as rows of comma-separated values: what was
declared, the updates that were decided, what the site had reported at each
decision, its forced rounds, and a window of updates for each of them, which is
over a limit alone. For example, of a site with a limit of 5 on x:

    ./ordup record a < FILE
    ordup,1,a,2                site a, of which 2 updates were decided
    object,1,x,0
    limit,1,object:x,5
    change,1,1,add:x:5
    change,2,1,add:x:1
    round,1,2,-                forced at update 2
    window,1,0,2               updates 1 to 2 are over the limit

Exit statuses: 0 the record was printed; 2 with `refused 8 UnknownSite` on
standard error, or for wrong words; 3 with `refused 2 NotStarted`, `read fault`,
`write fault` or `input too long`; 4 with `no memory`.
The rows: docs/FORMATS.md";

const CHECK_HELP: &str = "\
Reads a record from standard input and prints `yes N` where it shows that no
schedule that keeps the limits has fewer than its N rounds, else `no ROW REASON`:
the first reason why it does not, and the row, counted from 1:

    ./ordup record a < FILE | ./ordup check
    yes 1

The reasons, in the order in which they are looked for: NotLegal, LimitsBroken,
WindowLight, WindowsMeet, WindowBeforeReport, CountDiffers.

With --series it reads the records of a site, one after another, of a store and of
those that go on from it. It prints `yes N` for the N rounds of all, or the first
reason and its record: `no RECORD ROW REASON`. NotNext says that a record does not
begin with what the one before ended with.

With --sites it reads the records of several sites of one store, one after another,
and answers in the same way. NotSame says that the objects, the groups or the
updates of a record are not those of the records before it. A record may end sooner.

Exit statuses: 0 yes, 1 no; 3 with `malformed ROW` (the first row that breaks a
rule of the format; of several records `malformed RECORD ROW`), `read fault` (also
for input that is too long) or `write fault` on standard error; 4 with `no memory`;
2 for wrong words.
The rows, and each reason: docs/FORMATS.md";

const LAG_HELP: &str = "\
Reads the record of a site from standard input, as `ordup check` does, and
prints comma-separated values: a header, and a row for each decided update.

    place,reported,weight object:x,amount object:x,round,window
    1,0,5,5,0,1
    2,0,6,5,1,1

A row has the place of the update and what the site had reported when it was
decided. Then come two cells for each limit of the site: what the updates from
there to the place weigh, and the amount in force. Both are empty where the limit
began later. The last two are 1 at a forced round and else 0, and the number of
the window that has the place, if any.

Of a record that is not valid it prints what `ordup check` prints: `no ROW REASON`.

With --series it reads the records of a site, one after another. Places, reports
and windows are counted on, and each record has a header of its own. Where
`ordup check --series` has a reason against a record, its answer comes after the
lag of the records before.

Exit statuses: 0 the lag, 1 not valid; 3 with `malformed ROW` (the first row that
breaks a rule of the format; of a series `malformed RECORD ROW`), `read fault`
(also for input that is too long) or `write fault` on standard error; 4 with
`no memory`; 2 for wrong words.
The cells: docs/FORMATS.md. A picture of them: examples/lag.gp";

const NEXT_HELP: &str = "\
Reads a script from standard input to its end and prints no answers. Then it
prints the declarations of the successor of its store, as lines of a script:
each object with its value after the last update, the groups, the sites with the
capacities of their feeds, the last limits of each site, and `start`:

    object x 0             object x 6
    site a 4               site a 4
    limit a object x 9     limit a object x 9
    start                  start
    propose add:x:6
    settle

Every update must be acknowledged: `settle` until none waits.

With --record it reads the record of a site, as `ordup check` does, and prints the
objects with their values after the last decided update, and the groups. Of a
record that is not valid it prints what `ordup check` prints: `no ROW REASON`.

Exit statuses: 0 the declarations; 1 with `refused 22 NotYet N` on standard error,
where update N is the last and one is not acknowledged, or for a record that is
not valid; 3 with `refused 2 NotStarted`, `malformed ROW`, `read fault`,
`write fault` or `input too long`; 4 with `no memory`; 2 for wrong words.
One store after another: docs/FORMATS.md";

const THREADS_HELP: &str = "\
Reads a plan from standard input to its end: declarations, `start`, and then
proposals alone, in the lines of a script. Each site has a thread that applies
what comes to it, and CLIENTS callers in threads of their own propose the sets:
the first set goes to the first caller, the next to the next, and again from the
first. Then it prints what came of it:

    object x 0           log 2
    site a 4             refused 0
    limit a all 0        pending 0
    start                site a applied 2 rounds 2 x=2
    propose add:x:1      certified a 2
    propose add:x:1

The first lines say how many proposals are in the log, how many were refused,
and how many were not acknowledged within 1,000,000 turns of their caller. The
lines of a site say how many updates it applied, its forced rounds, its values,
and the number of rounds that no schedule that keeps its limits goes below. With
several callers the order of the log depends on how the threads meet.

Exit statuses: 0 done; 3 with `malformed LINE` (the first line that does not
belong), `read fault`, `write fault` or `input too long` on standard error; 4
with `no memory`, also where a thread cannot be started; 2 for wrong words.
Plans and outcomes: docs/FORMATS.md";
