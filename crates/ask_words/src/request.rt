//! What the words ask for: the commands, and the request that the words of one make.

ghost use Rattle.std.specs.Prelude.{◌≡◌, option_and_then, option_map, unwrap_or};
ghost use Rattle.clap.specs.Words.{first_of, found_of, rows_of, subcommand_rows_of};
ghost use Rattle.ask_words.specs.Help.{topic_in};
ghost use Rattle.ask_words.specs.Request.{analysis_in, analysis_text, bench_in, certify_in, check_in, command_in, equations_in, format_in};
ghost use Rattle.ask_words.specs.Request.{functions_in, has_progress, help_in, improvements_in, points_in, policy_in, progress_in};
ghost use Rattle.ask_words.specs.Request.{prove_in, request_text, solve_in, source_in, source_text, transitions_in, upgrade_in, verify_in};
ghost use Rattle.ask_words.specs.Values.{check_formats, formats};

use crate::format::Format;
use crate::help::{Topic, topic_of};
use crate::values::{check_format, domain, integers, number, plain_format, policy};
use base_integers::Integers;
use base_limits::{MOST_IMPROVEMENTS, MOST_LOOPS};
use clap::ArgMatches;

/// By which rule an edge is picked for an unknown whose bound is improved.
#[derive(Clone, Copy, Debug, PartialEq, Eq)]
pub enum Policy {
    /// The edge that gives most.
    Best,
    /// The first edge that gives more than the bound.
    First,
}

/// The rows that every point has: those of a built-in domain, or those of a file, whose name or text is a `T`.
#[derive(Clone, Copy, Debug, Drop, PartialEq, Eq)]
pub enum Domain<T> {
    Intervals,
    Zones,
    Octagons,
    /// Octagons between variables that a comparison, a change or a loop has together.
    Packs,
    Rows(T),
}

/// A program, which is a function of a C file; or a transition system, where no function is named and integers are mathematical.
#[derive(Clone, Copy, Debug, PartialEq, Eq)]
pub struct Source<T> {
    /// The name of its file, or its text.
    pub text: T,
    /// The name of the function that is asked about, if one is named.
    pub function: Option<T>,
    /// The integers by which it computes.
    pub integers: Integers,
}

/// A program or a transition system, and how it is solved.
#[derive(Clone, Copy, Debug, PartialEq, Eq)]
pub struct Analysis<T> {
    pub program: Source<T>,
    pub domain: Domain<T>,
    /// How many improvements are made at most: at most 1,000,000, and 1,000 by default.
    pub improvements: u32,
    pub policy: Policy,
}

/// What is written of an analysis.
#[derive(Clone, Copy, Debug, PartialEq, Eq)]
pub enum Purpose {
    /// The report, as `solve` does.
    Report,
    /// The certificate, as `certify` does.
    Certificate,
}

/// A command, with the names of its files as values of `T`.
#[derive(Clone, Copy, Debug, PartialEq, Eq)]
pub enum Request<T> {
    /// Analyse a program, and write its report or its certificate.
    Analyse {
        purpose: Purpose,
        analysis: Analysis<T>,
        format: Format,
    },
    /// Check a certificate of a program.
    Check {
        program: Source<T>,
        certificate: T,
        format: Format,
    },
    /// Solve a generated program. The seed is below 2^31, and there are 1 to `MOST_LOOPS` loops.
    Bench {
        seed: u32,
        loops: u32,
    },
    /// Write a certificate anew, as certificates are written now.
    Upgrade {
        certificate: T,
    },
    /// Analyse a program, and say of each claim of a file whether the least bounds prove it.
    Prove {
        claims: T,
        analysis: Analysis<T>,
        format: Format,
    },
    /// Analyse a transition system, and write its report.
    Transitions {
        analysis: Analysis<T>,
        format: Format,
    },
    /// Solve the equations of a file, by at most so many improvements: at most 1,000,000, and 1,000 by default.
    Equations {
        file: T,
        improvements: u32,
        policy: Policy,
        format: Format,
    },
    /// Write the points of a program.
    Points {
        program: T,
    },
    /// Write the names of the functions of a file.
    Functions {
        file: T,
    },
    /// Analyse a program, and say of each of its checks whether the least bounds prove it. The name of its file is one, whatever
    /// stands in place of the names of files.
    Verify {
        name: T,
        analysis: Analysis<T>,
        format: Format,
    },
    /// Write the page of a command.
    Help {
        topic: Topic,
    },
}

/// Whether progress is asked for in these matches.
pub(crate) fn progress_in(matches: &ArgMatches<'_>) -> bool
    ensures { result ≡ progress_in (subcommand_rows_of matches.now) }
{
    match matches.subcommand() {
        Some((_, given)) => is_progress(given),
        None => false,
    }
}

// Whether the option is among the words of a command.
fn is_progress(given: &ArgMatches<'_>) -> bool
    ensures { result ≡ has_progress (rows_of (found_of given.now)) }
{
    match value(given, "progress") {
        Some(text) => text == "true",
        None => false,
    }
}

/// The request that these matches make.
pub(crate) fn request_in<'a>(matches: &ArgMatches<'a>) -> Option<Request<&'a str>>
    ensures { option_map request_text result
        ≡ option_and_then command_in (subcommand_rows_of matches.now) }
{
    let (name, given) = matches.subcommand()?;
    command(name, given)
}

// The request of a command by its name.
fn command<'a>(name: &str, given: &ArgMatches<'a>) -> Option<Request<&'a str>>
    ensures { option_map request_text result ≡ command_in (name.now, rows_of (found_of given.now)) }
{
    if name == "solve" {
        solve(given)
    } else if name == "certify" {
        certify(given)
    } else if name == "check" {
        check(given)
    } else if name == "bench" {
        bench(given)
    } else if name == "upgrade" {
        upgrade(given)
    } else if name == "prove" {
        prove(given)
    } else if name == "transitions" {
        transitions(given)
    } else if name == "equations" {
        equations(given)
    } else if name == "points" {
        points(given)
    } else if name == "verify" {
        verify(given)
    } else if name == "functions" {
        functions(given)
    } else if name == "help" {
        help(given)
    } else {
        None
    }
}

fn solve<'a>(given: &ArgMatches<'a>) -> Option<Request<&'a str>>
    ensures { option_map request_text result ≡ solve_in (rows_of (found_of given.now)) }
{
    let analysis = analysis_in(given)?;
    let format = format_in(given)?;
    Some(Request::Analyse {
        purpose: Purpose::Report,
        analysis,
        format,
    })
}

fn certify<'a>(given: &ArgMatches<'a>) -> Option<Request<&'a str>>
    ensures { option_map request_text result ≡ certify_in (rows_of (found_of given.now)) }
{
    let analysis = analysis_in(given)?;
    Some(Request::Analyse {
        purpose: Purpose::Certificate,
        analysis,
        format: Format::Text,
    })
}

// The program, the function that is asked about, and the integers by which it computes.
fn source_in<'a>(given: &ArgMatches<'a>) -> Option<Source<&'a str>>
    ensures { option_map source_text result ≡ source_in (rows_of (found_of given.now)) }
{
    let text = value(given, "program")?;
    let integers = integers(value(given, "int"))?;
    Some(Source {
        text,
        function: value(given, "function"),
        integers,
    })
}

// What is analysed, and how.
fn analysis_in<'a>(given: &ArgMatches<'a>) -> Option<Analysis<&'a str>>
    ensures { option_map analysis_text result ≡ analysis_in (rows_of (found_of given.now)) }
{
    let program = source_in(given)?;
    let domain = domain(value_or(given, "domain", "intervals"), value(given, "rows"))?;
    let improvements = improvements(given)?;
    let policy = policy_in(given)?;
    Some(Analysis {
        program,
        domain,
        improvements,
        policy,
    })
}

fn check<'a>(given: &ArgMatches<'a>) -> Option<Request<&'a str>>
    ensures { option_map request_text result ≡ check_in (rows_of (found_of given.now)) }
{
    let program = source_in(given)?;
    let certificate = value(given, "certificate")?;
    let format = format_in(given)?;
    Some(Request::Check {
        program,
        certificate,
        format,
    })
}

fn bench<'a>(given: &ArgMatches<'_>) -> Option<Request<&'a str>>
    ensures { option_map request_text result ≡ bench_in (rows_of (found_of given.now)) }
{
    let seed = number(value(given, "seed")?, 0, 2_147_483_647)?;
    let loops = number(value(given, "loops")?, 1, MOST_LOOPS)?;
    Some(Request::Bench { seed, loops })
}

fn upgrade<'a>(given: &ArgMatches<'a>) -> Option<Request<&'a str>>
    ensures { option_map request_text result ≡ upgrade_in (rows_of (found_of given.now)) }
{
    let certificate = value(given, "certificate")?;
    Some(Request::Upgrade { certificate })
}

fn prove<'a>(given: &ArgMatches<'a>) -> Option<Request<&'a str>>
    ensures { option_map request_text result ≡ prove_in (rows_of (found_of given.now)) }
{
    let analysis = analysis_in(given)?;
    let claims = value(given, "claims")?;
    let format = format_in(given)?;
    Some(Request::Prove {
        claims,
        analysis,
        format,
    })
}

fn transitions<'a>(given: &ArgMatches<'a>) -> Option<Request<&'a str>>
    ensures { option_map request_text result ≡ transitions_in (rows_of (found_of given.now)) }
{
    let analysis = analysis_in(given)?;
    let format = format_in(given)?;
    Some(Request::Transitions { analysis, format })
}

fn equations<'a>(given: &ArgMatches<'a>) -> Option<Request<&'a str>>
    ensures { option_map request_text result ≡ equations_in (rows_of (found_of given.now)) }
{
    let file = value(given, "file")?;
    let improvements = improvements(given)?;
    let policy = policy_in(given)?;
    let format = format_in(given)?;
    Some(Request::Equations {
        file,
        improvements,
        policy,
        format,
    })
}

fn points<'a>(given: &ArgMatches<'a>) -> Option<Request<&'a str>>
    ensures { option_map request_text result ≡ points_in (rows_of (found_of given.now)) }
{
    let program = value(given, "program")?;
    Some(Request::Points { program })
}

fn verify<'a>(given: &ArgMatches<'a>) -> Option<Request<&'a str>>
    ensures { option_map request_text result ≡ verify_in (rows_of (found_of given.now)) }
{
    let analysis = analysis_in(given)?;
    let format = check_format(value_or(given, "format", "text"))?;
    Some(Request::Verify {
        name: analysis.program.text,
        analysis,
        format,
    })
}

fn functions<'a>(given: &ArgMatches<'a>) -> Option<Request<&'a str>>
    ensures { option_map request_text result ≡ functions_in (rows_of (found_of given.now)) }
{
    let file = value(given, "program")?;
    Some(Request::Functions { file })
}

fn help<'a>(given: &ArgMatches<'_>) -> Option<Request<&'a str>>
    ensures { option_map request_text result ≡ help_in (rows_of (found_of given.now)) }
{
    let topic = topic_of(value(given, "command"))?;
    Some(Request::Help { topic })
}

// How many improvements are made at most.
fn improvements(given: &ArgMatches<'_>) -> Option<u32>
    ensures { result ≡ improvements_in (rows_of (found_of given.now)) }
{
    number(
        value_or(given, "improvements", "1000"),
        0,
        MOST_IMPROVEMENTS,
    )
}

// In which format the output is written, where there is no SARIF of it.
fn format_in(given: &ArgMatches<'_>) -> Option<Format>
    ensures { result ≡ format_in formats (rows_of (found_of given.now)) }
{
    plain_format(value_or(given, "format", "text"))
}

// By which rule an edge is picked.
fn policy_in(given: &ArgMatches<'_>) -> Option<Policy>
    ensures { result ≡ policy_in (rows_of (found_of given.now)) }
{
    policy(value_or(given, "policy", "best"))
}

// The value of a word or an option, where it was given.
fn value<'a>(given: &ArgMatches<'a>, id: &str) -> Option<&'a str>
    ensures { option_map (λ text. text.now) result ≡ first_of id.now (rows_of (found_of given.now)) }
{
    given.get_str(id)
}

// The value of an option, or its default.
fn value_or<'a>(given: &ArgMatches<'a>, id: &str, absent: &'a str) -> &'a str
    ensures { result.now
        ≡ unwrap_or (first_of id.now (rows_of (found_of given.now))) absent.entry.now }
{
    value(given, id).unwrap_or(absent)
}
