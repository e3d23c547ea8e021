//! The commands and the words that each takes, as they are built for `clap`.

ghost use Rattle.std.specs.Prelude.{◌≡◌, IfOk, codes, false};
ghost use Rattle.clap.specs.Words.{app_of, rule_of};
ghost use Rattle.clap.specs.declared.Command.TheViews.{out-Command};
ghost use Rattle.ask_words.specs.Request.{analysis_app, bench_app, check_app, equations_app, flag_rule, functions_app, help_app};
ghost use Rattle.ask_words.specs.Request.{in_formats, option_rule, optional_rule, points_app, program_app, prove_app, tmpl_app};
ghost use Rattle.ask_words.specs.Request.{top_app, upgrade_app, word_rule};

use clap::{Arg, ArgAction, Command};
use std::alloc::{AllocError, Global};

/// The whole command line.
pub(crate) fn command_line<'a>(alloc: Global) -> Result<Command<'a>, AllocError>
    ensures { IfOk result (λ command. app_of command ≡ tmpl_app) }
{
    let solve = top_command(alloc).subcommand(formatted_command(alloc, "solve")?)?;
    let certify = solve.subcommand(program_command(alloc, "certify")?)?;
    let check = certify.subcommand(check_command(alloc)?)?;
    let bench = check.subcommand(bench_command(alloc)?)?;
    let upgrade = bench.subcommand(upgrade_command(alloc)?)?;
    let prove = upgrade.subcommand(prove_command(alloc)?)?;
    let transitions = prove.subcommand(transitions_command(alloc)?)?;
    let equations = transitions.subcommand(equations_command(alloc)?)?;
    let points = equations.subcommand(points_command(alloc)?)?;
    let verify = points.subcommand(formatted_command(alloc, "verify")?)?;
    let functions = verify.subcommand(functions_command(alloc)?)?;
    Ok(functions.subcommand(help_command(alloc)?)?)
}

// The program, whose own name isn't among the words; one of the commands has to be, and `help` is one of them.
fn top_command<'a>(alloc: Global) -> Command<'a>
    ensures { app_of result ≡ top_app }
{
    Command::new(alloc, "tmpl")
        .no_binary_name(true)
        .subcommand_required(true)
        .disable_help_subcommand(true)
}

// `solve` or `verify`, whose output has a format.
fn formatted_command<'a>(alloc: Global, name: &'a str) -> Result<Command<'a>, AllocError>
    ensures app { IfOk result (λ command. app_of command ≡ in_formats (program_app name.entry.now)) }
    ensures local { IfOk result (λ command. (out-Command command).has_globals ≡ false) }
{
    Ok(program_command(alloc, name)?.arg(option(alloc, "format"))?)
}

// `certify`, or one of the others without their format.
fn program_command<'a>(alloc: Global, name: &'a str) -> Result<Command<'a>, AllocError>
    ensures app { IfOk result (λ command. app_of command ≡ program_app name.entry.now) }
    ensures local { IfOk result (λ command. (out-Command command).has_globals ≡ false) }
{
    let function = analysis_command(alloc, name)?.arg(option(alloc, "function"))?;
    Ok(function.arg(option(alloc, "int"))?)
}

fn transitions_command<'a>(alloc: Global) -> Result<Command<'a>, AllocError>
    ensures app { IfOk result (λ command. app_of command ≡ in_formats (analysis_app (codes "transitions"))) }
    ensures local { IfOk result (λ command. (out-Command command).has_globals ≡ false) }
{
    Ok(analysis_command(alloc, "transitions")?.arg(option(alloc, "format"))?)
}

// What all analyses have, those of transition systems, too.
fn analysis_command<'a>(alloc: Global, name: &'a str) -> Result<Command<'a>, AllocError>
    ensures app { IfOk result (λ command. app_of command ≡ analysis_app name.entry.now) }
    ensures local { IfOk result (λ command. (out-Command command).has_globals ≡ false) }
{
    let program = Command::new(alloc, name).arg(word(alloc, "program"))?;
    let domain = program.arg(option(alloc, "domain"))?;
    let rows = domain.arg(option(alloc, "rows"))?;
    let improvements = rows.arg(option(alloc, "improvements"))?;
    let policy = improvements.arg(option(alloc, "policy"))?;
    Ok(policy.arg(flag(alloc, "progress"))?)
}

fn check_command<'a>(alloc: Global) -> Result<Command<'a>, AllocError>
    ensures app { IfOk result (λ command. app_of command ≡ check_app) }
    ensures local { IfOk result (λ command. (out-Command command).has_globals ≡ false) }
{
    let program = Command::new(alloc, "check").arg(word(alloc, "program"))?;
    let certificate = program.arg(word(alloc, "certificate"))?;
    let function = certificate.arg(option(alloc, "function"))?;
    let integers = function.arg(option(alloc, "int"))?;
    Ok(integers.arg(option(alloc, "format"))?)
}

fn bench_command<'a>(alloc: Global) -> Result<Command<'a>, AllocError>
    ensures app { IfOk result (λ command. app_of command ≡ bench_app) }
    ensures local { IfOk result (λ command. (out-Command command).has_globals ≡ false) }
{
    let seed = Command::new(alloc, "bench").arg(option(alloc, "seed"))?;
    Ok(seed.arg(option(alloc, "loops"))?)
}

fn upgrade_command<'a>(alloc: Global) -> Result<Command<'a>, AllocError>
    ensures app { IfOk result (λ command. app_of command ≡ upgrade_app) }
    ensures local { IfOk result (λ command. (out-Command command).has_globals ≡ false) }
{
    Ok(Command::new(alloc, "upgrade").arg(word(alloc, "certificate"))?)
}

fn prove_command<'a>(alloc: Global) -> Result<Command<'a>, AllocError>
    ensures app { IfOk result (λ command. app_of command ≡ prove_app) }
    ensures local { IfOk result (λ command. (out-Command command).has_globals ≡ false) }
{
    let claims = program_command(alloc, "prove")?.arg(word(alloc, "claims"))?;
    Ok(claims.arg(option(alloc, "format"))?)
}

fn equations_command<'a>(alloc: Global) -> Result<Command<'a>, AllocError>
    ensures app { IfOk result (λ command. app_of command ≡ equations_app) }
    ensures local { IfOk result (λ command. (out-Command command).has_globals ≡ false) }
{
    let file = Command::new(alloc, "equations").arg(word(alloc, "file"))?;
    let improvements = file.arg(option(alloc, "improvements"))?;
    let policy = improvements.arg(option(alloc, "policy"))?;
    let progress = policy.arg(flag(alloc, "progress"))?;
    Ok(progress.arg(option(alloc, "format"))?)
}

fn points_command<'a>(alloc: Global) -> Result<Command<'a>, AllocError>
    ensures app { IfOk result (λ command. app_of command ≡ points_app) }
    ensures local { IfOk result (λ command. (out-Command command).has_globals ≡ false) }
{
    Ok(Command::new(alloc, "points").arg(word(alloc, "program"))?)
}

fn functions_command<'a>(alloc: Global) -> Result<Command<'a>, AllocError>
    ensures app { IfOk result (λ command. app_of command ≡ functions_app) }
    ensures local { IfOk result (λ command. (out-Command command).has_globals ≡ false) }
{
    Ok(Command::new(alloc, "functions").arg(word(alloc, "program"))?)
}

fn help_command<'a>(alloc: Global) -> Result<Command<'a>, AllocError>
    ensures app { IfOk result (λ command. app_of command ≡ help_app) }
    ensures local { IfOk result (λ command. (out-Command command).has_globals ≡ false) }
{
    Ok(Command::new(alloc, "help").arg(optional(alloc, "command"))?)
}

// A positional word that may be left out.
fn optional<'a>(alloc: Global, name: &'a str) -> Arg<'a>
    ensures rule { rule_of result ≡ optional_rule name.entry.now }
    ensures local { result.global ≡ false }
{
    Arg::new(alloc, name)
}

// A positional word that has to be there.
fn word<'a>(alloc: Global, name: &'a str) -> Arg<'a>
    ensures rule { rule_of result ≡ word_rule name.entry.now }
    ensures local { result.global ≡ false }
{
    Arg::new(alloc, name).required(true)
}

// An option of one value.
fn option<'a>(alloc: Global, name: &'a str) -> Arg<'a>
    ensures rule { rule_of result ≡ option_rule name.entry.now }
    ensures local { result.global ≡ false }
{
    Arg::new(alloc, name).long(name)
}

// An option without a value.
fn flag<'a>(alloc: Global, name: &'a str) -> Arg<'a>
    ensures rule { rule_of result ≡ flag_rule name.entry.now }
    ensures local { result.global ≡ false }
{
    Arg::new(alloc, name).long(name).action(ArgAction::SetTrue)
}
