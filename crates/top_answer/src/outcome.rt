//! What the texts of a command come to: the bytes that are written, or the status of their refusal; and the text whose line is named.

ghost use Rattle.std.specs.Prelude.{◌≡◌, ◌≤◌, ℕ, List, [], IfOk, IfErr, length};
ghost use Rattle.base_limits.specs.declared.limits.TheConstants.{MOST_IMPROVEMENTS, MOST_PROGRAM_BYTES};
ghost use Rattle.lang_tree.specs.Tree.{Statements};
ghost use Rattle.flow_edges.specs.Edges.{edges_of_program};
ghost use Rattle.flow_edges.specs.Points.{points_of_program};
ghost use Rattle.flow_systems.specs.declared.system.System.{System as SystemValue};
ghost use Rattle.ask_words.specs.Help.{help_text};
ghost use Rattle.ask_words.specs.Request.{analysis_text, request_text, source_text};
ghost use Rattle.ask_words.specs.declared.request.Request.TheVariants.{Analyse, Check};
ghost use Rattle.top_answer.specs.Commands.{IsWithin, command_of, text_of_proof};
ghost use Rattle.top_answer.specs.Outcomes.{HasOutcome, HasVerdicts, Says};
ghost use Rattle.top_status.specs.CheckMessages.{rows_of};
ghost use Rattle.top_texts.specs.CheckTexts.{ending_of};
ghost use Rattle.top_texts.specs.Checks.{HasRowCount, IsSpelt, fitted_to};
ghost use Rattle.top_texts.specs.Exact.{exact};
ghost use Rattle.top_texts.specs.Outcomes.{IsHalted, IsOutputOf};
ghost use Rattle.top_texts.specs.Texts.{IsSolvedSystem, Program as ProgramText};

use ask_words::{Analysis, Format, Policy, Purpose, Request, Source, Topic, help_text};
use base_integers::Integers;
use base_watch::Watch;
use flow_systems::System;
use std::alloc::Global;
use top_status::{Status, TextCause, answer_rows};
use top_texts::{
    Given, Judged, Refusal, bench_text, certificate_of, equations_text, functions_text,
    points_text, prove_text, read_given, refused, report_by, report_of, system_on,
    transitions_text, upgrade_text, verify_text,
};

// What texts come to.
#[derive(Drop)]
pub(crate) struct Outcome {
    pub status: Status,
    /// What is written; nothing where the status has no output.
    pub bytes: Vec<u8>,
    /// The number of rows by which the message numbers an unknown; 0 where it names none.
    pub rows: usize,
}

// The outcome of a status that has no bytes and names no unknown.
pub(crate) fn plain(alloc: Global, status: Status) -> Outcome
    ensures status { result.status ≡ status }
    ensures bytes { result.bytes.items ≡ [] }
    ensures rows { result.rows ≡ 0 }
{
    Outcome {
        status,
        bytes: Vec::new(alloc),
        rows: 0,
    }
}

// The outcome of a result, whose message numbers unknowns by this number of rows, if it names one.
fn outcome_from(alloc: Global, made: Result<Vec<u8>, Refusal>, rows: usize) -> Outcome
    ensures is { HasOutcome made result.status result.bytes.items }
    ensures rows { result.rows ≡ rows_of rows result.status }
{
    match made {
        Ok(bytes) => Outcome {
            status: Status::Done,
            bytes,
            rows: 0,
        },
        Err(refusal) => {
            let status = refused(refusal);
            let rows = answer_rows(rows, &status);
            Outcome {
                status,
                bytes: Vec::new(alloc),
                rows,
            }
        }
    }
}

// The ending by whether a check is open.
fn ending_of(is_open: bool) -> Status
    ensures { result ≡ ending_of is_open }
{
    if is_open { Status::Open } else { Status::Done }
}

// The outcome of verdicts on checks, whose message names no unknown.
fn outcome_by(alloc: Global, made: Result<Judged, Refusal>) -> Outcome
    ensures { HasVerdicts made result.status result.bytes.items }
{
    match made {
        Ok(judged) => Outcome {
            status: ending_of(judged.is_open),
            bytes: judged.bytes,
            rows: 0,
        },
        Err(refusal) => outcome_from(alloc, Err(refusal), 0),
    }
}

// The report of a system in a format, or its certificate. It has as many parameters as a report has, and the purpose.
fn made_of<W: Watch>(
    alloc: Global,
    purpose: Purpose,
    system: &System,
    policy: Policy,
    limit: u32,
    format: Format,
    watch: &mut W,
) -> Result<Vec<u8>, Refusal>
    requires limit { limit ≤ MOST_IMPROVEMENTS }
    ensures ok { IfOk result (λ bytes. IsOutputOf purpose system.now policy limit format bytes.items) }
    ensures err { IfErr result (λ refusal. IsHalted purpose system.now policy limit refusal) }
{
    match purpose {
        Purpose::Report => report_of(alloc, system, policy, limit, format, watch),
        Purpose::Certificate => certificate_of(alloc, system, policy, limit, watch),
    }
}

// The analysis of a program.
fn analysed<W: Watch>(
    alloc: Global,
    purpose: Purpose,
    analysis: Analysis<&[u8]>,
    format: Format,
    watch: &mut W,
) -> Outcome
    requires { IsWithin MOST_PROGRAM_BYTES (analysis_text analysis) }
    ensures says { Says (command_of exact (Analyse purpose (analysis_text analysis.entry) format)) result.status result.bytes.items }
    ensures rows { (count : ℕ) → (command_of exact (Analyse purpose (analysis_text analysis.entry) format)).has_rows count
        → result.rows ≡ rows_of count result.status }
{
    match system_on(alloc, analysis.program, analysis.domain) {
        Ok(system) => {
            let made = made_of(
                alloc,
                purpose,
                &system,
                analysis.policy,
                analysis.improvements,
                format,
                watch,
            );
            outcome_from(alloc, made, system.template.as_slice().len())
        }
        Err(refusal) => outcome_from(alloc, Err(refusal), 0),
    }
}

// The report of a certificate of a program, where it is valid.
fn accepted(alloc: Global, given: Given, format: Format) -> Outcome
    requires names { given.flow.names ≡ given.program.names }
    requires points { given.flow.points ≡ points_of_program given.program.body }
    requires edges { given.flow.edges ≡ edges_of_program given.program.body }
    ensures says { (source : ProgramText) (bytes : List ℕ)
        → IsSpelt source bytes given.program.names given.program.body (fitted_to given.program.names given.program.body given.cert)
        → Says (command_of exact (Check source bytes format)) result.status result.bytes.items }
    ensures rows { result.rows ≡ rows_of (length given.cert.rows) result.status }
{
    let Given {
        program,
        flow,
        cert,
    } = given;
    let made = report_by(alloc, &program, flow, &cert, format);
    outcome_from(alloc, made, cert.rows.as_slice().len())
}

// The check of a certificate of a program.
fn checked(alloc: Global, source: Source<&[u8]>, certificate: &[u8], format: Format) -> Outcome
    requires { length source.text.now ≤ MOST_PROGRAM_BYTES }
    ensures says { Says (command_of exact (Check (source_text source.entry) certificate.now format)) result.status result.bytes.items }
    ensures rows { (count : ℕ) → HasRowCount certificate.now count → result.rows ≡ rows_of count result.status }
{
    match read_given(alloc, source, certificate) {
        Ok(given) => accepted(alloc, given, format),
        Err(refusal) => outcome_from(alloc, Err(refusal), 0),
    }
}

// The page of a command.
fn page_of(alloc: Global, topic: Topic) -> Result<Vec<u8>, Refusal>
    ensures ok { IfOk result (λ bytes. bytes.items ≡ help_text topic) }
    ensures err { IfErr result (λ refusal. refusal ≡ Refusal.NoMemory) }
{
    Ok(help_text(topic).to_vec(alloc)?)
}

// What a command comes to, with its texts in place of the names of its files.
pub(crate) fn outcome_of<W: Watch>(alloc: Global, asked: Request<&[u8]>, watch: &mut W) -> Outcome
    requires { (command_of exact (request_text asked)).in_limits }
    ensures says { Says (command_of exact (request_text asked.entry)) result.status result.bytes.items }
    ensures rows { (count : ℕ) → (command_of exact (request_text asked.entry)).has_rows count → result.rows ≡ rows_of count result.status }
{
    match asked {
        Request::Analyse {
            purpose,
            analysis,
            format,
        } => analysed(alloc, purpose, analysis, format, watch),
        Request::Check {
            program,
            certificate,
            format,
        } => checked(alloc, program, certificate, format),
        Request::Bench { seed, loops } => outcome_from(
            alloc,
            bench_text(alloc, seed, loops, watch),
            0,
        ),
        Request::Upgrade { certificate } => outcome_from(
            alloc,
            upgrade_text(alloc, certificate),
            0,
        ),
        Request::Prove {
            claims,
            analysis,
            format,
        } => {
            let made = prove_text(
                alloc,
                analysis.program,
                analysis.domain,
                claims,
                analysis.policy,
                analysis.improvements,
                format,
                watch,
            );
            outcome_from(alloc, made, 0)
        }
        Request::Transitions { analysis, format } => {
            let made = transitions_text(
                alloc,
                analysis.program.text,
                analysis.domain,
                analysis.policy,
                analysis.improvements,
                format,
                watch,
            );
            outcome_from(alloc, made, 0)
        }
        Request::Equations {
            file,
            improvements,
            policy,
            format,
        } => outcome_from(
            alloc,
            equations_text(alloc, file, policy, improvements, format, watch),
            0,
        ),
        Request::Points { program } => {
            let source = Source {
                text: program,
                function: None,
                integers: Integers::Mathematical,
            };
            outcome_from(alloc, points_text(alloc, source), 0)
        }
        Request::Functions { file } => outcome_from(alloc, functions_text(alloc, file), 0),
        Request::Verify {
            name,
            analysis,
            format,
        } => {
            let made = verify_text(
                alloc,
                name,
                analysis.program,
                analysis.domain,
                analysis.policy,
                analysis.improvements,
                format,
                watch,
            );
            outcome_by(alloc, made)
        }
        Request::Help { topic } => outcome_from(alloc, page_of(alloc, topic), 0),
    }
}

// The text in which the message of an ending of claims names a line.
fn text_of_proof<'a>(program: &'a [u8], claims: &'a [u8], status: &Status) -> &'a [u8]
    ensures { result.now ≡ text_of_proof program.entry.now claims.entry.now status.now }
{
    match status {
        Status::Text(TextCause::Claims(_)) => claims,
        _ => program,
    }
}

// The text in which the message of an ending names a line.
pub(crate) fn named_text<'a>(asked: Request<&'a [u8]>, status: &Status) -> &'a [u8]
    requires { (command_of exact (request_text asked)).in_limits }
    ensures text { result.now ≡ (command_of exact (request_text asked.entry)).named status.now }
    ensures short { length result.now ≤ MOST_PROGRAM_BYTES }
{
    match asked {
        Request::Analyse { analysis, .. } => analysis.program.text,
        Request::Check { program, .. } => program.text,
        Request::Bench { .. } | Request::Upgrade { .. } | Request::Help { .. } => &[],
        Request::Prove {
            claims,
            analysis,
            ..
        } => text_of_proof(analysis.program.text, claims, status),
        Request::Transitions { analysis, .. } => analysis.program.text,
        Request::Equations { file, .. } => file,
        Request::Points { program } => program,
        Request::Functions { file } => file,
        Request::Verify { analysis, .. } => analysis.program.text,
    }
}
