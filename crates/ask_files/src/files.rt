//! The files of a request in the order of their loads, which of them isn't read, and the request with what they hold in place of names.

ghost use Rattle.std.specs.Prelude.{◌≡◌, ◌∷◌, [], IfOk, IsErrOf, None, Some, map, option_map, string_bytes};
ghost use Rattle.ask_words.specs.Request.{analysis_text, domain_text, request_of, request_text, source_text};
ghost use Rattle.ask_files.specs.Files.{Request as NamedRequest, analysis_with, domain_with, files_of, most_bytes, rows_before, rows_files};
ghost use Rattle.ask_files.specs.Files.{source_with, text_at, texts_of, unread, with_texts};
ghost use Rattle.ask_files.specs.Named.{name_of};
ghost use Rattle.ask_files.specs.declared.which.Which.TheVariants.{Claims};

use crate::which::{ReadCause, Which};
use ask_words::{Analysis, Domain, Request, Source, WordsFault, read_words};
use base_limits::{MOST_CERTIFICATE_BYTES, MOST_PROGRAM_BYTES, MOST_TEXT_BYTES};
use std::alloc::{AllocError, Global};

/// A file of a request.
#[derive(Clone, Copy, Debug)]
pub struct NamedFile<'a> {
    /// What it holds.
    pub which: Which,
    pub name: &'a str,
}

/// How many bytes a file may have: a program 1,048,576, a certificate 16,777,216, and any other 65,536.
pub fn most_bytes(which: Which) -> usize
    ensures { result ≡ most_bytes which }
{
    match which {
        Which::Program => MOST_PROGRAM_BYTES,
        Which::Certificate => MOST_CERTIFICATE_BYTES,
        Which::Rows | Which::Claims | Which::System | Which::Equations => MOST_TEXT_BYTES,
    }
}

// The file of this name, which holds this.
fn named<'a>(which: Which, name: &'a str) -> NamedFile<'a>
    ensures { name_of result ≡ (which, name.entry.now) }
{
    NamedFile { which, name }
}

// The files of an analysis, of which the first holds this.
fn analysis_files<'a>(
    alloc: Global,
    which: Which,
    analysis: Analysis<&'a str>,
) -> Result<Vec<NamedFile<'a>>, AllocError>
    ensures { IfOk result (λ files. map name_of files.items
        ≡ (which, analysis.entry.program.text.now) ∷ rows_before (domain_text analysis.entry.domain) []) }
{
    let first = named(which, analysis.program.text);
    match analysis.domain {
        Domain::Intervals | Domain::Zones | Domain::Octagons | Domain::Packs => Ok(vec![in alloc;
            first,
        ]?),
        Domain::Rows(rows) => Ok(vec![in alloc; first, named(Which::Rows, rows)]?),
    }
}

// The files of a proof of claims.
fn proof_files<'a>(
    alloc: Global,
    claims: &'a str,
    analysis: Analysis<&'a str>,
) -> Result<Vec<NamedFile<'a>>, AllocError>
    ensures { IfOk result (λ files. map name_of files.items ≡ (Which.Program, analysis.entry.program.text.now)
        ∷ rows_before (domain_text analysis.entry.domain) ((Claims, claims.entry.now) ∷ [])) }
{
    let first = named(Which::Program, analysis.program.text);
    let last = named(Which::Claims, claims);
    match analysis.domain {
        Domain::Intervals | Domain::Zones | Domain::Octagons | Domain::Packs => Ok(vec![in alloc;
            first, last,
        ]?),
        Domain::Rows(rows) => Ok(vec![in alloc; first, named(Which::Rows, rows), last]?),
    }
}

/// The files of a request, in the order of their loads.
///
/// # Errors
///
/// There was no memory.
pub fn request_files<'a>(
    alloc: Global,
    request: Request<&'a str>,
) -> Result<Vec<NamedFile<'a>>, AllocError>
    ensures { IfOk result (λ files. map name_of files.items ≡ files_of (request_text request.entry)) }
{
    match request {
        Request::Analyse { analysis, .. } => analysis_files(alloc, Which::Program, analysis),
        Request::Check {
            program,
            certificate,
            ..
        } => Ok(vec![in alloc;
            named(Which::Program, program.text),
            named(Which::Certificate, certificate),
        ]?),
        Request::Bench { .. } | Request::Help { .. } => Ok(Vec::new(alloc)),
        Request::Upgrade { certificate } => Ok(vec![in alloc;
            named(Which::Certificate, certificate),
        ]?),
        Request::Prove {
            claims,
            analysis,
            ..
        } => proof_files(alloc, claims, analysis),
        Request::Transitions { analysis, .. } => analysis_files(alloc, Which::System, analysis),
        Request::Equations { file, .. } => Ok(vec![in alloc; named(Which::Equations, file)]?),
        Request::Points { program } => Ok(vec![in alloc; named(Which::Program, program)]?),
        Request::Functions { file } => Ok(vec![in alloc; named(Which::Program, file)]?),
        Request::Verify { analysis, .. } => analysis_files(alloc, Which::Program, analysis),
    }
}

/// The files that the words after the program's own name ask to load, in the order of their loads: the program, the transition
/// system or the equations; then the file of rows or the certificate; then the claims.
///
/// # Errors
///
/// The words aren't a command, or there was no memory.
pub fn files_of<'a>(alloc: Global, words: &'a [String]) -> Result<Vec<NamedFile<'a>>, WordsFault>
    ensures ok { IfOk result (λ files. (request : NamedRequest) × (request_of (map string_bytes words.entry.now) ≡ Some request)
        × (map name_of files.items ≡ files_of request)) }
    ensures usage { IsErrOf result WordsFault.Usage → request_of (map string_bytes words.entry.now) ≡ None }
{
    let request = read_words(alloc, words)?;
    Ok(request_files(alloc, request)?)
}

/// Why the first of these files isn't read that isn't, where these are their contents, in the same order.
pub fn unread(files: &[NamedFile], contents: &[&[u8]]) -> Option<ReadCause>
    ensures { result ≡ unread (map name_of files.now) (texts_of contents.now) }
{
    let mut number = 0;
    while number < files.len() {
        let which = files[number].which;
        if number >= contents.len() {
            return Some(ReadCause::Failed(which));
        }
        if contents[number].len() > most_bytes(which) {
            return Some(ReadCause::TooLong(which));
        }
        number += 1;
    }
    None
}

/// Why the first file of a request isn't read that isn't, where these are the contents of its files, in the order of their loads.
///
/// # Errors
///
/// There was no memory.
pub fn first_unread(
    alloc: Global,
    request: Request<&str>,
    contents: &[&[u8]],
) -> Result<Option<ReadCause>, AllocError>
    ensures { IfOk result (λ cause. cause ≡ unread (files_of (request_text request.entry)) (texts_of contents.now)) }
{
    let files = request_files(alloc, request)?;
    Ok(unread(&files, contents))
}

// The text with this number, or the empty text.
fn text_at<'a>(contents: &[&'a [u8]], number: usize) -> &'a [u8]
    ensures { result.now ≡ text_at (texts_of contents.now) number }
{
    match contents.get(number) {
        Some(text) => text,
        None => &[],
    }
}

// A domain with this text in place of its file's name.
fn domain_with<'a>(domain: Domain<&str>, text: &'a [u8]) -> Domain<&'a [u8]>
    ensures { domain_text result ≡ domain_with (domain_text domain.entry) text.entry.now }
{
    match domain {
        Domain::Intervals => Domain::Intervals,
        Domain::Zones => Domain::Zones,
        Domain::Octagons => Domain::Octagons,
        Domain::Packs => Domain::Packs,
        Domain::Rows(_) => Domain::Rows(text),
    }
}

// How many files a domain has.
fn rows_files(domain: Domain<&str>) -> usize
    ensures { result ≡ rows_files (domain_text domain.entry) }
{
    match domain {
        Domain::Intervals | Domain::Zones | Domain::Octagons | Domain::Packs => 0,
        Domain::Rows(_) => 1,
    }
}

// A name as its bytes, where there is one.
fn bytes_of<'a>(name: Option<&'a str>) -> Option<&'a [u8]>
    ensures { option_map (λ text. text.now) result ≡ option_map (λ text. text.now) name.entry }
{
    match name {
        Some(text) => Some(text.as_bytes()),
        None => None,
    }
}

// A program with its text in place of its file's name. The name of its function and its integers stay.
fn source_with<'a>(program: Source<&'a str>, contents: &[&'a [u8]]) -> Source<&'a [u8]>
    ensures { source_text result ≡ source_with (source_text program.entry) (texts_of contents.now) }
{
    Source {
        text: text_at(contents, 0),
        function: bytes_of(program.function),
        integers: program.integers,
    }
}

/// An analysis with its texts in place of the names of files.
pub fn analysis_with<'a>(analysis: Analysis<&'a str>, contents: &[&'a [u8]]) -> Analysis<&'a [u8]>
    ensures { analysis_text result ≡ analysis_with (analysis_text analysis.entry) (texts_of contents.now) }
{
    Analysis {
        program: source_with(analysis.program, contents),
        domain: domain_with(analysis.domain, text_at(contents, 1)),
        improvements: analysis.improvements,
        policy: analysis.policy,
    }
}

/// A request with these texts in place of its files' names, in the order of their loads. The names of a function and of
/// a file that is written stay.
pub fn with_texts<'a>(request: Request<&'a str>, contents: &[&'a [u8]]) -> Request<&'a [u8]>
    ensures { request_text result ≡ with_texts (request_text request.entry) (texts_of contents.now) }
{
    match request {
        Request::Analyse {
            purpose,
            analysis,
            format,
        } => Request::Analyse {
            purpose,
            analysis: analysis_with(analysis, contents),
            format,
        },
        Request::Check {
            program,
            format,
            ..
        } => Request::Check {
            program: source_with(program, contents),
            certificate: text_at(contents, 1),
            format,
        },
        Request::Bench { seed, loops } => Request::Bench { seed, loops },
        Request::Upgrade { .. } => Request::Upgrade {
            certificate: text_at(contents, 0),
        },
        Request::Prove {
            analysis,
            format,
            ..
        } => Request::Prove {
            claims: text_at(contents, 1 + rows_files(analysis.domain)),
            analysis: analysis_with(analysis, contents),
            format,
        },
        Request::Transitions { analysis, format } => Request::Transitions {
            analysis: analysis_with(analysis, contents),
            format,
        },
        Request::Equations {
            improvements,
            policy,
            format,
            ..
        } => Request::Equations {
            file: text_at(contents, 0),
            improvements,
            policy,
            format,
        },
        Request::Points { .. } => Request::Points {
            program: text_at(contents, 0),
        },
        Request::Functions { .. } => Request::Functions {
            file: text_at(contents, 0),
        },
        Request::Verify {
            name,
            analysis,
            format,
        } => Request::Verify {
            name: name.as_bytes(),
            analysis: analysis_with(analysis, contents),
            format,
        },
        Request::Help { topic } => Request::Help { topic },
    }
}
