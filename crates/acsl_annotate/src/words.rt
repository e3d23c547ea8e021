//! The words, as those of `solve`.

ghost use Rattle.std.specs.Prelude.{◌≡◌, ◌∷◌, IfOk, IsErrOf, None, Some, map, string_bytes};
ghost use Rattle.ask_words.specs.Request.{analysis_text, request_of};
ghost use Rattle.ask_words.specs.declared.format.Format.{Format as FormatValue};
ghost use Rattle.ask_words.specs.declared.request.Purpose.TheVariants.{Report};
ghost use Rattle.ask_words.specs.declared.request.Request.TheVariants.{Analyse};
ghost use Rattle.acsl_annotate.specs.Words.{IsSolve, WordsReport, are_plain, as_solve};

use ask_words::laws::{request_laws, solve_reports};
use ask_words::{Analysis, Purpose, Request, WordsFault, read_words};
use std::alloc::{AllocError, Global};

// The words with another before them.
fn words_behind(alloc: Global, first: &str, words: &[String]) -> Result<Vec<String>, AllocError>
    ensures { IfOk result (λ all. map string_bytes all.items ≡ first.now ∷ map string_bytes words.now) }
{
    let mut all = Vec::new(alloc);
    all.push(String::from_str(alloc, first)?)?;
    for word in words {
        all.push(String::from_str(alloc, word)?)?;
    }
    Ok(all)
}

// Whether the words are a program and options that `certify` has too.
fn are_plain(alloc: Global, words: &[String]) -> Result<bool, AllocError>
    ensures { IfOk result (λ plain. plain ≡ are_plain (map string_bytes words.now)) }
{
    let all = words_behind(alloc, "certify", words)?;
    match read_words(alloc, &all) {
        Ok(_) => Ok(true),
        Err(WordsFault::Usage) => Ok(false),
        Err(WordsFault::NoMemory) => Err(AllocError),
    }
}

// The words with `solve` before them; none where they aren't plain.
pub(crate) fn solve_words(alloc: Global, words: &[String]) -> Result<Vec<String>, AllocError>
    ensures { IfOk result (λ all. map string_bytes all.items ≡ as_solve (map string_bytes words.now)) }
{
    if are_plain(alloc, words)? {
        words_behind(alloc, "solve", words)
    } else {
        Ok(Vec::new(alloc))
    }
}

// Such words ask for the report of an analysis, or for nothing.
fn words_report()
    ensures { WordsReport }
{
    request_laws();
    solve_reports();
}

// The analysis whose report such words ask for, in whatever format.
pub(crate) fn read_analysis<'a>(
    alloc: Global,
    words: &'a [String],
) -> Result<Analysis<&'a str>, WordsFault>
    requires { IsSolve (map string_bytes words.now) }
    ensures ok { IfOk result (λ analysis. (format : FormatValue)
        × (request_of (map string_bytes words.entry.now) ≡ Some (Analyse Report (analysis_text analysis) format))) }
    ensures usage { IsErrOf result WordsFault.Usage → request_of (map string_bytes words.entry.now) ≡ None }
{
    words_report();
    match read_words(alloc, words) {
        Ok(
            Request::Analyse {
                purpose: Purpose::Report,
                analysis,
                ..
            },
        ) => Ok(analysis),
        // They ask for nothing else.
        Ok(_) => Err(WordsFault::Usage),
        Err(fault) => Err(fault),
    }
}
