//! The values of options. Each is taken as a text and read here.

ghost use Rattle.std.specs.Prelude.{◌≡◌, codes, option_map};
ghost use Rattle.std.specs.List.{list_all};
ghost use Rattle.std.specs.Char.{is_ascii_digit};
ghost use Rattle.ask_words.specs.Request.{domain_text};
ghost use Rattle.ask_words.specs.Values.{built_in_domains, check_formats, domain_in, formats, integers_in, machine_in, meaning_in};
ghost use Rattle.ask_words.specs.Values.{number_in, policies};

use crate::format::Format;
use crate::request::{Domain, Policy};
use base_integers::{Integers, Width};

/// The number of one to ten decimal digits, where it lies between `least` and `most`.
pub(crate) fn number(text: &str, least: u32, most: u32) -> Option<u32>
    ensures { result ≡ number_in least most text.now }
{
    if text.len() > 10 || !is_digits(text) {
        return None;
    }
    match text.parse::<u32>() {
        Ok(value) => {
            if least <= value && value <= most {
                Some(value)
            } else {
                None
            }
        }
        Err(_) => None,
    }
}

// Whether there are decimal digits and nothing else.
fn is_digits(text: &str) -> bool
    ensures { result ≡ list_all is_ascii_digit text.now }
{
    text.as_bytes().iter().all(|b| b.is_ascii_digit())
}

/// The integers of a machine that have so many bits, or the mathematical ones, where no number is given.
pub(crate) fn integers(bits: Option<&str>) -> Option<Integers>
    ensures { result ≡ integers_in (option_map (λ text. text.now) bits.entry) }
{
    match bits {
        Some(text) => machine(number(text, 8, 32)?),
        None => Some(Integers::Mathematical),
    }
}

// Those of a machine, of so many bits.
fn machine(bits: u32) -> Option<Integers>
    ensures { result ≡ machine_in bits }
{
    match bits {
        8 => Some(Integers::Machine(Width::Bits8)),
        16 => Some(Integers::Machine(Width::Bits16)),
        32 => Some(Integers::Machine(Width::Bits32)),
        _ => None,
    }
}

/// The policy of this name.
pub(crate) fn policy(name: &str) -> Option<Policy>
    ensures { result ≡ meaning_in policies name.now }
{
    if name == "best" {
        Some(Policy::Best)
    } else if name == "first" {
        Some(Policy::First)
    } else {
        None
    }
}

/// The format of this name, where there is no SARIF of the output.
pub(crate) fn plain_format(name: &str) -> Option<Format>
    ensures { result ≡ meaning_in formats name.now }
{
    if name == "text" {
        Some(Format::Text)
    } else if name == "json" {
        Some(Format::Json)
    } else {
        None
    }
}

/// The format of this name, of verdicts on checks.
pub(crate) fn check_format(name: &str) -> Option<Format>
    ensures { result ≡ meaning_in check_formats name.now }
{
    if name == "text" {
        Some(Format::Text)
    } else if name == "json" {
        Some(Format::Json)
    } else if name == "sarif" {
        Some(Format::Sarif)
    } else {
        None
    }
}

/// The domain of this name. A file of rows is given exactly where the name is `rows`.
pub(crate) fn domain<'a>(name: &str, rows: Option<&'a str>) -> Option<Domain<&'a str>>
    ensures { option_map domain_text result
        ≡ domain_in name.now (option_map (λ file. file.now) rows.entry) }
{
    match rows {
        Some(file) => {
            if name == "rows" {
                Some(Domain::Rows(file))
            } else {
                None
            }
        }
        None => built_in_domain(name),
    }
}

fn built_in_domain<'a>(name: &str) -> Option<Domain<&'a str>>
    ensures { option_map domain_text result ≡ meaning_in built_in_domains name.now }
{
    if name == "intervals" {
        Some(Domain::Intervals)
    } else if name == "zones" {
        Some(Domain::Zones)
    } else if name == "octagons" {
        Some(Domain::Octagons)
    } else if name == "packs" {
        Some(Domain::Packs)
    } else {
        None
    }
}
