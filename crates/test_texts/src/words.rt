//! Words of the command line, and what they ask for.

use crate::texts::{Case, first_wrong};
use ask_words::{
    Analysis, Domain, Format, Policy, Purpose, Request, Source, Topic, WordsFault, read_words,
};
use base_integers::{Integers, Width};
use std::alloc::{AllocError, Global};

// The words of a line, one behind each blank; the empty line has none.
fn words_of(alloc: Global, line: &str) -> Result<Vec<String>, AllocError> {
    let mut words = Vec::new(alloc);
    if line.is_empty() {
        return Ok(words);
    }
    for word in line.split(' ') {
        words.push(String::from_str(alloc, word)?)?;
    }
    Ok(words)
}

// Whether the words of a line ask for this, or for nothing.
fn asks(alloc: Global, line: &str, wanted: Option<Request<&str>>) -> bool {
    match words_of(alloc, line) {
        Ok(words) => match read_words(alloc, words.as_slice()) {
            Ok(request) => Some(request) == wanted,
            Err(fault) => fault == WordsFault::Usage && wanted.is_none(),
        },
        Err(_) => false,
    }
}

// A line of words, and the analysis whose report they ask for.
impl Case for (&str, Analysis<&str>) {
    fn is_right(&self, alloc: Global) -> bool {
        let request = Request::Analyse {
            purpose: Purpose::Report,
            analysis: self.1,
            format: Format::Text,
        };
        asks(alloc, self.0, Some(request))
    }
}

// A program of which no function is named.
const P: Source<&str> = Source {
    text: "p",
    function: None,
    integers: Integers::Mathematical,
};

// A program of which one is.
const F: Source<&str> = Source {
    text: "p",
    function: Some("f"),
    integers: Integers::Mathematical,
};

const PLAIN: Analysis<&str> = Analysis {
    program: P,
    domain: Domain::Intervals,
    improvements: 1000,
    policy: Policy::Best,
};

const REPORTS: &[(&str, Analysis<&str>)] = &[
    ("solve p", PLAIN),
    (
        "solve help",
        Analysis {
            program: Source {
                text: "help",
                function: None,
                integers: Integers::Mathematical,
            },
            ..PLAIN
        },
    ),
    (
        "solve ",
        Analysis {
            program: Source {
                text: "",
                function: None,
                integers: Integers::Mathematical,
            },
            ..PLAIN
        },
    ),
    (
        "solve --domain=zones p",
        Analysis {
            domain: Domain::Zones,
            ..PLAIN
        },
    ),
    (
        "solve p --domain zones",
        Analysis {
            domain: Domain::Zones,
            ..PLAIN
        },
    ),
    (
        "solve -- --domain",
        Analysis {
            program: Source {
                text: "--domain",
                function: None,
                integers: Integers::Mathematical,
            },
            ..PLAIN
        },
    ),
    (
        "solve p --function f",
        Analysis {
            program: F,
            ..PLAIN
        },
    ),
    (
        "solve --function=-f p",
        Analysis {
            program: Source {
                text: "p",
                function: Some("-f"),
                integers: Integers::Mathematical,
            },
            ..PLAIN
        },
    ),
    (
        "solve p --int=8",
        Analysis {
            program: Source {
                integers: Integers::Machine(Width::Bits8),
                ..P
            },
            ..PLAIN
        },
    ),
    // Zeros may stand before any number.
    (
        "solve --int 016 p",
        Analysis {
            program: Source {
                integers: Integers::Machine(Width::Bits16),
                ..P
            },
            ..PLAIN
        },
    ),
    // Any word is a name, the empty one too, which no function has.
    (
        "solve p --function=",
        Analysis {
            program: Source {
                text: "p",
                function: Some(""),
                integers: Integers::Mathematical,
            },
            ..PLAIN
        },
    ),
    (
        "solve p --domain rows --rows r",
        Analysis {
            domain: Domain::Rows("r"),
            ..PLAIN
        },
    ),
];

#[test]
fn words_ask_for_reports(rt: HostRuntime) {
    assert_eq!(rt; first_wrong(rt.alloc(), REPORTS), None);
}

// A line of words, and what they ask for.
impl Case for (&str, Request<&str>) {
    fn is_right(&self, alloc: Global) -> bool {
        asks(alloc, self.0, Some(self.1))
    }
}

const OTHERS: &[(&str, Request<&str>)] = &[
    (
        "certify --policy first p --improvements=1000000 --domain octagons",
        Request::Analyse {
            purpose: Purpose::Certificate,
            analysis: Analysis {
                program: P,
                domain: Domain::Octagons,
                improvements: 1_000_000,
                policy: Policy::First,
            },
            format: Format::Text,
        },
    ),
    (
        "check p c",
        Request::Check {
            program: P,
            certificate: "c",
            format: Format::Text,
        },
    ),
    (
        "bench --loops 500 --seed 2147483647",
        Request::Bench {
            seed: 2_147_483_647,
            loops: 500,
        },
    ),
    ("upgrade c", Request::Upgrade { certificate: "c" }),
    ("upgrade -- -c", Request::Upgrade { certificate: "-c" }),
    (
        "prove p c --domain rows --rows r",
        Request::Prove {
            claims: "c",
            analysis: Analysis {
                program: P,
                domain: Domain::Rows("r"),
                improvements: 1000,
                policy: Policy::Best,
            },
            format: Format::Text,
        },
    ),
    (
        "prove --policy=first p --improvements 0 c",
        Request::Prove {
            claims: "c",
            analysis: Analysis {
                program: P,
                domain: Domain::Intervals,
                improvements: 0,
                policy: Policy::First,
            },
            format: Format::Text,
        },
    ),
    (
        "transitions s --domain packs",
        Request::Transitions {
            analysis: Analysis {
                program: Source {
                    text: "s",
                    function: None,
                    integers: Integers::Mathematical,
                },
                domain: Domain::Packs,
                improvements: 1000,
                policy: Policy::Best,
            },
            format: Format::Text,
        },
    ),
    (
        "equations e",
        Request::Equations {
            file: "e",
            improvements: 1000,
            policy: Policy::Best,
            format: Format::Text,
        },
    ),
    (
        "equations --policy=first e --improvements 5",
        Request::Equations {
            file: "e",
            improvements: 5,
            policy: Policy::First,
            format: Format::Text,
        },
    ),
    (
        "solve --format=json p",
        Request::Analyse {
            purpose: Purpose::Report,
            analysis: PLAIN,
            format: Format::Json,
        },
    ),
    (
        "check p --format json c",
        Request::Check {
            program: P,
            certificate: "c",
            format: Format::Json,
        },
    ),
    (
        "verify p --format sarif",
        Request::Verify {
            name: "p",
            analysis: PLAIN,
            format: Format::Sarif,
        },
    ),
    (
        "certify p --function=f",
        Request::Analyse {
            purpose: Purpose::Certificate,
            analysis: Analysis {
                program: F,
                ..PLAIN
            },
            format: Format::Text,
        },
    ),
    (
        "check --function f p c",
        Request::Check {
            program: F,
            certificate: "c",
            format: Format::Text,
        },
    ),
    (
        "prove p --function f c",
        Request::Prove {
            claims: "c",
            analysis: Analysis {
                program: F,
                ..PLAIN
            },
            format: Format::Text,
        },
    ),
    (
        "verify p --function f",
        Request::Verify {
            name: "p",
            analysis: Analysis {
                program: F,
                ..PLAIN
            },
            format: Format::Text,
        },
    ),
    (
        "verify p --int 32 --function f",
        Request::Verify {
            name: "p",
            analysis: Analysis {
                program: Source {
                    integers: Integers::Machine(Width::Bits32),
                    ..F
                },
                ..PLAIN
            },
            format: Format::Text,
        },
    ),
    (
        "check --int 16 p c",
        Request::Check {
            program: Source {
                integers: Integers::Machine(Width::Bits16),
                ..P
            },
            certificate: "c",
            format: Format::Text,
        },
    ),
    (
        "certify p --int=16",
        Request::Analyse {
            purpose: Purpose::Certificate,
            analysis: Analysis {
                program: Source {
                    integers: Integers::Machine(Width::Bits16),
                    ..P
                },
                ..PLAIN
            },
            format: Format::Text,
        },
    ),
    (
        "prove --int 8 p c",
        Request::Prove {
            claims: "c",
            analysis: Analysis {
                program: Source {
                    integers: Integers::Machine(Width::Bits8),
                    ..P
                },
                ..PLAIN
            },
            format: Format::Text,
        },
    ),
    ("functions p", Request::Functions { file: "p" }),
    (
        "functions functions",
        Request::Functions { file: "functions" },
    ),
    ("points p", Request::Points { program: "p" }),
    ("points -- -p", Request::Points { program: "-p" }),
    (
        "verify --domain octagons p --improvements 7",
        Request::Verify {
            name: "p",
            analysis: Analysis {
                program: P,
                domain: Domain::Octagons,
                improvements: 7,
                policy: Policy::Best,
            },
            format: Format::Text,
        },
    ),
    (
        "help",
        Request::Help {
            topic: Topic::Overview,
        },
    ),
    (
        "help help",
        Request::Help {
            topic: Topic::Overview,
        },
    ),
    (
        "help transitions",
        Request::Help {
            topic: Topic::Transitions,
        },
    ),
    (
        "help functions",
        Request::Help {
            topic: Topic::Functions,
        },
    ),
];

#[test]
fn words_ask_for_other_commands(rt: HostRuntime) {
    assert_eq!(rt; first_wrong(rt.alloc(), OTHERS), None);
}

// A line of words that ask for nothing.
impl Case for &str {
    fn is_right(&self, alloc: Global) -> bool {
        asks(alloc, *self, None)
    }
}
