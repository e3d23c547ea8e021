//! Whole outputs.

ghost use Rattle.std.specs.Prelude.{◌≤◌, length};
ghost use Rattle.base_limits.specs.declared.limits.TheConstants.{MOST_TEXT_BYTES};

use ask_words::{Domain, Format, Policy, Source};
use base_integers::Integers;
use base_limits::MOST_TEXT_BYTES;
use base_watch::Unwatched;
use std::alloc::Global;
use top_texts::{
    Given, Refusal, certificate_of, equations_text, prove_text, read_given, report_by, report_of,
    system_on, transitions_text, verify_text,
};

// What is asked of a text, and of a second one or of the name of its file.
#[derive(Clone, Copy)]
enum Asked {
    Solve,
    Check,
    Transitions,
    Equations,
    Prove,
    Verify,
}

const LIMIT: u32 = 1000;

// The report of the certificate that the rounds make.
fn checked(alloc: Global, text: &[u8], format: Format) -> Result<Vec<u8>, Refusal>
    requires { length text.now ≤ MOST_TEXT_BYTES }
{
    let source = Source {
        text,
        function: None,
        integers: Integers::Mathematical,
    };
    let system = system_on(alloc, source, Domain::Intervals)?;
    let bytes = certificate_of(alloc, &system, Policy::Best, LIMIT, &mut Unwatched)?;
    let Given {
        program,
        flow,
        cert,
    } = read_given(alloc, source, &bytes)?;
    report_by(alloc, &program, flow, &cert, format)
}

// The output of a command over intervals; none where a text is longer than one may be.
fn output(
    alloc: Global,
    asked: Asked,
    text: &[u8],
    other: &[u8],
    format: Format,
) -> Result<Vec<u8>, Refusal> {
    if text.len() > MOST_TEXT_BYTES || other.len() > MOST_TEXT_BYTES {
        return Ok(Vec::new(alloc));
    }
    let source = Source {
        text,
        function: None,
        integers: Integers::Mathematical,
    };
    let rows = Domain::Intervals;
    let policy = Policy::Best;
    let watch = &mut Unwatched;
    match asked {
        Asked::Solve => {
            let system = system_on(alloc, source, rows)?;
            report_of(alloc, &system, policy, LIMIT, format, watch)
        }
        Asked::Check => checked(alloc, text, format),
        Asked::Transitions => transitions_text(alloc, text, rows, policy, LIMIT, format, watch),
        Asked::Equations => equations_text(alloc, text, policy, LIMIT, format, watch),
        Asked::Prove => prove_text(alloc, source, rows, other, policy, LIMIT, format, watch),
        Asked::Verify => Ok(
            verify_text(alloc, other, source, rows, policy, LIMIT, format, watch)?.bytes,
        ),
    }
}

// `x` is 3 or 4, then 5 or 4, and then one more.
const PLACES: &[u8] = b"int main() {
  int x;
  assume(x == 3 || x == 4);
  if (x == 3) x = 5;
L:
  x = x + 1;
}
";

const PLACES_JSON: &[u8] = b"{\"improvements\":4,\"points\":[\
    {\"bounds\":[\"+inf\",\"+inf\"],\"kind\":\"entry\",\"line\":null,\"name\":null,\"point\":0,\"reachable\":true},\
    {\"bounds\":[\"4\",\"-3\"],\"kind\":\"assume\",\"line\":3,\"name\":null,\"point\":1,\"reachable\":true},\
    {\"bounds\":[\"5\",\"-4\"],\"kind\":\"join\",\"line\":4,\"name\":null,\"point\":2,\"reachable\":true},\
    {\"bounds\":[\"5\",\"-4\"],\"kind\":\"label\",\"line\":5,\"name\":\"L\",\"point\":3,\"reachable\":true},\
    {\"bounds\":[\"6\",\"-5\"],\"kind\":\"exit\",\"line\":null,\"name\":null,\"point\":4,\"reachable\":true}\
    ],\"rows\":[\"x\",\"-x\"],\"variables\":[\"x\"]}\n";

const COUNT: &[u8] = b"int main() { int x = 0; while (x < 100) { x = x + 1; } }";

const COUNT_JSON: &[u8] = b"{\"improvements\":3,\"points\":[\
    {\"bounds\":[\"+inf\",\"+inf\"],\"kind\":\"entry\",\"line\":null,\"name\":null,\"point\":0,\"reachable\":true},\
    {\"bounds\":[\"100\",\"0\"],\"kind\":\"loop\",\"line\":1,\"name\":null,\"point\":1,\"reachable\":true},\
    {\"bounds\":[\"100\",\"-100\"],\"kind\":\"exit\",\"line\":null,\"name\":null,\"point\":2,\"reachable\":true}\
    ],\"rows\":[\"x\",\"-x\"],\"variables\":[\"x\"]}\n";

const COUNT_CHECKED: &[u8] = b"{\"certificate\":\"accepted\",\"points\":[\
    {\"bounds\":[\"+inf\",\"+inf\"],\"kind\":\"entry\",\"line\":null,\"name\":null,\"point\":0,\"reachable\":true},\
    {\"bounds\":[\"100\",\"0\"],\"kind\":\"loop\",\"line\":1,\"name\":null,\"point\":1,\"reachable\":true},\
    {\"bounds\":[\"100\",\"-100\"],\"kind\":\"exit\",\"line\":null,\"name\":null,\"point\":2,\"reachable\":true}\
    ],\"rows\":[\"x\",\"-x\"],\"variables\":[\"x\"]}\n";

// Nothing leads to `a`.
const UNREACHED: &[u8] = b"vars x, y; points s, a; edge a a { x = 1; }";

const UNREACHED_JSON: &[u8] = b"{\"improvements\":0,\"points\":[\
    {\"bounds\":[\"+inf\",\"+inf\",\"+inf\",\"+inf\"],\"kind\":\"entry\",\"line\":null,\"name\":null,\"point\":0,\
    \"reachable\":true},\
    {\"bounds\":[],\"kind\":\"label\",\"line\":1,\"name\":\"a\",\"point\":1,\"reachable\":false}\
    ],\"rows\":[\"x\",\"-x\",\"y\",\"-y\"],\"variables\":[\"x\",\"y\"]}\n";

// The states end at 10/3 and one more.
const THIRDS: &[u8] =
    b"int main() { int x = 0; while (nondet()) { assume(3*x <= 10); x = x + 1; } end: }";

// Names in another order than that of their bytes.
const ASSERTS: &[u8] = b"int main() {
  int b = 11, _ = 7, a2 = 10, a = -1, B = 0;
  assert(b > a2);
  if (nondet())
    assert(a2 > b);
  else assert(B > 0);
}
";

const ASSERTS_TEXT: &[u8] = b"check 0 at 3:3: assert: proved
check 1 at 5:5: assert: open at b = 11, _ = 7, a2 = 10, a = -1, B = 0
check 2 at 6:8: assert: open at b = 11, _ = 7, a2 = 10, a = -1, B = 0
proved 1 of 3
improvements: 0
";

const ASSERTS_JSON: &[u8] = b"{\"checks\":[\
    {\"column\":3,\"kind\":\"assert\",\"line\":3,\"state\":null,\"verdict\":\"proved\"},\
    {\"column\":5,\"kind\":\"assert\",\"line\":5,\"state\":{\"B\":\"0\",\"_\":\"7\",\"a\":\"-1\",\"a2\":\"10\",\"b\":\"11\"},\
    \"verdict\":\"open\"},\
    {\"column\":8,\"kind\":\"assert\",\"line\":6,\"state\":{\"B\":\"0\",\"_\":\"7\",\"a\":\"-1\",\"a2\":\"10\",\"b\":\"11\"},\
    \"verdict\":\"open\"}\
    ],\"improvements\":0,\"proved\":1}\n";

const ASSERTS_SARIF: &[u8] =
    b"{\"$schema\":\"https://json.schemastore.org/sarif-2.1.0.json\",\"runs\":[{\"results\":[\
    {\"level\":\"warning\",\"locations\":[{\"physicalLocation\":{\"artifactLocation\":{\"uri\":\"a%20b/%C3%BC-1.c\"},\
    \"region\":{\"startColumn\":5,\"startLine\":5}}}],\
    \"message\":{\"text\":\"assert: open at b = 11, _ = 7, a2 = 10, a = -1, B = 0\"},\"ruleId\":\"assert\"},\
    {\"level\":\"warning\",\"locations\":[{\"physicalLocation\":{\"artifactLocation\":{\"uri\":\"a%20b/%C3%BC-1.c\"},\
    \"region\":{\"startColumn\":8,\"startLine\":6}}}],\
    \"message\":{\"text\":\"assert: open at b = 11, _ = 7, a2 = 10, a = -1, B = 0\"},\"ruleId\":\"assert\"}\
    ],\"tool\":{\"driver\":{\"name\":\"tmpl\",\"rules\":[{\"id\":\"assert\"},{\"id\":\"divisor\"},{\"id\":\"error\"},\
    {\"id\":\"index\"},{\"id\":\"range\"}]}}}],\"version\":\"2.1.0\"}\n";

const NO_ASSERT: &[u8] = b"int main() { int x; }";

const NONE_SARIF: &[u8] =
    b"{\"$schema\":\"https://json.schemastore.org/sarif-2.1.0.json\",\"runs\":[{\"results\":[],\
    \"tool\":{\"driver\":{\"name\":\"tmpl\",\"rules\":[{\"id\":\"assert\"},{\"id\":\"divisor\"},{\"id\":\"error\"},\
    {\"id\":\"index\"},{\"id\":\"range\"}]}}}],\"version\":\"2.1.0\"}\n";

// What is asked, the text, the other one, the format, and the output.
type Case = (Asked, &'static [u8], &'static [u8], Format, &'static [u8]);

const OUTPUTS: &[Case] = &[
    (Asked::Solve, PLACES, b"", Format::Json, PLACES_JSON),
    (Asked::Solve, COUNT, b"", Format::Json, COUNT_JSON),
    (Asked::Check, COUNT, b"", Format::Json, COUNT_CHECKED),
    (
        Asked::Transitions,
        UNREACHED,
        b"",
        Format::Json,
        UNREACHED_JSON,
    ),
    (
        Asked::Equations,
        b"a = max(1, 2*a); b = max(1:2, 0*a);",
        b"",
        Format::Json,
        b"{\"improvements\":2,\"values\":[{\"name\":\"a\",\"value\":\"+inf\"},{\"name\":\"b\",\"value\":\"1/2\"}]}\n",
    ),
    (
        Asked::Prove,
        THIRDS,
        b"end: x <= 4; end: 3*x <= 10;",
        Format::Json,
        b"{\"claims\":[{\"label\":\"end\",\"state\":null,\"verdict\":\"proved\"},\
        {\"label\":\"end\",\"state\":{\"x\":\"11/3\"},\"verdict\":\"open\"}],\"improvements\":3,\"proved\":1}\n",
    ),
    (
        Asked::Prove,
        THIRDS,
        b"",
        Format::Json,
        b"{\"claims\":[],\"improvements\":3,\"proved\":0}\n",
    ),
    (Asked::Verify, ASSERTS, b"p.c", Format::Text, ASSERTS_TEXT),
    (Asked::Verify, ASSERTS, b"p.c", Format::Json, ASSERTS_JSON),
    (
        Asked::Verify,
        ASSERTS,
        b"a b/\xc3\xbc-1.c",
        Format::Sarif,
        ASSERTS_SARIF,
    ),
    (
        Asked::Verify,
        NO_ASSERT,
        b"p.c",
        Format::Json,
        b"{\"checks\":[],\"improvements\":1,\"proved\":0}\n",
    ),
    (Asked::Verify, NO_ASSERT, b"p.c", Format::Sarif, NONE_SARIF),
];

// The number of the first case whose output isn't as it is to be.
fn first_wrong(alloc: Global, table: &[Case]) -> Option<usize> {
    table.iter().position(|case| match output(alloc, case.0, case.1, case.2, case.3) {
        Ok(bytes) => bytes.as_slice() != case.4,
        Err(_) => true,
    })
}

#[test]
fn outputs_are_as_they_are_to_be(rt: HostRuntime) {
    assert_eq!(rt; first_wrong(rt.alloc(), OUTPUTS), None);
}
