//! Outputs as JSON and as SARIF through whole runs; how they are made of values is tested apart.

use crate::cases::{Ending, first_wrong};
use crate::done::reports::LINE;

const LINE_JSON: &[u8] = b"{\"improvements\":1,\"points\":[\
    {\"bounds\":[\"+inf\",\"+inf\",\"+inf\",\"+inf\"],\"kind\":\"entry\",\"line\":null,\"name\":null,\"point\":0,\
    \"reachable\":true},\
    {\"bounds\":[\"2\",\"-2\",\"7\",\"-7\"],\"kind\":\"exit\",\"line\":null,\"name\":null,\"point\":1,\"reachable\":true}\
    ],\"rows\":[\"x\",\"-x\",\"y\",\"-y\"],\"variables\":[\"x\",\"y\"]}\n";

// Its assertion is open: x is 2 there. Nothing goes on behind it, so no bound is improved.
const OPEN: &[u8] = b"int main() { int x = 2;\n assert(x == 3); }";

const OPEN_SARIF: &[u8] =
    b"{\"$schema\":\"https://json.schemastore.org/sarif-2.1.0.json\",\"runs\":[{\"results\":[\
    {\"level\":\"warning\",\"locations\":[{\"physicalLocation\":{\"artifactLocation\":{\"uri\":\"p\"},\
    \"region\":{\"startColumn\":2,\"startLine\":2}}}],\"message\":{\"text\":\"assert: open at x = 2\"},\
    \"ruleId\":\"assert\"}],\"tool\":{\"driver\":{\"name\":\"tmpl\",\"rules\":[{\"id\":\"assert\"},{\"id\":\"divisor\"},\
    {\"id\":\"error\"},{\"id\":\"index\"},{\"id\":\"range\"}]}}}],\"version\":\"2.1.0\"}\n";

const OPEN_JSON: &[u8] = b"{\"checks\":[\
    {\"column\":2,\"kind\":\"assert\",\"line\":2,\"state\":{\"x\":\"2\"},\"verdict\":\"open\"}\
    ],\"improvements\":0,\"proved\":0}\n";

const NEXT: &[u8] = b"int next(int a) { return a + 1; }";

const NEXT_JSON: &[u8] = b"{\"checks\":[\
    {\"column\":28,\"kind\":\"range\",\"line\":1,\"state\":{\"a\":\"127\"},\"verdict\":\"open\"}\
    ],\"improvements\":1,\"proved\":0}\n";

// A line of words, the file `p`, and how the run ends.
const FORMATS: &[(&str, &[u8], Ending)] = &[
    ("solve p --format json", LINE, Ending::Report(LINE_JSON)),
    ("verify p --format json", OPEN, Ending::Open(OPEN_JSON)),
    ("verify --format=sarif p", OPEN, Ending::Open(OPEN_SARIF)),
    (
        "verify p --int 8 --format json",
        NEXT,
        Ending::Open(NEXT_JSON),
    ),
    (
        "solve p --format json",
        b"int main() { }",
        Ending::Refused(4, b"program refused: no variables\n"),
    ),
];

#[test]
fn outputs_have_formats(rt: HostRuntime) {
    assert_eq!(rt; first_wrong(rt.alloc(), FORMATS), None);
}
