//! The line that says which words make a command, and the pages of `tmpl help`, one for each command.

ghost use Rattle.std.specs.Prelude.{◌≡◌, option_map};
ghost use Rattle.ask_words.specs.Help.{help_text, topic_in, topics, usage_text};
ghost use Rattle.ask_words.specs.Values.{meaning_in};

/// Of what `tmpl help` speaks: of itself, with a list of the commands, or of one of these.
#[derive(Clone, Copy, Debug, PartialEq, Eq)]
pub enum Topic {
    Overview,
    Solve,
    Certify,
    Check,
    Bench,
    Upgrade,
    Prove,
    Transitions,
    Equations,
    Points,
    Verify,
    Functions,
}

const HELP: &[u8] =
    b"Finds the least bounds of linear forms over the variables of a program, without
widening, and proves claims and assertions by them. Its commands are

  solve PROGRAM             the report of the least bounds
  certify PROGRAM           a certificate of these bounds
  check PROGRAM CERT        the report of the bounds of a valid certificate
  bench --seed N --loops K  the summary of a generated program
  upgrade CERT              a certificate, as it is written now
  prove PROGRAM CLAIMS      which claims the bounds prove
  transitions FILE          the report of a transition system's bounds
  equations FILE            the least solution of equations
  points PROGRAM            the points of a program, without bounds
  verify PROGRAM            which assertions of a program the bounds prove
  functions PROGRAM         the names of the functions of a file

usage: tmpl help [COMMAND]

  COMMAND  says what this command takes, with an example and its exit codes

example: tmpl help solve

exit codes: 0 written, 1 certificate refused, 2 wrong words, 3 file not read,
  4 text refused or too large, 5 fraction too wide, 6 improvements spent,
  7 out of memory, 8 cannot write, 10 some assertion is open
";

const SOLVE: &[u8] = b"Prints the least bounds of a program: for each point, as loop heads, labels
and the exit, and for each row of the domain the least number that the row
never exceeds there.

usage: tmpl solve PROGRAM
         [--domain D] [--rows FILE] [--improvements N] [--policy P]
         [--format F] [--progress] [--function NAME] [--int N]

  PROGRAM           a C file
  --domain D        rows: intervals if absent, zones, octagons, packs or rows
  --rows FILE       with the domain rows, the file that has them
  --improvements N  up to N rounds of improvements, 1000 if absent
  --policy P        which edge a round picks: best if absent, or first
  --progress        tells rounds, turns and pivots on standard error
  --function NAME   the function asked about; main, or the only one, if absent
  --int N           integers of N bits (8, 16 or 32), each operation checked
                    for overflow; mathematical integers if absent
  --format F        how it is written: text if absent, or json

example: tmpl solve examples/sum.c --domain octagons

exit codes: 0 written, 2 wrong words, 3 file not read, 4 text refused or too
  large, 5 fraction too wide, 6 improvements spent, 7 out of memory,
  8 cannot write
";

const CERTIFY: &[u8] =
    b"Writes a certificate of the least bounds of a program: how they are reached,
and why nothing smaller would do. Another program, or check, can follow it.

usage: tmpl certify PROGRAM
         [--domain D] [--rows FILE] [--improvements N] [--policy P]
         [--progress] [--function NAME] [--int N]

  PROGRAM           a C file
  --domain D        rows: intervals if absent, zones, octagons, packs or rows
  --rows FILE       with the domain rows, the file that has them
  --improvements N  up to N rounds of improvements, 1000 if absent
  --policy P        which edge a round picks: best if absent, or first
  --progress        tells rounds, turns and pivots on standard error
  --function NAME   the function asked about; main, or the only one, if absent
  --int N           integers of N bits (8, 16 or 32), each operation checked
                    for overflow; mathematical integers if absent

example: tmpl certify examples/sum.c --domain octagons > sum.cert

exit codes: 0 written, 2 wrong words, 3 file not read, 4 text refused or too
  large, 5 fraction too wide, 6 improvements spent, 7 out of memory,
  8 cannot write
";

const CHECK: &[u8] = b"Checks a certificate, whoever made it, and prints the bounds of one that is
valid: they are the least bounds of the program over the certificate's rows.

usage: tmpl check PROGRAM CERT
         [--format F] [--function NAME] [--int N]

  PROGRAM          a C file
  CERT             a certificate, as certify writes it
  --function NAME  the function asked about; main, or the only one, if absent
  --int N          integers of N bits (8, 16 or 32), each operation checked
                   for overflow; mathematical integers if absent
  --format F       how it is written: text if absent, or json

example: tmpl check examples/sum.c sum.cert

exit codes: 0 accepted, 1 certificate refused, 2 wrong words, 3 file not read,
  4 program refused, 5 fraction too wide, 7 out of memory, 8 cannot write
";

const BENCH: &[u8] = b"Solves a generated program, and prints a summary of what was found.

usage: tmpl bench --seed N --loops K

  --seed N   from which the program is drawn, 0 to 2147483647
  --loops K  how many loops it has, 1 to 500

example: tmpl bench --seed 1 --loops 10

exit codes: 0 written, 2 wrong words, 4 linear program too large, 5 fraction too
  wide, 6 improvements spent, 7 out of memory, 8 cannot write
";

const UPGRADE: &[u8] = b"Writes a certificate of an older format as certify writes certificates now.
It isn't checked.

usage: tmpl upgrade CERT

  CERT  a certificate, in any format

example: tmpl upgrade old.cert > new.cert

exit codes: 0 written, 1 no certificate, 2 wrong words, 3 file not read,
  7 out of memory, 8 cannot write
";

const PROVE: &[u8] =
    b"Says of each claim about the states at a label whether the least bounds of the
program prove it, with a state that they allow where it is open.

usage: tmpl prove PROGRAM CLAIMS
         [--domain D] [--rows FILE] [--improvements N] [--policy P]
         [--format F] [--progress] [--function NAME] [--int N]

  PROGRAM           a C file
  CLAIMS            a file of claims, as LABEL: x <= 10;
  --domain D        rows: intervals if absent, zones, octagons, packs or rows
  --rows FILE       with the domain rows, the file that has them
  --improvements N  up to N rounds of improvements, 1000 if absent
  --policy P        which edge a round picks: best if absent, or first
  --progress        tells rounds, turns and pivots on standard error
  --function NAME   the function asked about; main, or the only one, if absent
  --int N           integers of N bits (8, 16 or 32), each operation checked
                    for overflow; mathematical integers if absent
  --format F        how it is written: text if absent, or json

example: tmpl prove examples/pair.c examples/pair.claims

exit codes: 0 written, 2 wrong words, 3 file not read, 4 text refused or too
  large, 5 fraction too wide, 6 improvements spent, 7 out of memory,
  8 cannot write
";

const TRANSITIONS: &[u8] =
    b"Prints the least bounds of a transition system: points, with guarded edges
between them, as another tool may write them down.

usage: tmpl transitions FILE
         [--domain D] [--rows FILE] [--improvements N] [--policy P]
         [--format F] [--progress]

  FILE              points and edges, instead of a program
  --domain D        rows: intervals if absent, zones, octagons, packs or rows
  --rows FILE       with the domain rows, the file that has them
  --improvements N  up to N rounds of improvements, 1000 if absent
  --policy P        which edge a round picks: best if absent, or first
  --progress        tells rounds, turns and pivots on standard error
  --format F        how it is written: text if absent, or json

example: tmpl transitions examples/buffer.tsys

exit codes: 0 written, 2 wrong words, 3 file not read, 4 text refused or too
  large, 5 fraction too wide, 6 improvements spent, 7 out of memory,
  8 cannot write
";

const EQUATIONS: &[u8] = b"Prints the least solution of rational equations with maxima and minima.

usage: tmpl equations FILE
         [--improvements N] [--policy P] [--format F] [--progress]

  FILE              equations, as x = max(0, 1:2*y + 1);
  --improvements N  up to N rounds of improvements, 1000 if absent
  --policy P        which edge a round picks: best if absent, or first
  --progress        tells rounds, turns and pivots on standard error
  --format F        how it is written: text if absent, or json

example: tmpl equations examples/fair.equ

exit codes: 0 written, 2 wrong words, 3 file not read, 4 text refused or too
  large, 5 fraction too wide, 6 improvements spent, 7 out of memory,
  8 cannot write
";

const POINTS: &[u8] = b"Lists the points of a program, with their lines and labels, without bounds.

usage: tmpl points PROGRAM

  PROGRAM  a C file

example: tmpl points examples/pair.c

exit codes: 0 written, 2 wrong words, 3 file not read, 4 program refused,
  7 out of memory, 8 cannot write
";

const VERIFY: &[u8] =
    b"Says of each assertion of a program whether its least bounds prove it, with a
state that they allow where it is open.

usage: tmpl verify PROGRAM
         [--domain D] [--rows FILE] [--improvements N] [--policy P]
         [--format F] [--progress] [--function NAME] [--int N]

  PROGRAM           a C file
  --domain D        rows: intervals if absent, zones, octagons, packs or rows
  --rows FILE       with the domain rows, the file that has them
  --improvements N  up to N rounds of improvements, 1000 if absent
  --policy P        which edge a round picks: best if absent, or first
  --progress        tells rounds, turns and pivots on standard error
  --function NAME   the function asked about; main, or the only one, if absent
  --int N           integers of N bits (8, 16 or 32), each operation checked
                    for overflow; mathematical integers if absent
  --format F        how it is written: text if absent, json or sarif

example: tmpl verify examples/assertions.c --domain octagons

exit codes: 0 all are proved, 10 some assertion is open, 2 wrong words,
  3 file not read, 4 text refused or too large, 5 fraction too wide,
  6 improvements spent, 7 out of memory, 8 cannot write
";

const FUNCTIONS: &[u8] = b"Lists the names of the functions that a C file defines, in their order.

usage: tmpl functions PROGRAM

  PROGRAM  a C file

example: tmpl functions examples/pair.c

exit codes: 0 written, 2 wrong words, 3 file not read, 4 program refused,
  7 out of memory, 8 cannot write
";

/// The page of a command: what it is for, its words, an example, and its exit codes; on at most 24 lines of at most 80 columns.
pub fn help_text(topic: Topic) -> &'static [u8]
    ensures { result.now ≡ help_text topic }
{
    match topic {
        Topic::Overview => HELP,
        Topic::Solve => SOLVE,
        Topic::Certify => CERTIFY,
        Topic::Check => CHECK,
        Topic::Bench => BENCH,
        Topic::Upgrade => UPGRADE,
        Topic::Prove => PROVE,
        Topic::Transitions => TRANSITIONS,
        Topic::Equations => EQUATIONS,
        Topic::Points => POINTS,
        Topic::Verify => VERIFY,
        Topic::Functions => FUNCTIONS,
    }
}

// The page of the command of this name.
fn page_of(name: &str) -> Option<Topic>
    ensures { result ≡ meaning_in topics name.now }
{
    if name == "solve" {
        Some(Topic::Solve)
    } else if name == "certify" {
        Some(Topic::Certify)
    } else if name == "check" {
        Some(Topic::Check)
    } else if name == "bench" {
        Some(Topic::Bench)
    } else if name == "upgrade" {
        Some(Topic::Upgrade)
    } else if name == "prove" {
        Some(Topic::Prove)
    } else if name == "transitions" {
        Some(Topic::Transitions)
    } else if name == "equations" {
        Some(Topic::Equations)
    } else if name == "points" {
        Some(Topic::Points)
    } else if name == "verify" {
        Some(Topic::Verify)
    } else if name == "functions" {
        Some(Topic::Functions)
    } else if name == "help" {
        Some(Topic::Overview)
    } else {
        None
    }
}

/// The page that a word asks for, that of the command of this name; without a word it is that of `help`.
pub(crate) fn topic_of(word: Option<&str>) -> Option<Topic>
    ensures { result ≡ topic_in (option_map (λ name. name.now) word.entry) }
{
    match word {
        Some(name) => page_of(name),
        None => Some(Topic::Overview),
    }
}

/// The line, with its line feed, that says which words make a command.
pub fn usage_line() -> &'static [u8]
    ensures { result.now ≡ usage_text }
{
    b"usage: tmpl solve PROGRAM [--domain D] [--rows FILE] [--improvements N] [--policy P] | certify (the same) \
      | check PROGRAM CERT | bench --seed N --loops K | upgrade CERT \
      | prove PROGRAM CLAIMS (the options of solve) | transitions FILE (the options of solve) \
      | equations FILE [--improvements N] [--policy P] | points PROGRAM | verify PROGRAM (the options of solve) \
      | solve, check, transitions, equations, prove, verify: [--format F] \
      | solve, certify, prove, verify, transitions, equations: [--progress] | help [COMMAND] | functions PROGRAM \
      | solve, certify, check, prove, verify: [--function NAME] [--int N]\n"
}
