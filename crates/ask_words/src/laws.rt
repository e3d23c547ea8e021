//! What the definition of a request says of some lists of words.

ghost use Rattle.std.specs.Prelude.{◌≡◌, ◌≢◌, ◌++◌, ℕ, List, [], ◌∷◌, None, Some, codes, map, true, false};
ghost use Rattle.clap.specs.Simple.{Shape};
ghost use Rattle.clap.specs.Words.{Row, Text, first_of};
ghost use Rattle.base_integers.specs.declared.integers.Integers.TheVariants.{Mathematical};
ghost use Rattle.ask_words.specs.Help.{head_of, help_text, is_screen, options_of, stands_in, topics};
ghost use Rattle.ask_words.specs.Laws.{SolveReports};
ghost use Rattle.ask_words.specs.Request.{commands_with, examples, function_examples, function_refusals, integer_examples};
ghost use Rattle.ask_words.specs.Request.{integer_refusals, plain_analysis, request_of, source_in, tmpl_app, wants_progress};
ghost use Rattle.ask_words.specs.declared.format.Format.TheVariants as Format;
ghost use Rattle.ask_words.specs.declared.help.Topic.{Topic};
ghost use Rattle.ask_words.specs.declared.help.Topic.TheVariants as page;
ghost use Rattle.ask_words.specs.declared.request.Domain.TheVariants.{Intervals, Zones};
ghost use Rattle.ask_words.specs.declared.request.Purpose.TheVariants.{Report};
ghost use Rattle.ask_words.specs.declared.request.Request.{Request};
ghost use Rattle.ask_words.specs.declared.request.Request.TheVariants.{Analyse};
ghost use Rattle.ask_words.specs.declared.request.Source.{Source};

/// Nothing happens here: the clauses are the laws.
pub fn request_laws()
    // A word that doesn't begin with a hyphen names the program, whatever it is.
    ensures any_name { (first : ℕ) (rest : List ℕ) → first ≢ 45
        → request_of (codes "solve" ∷ (first ∷ rest) ∷ [])
        ≡ Some (Analyse Report (plain_analysis (first ∷ rest) Intervals) Format.Text) }

    // An option and its value are one word or two, before the program or after it.
    ensures one_word { request_of (codes "solve" ∷ codes "--domain=zones" ∷ codes "p" ∷ [])
        ≡ Some (Analyse Report (plain_analysis (codes "p") Zones) Format.Text) }
    ensures two_words { request_of (codes "solve" ∷ codes "p" ∷ codes "--domain" ∷ codes "zones" ∷ [])
        ≡ Some (Analyse Report (plain_analysis (codes "p") Zones) Format.Text) }

    // The format of an output is one that it has.
    ensures json { request_of (codes "solve" ∷ codes "p" ∷ codes "--format=json" ∷ [])
        ≡ Some (Analyse Report (plain_analysis (codes "p") Intervals) Format.Json) }
    ensures sarif { request_of (codes "solve" ∷ codes "p" ∷ codes "--format=sarif" ∷ []) ≡ None }
    ensures certificate { request_of (codes "certify" ∷ codes "p" ∷ codes "--format=json" ∷ []) ≡ None }

    // Two hyphens end the options.
    ensures dashes { request_of (codes "solve" ∷ codes "--" ∷ codes "--domain" ∷ [])
        ≡ Some (Analyse Report (plain_analysis (codes "--domain") Intervals) Format.Text) }

    // Each other command is asked for by words of its own.
    ensures commands { map (λ (line : List Text × Request Text). request_of line.0) examples ≡ map (λ line. Some line.1) examples }

    // No option is given twice, and no word makes no command.
    ensures repeated { request_of (codes "solve" ∷ codes "p" ∷ codes "--policy=best"
        ∷ codes "--policy=best" ∷ []) ≡ None }
    ensures nothing { request_of [] ≡ None }

    // A request for help among the options is no command.
    ensures help { request_of (codes "solve" ∷ codes "p" ∷ codes "--help" ∷ []) ≡ None }
{}

/// What is so of `--progress`.
pub fn progress_laws()
    // It changes nothing of what is asked, and is asked for where it stands among the options alone.
    ensures request { request_of (codes "solve" ∷ codes "--progress" ∷ codes "p" ∷ []) ≡ request_of (codes "solve" ∷ codes "p" ∷ []) }
    ensures asked { wants_progress (codes "solve" ∷ codes "--progress" ∷ codes "p" ∷ []) ≡ true }
    ensures equations { wants_progress (codes "equations" ∷ codes "e" ∷ codes "--progress" ∷ []) ≡ true }
    ensures absent { wants_progress (codes "solve" ∷ codes "p" ∷ []) ≡ false }
    ensures name { wants_progress (codes "solve" ∷ codes "--" ∷ codes "--progress" ∷ []) ≡ false }

    // A command that solves nothing has none.
    ensures check { request_of (codes "check" ∷ codes "p" ∷ codes "c" ∷ codes "--progress" ∷ []) ≡ None }
{}

/// What is so of `--function`. Where it is absent, no function is named: `plain_analysis` has none.
pub fn function_laws()
    // It names the function of a program that is solved, checked, proved or verified.
    ensures given { map (λ (line : List Text × Request Text). request_of line.0) function_examples
        ≡ map (λ line. Some line.1) function_examples }

    // No other command has it: `points` writes the points of a file that has one function, or `main`, and a transition system has none.
    ensures commands { commands_with (codes "function")
        ≡ codes "solve" ∷ codes "certify" ∷ codes "check" ∷ codes "prove" ∷ codes "verify" ∷ [] }

    // It isn't given twice, nor without a name, nor to a command that doesn't have it.
    ensures refused { map (λ (words : List Text). request_of words) function_refusals ≡ map (λ words. None) function_refusals }
{}

/// What is so of `--int`.
pub fn integer_laws()
    // It says how many bits the integers have by which a program computes that is solved, checked, proved or verified.
    ensures given { map (λ (line : List Text × Request Text). request_of line.0) integer_examples
        ≡ map (λ line. Some line.1) integer_examples }

    // Where it isn't among the words of a command, integers are mathematical.
    ensures absent { (given : List Row) (source : Source Text) → first_of (codes "int") given ≡ None
        → source_in given ≡ Some source → source.integers ≡ Mathematical }

    // No other command has it: those that have `--function` do.
    ensures commands { commands_with (codes "int") ≡ commands_with (codes "function") }

    // It isn't given twice, nor without a number, nor with another one, nor to a command that doesn't have it.
    ensures refused { map (λ (words : List Text). request_of words) integer_refusals ≡ map (λ words. None) integer_refusals }
{}

/// What is so of the pages of `help`.
pub fn page_laws()
    // Each command has a page, in the order of the command line, and there is no other page.
    ensures commands { map (λ (row : Text × Topic). row.0) topics ≡ map (λ (command : Shape). command.name) tmpl_app.subs }
    ensures unknown { request_of (codes "help" ∷ codes "annotate" ∷ []) ≡ None }

    // It is on one screen, and has the words of its command; the page of `help` has those of each command.
    ensures screen { (topic : Topic) → is_screen (help_text topic) ≡ true }
    ensures words { (topic : Topic) → stands_in (codes "usage: tmpl " ++ head_of topic ++ options_of topic) (help_text topic) ≡ true }
    ensures listed { (topic : Topic) → stands_in (head_of topic) (help_text page.Overview) ≡ true }
{}

/// The words of `solve` ask for the report of an analysis, or for nothing.
pub fn solve_reports()
    ensures { SolveReports }
{}
