//! Laws of what answers mean. Each function does nothing: its contract is the law.

ghost use Rattle.std.specs.Prelude.{◌≡◌, ◌≢◌, ◌<◌, ℕ, ℤ, List, Some, length};
ghost use Rattle.lang_tree.specs.Tree.{Statements};
ghost use Rattle.flow_systems.specs.declared.system.System.{System};
ghost use Rattle.flow_systems.specs.Equations.{Least, Vector};
ghost use Rattle.flow_systems.specs.Solutions.{equations_of_program};
ghost use Rattle.flow_systems.specs.View.{equations_of};
ghost use Rattle.theory_strategy.specs.PickCount.{pick_count};
ghost use Rattle.cert_text.specs.declared.fault.FormFault.TheVariants.{Expanded};
ghost use Rattle.ask_words.specs.Request.{request_of};
ghost use Rattle.ask_words.specs.declared.format.Format.{Format};
ghost use Rattle.ask_words.specs.declared.request.Analysis.{Analysis};
ghost use Rattle.ask_words.specs.declared.request.Domain.{Domain};
ghost use Rattle.ask_words.specs.declared.request.Policy.{Policy};
ghost use Rattle.ask_words.specs.declared.request.Purpose.TheVariants.{Certificate};
ghost use Rattle.ask_words.specs.declared.request.Request.TheVariants.{Analyse, Verify};
ghost use Rattle.ask_files.specs.Files.{Request};
ghost use Rattle.top_answer.specs.Answers.{Ends, IsOutput};
ghost use Rattle.top_answer.specs.Commands.{IsChecked, command_of};
ghost use Rattle.top_texts.specs.CheckTexts.{AreCheckVerdictsOf, IsJudged};
ghost use Rattle.top_texts.specs.ClaimTexts.{AreVerdictsOf};
ghost use Rattle.top_texts.specs.EquationTexts.{AreValuesOf};
ghost use Rattle.top_texts.specs.Rounds.{RunsOut};
ghost use Rattle.top_texts.specs.Texts.{IsSolvable, Program};
ghost use Rattle.top_status.specs.declared.status.Status.{Status};
ghost use Rattle.top_status.specs.declared.status.Status.TheVariants.{Done, Open};

use crate::meaning::{Exact, Meaning};

/// The bounds of a certificate that is accepted are the least vector, whoever made it.
pub fn accepted_is_least()
    ensures { (program : Program) (bytes : List ℕ) (names : List (List ℕ)) (body : Statements) (rows : List (List ℤ)) (vector : Vector)
        → (⟦<Exact as Meaning>⟧.means).accepts program bytes names body rows vector
        → Least (equations_of_program (length names) body rows) vector }
{}

/// Words and contents have one ending: so each cause of a refusal excludes the others, and success.
pub fn ending_is_one()
    ensures { (words contents : List (List ℕ)) (one other : Status) → Ends (command_of ⟦<Exact as Meaning>⟧.means) words contents one
        → Ends (command_of ⟦<Exact as Meaning>⟧.means) words contents other → one ≡ other }
{}

/// Words and contents have one output, for every command but `certify`: what is written is determined by them. Of a certificate it isn't
/// said. It is written at one ending alone, the one that words and contents have.
pub fn output_is_one()
    ensures bytes { (words contents : List (List ℕ)) (ending another : Status) (one other : List ℕ)
        → ((analysis : Analysis (List ℕ)) (format : Format) → request_of words ≢ Some (Analyse Certificate analysis format))
        → IsOutput (command_of ⟦<Exact as Meaning>⟧.means) words contents ending one
        → IsOutput (command_of ⟦<Exact as Meaning>⟧.means) words contents another other → one ≡ other }
    ensures ending { (words contents : List (List ℕ)) (ending : Status) (bytes : List ℕ)
        → IsOutput (command_of ⟦<Exact as Meaning>⟧.means) words contents ending bytes
        → Ends (command_of ⟦<Exact as Meaning>⟧.means) words contents ending }
{}

/// Bytes have one text as the certificate that they spell.
pub fn upgrade_is_one()
    ensures { (bytes one other : List ℕ) → (⟦<Exact as Meaning>⟧.means).upgrades bytes one
        → (⟦<Exact as Meaning>⟧.means).upgrades bytes other → one ≡ other }
{}

/// A certificate that is accepted for a program is accepted as it is upgraded, with the same core, rows and vector of bounds, and has the
/// same report, unless its traces then hold too many values to be read again.
pub fn upgrades_are_accepted()
    ensures accepted { (program : Program) (certificate written : List ℕ) (names : List (List ℕ)) (body : Statements)
        (rows : List (List ℤ)) (vector : Vector) → (⟦<Exact as Meaning>⟧.means).upgrades certificate written
        → ((⟦<Exact as Meaning>⟧.means).misspells written Expanded → ⊥)
        → (⟦<Exact as Meaning>⟧.means).accepts program certificate names body rows vector
        → (⟦<Exact as Meaning>⟧.means).accepts program written names body rows vector }
    ensures report { (program : Program) (certificate written : List ℕ) (format : Format) (bytes : List ℕ)
        → (⟦<Exact as Meaning>⟧.means).upgrades certificate written → ((⟦<Exact as Meaning>⟧.means).misspells written Expanded → ⊥)
        → IsChecked ⟦<Exact as Meaning>⟧.means program certificate format bytes
        → IsChecked ⟦<Exact as Meaning>⟧.means program written format bytes }
{}

/// A text of equations has one list of values in a format.
pub fn values_are_one()
    ensures { (text : List ℕ) (policy : Policy) (limit : ℕ) (format : Format) (one other : List ℕ)
        → AreValuesOf text policy limit format one → AreValuesOf text policy limit format other → one ≡ other }
{}

/// The texts of a program, of its rows and of claims have one list of verdicts in a format.
pub fn verdicts_are_one()
    ensures { (program : Program) (rows : Domain (List ℕ)) (given : List ℕ) (policy : Policy) (limit : ℕ) (format : Format)
        (one other : List ℕ) → AreVerdictsOf ⟦<Exact as Meaning>⟧.means program rows given policy limit format one
        → AreVerdictsOf ⟦<Exact as Meaning>⟧.means program rows given policy limit format other → one ≡ other }
{}

/// A program and its rows have one list of verdicts on the program's checks in a format, where the program's file has this
/// name, and one ending by them: `Done` where each is proved, `Open` where one is open.
pub fn check_verdicts_are_one()
    ensures bytes { (file : List ℕ) (program : Program) (rows : Domain (List ℕ)) (policy : Policy) (limit : ℕ) (format : Format)
        (ending another : Status) (one other : List ℕ)
        → AreCheckVerdictsOf ⟦<Exact as Meaning>⟧.means file program rows policy limit format ending one
        → AreCheckVerdictsOf ⟦<Exact as Meaning>⟧.means file program rows policy limit format another other → one ≡ other }
    ensures ending { (program : Program) (rows : Domain (List ℕ)) (policy : Policy) (limit : ℕ) (one other : Status)
        → IsJudged program rows policy limit one → IsJudged program rows policy limit other → one ≡ other }
{}

/// `verify` alone ends as `Open`, and only where at the least vector of its texts a state breaks a check of the program. Where the
/// improvements end within the limit it has one of the endings `Done` and `Open`: it isn't so that it has neither.
pub fn open_is_of_checks()
    ensures verify { (asked : Request) → (command_of ⟦<Exact as Meaning>⟧.means asked).ends Open
        → (name : List ℕ) × (a : Analysis (List ℕ)) × (format : Format) × (asked ≡ Verify name a format)
        × IsJudged a.program a.domain a.policy a.improvements Open }
    ensures judged { (name : List ℕ) (a : Analysis (List ℕ)) (format : Format) → IsSolvable a.program a.domain a.policy a.improvements
        → ((command_of ⟦<Exact as Meaning>⟧.means (Verify name a format)).ends Done → ⊥)
        → ((command_of ⟦<Exact as Meaning>⟧.means (Verify name a format)).ends Open → ⊥) → ⊥ }
{}

/// Improvements that are spent are fewer than the picks of the system: a limit of as many as the picks is never spent.
pub fn spent_is_few()
    ensures { (system : System) (policy : Policy) (number : ℕ) → RunsOut system policy number → number < pick_count (equations_of system) }
{}
