//! Claims, read from a text.
#![tactic(auto, using(crate::proofs::claims::Binds::then_ok, crate::proofs::claims::Binds::then_err))]

ghost use Rattle.std.specs.Prelude.{◌≡◌, map, ◌≤◌, ◌<◌, ◌+◌, ℕ, false, length, get_or, All, IfOk, IfSome, IsTrue, slice_range};
ghost use Rattle.base_limits.specs.declared.limits.TheConstants.{MOST_TEXT_BYTES};
ghost use Rattle.flow_edges.specs.declared.limits.TheConstants.{MOST_POINTS};
ghost use Rattle.lang_tokens.specs.Reading.{end_at};
ghost use Rattle.lang_tokens.specs.TokenLists.{AreTokensOf};
ghost use Rattle.lang_grammar.specs.View.{tokens_of};
ghost use Rattle.lang_meaning.specs.Expressions.{as_truth};
ghost use Rattle.lang_meaning.specs.ExpressionAnswers.{ExpressionAnswer, ExpressionMeans, MeaningFits};
ghost use Rattle.lang_parser.specs.Expressions.{expr_of, read_of};
ghost use Rattle.lang_meaning.specs.Proper.{IsProper};
ghost use Rattle.flow_edges.specs.Constants.{have_room};
ghost use Rattle.lang_tree.specs.Cases.{cases_of};
ghost use Rattle.lang_tree.specs.Limits.{is_tested};
ghost use Rattle.lang_tree.specs.View.{condition_of};
ghost use Rattle.ask_claims.specs.Claims.{is_place, point_of, decided, parsed, ClaimsMean, FileMeans, StatedClaims, Stands, Answers, Gives};
ghost use Rattle.ask_claims.specs.Claims.{stated_of};
ghost use Rattle.ask_claims.specs.Steps.{is_end, is_colon, is_semicolon, is_nondet, bytes_of, token_at, expected, surplus, labelled};
ghost use Rattle.ask_claims.specs.Steps.{headed};
ghost use Rattle.ask_claims.specs.Steps.{first_choice};
ghost use Rattle.ask_claims.specs.Steps.{few_cases, finished, IsEnded, BeginsClaim};
ghost use Rattle.ask_claims.specs.Truth.{is_decided};

use crate::claim::Claim;
use crate::fault::ClaimFault;
use flow_edges::{Cases, CasesFault, Flow, Place, Point, cases};
use lang_parser::{Expr, ParseFault, Read, condition, expression};
use lang_tokens::{Kind, LexFault, Lexicon, Sign, Token, Word, lex};
use lang_tree::{Cond, Name};
use std::alloc::Global;

/// The most claims of a file.
const MOST_CLAIMS: usize = 64;

fn is_end(kind: Kind) -> bool
    ensures { result ≡ is_end kind }
{
    match kind {
        Kind::End => true,
        _ => false,
    }
}

fn is_colon(kind: Kind) -> bool
    ensures { result ≡ is_colon kind }
{
    match kind {
        Kind::Sign(Sign::Colon) => true,
        _ => false,
    }
}

fn is_semicolon(kind: Kind) -> bool
    ensures { result ≡ is_semicolon kind }
{
    match kind {
        Kind::Sign(Sign::Semicolon) => true,
        _ => false,
    }
}

fn is_nondet(kind: Kind) -> bool
    ensures { result ≡ is_nondet kind }
{
    match kind {
        Kind::Word(Word::Nondet) | Kind::Word(Word::VerifierNondetInt) => true,
        _ => false,
    }
}

// A token that has to stand at `at`.
fn expected(stands: bool, at: u32) -> Result<(), ClaimFault>
    ensures gives { Gives (λ x. x) result (expected stands at) }
    ensures stands { IfOk result (λ _. IsTrue stands) }
{
    if stands {
        Ok(())
    } else {
        Err(ClaimFault::Parse(ParseFault::Unexpected { at }))
    }
}

// What a token behind 64 claims is that isn't the end.
fn surplus(token: Token) -> ClaimFault
    ensures { result ≡ surplus token.kind token.at }
{
    match token.kind {
        Kind::Name => ClaimFault::Count { at: token.at },
        _ => ClaimFault::Parse(ParseFault::Unexpected { at: token.at }),
    }
}

fn is_place(point: &Point, name: &[u8]) -> bool
    ensures { result ≡ is_place name.now point.now.place }
{
    match &point.place {
        Place::Label(label) => name == label.bytes(),
        _ => false,
    }
}

// The number of the first point with this label.
fn point_of(points: &[Point], name: &[u8]) -> Option<usize>
    ensures number { result ≡ point_of name.now points.now }
    ensures within { IfSome result (λ point. point < length points.now) }
{
    points.iter().position(|point| is_place(point, name))
}

// The label that this token is, with its point.
fn labelled(points: &[Point], text: &[u8], token: Token) -> Result<(u32, Name), ClaimFault>
    requires points { length points.now ≤ MOST_POINTS }
    requires proper { IsProper text.now token }
    ensures gives { Gives (λ h. (h.0, h.1)) result (labelled points.now token.kind (bytes_of text.now token) token.at) }
    ensures named { IfOk result (λ h. point_of h.1 points.now ≡ Some h.0) }
    ensures within { IfOk result (λ h. h.0 < length points.now) }
{
    match token.kind {
        Kind::Name => {
            let from = token.at as usize;
            let bytes = &text[from..from + token.len as usize];
            match (Name::new(bytes), point_of(points, bytes)) {
                (Some(name), Some(point)) => Ok((point as u32, name)),
                _ => Err(ClaimFault::UnknownLabel { at: token.at }),
            }
        }
        _ => Err(ClaimFault::Parse(ParseFault::Unexpected { at: token.at })),
    }
}

// The head of a claim: its label, and the colon.
fn headed(
    points: &[Point],
    text: &[u8],
    name: Token,
    colon: Token,
) -> Result<(u32, Name), ClaimFault>
    requires points { length points.now ≤ MOST_POINTS }
    requires proper { IsProper text.now name }
    ensures gives { Gives (λ h. (h.0, h.1)) result (headed points.now text.now name colon) }
    ensures colon { IfOk result (λ _. IsTrue (is_colon colon.kind)) }
    ensures named { IfOk result (λ h. point_of h.1 points.now ≡ Some h.0) }
    ensures within { IfOk result (λ h. h.0 < length points.now) }
{
    let (point, label) = labelled(points, text, name)?;
    expected(is_colon(colon.kind), colon.at)?;
    Ok((point, label))
}

// Whether no choice is left open.
fn is_decided(cond: &Cond) -> bool
    ensures { result ≡ is_decided (condition_of cond.now) }
{
    match cond {
        Cond::Free => false,
        Cond::Cmp(_, _) => true,
        Cond::Not(inner) => is_decided(inner),
        Cond::Both(first, second) => is_decided(first) && is_decided(second),
        Cond::Either(first, second) => is_decided(first) && is_decided(second),
    }
}

// The place of the first `nondet`.
fn first_choice(tokens: &[Token]) -> u32
    ensures { result ≡ first_choice tokens.now }
{
    for token in tokens {
        if is_nondet(token.kind) {
            return token.at;
        }
    }
    0
}

// A condition that these tokens are has no `nondet`.
fn decided(tokens: &[Token], cond: &Cond) -> Result<(), ClaimFault>
    ensures gives { Gives (λ x. x) result (decided (first_choice tokens.now) (condition_of cond.now)) }
    ensures decided { IfOk result (λ _. IsTrue (is_decided (condition_of cond.now))) }
{
    if is_decided(cond) {
        Ok(())
    } else {
        let at = first_choice(tokens);
        Err(ClaimFault::Parse(ParseFault::NondetHere { at }))
    }
}

// The cases in which the condition of the claim whose name is at `at` may be false.
fn few_cases(alloc: Global, cond: &Cond, at: u32) -> Result<Cases, ClaimFault>
    requires { IsTrue (have_room (condition_of cond.now)) }
    ensures gives { Gives (λ _. tt) result (few_cases at (condition_of cond.now)) }
    ensures against { IfOk result (λ cases. cases ≡ cases_of false (condition_of cond.now)) }
{
    match cases(alloc, cond, false) {
        Ok(list) => Ok(list),
        Err(CasesFault::TooMany) => Err(ClaimFault::Cases { at }),
        Err(CasesFault::NoMemory) => Err(ClaimFault::NoMemory),
    }
}

// The token of this number.
fn token_at(tokens: &[Token], number: usize) -> Token
    requires { number < length tokens.now }
    ensures { result ≡ token_at tokens.now number }
{
    tokens[number]
}

// An expression that begins at `first`, as a condition.
fn as_condition(expr: Expr, first: u32) -> Result<Cond, ClaimFault>
    ensures gives { Gives condition_of result (parsed (as_truth first (expr_of expr))) }
    ensures fits { (n : ℕ) → MeaningFits n (expr_of expr) → IfOk result (λ cond. IsTrue (is_tested n (condition_of cond))) }
{
    Ok(condition(expr, first)?)
}

// The rest of the claim whose name is token `from`, behind its expression.
fn finished(
    alloc: Global,
    tokens: &[Token],
    from: usize,
    point: u32,
    label: Name,
    read: Read,
) -> Result<(Claim, usize), ClaimFault>
    requires ended { IsEnded tokens.now }
    requires begins { from + 2 ≤ read.next }
    requires next { read.next < length tokens.now }
    requires fits { (n : ℕ) × MeaningFits n (expr_of read.expr) }
    ensures gives { Gives (λ r. (stated_of r.0, r.1)) result (finished tokens.now from (point, label) (Ok (read_of read))) }
    ensures tested { (n : ℕ) → MeaningFits n (expr_of read.expr) → IfOk result (λ r. IsTrue (is_tested n (condition_of r.0.cond))) }
    ensures decided { IfOk result (λ r. IsTrue (is_decided (condition_of r.0.cond))) }
    ensures against { IfOk result (λ r. r.0.against ≡ cases_of false (condition_of r.0.cond)) }
    ensures names { IfOk result (λ r. (r.0.point ≡ point) × (r.0.label ≡ label)) }
    ensures within { IfOk result (λ r. r.1 < length tokens.now) }
{
    let start = from + 2;
    let next = read.next as usize;
    let cond = as_condition(read.expr, token_at(tokens, start).at)?;
    decided(&tokens[start..next], &cond)?;
    let end = token_at(tokens, next);
    expected(is_semicolon(end.kind), end.at)?;
    let against = few_cases(alloc, &cond, token_at(tokens, from).at)?;
    let claim = Claim {
        point,
        label,
        cond,
        against,
    };
    Ok((claim, next + 1))
}

// Reads the expression that begins at token `from`.
fn read_expression(
    alloc: Global,
    tokens: &[Token],
    text: &[u8],
    flow: &Flow,
    from: usize,
) -> Result<Read, ClaimFault>
    requires size { length text.now ≤ MOST_TEXT_BYTES }
    requires tokens { AreTokensOf text.now tokens.now }
    requires from { from < length tokens.now }
    ensures found { (w : ExpressionAnswer) × ExpressionMeans text.now (tokens_of text.now tokens.now) from flow.now.names w
        × Gives read_of result (parsed w) }
    ensures fits { IfOk result (λ read. MeaningFits (length flow.now.names) (expr_of read.expr)) }
    ensures next { IfOk result (λ read. (from ≤ read.next) × (read.next < length tokens.now)) }
{
    Ok(expression(alloc, tokens, text, from as u32, flow.names.as_slice())?)
}

// Reads the claim whose name is token `from`, and gives the number of the token behind it.
fn read_claim(
    alloc: Global,
    tokens: &[Token],
    text: &[u8],
    flow: &Flow,
    from: usize,
) -> Result<(Claim, usize), ClaimFault>
    requires size { length text.now ≤ MOST_TEXT_BYTES }
    requires tokens { AreTokensOf text.now tokens.now }
    requires from { from < length tokens.now }
    requires goes_on { is_end (token_at tokens.now from).kind ≡ false }
    ensures found { Answers (λ r. (stated_of r.0, r.1)) (BeginsClaim text.now flow.now.names flow.now.points tokens.now from) result }
    ensures stands { IfOk result (λ r. Stands flow.now.names flow.now.points r.0) }
    ensures within { IfOk result (λ r. r.1 < length tokens.now) }
{
    let name = token_at(tokens, from);
    let colon = token_at(tokens, from + 1);
    let (point, label) = headed(flow.points.as_slice(), text, name, colon)?;
    let read = read_expression(alloc, tokens, text, flow, from + 2)?;
    finished(alloc, tokens, from, point, label, read)
}

// Reads all claims.
fn claims_of(
    alloc: Global,
    tokens: &[Token],
    text: &[u8],
    flow: &Flow,
) -> Result<Vec<Claim>, ClaimFault>
    requires size { length text.now ≤ MOST_TEXT_BYTES }
    requires tokens { AreTokensOf text.now tokens.now }
    ensures found { Answers (λ claims. map stated_of claims.items) (ClaimsMean text.now flow.now.names flow.now.points
        (tokens_of text.now tokens.now)) result }
    ensures stands { IfOk result (λ claims. All (Stands flow.now.names flow.now.points) claims.items) }
{
    let mut claims = Vec::new(alloc);
    let mut next = 0;
    while !is_end(token_at(tokens, next).kind) {
        if claims.len() >= MOST_CLAIMS {
            return Err(surplus(token_at(tokens, next)));
        }
        let (claim, behind) = read_claim(alloc, tokens, text, flow, next)?;
        claims.push(claim)?;
        next = behind;
    }
    Ok(claims)
}

// Reads a text.
fn file(alloc: Global, text: &[u8], flow: &Flow) -> Result<Vec<Claim>, ClaimFault>
    requires { length text.now ≤ MOST_TEXT_BYTES }
    ensures found { Answers (λ claims. map stated_of claims.items) (FileMeans text.now flow.now.names flow.now.points) result }
    ensures stands { IfOk result (λ claims. All (Stands flow.now.names flow.now.points) claims.items) }
{
    match lex(alloc, text, Lexicon::Own) {
        Ok(tokens) => claims_of(alloc, tokens.as_slice(), text, flow),
        Err(LexFault::NoMemory) => Err(ClaimFault::NoMemory),
        Err(fault) => Err(ClaimFault::Lex(fault)),
    }
}

/// The claims of a text about a program's flow, in order: at most 64, each `NAME ":" expr ";"`. The name is a label of the
/// program, and the expression a condition over its variables without `nondet()` (docs/FORMATS.md, "Claims").
///
/// # Errors
///
/// `Lex` comes first. Then each claim is read in order: its name, `Count` for a 65th one, `UnknownLabel`, the colon, the expression,
/// `BigNumber` for a number that can't be a condition, `NondetHere`, the semicolon, `Cases`. The first token with which the tokens
/// begin no file of claims is `Unexpected`.
pub fn read_claims(alloc: Global, text: &[u8], flow: &Flow) -> Result<Vec<Claim>, ClaimFault>
    requires { length text.now ≤ MOST_TEXT_BYTES }
    // What is answered is meant.
    ensures found { Answers (λ claims. map stated_of claims.items) (FileMeans text.now flow.now.names flow.now.points) result }
    // What is meant is answered.
    ensures exact { (wanted : StatedClaims) → FileMeans text.now flow.now.names flow.now.points wanted
        → Gives (λ claims. map stated_of claims.items) result wanted }
    // A verdict may be asked on each.
    ensures stands { IfOk result (λ claims. All (Stands flow.now.names flow.now.points) claims.items) }
{
    file(alloc, text, flow)
}
