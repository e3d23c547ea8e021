//! What has to come next, and what it makes of a token.

ghost use Rattle.std.specs.Prelude.{◌≡◌};
ghost use Rattle.source_packs.specs.Machine.{begun_entry, else_entry, entry, fresh_entry, front_entry, inner_entry, label_next};
ghost use Rattle.source_packs.specs.Machine.{left_entry, left_on, named_entry, nested_entry, parameters_entry, rest_entry, right_entry};
ghost use Rattle.source_packs.specs.Machine.{right_on, statement_entry, stepped_entry, stepped_name_entry, stops};

use crate::part::Part;
use lang_groups::Mark;

/// Where a statement stands.
#[derive(Clone, Copy)]
pub enum Place {
    /// Under an `if`, an `else`, a loop or a label before it.
    Sub,
    /// In a block.
    Block,
}

/// What ends an expression, or changes.
#[derive(Clone, Copy)]
pub enum Stop {
    Semicolon,
    Paren,
}

/// What has to come.
#[derive(Clone, Copy)]
pub enum Goal {
    /// All up to the parenthesis of the parameters.
    Front,
    /// The parameters, and all up to the brace of the body.
    Parameters,
    Statement(Place),
    MaybeElse,
    /// What follows the name that a statement at this place begins with.
    Begun(Place),
    /// The rest of an expression.
    Rest(Stop),
    /// A change, up to its sign; or a declarator, or a call.
    Left(Stop),
    /// The rest of it.
    Right(Stop),
    /// All up to the bracket that closes.
    Nested,
    /// What follows a name that may be this variable.
    Named(u32),
    /// The same where a statement begins with it.
    Fresh(u32),
    /// What follows `++` or `--`.
    Stepped,
    /// What follows this variable behind it.
    SteppedName(u32),
    /// The parenthesis of a head.
    Open,
    /// Nothing: a loop begins, with its condition.
    LoopBegins,
    /// Nothing: a loop has ended.
    LoopEnds,
    /// The `while` behind a body.
    Tail,
}

/// What a token tells besides what has to come.
#[derive(Clone, Copy)]
pub enum Effect {
    Nothing,
    Takes(Mark),
    Variable(u32),
    /// The same, which is changed here.
    Target(u32),
    /// An expression ends.
    Ends,
    /// The same, and its variables are together.
    EndsTogether,
    /// A loop begins, and its condition with it.
    Tests,
    /// A loop begins with its body.
    Repeats,
    /// The condition of a loop begins behind its body.
    TestsBehind,
    LoopEnds,
}

/// What has to come, the first first.
#[derive(Clone, Copy)]
pub enum Next {
    Zero,
    One(Goal),
    Two(Goal, Goal),
    /// A condition and what it decides.
    If,
    While,
    Do,
    For,
}

/// What a goal makes of a token.
#[derive(Clone, Copy)]
pub enum Entry {
    /// The token is taken. What is listed has to come next, and then the further statements of the place.
    Takes(Effect, Next, Place),
    /// Nothing is wanted, and the token belongs to what comes later.
    Leaves(Effect),
}

// The token is taken, and leaves this to come.
fn taken(effect: Effect, next: Next) -> Entry
    ensures { result ≡ Entry.Takes effect next Place.Sub }
{
    Entry::Takes(effect, next, Place::Sub)
}

// Whether a token is the end.
fn stops(stop: Stop, part: Part) -> bool
    ensures { result ≡ stops stop part }
{
    match (stop, part) {
        (Stop::Semicolon, Part::Semicolon) => true,
        (Stop::Paren, Part::RightParen) => true,
        _ => false,
    }
}

// A token of an expression, of which the rest has still to come.
fn inner(goal: Goal, part: Part) -> Entry
    ensures { result ≡ inner_entry goal part }
{
    match part {
        Part::Variable(number) => taken(Effect::Nothing, Next::Two(Goal::Named(number), goal)),
        Part::Step => taken(Effect::Nothing, Next::Two(Goal::Stepped, goal)),
        Part::LeftParen | Part::LeftBrace | Part::LeftBracket => {
            taken(Effect::Takes(Mark::Opens), Next::Two(Goal::Nested, goal))
        }
        Part::Compare => taken(Effect::Takes(Mark::Compares), Next::One(goal)),
        Part::Separator | Part::Colon => taken(Effect::Takes(Mark::Parts), Next::One(goal)),
        _ => taken(Effect::Nothing, Next::One(goal)),
    }
}

fn nested(part: Part) -> Entry
    ensures { result ≡ nested_entry part }
{
    match part {
        Part::RightParen | Part::RightBrace | Part::RightBracket => {
            taken(Effect::Takes(Mark::Closes), Next::Zero)
        }
        Part::Comma => taken(Effect::Takes(Mark::Parts), Next::One(Goal::Nested)),
        _ => inner(Goal::Nested, part),
    }
}

fn rest(stop: Stop, part: Part) -> Entry
    ensures { result ≡ rest_entry stop part }
{
    if stops(stop, part) {
        taken(Effect::Ends, Next::Zero)
    } else {
        inner(Goal::Rest(stop), part)
    }
}

// The rest of a change that goes on: a comma may end it.
fn right_on(stop: Stop, part: Part) -> Entry
    ensures { result ≡ right_on stop part }
{
    match part {
        Part::Comma => taken(Effect::EndsTogether, Next::One(Goal::Left(stop))),
        _ => inner(Goal::Right(stop), part),
    }
}

fn right(stop: Stop, part: Part) -> Entry
    ensures { result ≡ right_entry stop part }
{
    if stops(stop, part) {
        taken(Effect::EndsTogether, Next::Zero)
    } else {
        right_on(stop, part)
    }
}

// A change up to its sign that goes on.
fn left_on(stop: Stop, part: Part) -> Entry
    ensures { result ≡ left_on stop part }
{
    match part {
        Part::Comma => taken(Effect::Ends, Next::One(Goal::Left(stop))),
        Part::Change => taken(Effect::Takes(Mark::Parts), Next::One(Goal::Right(stop))),
        Part::Step => taken(Effect::Nothing, Next::Two(Goal::Stepped, Goal::Right(stop))),
        _ => inner(Goal::Left(stop), part),
    }
}

fn left(stop: Stop, part: Part) -> Entry
    ensures { result ≡ left_entry stop part }
{
    if stops(stop, part) {
        taken(Effect::Ends, Next::Zero)
    } else {
        left_on(stop, part)
    }
}

// What a label leaves to come.
fn behind_label(place: Place) -> Next
    ensures { result ≡ label_next place }
{
    match place {
        Place::Sub => Next::One(Goal::Statement(Place::Sub)),
        Place::Block => Next::Zero,
    }
}

// Behind a name that a statement begins with: a label, a call or a change.
fn begun(place: Place, part: Part) -> Entry
    ensures { result ≡ begun_entry place part }
{
    match part {
        Part::Colon => taken(Effect::Nothing, behind_label(place)),
        _ => left(Stop::Semicolon, part),
    }
}

// Behind a variable's name: an array and what is called are none, and what is changed is a target.
fn named(number: u32, part: Part) -> Entry
    ensures { result ≡ named_entry number part }
{
    match part {
        Part::LeftParen | Part::LeftBracket => Entry::Leaves(Effect::Nothing),
        Part::Change | Part::Step => Entry::Leaves(Effect::Target(number)),
        _ => Entry::Leaves(Effect::Variable(number)),
    }
}

fn fresh(number: u32, part: Part) -> Entry
    ensures { result ≡ fresh_entry number part }
{
    match part {
        Part::Colon => Entry::Leaves(Effect::Nothing),
        _ => named(number, part),
    }
}

fn stepped(part: Part) -> Entry
    ensures { result ≡ stepped_entry part }
{
    match part {
        Part::Variable(number) => taken(Effect::Nothing, Next::One(Goal::SteppedName(number))),
        _ => Entry::Leaves(Effect::Nothing),
    }
}

fn stepped_name(number: u32, part: Part) -> Entry
    ensures { result ≡ stepped_name_entry number part }
{
    match part {
        Part::LeftBracket => Entry::Leaves(Effect::Nothing),
        _ => Entry::Leaves(Effect::Target(number)),
    }
}

fn statement(place: Place, part: Part) -> Entry
    ensures { result ≡ statement_entry place part }
{
    let rest = Next::One(Goal::Rest(Stop::Semicolon));
    match part {
        Part::Variable(number) => {
            let next = Next::Two(Goal::Fresh(number), Goal::Begun(place));
            Entry::Takes(Effect::Nothing, next, place)
        }
        Part::Name => Entry::Takes(Effect::Nothing, Next::One(Goal::Begun(place)), place),
        Part::Step => {
            let next = Next::Two(Goal::Stepped, Goal::Right(Stop::Semicolon));
            Entry::Takes(Effect::Nothing, next, place)
        }
        Part::Semicolon => Entry::Takes(Effect::Nothing, Next::Zero, place),
        Part::LeftBrace => {
            let next = Next::One(Goal::Statement(Place::Block));
            Entry::Takes(Effect::Nothing, next, place)
        }
        Part::RightBrace => taken(Effect::Nothing, Next::Zero),
        Part::Declares => {
            let next = Next::One(Goal::Left(Stop::Semicolon));
            Entry::Takes(Effect::Nothing, next, place)
        }
        Part::If => Entry::Takes(Effect::Nothing, Next::If, place),
        Part::While => Entry::Takes(Effect::Tests, Next::While, place),
        Part::Do => Entry::Takes(Effect::Repeats, Next::Do, place),
        Part::For => Entry::Takes(Effect::Nothing, Next::For, place),
        _ => Entry::Takes(Effect::Nothing, rest, place),
    }
}

fn maybe_else(part: Part) -> Entry
    ensures { result ≡ else_entry part }
{
    match part {
        Part::Else => taken(Effect::Nothing, Next::One(Goal::Statement(Place::Sub))),
        _ => Entry::Leaves(Effect::Nothing),
    }
}

// Before the parameters.
fn front(part: Part) -> Entry
    ensures { result ≡ front_entry part }
{
    match part {
        Part::LeftParen => taken(Effect::Nothing, Next::One(Goal::Parameters)),
        _ => taken(Effect::Nothing, Next::One(Goal::Front)),
    }
}

// Before the body.
fn parameters(part: Part) -> Entry
    ensures { result ≡ parameters_entry part }
{
    match part {
        Part::LeftBrace => taken(Effect::Nothing, Next::One(Goal::Statement(Place::Block))),
        _ => taken(Effect::Nothing, Next::One(Goal::Parameters)),
    }
}

/// What a goal makes of a token.
pub fn enter(goal: Goal, part: Part) -> Entry
    ensures { result ≡ entry goal part }
{
    match goal {
        Goal::Front => front(part),
        Goal::Parameters => parameters(part),
        Goal::Statement(place) => statement(place, part),
        Goal::MaybeElse => maybe_else(part),
        Goal::Begun(place) => begun(place, part),
        Goal::Rest(stop) => rest(stop, part),
        Goal::Left(stop) => left(stop, part),
        Goal::Right(stop) => right(stop, part),
        Goal::Nested => nested(part),
        Goal::Named(number) => named(number, part),
        Goal::Fresh(number) => fresh(number, part),
        Goal::Stepped => stepped(part),
        Goal::SteppedName(number) => stepped_name(number, part),
        Goal::Open => taken(Effect::Nothing, Next::Zero),
        Goal::LoopBegins => Entry::Leaves(Effect::Tests),
        Goal::LoopEnds => Entry::Leaves(Effect::LoopEnds),
        Goal::Tail => {
            let next = Next::Two(Goal::Rest(Stop::Semicolon), Goal::LoopEnds);
            taken(Effect::TestsBehind, next)
        }
    }
}
