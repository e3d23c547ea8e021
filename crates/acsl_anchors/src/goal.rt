//! What has to come next, and what it makes of a token.

ghost use Rattle.std.specs.Prelude.{◌≡◌, ◌<◌};
ghost use Rattle.acsl_anchors.specs.Machine.{brace_entry, close_entry, declared_entry, declaring_entry, else_entry, ending_entry};
ghost use Rattle.acsl_anchors.specs.Machine.{entry, first_entry, front_entry, label_next, name_entry, named_entry, named_parameter_entry};
ghost use Rattle.acsl_anchors.specs.Machine.{paren_entry, parameter_entry, parameters_entry, rest_entry, return_entry, returned_entry};
ghost use Rattle.acsl_anchors.specs.Machine.{statement_entry, test_entry};

use crate::part::Part;
use lang_tree::Name;

/// Where a statement stands.
#[derive(Clone, Copy)]
pub enum Place {
    /// Under an `if`, an `else`, a loop or a label before it.
    Sub,
    /// In a block before which so many variables are known.
    Block(usize),
    /// In the body of the function.
    Body,
}

/// What has to come.
#[derive(Drop)]
pub enum Goal {
    /// All up to the parenthesis of the parameters.
    Front,
    /// The parameters, and all up to the brace of the body.
    Parameters,
    /// The name of a parameter behind its `int`, if it is no pointer.
    Parameter,
    /// What follows that name.
    NamedParameter(Name),
    Statement(Place),
    /// What follows the name, which begins at this byte, that a statement begins with.
    AfterName(Place, u32),
    MaybeElse,
    /// All up to a `;`.
    Rest,
    /// What the `return` of the body returns that begins at this byte, in which no step has come.
    Returned(u32),
    /// The brace of the body, if the `return` that begins at this byte is the last item.
    Ending(u32),
    /// A name that is declared.
    Declaring,
    /// What follows that name.
    Named(Name),
    /// What follows that, up to the `;`.
    Declared,
    /// All up to the brace that closes.
    Brace,
    /// The parenthesis of a condition, and what it holds.
    Condition,
    /// All up to the parenthesis that closes.
    Paren,
    /// The parts of the head of the `for` that begins at this byte.
    First(u32),
    Test(u32),
    /// Nothing: no more than so many variables are known from here on.
    Known(usize),
}

/// What a token tells besides what has to come.
#[derive(Drop)]
pub enum Effect {
    Nothing,
    /// The variable of this name is declared.
    Declares(Name),
    /// An anchor, by the byte at which it begins.
    Loop(u32),
    /// The same, and the byte of its colon.
    Label(u32, u32),
    End(u32),
}

/// What has to come, the first first.
#[derive(Drop)]
pub enum Next {
    Zero,
    One(Goal),
    Two(Goal, Goal),
    Three(Goal, Goal, Goal),
}

/// What a goal makes of a token.
#[derive(Drop)]
pub enum Entry {
    /// The token is taken. What is listed has to come next, and then the further statements of the place.
    Takes(Effect, Next, Place),
    /// Nothing is wanted, and the token belongs to what comes later.
    Drops,
    /// The same, and only the first so many variables are known from here on.
    Keeps(usize),
}

// The token is taken, tells nothing, and leaves this to come.
fn taken(next: Next) -> Entry
    ensures { result ≡ Entry.Takes Effect.Nothing next Place.Sub }
{
    Entry::Takes(Effect::Nothing, next, Place::Sub)
}

// The `}` at this byte.
fn close(place: Place, at: u32) -> Entry
    ensures { result ≡ close_entry place at }
{
    match place {
        Place::Sub => taken(Next::Zero),
        Place::Block(known) => taken(Next::One(Goal::Known(known))),
        Place::Body => Entry::Takes(Effect::End(at), Next::Zero, Place::Sub),
    }
}

// The `return` at this byte.
fn finish(place: Place, at: u32) -> Entry
    ensures { result ≡ return_entry place at }
{
    match place {
        Place::Body => Entry::Takes(Effect::Nothing, Next::One(Goal::Returned(at)), place),
        _ => Entry::Takes(Effect::Nothing, Next::One(Goal::Rest), place),
    }
}

// What the `return` of the body returns that begins at this byte: where a step is in it, the end doesn't stand before it.
fn returned(start: u32, part: &Part) -> Entry
    ensures { result ≡ returned_entry start part.now }
{
    match part {
        Part::Semicolon => taken(Next::One(Goal::Ending(start))),
        Part::Step => taken(Next::One(Goal::Rest)),
        _ => taken(Next::One(Goal::Returned(start))),
    }
}

// Behind the last `return` so far, which begins at this byte.
fn ending(start: u32, part: &Part) -> Entry
    ensures { result ≡ ending_entry start part.now }
{
    match part {
        Part::RightBrace => Entry::Takes(Effect::End(start), Next::Zero, Place::Sub),
        _ => Entry::Drops,
    }
}

// The name that is declared, behind `int`.
fn declaring(part: &Part) -> Entry
    ensures { result ≡ declaring_entry part.now }
{
    match part {
        Part::Name(name) => taken(Next::One(Goal::Named(name.again()))),
        _ => taken(Next::One(Goal::Declaring)),
    }
}

// Behind this name, which is declared: an array is no variable.
fn named(name: Name, part: &Part) -> Entry
    ensures { result ≡ named_entry name part.now }
{
    match part {
        Part::LeftBracket => taken(Next::One(Goal::Declared)),
        Part::Semicolon => Entry::Takes(Effect::Declares(name), Next::Zero, Place::Sub),
        Part::Comma => {
            let next = Next::One(Goal::Declaring);
            Entry::Takes(Effect::Declares(name), next, Place::Sub)
        }
        _ => {
            let next = Next::One(Goal::Declared);
            Entry::Takes(Effect::Declares(name), next, Place::Sub)
        }
    }
}

// Behind that, up to the end of the declaration.
fn declared(part: &Part) -> Entry
    ensures { result ≡ declared_entry part.now }
{
    match part {
        Part::Semicolon => taken(Next::Zero),
        Part::Comma => taken(Next::One(Goal::Declaring)),
        Part::LeftParen => taken(Next::Two(Goal::Paren, Goal::Declared)),
        Part::LeftBrace => taken(Next::Two(Goal::Brace, Goal::Declared)),
        _ => taken(Next::One(Goal::Declared)),
    }
}

fn brace(part: &Part) -> Entry
    ensures { result ≡ brace_entry part.now }
{
    match part {
        Part::LeftBrace => taken(Next::Two(Goal::Brace, Goal::Brace)),
        Part::RightBrace => taken(Next::Zero),
        _ => taken(Next::One(Goal::Brace)),
    }
}

fn statement(place: Place, part: &Part, at: u32, known: usize) -> Entry
    ensures { result ≡ statement_entry place part.now at known }
{
    let body = Goal::Statement(Place::Sub);
    match part {
        Part::Name(_) => Entry::Takes(
            Effect::Nothing,
            Next::One(Goal::AfterName(place, at)),
            place,
        ),
        Part::Semicolon => Entry::Takes(Effect::Nothing, Next::Zero, place),
        Part::LeftBrace => {
            let inner = Goal::Statement(Place::Block(known));
            Entry::Takes(Effect::Nothing, Next::One(inner), place)
        }
        Part::RightBrace => close(place, at),
        Part::Int | Part::Const => {
            Entry::Takes(Effect::Nothing, Next::One(Goal::Declaring), place)
        }
        Part::Return => finish(place, at),
        Part::If => {
            let next = Next::Three(Goal::Condition, body, Goal::MaybeElse);
            Entry::Takes(Effect::Nothing, next, place)
        }
        Part::While => Entry::Takes(Effect::Loop(at), Next::Two(Goal::Condition, body), place),
        Part::Do => Entry::Takes(Effect::Loop(at), Next::Two(body, Goal::Rest), place),
        Part::For => {
            let next = Next::Three(Goal::First(at), body, Goal::Known(known));
            Entry::Takes(Effect::Nothing, next, place)
        }
        _ => Entry::Takes(Effect::Nothing, Next::One(Goal::Rest), place),
    }
}

// What a label leaves to come.
fn behind_label(place: Place) -> Next
    ensures { result ≡ label_next place }
{
    match place {
        Place::Sub => Next::One(Goal::Statement(Place::Sub)),
        _ => Next::Zero,
    }
}

fn first(start: u32, part: &Part) -> Entry
    ensures { result ≡ first_entry start part.now }
{
    match part {
        Part::LeftParen => taken(Next::One(Goal::First(start))),
        Part::Semicolon => taken(Next::One(Goal::Test(start))),
        Part::Int | Part::Const => taken(Next::Two(Goal::Declaring, Goal::Test(start))),
        _ => taken(Next::Two(Goal::Rest, Goal::Test(start))),
    }
}

fn paren(part: &Part) -> Entry
    ensures { result ≡ paren_entry part.now }
{
    match part {
        Part::LeftParen => taken(Next::Two(Goal::Paren, Goal::Paren)),
        Part::RightParen => taken(Next::Zero),
        _ => taken(Next::One(Goal::Paren)),
    }
}

fn maybe_else(part: &Part) -> Entry
    ensures { result ≡ else_entry part.now }
{
    match part {
        Part::Else => taken(Next::One(Goal::Statement(Place::Sub))),
        _ => Entry::Drops,
    }
}

// Before the parameters.
fn front(part: &Part) -> Entry
    ensures { result ≡ front_entry part.now }
{
    match part {
        Part::LeftParen => taken(Next::One(Goal::Parameters)),
        _ => taken(Next::One(Goal::Front)),
    }
}

// Before the body.
fn parameters(part: &Part) -> Entry
    ensures { result ≡ parameters_entry part.now }
{
    match part {
        Part::LeftBrace => taken(Next::One(Goal::Statement(Place::Body))),
        Part::Int => taken(Next::One(Goal::Parameter)),
        _ => taken(Next::One(Goal::Parameters)),
    }
}

// Behind `int` among the parameters.
fn parameter(part: &Part) -> Entry
    ensures { result ≡ parameter_entry part.now }
{
    match part {
        Part::Name(name) => taken(Next::One(Goal::NamedParameter(name.again()))),
        _ => taken(Next::One(Goal::Parameters)),
    }
}

// Behind the name of a parameter: an array is no variable.
fn named_parameter(name: Name, part: &Part) -> Entry
    ensures { result ≡ named_parameter_entry name part.now }
{
    match part {
        Part::LeftBracket => taken(Next::One(Goal::Parameters)),
        _ => {
            let next = Next::One(Goal::Parameters);
            Entry::Takes(Effect::Declares(name), next, Place::Sub)
        }
    }
}

// Behind the name, at this byte, that a statement begins with.
fn behind_name(place: Place, name: u32, part: &Part, at: u32) -> Entry
    ensures { result ≡ name_entry place name part.now at }
{
    match part {
        Part::Colon => Entry::Takes(Effect::Label(name, at), behind_label(place), Place::Sub),
        _ => taken(Next::One(Goal::Rest)),
    }
}

fn rest(part: &Part) -> Entry
    ensures { result ≡ rest_entry part.now }
{
    match part {
        Part::Semicolon => taken(Next::Zero),
        _ => taken(Next::One(Goal::Rest)),
    }
}

// The condition of the `for` at this byte.
fn test(start: u32, part: &Part) -> Entry
    ensures { result ≡ test_entry start part.now }
{
    match part {
        Part::Semicolon => Entry::Takes(Effect::Loop(start), Next::One(Goal::Paren), Place::Sub),
        _ => taken(Next::One(Goal::Test(start))),
    }
}

/// What the goal makes of the token at this byte, where so many variables are known.
pub fn enter(goal: Goal, part: &Part, at: u32, known: usize) -> Entry
    ensures { result ≡ entry goal part.now at known }
{
    match goal {
        Goal::Front => front(part),
        Goal::Parameters => parameters(part),
        Goal::Parameter => parameter(part),
        Goal::NamedParameter(name) => named_parameter(name, part),
        Goal::Statement(place) => statement(place, part, at, known),
        Goal::AfterName(place, name) => behind_name(place, name, part, at),
        Goal::MaybeElse => maybe_else(part),
        Goal::Rest => rest(part),
        Goal::Returned(start) => returned(start, part),
        Goal::Ending(start) => ending(start, part),
        Goal::Declaring => declaring(part),
        Goal::Named(name) => named(name, part),
        Goal::Declared => declared(part),
        Goal::Brace => brace(part),
        Goal::Condition => taken(Next::One(Goal::Paren)),
        Goal::Paren => paren(part),
        Goal::First(start) => first(start, part),
        Goal::Test(start) => test(start, part),
        Goal::Known(before) => Entry::Keeps(before),
    }
}
