//! What has to come next, and the entry of a token.

/// Where a statement stands: under an `if`, an `else`, a loop or a label before it; or in a block.
#[derive(Clone, Copy)]
pub enum Site {
    Sub,
    Block,
}

/// A token that alone may stand where it is wanted.
#[derive(Clone, Copy)]
pub enum Mark {
    LeftParen,
    RightParen,
    LeftBrace,
    RightBrace,
    RightBracket,
    Colon,
    Semicolon,
    Int,
}

/// What has to come, or may come. A number says how many constructs are open there; that of
/// `MaybeElse` counts its `if`.
#[derive(Clone, Copy)]
pub enum Goal {
    Operand(u32),
    /// What may follow the name of an operand.
    Named(u32),
    /// What may follow an operand in its expression.
    More(u32),
    MaybeExpr(u32),
    MaybeArguments(u32),
    MoreArguments(u32),
    /// Further brackets of an element or a place, if there are any.
    Indexing(u32),
    /// The sign behind a place.
    Effect(u32),
    Changing(u32),
    MoreChanges(u32),
    MaybeChanges(u32),
    Declaring(u32),
    /// What may stand behind the name of a declarator.
    Initialising(u32),
    MoreDeclarators(u32),
    /// Further brackets of a declared array, and its values, if there are any.
    Sizing(u32),
    /// The values of an array in their braces.
    Filling(u32),
    MaybeValues(u32),
    MoreValues(u32),
    Statement(Site, u32),
    /// What stands behind the name with which a statement begins.
    AfterName(Site, u32),
    MaybeElse(u32),
    Condition(u32),
    /// The end of a `do`: its `while`, the condition and the `;`.
    DoEnd(u32),
    /// The head of a `for`, its first part, and the rest from the first `;` on.
    Header(u32),
    HeaderFirst(u32),
    HeaderRest(u32),
    /// What stands before a function's name.
    Specifiers,
    FunctionName,
    Parameters,
    MoreParameters,
    /// `int` or `const int`.
    SomeType,
    /// A parameter without its type.
    ParameterName,
    /// The brackets behind the name of a parameter, if there are any.
    Bounding,
    MoreSizes,
    SomeName,
    SomeSize,
    MaybeSize,
    Only(Mark),
}

/// What a goal makes of a token.
#[derive(Clone, Copy)]
pub enum Entry {
    /// The token is taken, and these have to come next, the first first.
    Nothing,
    One(Goal),
    Two(Goal, Goal),
    Three(Goal, Goal, Goal),
    Four(Goal, Goal, Goal, Goal),
    Five(Goal, Goal, Goal, Goal, Goal),
    Six(Goal, Goal, Goal, Goal, Goal, Goal),
    /// Nothing is wanted, and the token belongs to what comes later.
    Skips,
    /// The token may not stand here.
    Stops,
    /// The token opens one construct too many.
    Deep,
}

/// How many constructs may be open at a token.
pub(crate) const NESTING: u32 = 64;
