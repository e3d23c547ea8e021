//! What comments that are put into a text leave as it was.

ghost use Rattle.acsl_comments.specs.Law.{CommentsComeOut, ProgramsStay, TokensStay};

use acsl_shift::tokens_may_move;

/// Comments that were put in come out: the text is again what it was.
pub fn comments_come_out()
    ensures { CommentsComeOut }
{}

/// A text with comments put in reads as the same tokens, each where it stands then.
pub fn tokens_stay()
    ensures { TokensStay }
{}

/// A text with comments put in means the same function but for its lines and the places of its tokens.
pub fn programs_stay()
    ensures { ProgramsStay }
{
    tokens_may_move();
}
