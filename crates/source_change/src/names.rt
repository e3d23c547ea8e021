//! Names where they stand.

ghost use Rattle.std.specs.Prelude.{◌≡◌, ◌<◌, ◌∷◌, ℕ, List, length, OnOk, Ok};
ghost use Rattle.source_grammar.specs.Tokens.{Name as Spelled, Token, token, a_name};
ghost use Rattle.source_reader.specs.Answers.{Answers};
ghost use Rattle.source_change.specs.Tests.{WasTaken};

use lang_tree::Name;
use source_reader::{Reader, Stop};

/// A name with its place: how many bytes of the text stand before it.
#[derive(Drop)]
pub struct Named {
    pub name: Name,
    /// The number that it stands for there, where it is a constant.
    pub value: Option<i64>,
    pub at: u32,
}

/// The name that comes next.
pub fn take_name(reader: &mut Reader) -> Result<Named, Stop>
    ensures reads { (x : Spelled) (a : ℕ) (rest : List Token) → reader.old.ahead ≡ token (a_name x) a ∷ rest
        → Answers (λ n p. WasTaken rest reader.old reader.new n p) result (Ok (x, a)) }
    ensures shorter { OnOk result (length reader.new.ahead < length reader.old.ahead) }
{
    match Name::new(reader.name()) {
        Some(name) => {
            let value = reader.constant();
            let at = reader.at();
            reader.skip();
            Ok(Named { name, value, at })
        }
        None => Err(Stop::Unlike),
    }
}
