//! Lists of rows.

ghost use Rattle.std.specs.Prelude.{◌≡◌, IsTrue};
ghost use Rattle.flow_templates.specs.Rows.{is_template};

use lang_tree::Coeffs;
use std::marker::Model;

/// A template: 1 to `MOST_ROWS` rows, numbered from 0. Each is a list of coefficients, one for each variable in order, not all 0.
#[derive(Drop)]
pub struct Template {
    rows: Vec<Coeffs>,
}

impl Model for Template {
    ghost use Rattle.std.specs.Prelude.{List, ℤ, IsTrue};
    ghost use Rattle.flow_templates.specs.Rows.{is_template};

    ghost Value = { List (List ℤ) };

    ghost view = { λ t. t.rows.items };

    ghost invariant = { λ t. IsTrue (is_template t.rows.items) };
}

impl Template {
    /// The rows as a template.
    pub fn new(rows: Vec<Coeffs>) -> Template
        requires { IsTrue (is_template rows.items) }
        ensures { result ≡ rows.items }
    {
        Template { rows }
    }

    /// The rows in order.
    pub fn as_slice(&self) -> &[Coeffs]
        ensures rows { result.now ≡ self.now }
        ensures template { IsTrue (is_template self.now) }
    {
        self.rows.as_slice()
    }
}
