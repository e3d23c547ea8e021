//! The sides of a problem's rows.
ghost use Rattle.std.specs.Prelude.{◌≡◌, ◌<◌, length};
ghost use Rattle.lp_theory.specs.Simplex.{lowest};
ghost use Rattle.lp_dictionary.specs.Exact.{exact, search_of};

use crate::problem::Problem;
use base_fractions::OrderedField;

/// The row of the least side below 0, the lowest row on ties; `None` where no side is below 0.
pub fn lowest_side<F: OrderedField>(problem: &Problem<F>) -> Option<u32>
    requires { length problem.now.rows.items < 4294967295 }
    ensures { search_of result ≡ lowest (exact F.meaning problem.now) }
{
    let mut least = F::zero();
    let mut lowest = None;
    for i in 0..problem.rows.len() {
        let side = problem.rows[i].side;
        if side < least {
            least = side;
            lowest = Some(i as u32);
        }
    }
    lowest
}
