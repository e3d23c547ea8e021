//! The template of a domain or of a file of rows.

ghost use Rattle.std.specs.Prelude.{◌≡◌, ◌≤◌, ◌≢◌, IfOk, IfErr, Ok, Err, length};
ghost use Rattle.flow_templates.specs.declared.fault.RowFault.TheVariants.{NoMemory};
ghost use Rattle.flow_templates.specs.Rows.{width_of};
ghost use Rattle.top_texts.specs.Short.{HasShortRows};
ghost use Rattle.ask_words.specs.Request.{domain_text};
ghost use Rattle.top_texts.specs.Texts.{HasTemplateBy};
ghost use Rattle.lang_tree.specs.declared.limits.TheConstants.{MOST_VARIABLES};

use ask_words::Domain;
use flow_packs::packs;
use flow_templates::{RowFault, Template, intervals, octagons, read_rows, zones};
use lang_groups::Groups;
use lang_tree::Name;
use std::alloc::Global;

// The template over these variables, which are in these groups.
pub(crate) fn template_of(
    alloc: Global,
    rows: Domain<&[u8]>,
    names: &[Name],
    groups: &Groups,
) -> Result<Template, RowFault>
    requires some { 1 ≤ length names.now }
    requires few { length names.now ≤ MOST_VARIABLES }
    requires short { HasShortRows (domain_text rows) }
    ensures template { IfOk result (λ template. HasTemplateBy groups.now (domain_text rows.entry) names.now (Ok template)) }
    ensures width { IfOk result (λ template. width_of template ≡ length names.now) }
    ensures refused { IfErr result (λ fault. fault ≢ NoMemory → HasTemplateBy groups.now (domain_text rows.entry) names.now (Err fault)) }
{
    let vars = names.len() as u32;
    match rows {
        Domain::Intervals => Ok(intervals(alloc, vars)?),
        Domain::Zones => zones(alloc, vars),
        Domain::Octagons => octagons(alloc, vars),
        Domain::Packs => packs(alloc, vars, groups),
        Domain::Rows(text) => read_rows(alloc, text, names),
    }
}
