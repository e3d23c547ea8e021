//! Systems.

ghost use Rattle.std.specs.Prelude.{◌≡◌, ◌↔◌, ◌*◌, ◌<◌, IsTrue, IsErr, IfOk, IfErr, length};
ghost use Rattle.flow_systems.specs.SystemLimits.{is_over, is_system};

use crate::limits::MOST_UNKNOWNS;
use flow_edges::Flow;
use flow_templates::Template;

/// A flow and a template over its variables. An unknown is a pair of a point `p` and a row `i`; its number is
/// `p * rows + i`. There are at most `MOST_UNKNOWNS` of them.
#[derive(Drop)]
pub struct System {
    pub flow: Flow,
    pub template: Template,
    pub ghost within_limits: { IsTrue (is_system (length flow.names) (length flow.points) template) },
}

/// Why a flow and a template make no system.
#[derive(Clone, Copy, Debug, PartialEq, Eq, Drop)]
pub enum SystemFault {
    /// There are more than `MOST_UNKNOWNS` unknowns: `count`.
    Unknowns { count: u32 },
}

impl System {
    /// The system of a flow and of a template with one coefficient for each of its names.
    ///
    /// # Errors
    ///
    /// `Unknowns` with their number, points times rows, exactly where this is above `MOST_UNKNOWNS`; both arguments are dropped.
    /// Takes no memory.
    pub fn new(flow: Flow, template: Template) -> Result<System, SystemFault>
        requires { IsTrue (is_over (length flow.names) template) }
        ensures system { IfOk result (λ s. (s.flow ≡ flow) × (s.template ≡ template)) }
        ensures unknowns { IsErr result ↔ MOST_UNKNOWNS < length flow.points * length template }
        ensures count { IfErr result (λ e. e ≡ SystemFault.Unknowns (length flow.points * length template)) }
    {
        let points = flow.points.as_slice().len() as u32;
        let rows = template.as_slice().len() as u32;
        let count = points * rows;
        if count > MOST_UNKNOWNS {
            return Err(SystemFault::Unknowns { count });
        }
        Ok(System { flow, template })
    }
}
