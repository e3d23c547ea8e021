//! The certificate that the rounds over a system make.

ghost use Rattle.std.specs.Prelude.{◌≡◌, ◌≤◌, ◌++◌, IfOk, IfErr, IsTrue, OnOk};
ghost use Rattle.base_limits.specs.declared.limits.TheConstants.{MOST_IMPROVEMENTS};
ghost use Rattle.flow_templates.specs.Rows.{is_template};
ghost use Rattle.solve_rounds.specs.Solutions.{cert_with};
ghost use Rattle.top_texts.specs.Outcomes.{IsHalted, IsRoundsCertificate};
ghost use Rattle.ask_words.specs.declared.request.Purpose.TheVariants.{Certificate};

use super::rounds::solve;
use crate::check::accept::accept;
use crate::refusal::Refusal;
use ask_words::Policy;
use base_watch::Watch;
use cert_fitted::dense_cert;
use cert_text::write;
use cert_types::{Cert, Rows};
use flow_systems::System;
use lang_tree::Coeffs;
use solve_rounds::Solved;
use std::alloc::{AllocError, Global};

// Adds the rows once more.
fn add_rows(list: &mut Vec<Coeffs>, rows: &[Coeffs]) -> Result<(), AllocError>
    ensures { OnOk result (list.new.items ≡ list.old.items ++ rows.now) }
{
    for row in rows {
        list.push(row.again()?)?;
    }
    Ok(())
}

// A copy of the rows of a system's template.
fn rows_of(alloc: Global, system: &System) -> Result<Rows, AllocError>
    ensures rows { IfOk result (λ rows. rows ≡ system.now.template) }
    ensures template { IsTrue (is_template system.now.template) }
{
    let mut list: Vec<Coeffs> = Vec::new(alloc);
    add_rows(&mut list, system.template.as_slice())?;
    Ok(Rows::new(list))
}

// The certificate of a solution.
fn cert_of(alloc: Global, system: &System, solved: Solved) -> Result<Cert, AllocError>
    ensures cert { IfOk result (λ cert. cert ≡ cert_with system.now solved) }
    ensures template { IsTrue (is_template system.now.template) }
{
    let rows = rows_of(alloc, system)?;
    Ok(Cert {
        rows,
        bounds: solved.bounds,
        steps: solved.steps,
        uppers: solved.uppers,
    })
}

/// The bytes of the certificate that the rounds over a system make.
///
/// # Errors
///
/// Those of `report_of`; a wide operation may be one of the check of the certificate, too.
pub fn certificate_of<W: Watch>(
    alloc: Global,
    system: &System,
    policy: Policy,
    limit: u32,
    watch: &mut W,
) -> Result<Vec<u8>, Refusal>
    requires limit { limit ≤ MOST_IMPROVEMENTS }
    ensures ok { IfOk result (λ bytes. IsRoundsCertificate system.now policy limit bytes.items) }
    ensures err { IfErr result (λ refusal. IsHalted Certificate system.now policy limit refusal) }
{
    let solved = solve(alloc, system, policy, limit, watch)?;
    let cert = cert_of(alloc, system, solved)?;
    accept(alloc, system, &cert)?;
    let written = dense_cert(alloc, &cert)?;
    Ok(write(alloc, &written)?)
}
