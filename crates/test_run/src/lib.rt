//! Tests of the top call: its answers, reports, certificates and messages, where nothing fails, where the outside fails, and
//! where words, texts and certificates are hostile.
#![tactic(auto)]

#[cfg(test)]
mod cases;
#[cfg(test)]
mod done;
#[cfg(test)]
mod functions;
#[cfg(test)]
mod refused;
