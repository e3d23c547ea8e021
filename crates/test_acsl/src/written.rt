//! Texts that are annotated.

mod files;
mod fractions;
mod functions;
mod labels;
mod lines;
mod loops;
mod scopes;
mod templates;
