//! Calls over single edges: composed edges, transformers, raises, parts of picked unknowns, rates of rays.

mod composed;
mod lines;
mod parts;
mod raises;
mod rays;
mod systems;
mod transformers;
