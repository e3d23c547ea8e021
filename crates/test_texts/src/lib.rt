//! Tests that cross the crates which read texts: what words, programs, equations, transition systems, claims and files of rows read
//! as, and the points and edges of programs and transition systems.
#![tactic(auto)]

#[cfg(test)]
mod c_tokens;
#[cfg(test)]
mod claims;
#[cfg(test)]
mod directives;
#[cfg(test)]
mod equations;
#[cfg(test)]
mod faults;
#[cfg(test)]
mod flows;
#[cfg(test)]
mod grammar;
#[cfg(test)]
mod groups;
#[cfg(test)]
mod packs;
#[cfg(test)]
mod programs;
#[cfg(test)]
mod refused_words;
#[cfg(test)]
mod rows;
#[cfg(test)]
mod systems;
#[cfg(test)]
mod texts;
#[cfg(test)]
mod tokens;
#[cfg(test)]
mod trees;
#[cfg(test)]
mod words;
