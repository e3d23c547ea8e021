//! Tests of functions of C files: what their grammar says of tokens, and what the items of a file are.
#![tactic(auto)]

#[cfg(test)]
mod constants;
#[cfg(test)]
mod constructs;
#[cfg(test)]
mod files;
#[cfg(test)]
mod grammar;
#[cfg(test)]
mod items;
#[cfg(test)]
mod limits;
#[cfg(test)]
mod machine;
#[cfg(test)]
mod packs;
#[cfg(test)]
mod rows;
#[cfg(test)]
mod walks;
#[cfg(test)]
mod words;
#[cfg(test)]
mod written;
