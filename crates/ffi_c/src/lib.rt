// The static library for C: each entry of ffi under its own name, with ffi's own clauses, one for one. A crate of Rattle
// is a library or a static library, and the laws of the entries stand above ffi, so this one stands beside them.
#![tactic(auto)]

mod angles;
mod days;
mod fields;
mod files;
mod forms;
mod listed;
mod profile;
mod records;
mod sets;
mod sum;
mod yearly;
