// Arcs put in another order: the one in which they clip fastest (the crate `arcs`). No answer depends on it.
// `sorting` moves the arcs, `keys` finds the order of many.
#![tactic(auto)]

mod keys;
mod sorting;

pub use sorting::sort;
