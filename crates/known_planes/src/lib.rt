//! What is known of a problem's cells: a set of literals, and the boundary through which its closure is taken.
//!
//! `planes` keeps the set in two words for each block: how they are read, added to and replaced, all of them in one list, and what is seen of a cell; `layout` says where
//! they lie. A set can carry a mark to which it goes back: `mark` notes what changed since, and `back` puts it back. `from_dump` makes a set of a dump, `clash` finds the
//! least cell with both literals, of all or of a chunk, and `counts` counts literals and known cells of flip-flops. `closer` is the trait of whatever gives a closure, and
//! `in_place` has what a closer that has nothing better closes a set in place by. `laws` says that bits are literals, and what their counts are.
//!
//! Only tested: that a closer may refuse, and can be called again. A problem's limits are those of its planes, which take 16 bytes for each block, 25 more once they have a
//! mark, and no more memory later.
#![tactic(auto)]

mod back;
mod clash;
mod closer;
mod counts;
mod from_dump;
mod in_place;
mod laws;
mod layout;
mod mark;
mod planes;
#[cfg(test)]
mod tests;

pub use closer::Closer;
pub use from_dump::seed;
pub use laws::{count_laws, planes_laws};
pub use layout::place;
pub use planes::{Planes, Seen};
