//! What a module uses of the registration list: the entries that its resolved tree asks or names, and the types that its
//! declarations name. A group of entries can be removed where none of them is used.

mod expressions;
mod marks;
mod modules;
mod statements;

pub use modules::mark_uses;
