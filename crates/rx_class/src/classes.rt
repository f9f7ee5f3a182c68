//! Classes without `v`: atoms, items, the loop.

pub(crate) mod atom;
pub(crate) mod class;
pub(crate) mod item;
