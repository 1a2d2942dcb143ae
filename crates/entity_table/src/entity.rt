//! Handles of entities.

use handles::Handle;

/// What marks a handle as an entity's.
pub enum EntityKind {}

/// A handle of an entity. It is `Copy`, owns nothing, and may outlive its entity: it never refers to a
/// later one.
pub type Entity<T> = Handle<T, EntityKind>;
