//! Callers that pass the errors of all libraries on as text.

ghost use Rattle.std.specs.Prelude.{◌≡◌, Some, IfOk, IfErr};
ghost use Rattle.anyhow.specs.Error.{HasMessage};
ghost use Rattle.entity_table.specs.Tables.{created_at, element_in};
ghost use Rattle.handles.specs.Texts.{gone_text};

use anyhow::Result;
use document_tree::{Document, Place};
use entity_table::{Entity, EntityTable};
use generational_box::{HandedBack, Location, Storage};
use scene_tree::{Node, SceneTree};
use session_table::SessionTable;
use signals::Signal;

/// An entity's element, or the text of why there is none.
pub fn element_or_text<S: Storage<u64>>(
    table: &EntityTable<u64, S>,
    entity: Entity<u64>,
) -> Result<u64>
    ensures seen { IfOk result (λ element. element_in table.now entity ≡ Some element) }
    ensures told { IfErr result (λ error. HasMessage (Some (gone_text (created_at table.now entity))) error) }
{
    Ok(*table.get(entity)?)
}

/// Logs an id in, stores a value in its session, and reads it: it is the same value.
pub fn first_visit<S: Storage<u64>>(
    table: &mut SessionTable<u64, u64, u64, S>,
    id: u64,
    now: u64,
    value: u64,
    here: Location,
) -> Result<u64>
    ensures { IfOk result (λ seen. seen ≡ value) }
{
    table.login(id, now)?;
    let entry = table.put(&id, 1, value, here)?;
    Ok(*table.get(entry)?)
}

/// Moves a node below another, and lists a place below another, unless one of them fails.
pub fn moved_and_listed<N: Storage<u64>, P: Storage<u32>>(
    tree: &mut SceneTree<u64, N>,
    nodes: (Node<u64>, Node<u64>),
    document: &mut Document<u64, P>,
    places: (Place, Place),
) -> Result<()> {
    tree.move_to(nodes.0, nodes.1)?;
    document.append(places.0, places.1)?;
    Ok(())
}

/// Sets a signal's value, of any type.
pub fn set_signal<T: Drop, S: Storage<T>>(
    signal: Signal<T>,
    store: &mut S,
    value: T,
    here: Location,
) -> Result<()> {
    signal.set(store, value, here).map_err(HandedBack::from)?;
    Ok(())
}

/// Spawns an entity and replaces its element. The values needn't print: what comes back is part of the
/// error.
pub fn replaced<T: Drop, S: Storage<T>>(
    table: &mut EntityTable<T, S>,
    element: T,
    other: T,
    here: Location,
) -> Result<Entity<T>>
    ensures { IfOk result (λ e. element_in table.new e ≡ Some other) }
{
    let entity = table.spawn(element, here)?;
    table.set(entity, other)?;
    Ok(entity)
}
