//! Trees: the parts of a window, of which one is moved and one removed.

use anyhow::Result;
use generational_box::{Location, Storage, UnsyncStorage};
use scene_tree::{Node, SceneTree};

pub fn main(rt: HostRuntime) -> Result<()> {
    let store = UnsyncStorage::<u64>::new(rt.alloc(), 1);
    draw(&rt, &mut SceneTree::new(rt.alloc(), store))
}

fn draw<R: Print, S: Storage<u64>>(rt: &R, scene: &mut SceneTree<u64, S>) -> Result<()> {
    let window = scene.add_root(1, Location::new("window.rt", 13, 24))?;
    let menu = add(scene, window, 2)?;
    let button = add(scene, menu, 3)?;
    let list = add(scene, window, 4)?;
    scene.move_to(button, list)?;
    show(rt, scene, window)?;
    end(rt, scene, list, button)
}

// Adds a last child of a node.
fn add<S: Storage<u64>>(
    scene: &mut SceneTree<u64, S>,
    parent: Node<u64>,
    value: u64,
) -> Result<Node<u64>> {
    Ok(scene.add_child(parent, value, Location::new("window.rt", 28, 14))?)
}

fn show<R: Print, S: Storage<u64>>(
    rt: &R,
    scene: &SceneTree<u64, S>,
    window: Node<u64>,
) -> Result<()> {
    for (depth, node) in scene.outline(window, 100)? {
        println!(rt; "depth {depth}: {}", scene.get(node)?)?;
    }
    Ok(())
}

// Removes the list, with the button in it.
fn end<R: Print, S: Storage<u64>>(
    rt: &R,
    scene: &mut SceneTree<u64, S>,
    list: Node<u64>,
    button: Node<u64>,
) -> Result<()> {
    let gone = scene.remove_subtree(list)?;
    println!(rt; "{} gone, {} left", gone.len(), scene.len())?;
    if let Err(stale) = scene.get(button) {
        println!(rt; "{stale}")?;
    }
    Ok(())
}
