//! Trees, and handles of their nodes.

ghost use Rattle.std.specs.Prelude.{true, ◌≡◌, ◌≤◌, ◌⊎◌, ◌∷◌, slice_get, ◌++◌, [], List, ℕ, Err, IfOk, IsErr, None, OnOk, IfSome, Some};
ghost use Rattle.generational_errors.specs.declared.error.StoreError.TheVariants.{OutOfMemory};
ghost use Rattle.scene_tree.specs.declared.node.TreeError.TheVariants as error;
ghost use Rattle.generational_errors.specs.declared.error.Location.{Location};
ghost use Rattle.handles.specs.Handles.{IsOther};
ghost use Rattle.scene_tree.specs.Nodes.{Node, without};
ghost use Rattle.scene_tree.specs.Trees.{IsBelow, NodeIsUnchanged, WasMade, children_of, created_at, outline_of, parent_of};
ghost use Rattle.scene_tree.specs.Trees.{value_of};
ghost use Rattle.scene_tree.specs.Siblings.{previous_in, siblings_of};

use generational_box::{HandedBack, Location, Storage};
use scene_tree::{Node, SceneTree, Spot, Stale, TreeError};

/// Removes a node with all below it, adds another, and looks at the first: that fails, and the error says
/// where the first was made, whichever slot the second took. Only a removal for which memory runs out fails
/// in another way.
pub fn told_after<S: Storage<u64>>(
    tree: &mut SceneTree<u64, S>,
    first: Node<u64>,
    next: u64,
    here: Location,
) -> Result<u64, TreeError>
    requires { WasMade tree.old first }
    ensures { (l : Location) → created_at tree.old first ≡ Some l →
        (result ≡ Err (error.Stale (record { created_at = Some l }))) ⊎ (result ≡ Err (error.Store OutOfMemory)) }
{
    tree.remove_subtree(first)?;
    let _ = tree.add_root(next, here);
    match tree.get(first) {
        Ok(value) => Ok(*value),
        Err(stale) => Err(TreeError::Stale(stale)),
    }
}

/// Moves a node below another, and the other below the node: one of the two always fails.
pub fn moved_round<S: Storage<u64>>(
    tree: &mut SceneTree<u64, S>,
    node: Node<u64>,
    other: Node<u64>,
) -> Result<(), TreeError>
    ensures { IsErr result }
{
    tree.move_to(node, other)?;
    tree.move_to(other, node)
}

/// The root above a node: the last of its ancestors, or the node itself where it has none.
pub fn root_of<S: Storage<u64>>(
    tree: &SceneTree<u64, S>,
    node: Node<u64>,
) -> Result<Node<u64>, Stale>
    ensures root { IfOk result (λ root. parent_of tree.now root ≡ None) }
    ensures above { IfOk result (λ root. IsBelow tree.now root node) }
{
    let mut root = node;
    'up: for above in tree.ancestors(node)? {
        root = above;
    }
    Ok(root)
}

/// The last of a node's children, if it has any.
pub fn last_child<S: Storage<u64>>(
    tree: &SceneTree<u64, S>,
    node: Node<u64>,
) -> Result<Option<Node<u64>>, Stale>
    ensures { IfOk result (λ last. (others : List (Node ℕ)) (child : Node ℕ) →
        children_of tree.now node ≡ others ++ child ∷ [] → last ≡ Some child) }
{
    let mut last = None;
    'over: for child in tree.children(node)? {
        last = Some(child);
    }
    Ok(last)
}

/// The last two of a node's children, the last first.
pub fn last_two<S: Storage<u64>>(
    tree: &SceneTree<u64, S>,
    node: Node<u64>,
) -> Result<(Option<Node<u64>>, Option<Node<u64>>), Stale>
    ensures { IfOk result (λ two. (others : List (Node ℕ)) (first second : Node ℕ) →
        children_of tree.now node ≡ others ++ first ∷ second ∷ [] → two ≡ (Some second, Some first)) }
{
    let mut children = tree.children_backwards(node)?;
    let last = children.next();
    let before = children.next();
    Ok((last, before))
}

/// Whether a node is the first of its siblings: a root is.
pub fn is_first<S: Storage<u64>>(tree: &SceneTree<u64, S>, node: Node<u64>) -> Result<bool, Stale>
    ensures { IfOk result (λ first. first ≡ true → previous_in node (siblings_of tree.now node) ≡ None) }
{
    Ok(tree.previous_sibling(node)?.is_none())
}

/// The greatest value that a node shows, or 0 where there is no node.
pub fn greatest_value<S: Storage<u64>>(tree: &SceneTree<u64, S>) -> u64
    ensures { (n : Node ℕ) (v : ℕ) → value_of tree.now n ≡ Some v → v ≤ result }
{
    let mut greatest = 0;
    'over: for node in tree.nodes() {
        let value = tree.get(node).copied().unwrap_or(0);
        if value > greatest {
            greatest = value;
        }
    }
    greatest
}

/// The greatest value that a root shows, or 0 where there is no node.
pub fn greatest_root<S: Storage<u64>>(tree: &SceneTree<u64, S>) -> u64
    ensures { (n : Node ℕ) (v : ℕ) → value_of tree.now n ≡ Some v → parent_of tree.now n ≡ None →
        v ≤ result }
{
    let mut greatest = 0;
    'over: for node in tree.roots() {
        let value = tree.get(node).copied().unwrap_or(0);
        if value > greatest {
            greatest = value;
        }
    }
    greatest
}

/// How many steps the deepest of a node and those below it is below the node, of as many as a limit says,
/// in the order in which they are read.
pub fn height<S: Storage<u64>>(
    tree: &SceneTree<u64, S>,
    node: Node<u64>,
    limit: usize,
) -> Result<usize, Stale>
    ensures { IfOk result (λ height. (i : ℕ) (row : ℕ × Node ℕ) →
        slice_get (outline_of tree.now limit ((0, node) ∷ [])) i ≡ Some row → row.0 ≤ height) }
{
    let mut height = 0;
    'rows: for (depth, _) in tree.outline(node, limit)? {
        if depth > height {
            height = depth;
        }
    }
    Ok(height)
}

/// Puts a node before all its siblings, and leaves it where it is if it has no parent.
pub fn to_front<S: Storage<u64>>(
    tree: &mut SceneTree<u64, S>,
    node: Node<u64>,
) -> Result<(), TreeError>
    ensures { OnOk result ((up : Node ℕ) → parent_of tree.old node ≡ Some up →
        children_of tree.new up ≡ node ∷ without node (children_of tree.old up)) }
{
    match tree.parent(node)? {
        Some(parent) => tree.move_at(node, Spot::FirstOf(parent)),
        None => Ok(()),
    }
}

/// Makes a node beside another, right before it: the two have one parent.
pub fn twin_before<S: Storage<u64>>(
    tree: &mut SceneTree<u64, S>,
    node: Node<u64>,
    value: u64,
    here: Location,
) -> Result<Node<u64>, HandedBack<u64, TreeError>>
    ensures { IfOk result (λ twin. parent_of tree.new twin ≡ parent_of tree.old node) }
{
    tree.add_at(Spot::Before(node), value, here)
}

/// Removes a node with its value from a tree, and reads it again: that fails. Returns the value that it
/// had.
pub fn taken_out<S: Storage<u64>>(tree: &mut SceneTree<u64, S>, node: Node<u64>) -> Option<u64>
    ensures { IfSome result (λ value. value_of tree.old node ≡ Some value) }
{
    let value = tree.take(node).ok()?;
    match tree.get(node) {
        Ok(_) => None,
        Err(_) => Some(value),
    }
}

/// Makes a node a root, and tells its depth, which is none.
pub fn freed<S: Storage<u64>>(tree: &mut SceneTree<u64, S>, node: Node<u64>) -> Result<usize, Stale>
    ensures { IfOk result (λ depth. depth ≡ 0) }
{
    tree.detach(node)?;
    tree.depth(node)
}

/// Adds to a node's number in place: every other node is unchanged.
pub fn count_up<S: Storage<u64>>(tree: &mut SceneTree<u64, S>, node: Node<u64>) -> Result<(), Stale>
    ensures { (other : Node ℕ) → IsOther node other → NodeIsUnchanged tree.old other tree.new }
{
    tree.update(node, |count: &mut u64| *count = count.wrapping_add(1))
}
