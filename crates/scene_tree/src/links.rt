//! The links of each slot's node: its parent, its first and last child, and its neighbouring siblings.

ghost use Rattle.std.specs.Prelude.{◌≡◌, ◌≢◌, ◌<◌, ◌≤◌, ◌+◌, ◌-◌, ◌^◌, ◌++◌, ◌⊎◌, ℕ, length, true, None, Some, IfOk, OnOk, OnErr, IsTrue, ◌↔◌, slice_get};
ghost use Rattle.handles.specs.Handles.{is_same, slot_in};
ghost use Rattle.scene_tree.specs.Chains.{after_put, before_put, changed, noted, tie_of};
ghost use Rattle.scene_tree.specs.Nodes.{Node, number_in};
ghost use Rattle.scene_tree.specs.Families.{families, parent_at, children_at, above, alone};
ghost use Rattle.scene_tree.specs.Families.{IsForest, AreChildrenLinked, IsInLevels, IsUnder, IsOpened, IsAttached};
ghost use Rattle.scene_tree.specs.Families.{IsDetached, IsCleared, IsCut, IsRooted, count_at, slot_of, IsGap, IsSpotIn};
ghost use Rattle.scene_tree.specs.Rows.{IsRowPlaced, IsRow, behind, rows_at, waiting};
ghost use Rattle.scene_tree.specs.declared.links.Link.{Link};

use crate::node::Node;
use crate::packed::Links;
use crate::spot::Spot;
use crate::walk::Children;
use handles::parts::slot_of;
use std::alloc::{AllocError, Global};

/// The node of a slot, its parent, and by their slots its first and last child and the siblings before
/// and after it.
#[derive(Drop)]
pub(crate) struct Link<T> {
    pub(crate) node: Node<T>,
    pub(crate) parent: Option<Node<T>>,
    pub(crate) first: Option<usize>,
    pub(crate) last: Option<usize>,
    pub(crate) before: Option<usize>,
    pub(crate) after: Option<usize>,
}

/// Opens the slot of a new node, if it is the next one, and records the node there.
pub(crate) fn open_slot<T>(links: &mut Links<T>, node: Node<T>)
    requires room { length links.old.items < links.old.room }
    requires fits { length links.old.items < 2 ^ 32 - 1 }
    requires linked { AreChildrenLinked links.old.items }
    requires forest { IsForest (families links.old.items) }
    requires number { number_in node ≡ links.old.number }
    requires within { slot_in node ≤ length links.old.items }
    requires root { above (families links.old.items) (slot_in node) ≡ None }
    ensures number { links.new.number ≡ links.old.number }
    ensures linked { AreChildrenLinked links.new.items }
    ensures opened { IsOpened (families links.old.items) (slot_in node) (families links.new.items) }
    ensures longer { length links.old.items ≤ length links.new.items }
    ensures noted { noted links.new.items (slot_in node) ≡ Some node }
    ensures others { (s : ℕ) → s ≢ slot_in node →
        noted links.new.items s ≡ noted links.old.items s }
{
    if slot_of(node) == links.len() {
        links.push(node);
    } else {
        links.set_node(node);
    }
}

/// Makes a node without a parent a child of another, at a spot among its children.
pub(crate) fn attach<T>(links: &mut Links<T>, parent: Node<T>, spot: Spot<T>, child: Node<T>)
    requires linked { AreChildrenLinked links.old.items }
    requires forest { IsForest (families links.old.items) }
    requires spot { IsSpotIn (children_at (families links.old.items) (slot_in parent)) spot }
    requires parent { slot_in parent < length links.old.items }
    requires child { slot_in child < length links.old.items }
    requires numbers { (number_in child ≡ links.old.number) × (number_in parent ≡ links.old.number) }
    requires root { above (families links.old.items) (slot_in child) ≡ None }
    ensures number { links.new.number ≡ links.old.number }
    ensures linked { AreChildrenLinked links.new.items }
    ensures attached { IsAttached (families links.old.items) parent spot child
        (families links.new.items) }
    ensures noted { noted links.new.items (slot_in child) ≡ Some child }
    ensures others { (s : ℕ) → s ≢ slot_in child →
        noted links.new.items s ≡ noted links.old.items s }
{
    let up = slot_of(parent);
    let slot = slot_of(child);
    let (before, after) = gap_at(links, up, spot);
    place(links, child, parent, before, after);
    put_after(links, up, before, Some(slot));
    put_before(links, up, after, Some(slot));
}

/// Removes a node from its parent's children, if it has a parent.
pub(crate) fn detach<T>(links: &mut Links<T>, node: Node<T>)
    requires linked { AreChildrenLinked links.old.items }
    requires forest { IsForest (families links.old.items) }
    requires node { slot_in node < length links.old.items }
    requires alike { (s k : ℕ) (n : Node T) →
        slice_get (children_at (families links.old.items) s) k ≡ Some n →
        slot_in n ≡ slot_in node → is_same n node ≡ true }
    ensures number { links.new.number ≡ links.old.number }
    ensures linked { AreChildrenLinked links.new.items }
    ensures detached { IsDetached (families links.old.items) node (families links.new.items) }
    ensures noted { (s : ℕ) → noted links.new.items s ≡ noted links.old.items s }
{
    let slot = slot_of(node);
    let Some(parent) = parent_at(links, slot) else {
        return;
    };
    let up = slot_of(parent);
    let (before, after) = sides_at(links, slot);
    links.remove_parent(slot);
    put_after(links, up, before, after);
    put_before(links, up, after, before);
}

// The slots of the children of a slot's node on both sides of a spot.
fn gap_at<T>(links: &Links<T>, slot: usize, spot: Spot<T>) -> (Option<usize>, Option<usize>)
    requires linked { AreChildrenLinked links.now.items }
    requires within { slot < length links.now.items }
    requires spot { IsSpotIn (children_at (families links.now.items) slot) spot }
    ensures { IsGap (children_at (families links.now.items) slot) spot result }
{
    match spot {
        Spot::FirstOf(_) => (None, links.at(slot).first),
        Spot::LastOf(_) => (links.at(slot).last, None),
        Spot::Before(sibling) => (sides_at(links, slot_of(sibling)).0, Some(slot_of(sibling))),
        Spot::After(sibling) => (Some(slot_of(sibling)), sides_at(links, slot_of(sibling)).1),
    }
}

/// The slots of the siblings before and after a slot's node.
pub(crate) fn sides_at<T>(links: &Links<T>, slot: usize) -> (Option<usize>, Option<usize>)
    requires within { slot < length links.now.items }
    ensures { (node : Node T) × (tie_of (slice_get links.now.items slot)
        ≡ Some (node, result.0, result.1)) }
{
    let link = links.at(slot);
    (link.before, link.after)
}

// Sets a node's parent, and its neighbouring siblings.
#[tactic(auto, using(crate::proofs::Moving::Trees::Links::changed_length))]
fn place<T>(
    links: &mut Links<T>,
    child: Node<T>,
    parent: Node<T>,
    before: Option<usize>,
    after: Option<usize>,
)
    requires within { slot_in child < length links.old.items }
    requires parent { slot_in parent < length links.old.items }
    requires numbers { (number_in child ≡ links.old.number) × (number_in parent ≡ links.old.number) }
    requires beside { (s : ℕ) → (before ≡ Some s) ⊎ (after ≡ Some s) → s < length links.old.items }
    ensures number { links.new.number ≡ links.old.number }
    ensures items { links.new.items ≡ changed links.old.items (slot_in child) (λ l. record l {
      node = child;
      parent = Some parent;
      before = before;
      after = after;
    }) }
{
    let slot = slot_of(child);
    links.set_node(child);
    links.set_parent(slot, parent);
    links.set_before(slot, before);
    links.set_after(slot, after);
}

// Puts another node after one child of a slot's node, or first if there is none.
fn put_after<T>(links: &mut Links<T>, slot: usize, child: Option<usize>, next: Option<usize>)
    requires within { slot < length links.old.items }
    requires child { (s : ℕ) → child ≡ Some s → s < length links.old.items }
    requires next { (s : ℕ) → next ≡ Some s → s < length links.old.items }
    ensures number { links.new.number ≡ links.old.number }
    ensures items { links.new.items ≡ after_put links.old.items slot child next }
{
    match child {
        Some(at) => links.set_after(at, next),
        None => links.set_first(slot, next),
    }
}

// Puts another node before one child of a slot's node, or last if there is none.
fn put_before<T>(links: &mut Links<T>, slot: usize, child: Option<usize>, next: Option<usize>)
    requires within { slot < length links.old.items }
    requires child { (s : ℕ) → child ≡ Some s → s < length links.old.items }
    requires next { (s : ℕ) → next ≡ Some s → s < length links.old.items }
    ensures number { links.new.number ≡ links.old.number }
    ensures items { links.new.items ≡ before_put links.old.items slot child next }
{
    match child {
        Some(at) => links.set_before(at, next),
        None => links.set_last(slot, next),
    }
}

/// Removes a subtree from the links, and returns its nodes, level by level.
pub(crate) fn cut<T>(
    alloc: Global,
    links: &mut Links<T>,
    top: Node<T>,
) -> Result<Vec<Node<T>>, AllocError>
    requires linked { AreChildrenLinked links.old.items }
    requires forest { IsForest (families links.old.items) }
    requires within { slot_in top < length links.old.items }
    requires alike { (s k : ℕ) (n : Node T) →
        slice_get (children_at (families links.old.items) s) k ≡ Some n →
        slot_in n ≡ slot_in top → is_same n top ≡ true }
    ensures number { links.new.number ≡ links.old.number }
    ensures linked { AreChildrenLinked links.new.items }
    ensures cut { IfOk result (λ list.
        IsCut (families links.old.items) top list.items (families links.new.items)) }
    ensures noted { (s : ℕ) → noted links.new.items s ≡ noted links.old.items s }
    ensures refused { OnErr result (links.new.items ≡ links.old.items) }
{
    let list = gather(alloc, links, top)?;
    detach(links, top);
    clear_all(links, &list);
    Ok(list)
}

// Clears the parents and the children of the nodes of a list.
fn clear_all<T>(links: &mut Links<T>, nodes: &Vec<Node<T>>)
    requires linked { AreChildrenLinked links.old.items }
    requires within { (s : ℕ) → 0 < count_at s nodes.now.items → s < length links.old.items }
    ensures linked { AreChildrenLinked links.new.items }
    ensures number { links.new.number ≡ links.old.number }
    ensures length { length links.new.items ≡ length links.old.items }
    ensures cleared { IsCleared (families links.old.items) (families links.new.items) nodes.now.items }
    ensures noted { (s : ℕ) → noted links.new.items s ≡ noted links.old.items s }
{
    for node in nodes {
        clear(links, slot_of(*node));
    }
}

// Clears the parent and the children of a slot's node.
#[tactic(auto, using(crate::proofs::Moving::Trees::Links::changed_length))]
fn clear<T>(links: &mut Links<T>, slot: usize)
    requires within { slot < length links.old.items }
    ensures number { links.new.number ≡ links.old.number }
    ensures items { links.new.items ≡ changed links.old.items slot (λ l. record l {
      parent = None;
      first = None;
      last = None;
    }) }
{
    links.remove_parent(slot);
    links.set_first(slot, None);
    links.set_last(slot, None);
}

/// Whether a node is another, or below it.
pub(crate) fn is_under<T>(links: &Links<T>, slot: usize, top: usize) -> bool
    requires forest { IsForest (families links.now.items) }
    requires within { slot < length links.now.items }
    ensures { IsTrue result ↔ (steps : ℕ) × IsUnder (families links.now.items) top steps slot }
{
    let above = parent_at(links, top);
    let mut at = slot;
    // No path to a root is longer than the number of slots.
    for _ in 0..links.len() {
        if at == top {
            return true;
        }
        // What is above the other node isn't below it: so a sibling is recognised by its parent.
        if is_at(above, at) {
            return false;
        }
        match parent_at(links, at) {
            Some(parent) => at = slot_of(parent),
            None => return false,
        }
    }
    unreachable!()
}

// Whether there is a node, and this is its slot.
fn is_at<T>(node: Option<Node<T>>, slot: usize) -> bool
    ensures { IsTrue result → slot_of node ≡ Some slot }
{
    match node {
        Some(node) => slot_of(node) == slot,
        None => false,
    }
}

/// How many steps a root is above a slot.
pub(crate) fn depth_at<T>(links: &Links<T>, slot: usize) -> usize
    requires forest { IsForest (families links.now.items) }
    requires within { slot < length links.now.items }
    ensures { IsRooted (families links.now.items) result slot }
{
    let mut at = slot;
    // No path to a root is longer than the number of slots.
    for steps in 0..links.len() {
        match parent_at(links, at) {
            Some(parent) => at = slot_of(parent),
            None => return steps,
        }
    }
    unreachable!()
}

/// The parent of a slot's node.
pub(crate) fn parent_at<T>(links: &Links<T>, slot: usize) -> Option<Node<T>>
    ensures { result ≡ parent_at (families links.now.items) slot }
{
    if slot >= links.len() {
        return None;
    }
    links.at(slot).parent
}

/// The row after that of a slot's node in an outline: its first child, or what follows its whole
/// subtree.
pub(crate) fn next_row<T>(links: &Links<T>, depth: usize, slot: usize) -> Option<(usize, Node<T>)>
    requires linked { AreChildrenLinked links.now.items }
    requires forest { IsForest (families links.now.items) }
    requires placed { IsRowPlaced links.now.items depth slot }
    ensures next { waiting links.now.items result
        ≡ rows_at (depth + 1) (children_at (families links.now.items) slot)
        ++ behind links.now.items depth (Some slot) }
    ensures row { IsRow links.now.items result }
{
    match links.at(slot).first {
        Some(child) => Some((depth + 1, links.at(child).node)),
        None => row_behind(links, depth, slot),
    }
}

// The row after those of the whole subtree of a slot's node.
fn row_behind<T>(links: &Links<T>, depth: usize, slot: usize) -> Option<(usize, Node<T>)>
    requires linked { AreChildrenLinked links.now.items }
    requires forest { IsForest (families links.now.items) }
    requires placed { IsRowPlaced links.now.items depth slot }
    ensures next { waiting links.now.items result ≡ behind links.now.items depth (Some slot) }
    ensures row { IsRow links.now.items result }
{
    let mut at = slot;
    let mut steps = depth;
    while steps > 0 {
        if let Some(sibling) = links.at(at).after {
            return Some((steps, links.at(sibling).node));
        }
        match parent_at(links, at) {
            Some(parent) => at = slot_of(parent),
            None => return None,
        }
        steps -= 1;
    }
    None
}

/// The nodes of a subtree, level by level.
pub(crate) fn gather<T>(
    alloc: Global,
    links: &Links<T>,
    top: Node<T>,
) -> Result<Vec<Node<T>>, AllocError>
    requires linked { AreChildrenLinked links.now.items }
    requires forest { IsForest (families links.now.items) }
    requires within { slot_in top < length links.now.items }
    ensures { IfOk result (λ list. IsInLevels (families links.now.items) top list.items) }
{
    let mut list = vec![in alloc; top]?;
    let mut next = 0;
    while next < list.len() {
        push_children(&mut list, links, next)?;
        next += 1;
    }
    Ok(list)
}

// Appends the children of one node of a list to it.
fn push_children<T>(
    list: &mut Vec<Node<T>>,
    links: &Links<T>,
    next: usize,
) -> Result<(), AllocError>
    requires linked { AreChildrenLinked links.now.items }
    requires listed { next < length list.old.items }
    requires within { (n : Node T) → slice_get list.old.items next ≡ Some n →
        slot_in n < length links.now.items }
    ensures { OnOk result ((n : Node T) → slice_get list.old.items next ≡ Some n →
        list.new.items ≡ list.old.items ++ children_at (families links.now.items) (slot_in n)) }
{
    let node = list[next];
    for child in Children::new(links, slot_of(node)) {
        list.push(child)?;
    }
    Ok(())
}
