//! Trees of nodes.

ghost use Rattle.std.specs.Prelude.{ℕ, ◌<◌, ◌≤◌, ◌+◌, true, List, length, reverse, slice_get};
ghost use Rattle.std.specs.Prelude.{◌≡◌, ◌≢◌, ◌↔◌, ◌⊎◌, ◌++◌, ◌∷◌, [], None, Some, Err};
ghost use Rattle.std.specs.Prelude.{IfOk, OnOk, IfErr, OnErr, IsErr, IsErrAnd};
ghost use Rattle.std.specs.Borrow.{MutBor};
ghost use Rattle.std.specs.Fn.{FnOnceReturnsAtMut};
ghost use Rattle.generational_core.specs.Conditions.{IsFresh};
ghost use Rattle.generational_errors.specs.declared.error.StoreError.TheVariants.{OutOfMemory};
ghost use Rattle.generational_errors.specs.declared.error.Location.{Location};
ghost use Rattle.handles.specs.Handles.{id_in, pointer_in, slot_in, IsOther};
ghost use Rattle.handles.specs.Sites.{TellsLocation, told_at, told_in};
ghost use Rattle.scene_tree.specs.declared.node.TreeError.TheVariants as error;
ghost use Rattle.scene_tree.specs.Chains.{noted};
ghost use Rattle.scene_tree.specs.Families.{AreChildrenLinked, IsOpened, alone, families};
ghost use Rattle.generational_laws.specs.PlainStores.{IsSimple};
ghost use Rattle.scene_tree.specs.Keeping.{HasLostNodes, HasMade, IsTreeKept, IsLiveIn};
ghost use Rattle.generational_core.specs.Seeing.{value_in};
ghost use Rattle.scene_tree.specs.Nodes.{Node, number_in, times, without};
ghost use Rattle.scene_tree.specs.Trees.{TreeState, value_of, is_live, family_of, parent_of};
ghost use Rattle.scene_tree.specs.Trees.{children_of, created_at, stale_of, WasMade, IsBelow, NodeIsUnchanged, CanMove};
ghost use Rattle.scene_tree.specs.Trees.{AreAncestors, IsRootedIn, IsSubtree, IsTree, KeepsNodeLocations, live_count, outline_of, parent_for};
ghost use Rattle.scene_tree.specs.Moves.{FailsAsMove};
ghost use Rattle.scene_tree.specs.Spots.{named, placed};
ghost use Rattle.scene_tree.specs.declared.spot.Spot.TheVariants as spots;

use crate::links::{attach, cut, depth_at, detach, gather, is_under, open_slot, parent_at};
use crate::node::{Node, TreeError};
use crate::packed::Links;
use crate::spot::Spot;
use crate::walk::{Ancestors, Children, ChildrenBackwards, Outline};
use generational_core::{HandedBack, Location, Refusal, Storage, StoreError};
use handles::Stale;
use handles::parts::{Sites, handle_at, number_of, peek, pointer_to, site_of, slot_of};
use std::alloc::Global;
use std::marker::Model;

/// Nodes, each with a value, an optional parent, and ordered children. Contracts model it as the
/// machine's state, which says which value each node has, the families of the nodes, and the locations
/// where nodes were made.
#[derive(Drop)]
pub struct SceneTree<T, S: Storage<T>> {
    pub(crate) alloc: Global,
    pub(crate) store: S,
    // of each slot its current or last node, and that node's neighbours
    pub(crate) links: Links<T>,
    pub(crate) sites: Sites,
}

impl<T, S: Storage<T>> Model for SceneTree<T, S> {
    ghost use Rattle.std.specs.Coded.{codes};
    ghost use Rattle.std.specs.FinMap as map;
    ghost use Rattle.std.specs.Prelude.{◌≡◌};
    ghost use Rattle.handles.specs.Sites.{told_in};
    ghost use Rattle.scene_tree.specs.Families.{AreChildrenLinked, families};
    ghost use Rattle.scene_tree.specs.Keeping.{AreNodesNoted, IsTreeKept};
    ghost use Rattle.scene_tree.specs.Trees.{TreeState};

    ghost Value = { TreeState T };

    ghost coded = { Prim.hlevel (codes, map.code) };

    ghost view = { λ t. record {
      state = S.state t.store;
      families = families t.links.items;
      sites = told_in t.sites;
    } };

    ghost invariant = { λ t. IsTreeKept (S.state t.store) (families t.links.items)
        × AreChildrenLinked t.links.items
        × AreNodesNoted (S.state t.store) t.links.items
        × (t.links.number ≡ (S.state t.store).number) };
}

impl<T, S: Storage<T>> SceneTree<T, S> {
    /// Creates a tree without nodes, over a fresh store (see `is_fresh`). Doesn't allocate.
    ///
    /// ```rust
    /// let store = UnsyncStorage::<u64>::new(rt.alloc(), 1);
    /// let mut tree = SceneTree::new(rt.alloc(), store);
    /// ```
    pub fn new(alloc: Global, store: S) -> Self
        requires { IsFresh (S.state store) }
        ensures tree { result ≡ record { state = S.state store; families = []; sites = [] } }
        ensures none { (n : Node T) → value_of result n ≡ None }
    {
        let number = store.number();
        SceneTree {
            alloc,
            store,
            links: Links::new(alloc, number),
            sites: Sites::new(alloc),
        }
    }

    /// Adds a node with this value, without a parent and without children, and returns its handle, which
    /// was never issued before. Every other node is unchanged. Amortised O(1). Allocates if the links
    /// have no room, or no slot is free.
    ///
    /// # Errors
    ///
    /// `OutOfMemory` is the only possible error. The value comes back, and the tree is unchanged.
    ///
    /// ```rust
    /// let root = tree.add_root(1, here)?;
    /// ```
    pub fn add_root(&mut self, value: T, here: Location) -> Result<Node<T>, Refusal<T>>
        ensures shown { IfOk result (λ n. value_of self.new n ≡ Some value) }
        ensures alone { IfOk result (λ n. family_of self.new n ≡ alone) }
        ensures count { OnOk result (live_count self.new ≡ live_count self.old + 1) }
        ensures others { IfOk result (λ n. (f : Node T) → IsOther n f →
            NodeIsUnchanged self.old f self.new) }
        ensures left { (f : Node T) → WasMade self.old f → NodeIsUnchanged self.old f self.new }
        ensures new { IfOk result (λ n. WasMade self.old n → ⊥) }
        ensures made { IfOk result (λ n. WasMade self.new n) }
        ensures here { IfOk result (λ n. TellsLocation (created_at self.new n) here) }
        ensures tells { KeepsNodeLocations self.old self.new }
        ensures kept { (f : Node T) → WasMade self.old f → WasMade self.new f }
        ensures refused { OnErr result (self.new ≡ self.old) }
        ensures back { IfErr result (λ refusal. refusal.value ≡ value) }
        ensures cause { IfErr result (λ refusal. refusal.cause ≡ OutOfMemory) }
    {
        let store = &mut self.store;
        let node = make(store, &mut self.links, &mut self.sites, value, here)?;
        Ok(node)
    }

    /// Adds a node with this value, without children, as the last child of another, and returns its
    /// handle, which was never issued before. The parent keeps its value, its parent and its other
    /// children, and every other node is unchanged. Amortised O(1). Allocates if the links have no room,
    /// or no slot is free.
    ///
    /// # Errors
    ///
    /// - `Stale` if the parent was removed, or is of a store with another number.
    /// - `Store` of `OutOfMemory`.
    ///
    /// The value comes back then, and the tree is unchanged.
    ///
    /// ```rust
    /// let child = tree.add_child(root, 2, here)?;
    /// ```
    pub fn add_child(
        &mut self,
        parent: Node<T>,
        value: T,
        here: Location,
    ) -> Result<Node<T>, HandedBack<T, TreeError>>
        ensures shown { IfOk result (λ n. value_of self.new n ≡ Some value) }
        ensures below { IfOk result (λ n. family_of self.new n
            ≡ record { parent = Some parent; children = [] }) }
        ensures last { IfOk result (λ n. family_of self.new parent ≡ record {
          parent = parent_of self.old parent;
          children = children_of self.old parent ++ n ∷ [];
        }) }
        ensures count { OnOk result (live_count self.new ≡ live_count self.old + 1) }
        ensures parent { value_of self.new parent ≡ value_of self.old parent }
        ensures others { IfOk result (λ n. (f : Node T) → IsOther n f → IsOther parent f →
            NodeIsUnchanged self.old f self.new) }
        ensures new { IfOk result (λ n. WasMade self.old n → ⊥) }
        ensures made { IfOk result (λ n. WasMade self.new n) }
        ensures here { IfOk result (λ n. TellsLocation (created_at self.new n) here) }
        ensures tells { KeepsNodeLocations self.old self.new }
        ensures kept { (f : Node T) → WasMade self.old f → WasMade self.new f }
        ensures stale { value_of self.old parent ≡ None →
            IsErrAnd result (λ refusal. refusal.cause ≡ error.Stale (stale_of self.old parent)) }
        ensures short { IfErr result (λ refusal. (value_of self.old parent ≡ None)
            ⊎ (refusal.cause ≡ error.Store OutOfMemory)) }
        ensures back { IfErr result (λ refusal. refusal.value ≡ value) }
        ensures refused { OnErr result (self.new ≡ self.old) }
    {
        self.add_at(Spot::LastOf(parent), value, here)
    }

    /// Adds a node with this value, without children, at a spot among the children of another, and
    /// returns its handle, which was never issued before. The parent keeps its value, its parent and its
    /// other children, and every other node is unchanged. Amortised O(1). Allocates if the links have no
    /// room, or no slot is free.
    ///
    /// # Errors
    ///
    /// - `Stale` if the spot's node was removed, or is of a store with another number.
    /// - `NoParent` if the spot is beside a sibling that has no parent.
    /// - `Store` of `OutOfMemory`.
    ///
    /// The value comes back then, and the tree is unchanged.
    ///
    /// ```rust
    /// let first = tree.add_at(Spot::Before(child), 3, here)?;
    /// ```
    pub fn add_at(
        &mut self,
        spot: Spot<T>,
        value: T,
        here: Location,
    ) -> Result<Node<T>, HandedBack<T, TreeError>>
        ensures shown { IfOk result (λ n. value_of self.new n ≡ Some value) }
        ensures below { IfOk result (λ n. family_of self.new n
            ≡ record { parent = parent_for self.old spot; children = [] }) }
        ensures placed { IfOk result (λ n. (up : Node T) → parent_for self.old spot ≡ Some up →
            (value_of self.new up ≡ value_of self.old up) × (family_of self.new up ≡ record {
              parent = parent_of self.old up;
              children = placed spot n (children_of self.old up);
            })) }
        ensures count { OnOk result (live_count self.new ≡ live_count self.old + 1) }
        ensures others { IfOk result (λ n. (f : Node T) → IsOther n f →
            ((up : Node T) → parent_for self.old spot ≡ Some up → IsOther up f) →
            NodeIsUnchanged self.old f self.new) }
        ensures new { IfOk result (λ n. WasMade self.old n → ⊥) }
        ensures made { IfOk result (λ n. WasMade self.new n) }
        ensures here { IfOk result (λ n. TellsLocation (created_at self.new n) here) }
        ensures tells { KeepsNodeLocations self.old self.new }
        ensures kept { (f : Node T) → WasMade self.old f → WasMade self.new f }
        ensures stale { value_of self.old (named spot) ≡ None →
            IsErrAnd result (λ refusal. refusal.cause ≡ error.Stale (stale_of self.old (named spot))) }
        ensures root { is_live self.old (named spot) ≡ true → parent_for self.old spot ≡ None →
            IsErrAnd result (λ refusal. refusal.cause ≡ error.NoParent (created_at self.old (named spot))) }
        ensures short { IfErr result (λ refusal. (value_of self.old (named spot) ≡ None)
            ⊎ (parent_for self.old spot ≡ None)
            ⊎ (refusal.cause ≡ error.Store OutOfMemory)) }
        ensures back { IfErr result (λ refusal. refusal.value ≡ value) }
        ensures refused { OnErr result (self.new ≡ self.old) }
    {
        let parent = match self.parent_for(spot) {
            Ok(parent) => parent,
            Err(cause) => return Err(HandedBack { value, cause }),
        };
        let store = &mut self.store;
        let child = match make(store, &mut self.links, &mut self.sites, value, here) {
            Ok(child) => child,
            Err(Refusal { value, cause }) => {
                let cause = TreeError::Store(cause);
                return Err(HandedBack { value, cause });
            }
        };
        attach(&mut self.links, parent, spot, child);
        Ok(child)
    }

    // The parent of a node that is added at a spot.
    fn parent_for(&self, spot: Spot<T>) -> Result<Node<T>, TreeError>
        ensures parent { IfOk result (λ up. parent_for self.now spot ≡ Some up) }
        ensures live { IfOk result (λ up. is_live self.now up ≡ true) }
        ensures stale { value_of self.now (named spot) ≡ None →
            result ≡ Err (error.Stale (stale_of self.now (named spot))) }
        ensures root { is_live self.now (named spot) ≡ true → parent_for self.now spot ≡ None →
            result ≡ Err (error.NoParent (created_at self.now (named spot))) }
        ensures why { IfErr result (λ e. (value_of self.now (named spot) ≡ None)
            ⊎ (parent_for self.now spot ≡ None)) }
    {
        match spot {
            Spot::FirstOf(parent) => self.if_alive(parent),
            Spot::LastOf(parent) => self.if_alive(parent),
            Spot::Before(sibling) => self.parent_or(sibling),
            Spot::After(sibling) => self.parent_or(sibling),
        }
    }

    // A node, if it is live.
    fn if_alive(&self, node: Node<T>) -> Result<Node<T>, TreeError>
        ensures same { IfOk result (λ n. n ≡ node) }
        ensures live { OnOk result (is_live self.now node ≡ true) }
        ensures stale { IfErr result (λ e. e ≡ error.Stale (stale_of self.now node)) }
        ensures gone { OnErr result (value_of self.now node ≡ None) }
    {
        if self.is_alive(node) {
            Ok(node)
        } else {
            Err(TreeError::Stale(self.stale(node)))
        }
    }

    // A node's parent.
    fn parent_or(&self, node: Node<T>) -> Result<Node<T>, TreeError>
        ensures parent { IfOk result (λ up. parent_of self.now node ≡ Some up) }
        ensures live { IfOk result (λ up. is_live self.now up ≡ true) }
        ensures stale { value_of self.now node ≡ None → result ≡ Err (error.Stale (stale_of self.now node)) }
        ensures root { is_live self.now node ≡ true → parent_of self.now node ≡ None →
            result ≡ Err (error.NoParent (created_at self.now node)) }
        ensures why { OnErr result ((value_of self.now node ≡ None)
            ⊎ (parent_of self.now node ≡ None)) }
    {
        let links = &self.links;
        if !self.is_alive(node) {
            return Err(TreeError::Stale(self.stale(node)));
        }
        match parent_at(links, slot_of(node)) {
            Some(parent) => Ok(parent),
            None => Err(TreeError::NoParent(self.created_at(node))),
        }
    }

    /// Replaces a node's value, and drops the old one. The node's parent and children are unchanged, and
    /// so is every other node. Doesn't allocate, and is O(1) except for dropping the old value.
    ///
    /// # Errors
    ///
    /// `Stale` if the node was removed, or is of a store with another number. The value comes back, and
    /// the tree is unchanged.
    ///
    /// ```rust
    /// if let Err(refusal) = tree.set(child, 9) {
    ///     println!(rt; "{refusal}, and {} comes back", refusal.value)?;
    /// }
    /// ```
    pub fn set(&mut self, node: Node<T>, value: T) -> Result<(), HandedBack<T, Stale>>
    where
        T: Drop,
        ensures shown { OnOk result (value_of self.new node ≡ Some value) }
        ensures family { family_of self.new node ≡ family_of self.old node }
        ensures count { live_count self.new ≡ live_count self.old }
        ensures others { (f : Node T) → IsOther node f → NodeIsUnchanged self.old f self.new }
        ensures kept { (f : Node T) → WasMade self.old f → WasMade self.new f }
        ensures tells { (f : Node T) → created_at self.new f ≡ created_at self.old f }
        ensures stale { IsErr result ↔ value_of self.old node ≡ None }
        ensures told { IfErr result (λ refusal. refusal.cause.created_at ≡ created_at self.old node) }
        ensures back { IfErr result (λ refusal. refusal.value ≡ value) }
        ensures refused { OnErr result (self.new ≡ self.old) }
    {
        if !self.is_alive(node) {
            let cause = self.stale(node);
            return Err(HandedBack { value, cause });
        }
        self.store.replace_value(pointer_to(node), value);
        Ok(())
    }

    /// Calls a closure once on a node's value, mutably, and returns the closure's result. The node's
    /// parent and children are unchanged, and so is every other node. Doesn't allocate itself, and is
    /// O(1) except for the closure.
    ///
    /// # Errors
    ///
    /// `Stale` if the node was removed, or is of a store with another number. The closure isn't called
    /// then, and the tree is unchanged.
    ///
    /// ```rust
    /// tree.update(child, |value: &mut u64| *value = value.wrapping_add(1))?;
    /// ```
    pub fn update<R, F: FnOnce(&mut T) -> R>(&mut self, node: Node<T>, f: F) -> Result<R, Stale>
        requires { (value : MutBor T) → value_of self.old node ≡ Some value.now → F.pre f value }
        ensures changed { IfOk result (λ answer. (old : T) × (changed : T) ×
            (value_of self.old node ≡ Some old) ×
            FnOnceReturnsAtMut F.FnOnce f old answer changed ×
            (value_of self.new node ≡ Some changed)) }
        ensures family { family_of self.new node ≡ family_of self.old node }
        ensures count { live_count self.new ≡ live_count self.old }
        ensures others { (n : Node T) → IsOther node n → NodeIsUnchanged self.old n self.new }
        ensures kept { (n : Node T) → WasMade self.old n → WasMade self.new n }
        ensures tells { (n : Node T) → created_at self.new n ≡ created_at self.old n }
        ensures stale { IsErr result ↔ value_of self.old node ≡ None }
        ensures told { IfErr result (λ stale. stale.created_at ≡ created_at self.old node) }
        ensures refused { OnErr result (self.new ≡ self.old) }
    {
        if !self.is_alive(node) {
            return Err(self.stale(node));
        }
        Ok(self.store.change_value(pointer_to(node), f))
    }

    /// Borrows a node's value. Doesn't allocate, and is O(1).
    ///
    /// # Errors
    ///
    /// `Stale` if the node was removed, or is of a store with another number.
    ///
    /// ```rust
    /// let value = *tree.get(child)?;
    /// ```
    pub fn get(&self, node: Node<T>) -> Result<&T, Stale>
        ensures seen { IfOk result (λ value. value_of self.now node ≡ Some value.now) }
        ensures stale { IsErr result ↔ value_of self.now node ≡ None }
        ensures told { IfErr result (λ stale. stale.created_at ≡ created_at self.now node) }
    {
        match peek(&self.store, node) {
            Some(value) => Ok(value),
            None => Err(self.stale(node)),
        }
    }

    /// Whether a node is live: false if it was removed, or if it is of another tree whose store has
    /// another number. Doesn't allocate, and is O(1).
    ///
    /// ```rust
    /// let is_there = tree.is_alive(child);
    /// ```
    pub fn is_alive(&self, node: Node<T>) -> bool
        ensures { result ≡ is_live self.now node }
    {
        peek(&self.store, node).is_some()
    }

    /// Where a node was made, even after it was removed; None for a node of another tree. Doesn't
    /// allocate, and is O(1).
    ///
    /// ```rust
    /// if let Some(created_at) = tree.created_at(child) {
    ///     println!(rt; "made at {created_at}")?;
    /// }
    /// ```
    pub fn created_at(&self, node: Node<T>) -> Option<Location>
        ensures { result ≡ created_at self.now node }
    {
        if number_of(node) != self.links.number() {
            return None;
        }
        self.sites.get(site_of(node))
    }

    /// The error for a stale handle, with the location where its node was made.
    #[cold]
    #[inline(never)]
    pub(crate) fn stale(&self, node: Node<T>) -> Stale
        ensures { result ≡ stale_of self.now node }
    {
        Stale {
            created_at: self.created_at(node),
        }
    }

    /// How many nodes are live: as many as the store has live cells. Doesn't allocate, and is O(1).
    ///
    /// ```rust
    /// println!(rt; "{} nodes", tree.len())?;
    /// ```
    pub fn len(&self) -> usize
        ensures { result ≡ live_count self.now }
    {
        self.store.len()
    }

    /// A node's parent, if it has one. Doesn't allocate, and is O(1).
    ///
    /// # Errors
    ///
    /// `Stale` if the node was removed, or is of a store with another number.
    ///
    /// ```rust
    /// let is_below = tree.parent(child)? == Some(root);
    /// ```
    pub fn parent(&self, node: Node<T>) -> Result<Option<Node<T>>, Stale>
        ensures parent { IfOk result (λ parent. parent ≡ parent_of self.now node) }
        ensures stale { IsErr result ↔ value_of self.now node ≡ None }
        ensures told { IfErr result (λ stale. stale.created_at ≡ created_at self.now node) }
    {
        if !self.is_alive(node) {
            return Err(self.stale(node));
        }
        Ok(parent_at(&self.links, slot_of(node)))
    }

    /// Iterates over the nodes above a node: its parent, the parent's parent, and so on up to its root.
    /// Doesn't allocate, and is O(1), like each of its steps.
    ///
    /// # Errors
    ///
    /// `Stale` if the node was removed, or is of a store with another number.
    ///
    /// ```rust
    /// for above in tree.ancestors(child)? {
    ///     println!(rt; "below {}", tree.get(above)?)?;
    /// }
    /// ```
    pub fn ancestors(&self, node: Node<T>) -> Result<Ancestors<'_, T>, Stale>
        ensures ancestors { IfOk result (λ above. AreAncestors self.now node above) }
        ensures stale { IsErr result ↔ value_of self.now node ≡ None }
        ensures told { IfErr result (λ stale. stale.created_at ≡ created_at self.now node) }
    {
        let links = &self.links;
        if !self.is_alive(node) {
            return Err(self.stale(node));
        }
        Ok(Ancestors::new(links, parent_at(links, slot_of(node))))
    }

    /// How many steps a node is below its root: the number of its ancestors, 0 for a root. Doesn't
    /// allocate, and is O(d) for d steps.
    ///
    /// # Errors
    ///
    /// `Stale` if the node was removed, or is of a store with another number.
    ///
    /// ```rust
    /// let steps = tree.depth(child)?;
    /// ```
    pub fn depth(&self, node: Node<T>) -> Result<usize, Stale>
        ensures depth { IfOk result (λ steps. IsRootedIn self.now steps node) }
        ensures stale { IsErr result ↔ value_of self.now node ≡ None }
        ensures told { IfErr result (λ stale. stale.created_at ≡ created_at self.now node) }
    {
        let links = &self.links;
        if !self.is_alive(node) {
            return Err(self.stale(node));
        }
        Ok(depth_at(links, slot_of(node)))
    }

    /// Iterates over a node's children, in order. Doesn't allocate, and is O(1), like each of its steps.
    ///
    /// # Errors
    ///
    /// `Stale` if the node was removed, or is of a store with another number.
    ///
    /// ```rust
    /// for node in tree.children(root)? {
    ///     println!(rt; "{}", tree.get(node)?)?;
    /// }
    /// ```
    pub fn children(&self, node: Node<T>) -> Result<Children<'_, T>, Stale>
        ensures children { IfOk result (λ children. children ≡ children_of self.now node) }
        ensures tree { IsTree self.now }
        ensures stale { IsErr result ↔ value_of self.now node ≡ None }
        ensures told { IfErr result (λ stale. stale.created_at ≡ created_at self.now node) }
    {
        let links = &self.links;
        if !self.is_alive(node) {
            return Err(self.stale(node));
        }
        Ok(Children::new(links, slot_of(node)))
    }

    /// Iterates over a node's children, from the last to the first. Doesn't allocate, and is O(1), like
    /// each of its steps.
    ///
    /// # Errors
    ///
    /// `Stale` if the node was removed, or is of a store with another number.
    ///
    /// ```rust
    /// for node in tree.children_backwards(root)? {
    ///     println!(rt; "{}", tree.get(node)?)?;
    /// }
    /// ```
    pub fn children_backwards(&self, node: Node<T>) -> Result<ChildrenBackwards<'_, T>, Stale>
        ensures children { IfOk result (λ children. children ≡ reverse (children_of self.now node)) }
        ensures stale { IsErr result ↔ value_of self.now node ≡ None }
        ensures told { IfErr result (λ stale. stale.created_at ≡ created_at self.now node) }
    {
        let links = &self.links;
        if !self.is_alive(node) {
            return Err(self.stale(node));
        }
        Ok(ChildrenBackwards::new(links, slot_of(node)))
    }

    /// Returns a list of a node and all below it, each once, level by level: first the node, and then
    /// the children of each node of the list, in order. So parents come before their children. Allocates
    /// the list. O(k) for k nodes.
    ///
    /// # Errors
    ///
    /// - `Stale` if the node was removed, or is of a store with another number.
    /// - `Store` of `OutOfMemory`.
    ///
    /// ```rust
    /// for node in tree.subtree(root)?.iter() {
    ///     println!(rt; "{}", tree.get(*node)?)?;
    /// }
    /// ```
    pub fn subtree(&self, node: Node<T>) -> Result<Vec<Node<T>>, TreeError>
        ensures subtree { IfOk result (λ list. IsSubtree self.now node list.items) }
        ensures stale { value_of self.now node ≡ None →
            result ≡ Err (error.Stale (stale_of self.now node)) }
        ensures short { IfErr result (λ e. (value_of self.now node ≡ None)
            ⊎ (e ≡ error.Store OutOfMemory)) }
    {
        if !self.is_alive(node) {
            return Err(TreeError::Stale(self.stale(node)));
        }
        match gather(self.alloc, &self.links, node) {
            Ok(list) => Ok(list),
            Err(_) => Err(TreeError::Store(StoreError::OutOfMemory)),
        }
    }

    /// Iterates depth-first over a node and those below it, each before its children, and these in their
    /// order, each with its depth below the node. It yields at most `limit` of them: pass `len` or more
    /// for all. Doesn't allocate, and is O(1). A step is O(d) for a depth of d, and the whole iteration
    /// is O(k) for k nodes.
    ///
    /// # Errors
    ///
    /// `Stale` if the node was removed, or is of a store with another number.
    ///
    /// ```rust
    /// for (depth, node) in tree.outline(root, 100)? {
    ///     println!(rt; "depth {depth}: {}", tree.get(node)?)?;
    /// }
    /// ```
    pub fn outline(&self, node: Node<T>, limit: usize) -> Result<Outline<'_, T>, Stale>
        ensures outline { IfOk result (λ rows.
            rows ≡ outline_of self.now limit ((0, node) ∷ [])) }
        ensures stale { IsErr result ↔ value_of self.now node ≡ None }
        ensures told { IfErr result (λ stale. stale.created_at ≡ created_at self.now node) }
    {
        let links = &self.links;
        if !self.is_alive(node) {
            return Err(self.stale(node));
        }
        Ok(Outline::new(links, node, limit))
    }

    /// Moves a subtree: its root becomes the last child of another node, and leaves the children of its
    /// old parent. Below it nothing changes, and no value does. Doesn't allocate, and is O(d) for d
    /// steps from the parent to its root, to check for cycles.
    ///
    /// # Errors
    ///
    /// - `Stale` if the node was removed, or is of a store with another number.
    /// - `Stale` for the parent, in the same cases.
    /// - `Cycle` if the parent is the node or below it.
    ///
    /// The tree is unchanged then.
    ///
    /// ```rust
    /// tree.move_to(child, first)?;
    /// ```
    pub fn move_to(&mut self, node: Node<T>, parent: Node<T>) -> Result<(), TreeError>
        ensures state { self.new.state ≡ self.old.state }
        ensures sites { self.new.sites ≡ self.old.sites }
        ensures moved { OnOk result (parent_of self.new node ≡ Some parent) }
        ensures last { OnOk result (children_of self.new parent
            ≡ without node (children_of self.old parent) ++ node ∷ []) }
        ensures lost { OnOk result ((up : Node T) → parent_of self.old node ≡ Some up →
            IsOther parent up →
            children_of self.new up ≡ without node (children_of self.old up)) }
        ensures parents { (n : Node T) → IsOther node n →
            parent_of self.new n ≡ parent_of self.old n }
        ensures others { (n : Node T) → IsOther parent n →
            ((up : Node T) → parent_of self.old node ≡ Some up → IsOther up n) →
            children_of self.new n ≡ children_of self.old n }
        ensures fails { FailsAsMove self.old node (spots.LastOf parent) result }
        ensures refused { OnErr result (self.new ≡ self.old) }
    {
        self.move_at(node, Spot::LastOf(parent))
    }

    /// Moves a subtree to a spot among the children of another node: its root leaves the children of its
    /// old parent. Below it nothing changes, and no value does. Doesn't allocate, and is O(d) for d
    /// steps from the spot to its root, or O(1) for a spot among the node's siblings: this reorders
    /// children.
    ///
    /// # Errors
    ///
    /// - `Stale` if the node was removed, or is of a store with another number.
    /// - `Stale` for the spot's node, in the same cases.
    /// - `Cycle` if the spot's node is the node or below it.
    /// - `NoParent` if the spot is beside a sibling that has no parent.
    ///
    /// The tree is unchanged then.
    ///
    /// ```rust
    /// tree.move_at(child, Spot::FirstOf(root))?;
    /// ```
    pub fn move_at(&mut self, node: Node<T>, spot: Spot<T>) -> Result<(), TreeError>
        ensures state { self.new.state ≡ self.old.state }
        ensures sites { self.new.sites ≡ self.old.sites }
        ensures moved { OnOk result (parent_of self.new node ≡ parent_for self.old spot) }
        ensures placed { OnOk result ((up : Node T) → parent_for self.old spot ≡ Some up →
            children_of self.new up ≡ placed spot node (without node (children_of self.old up))) }
        ensures lost { OnOk result ((up : Node T) → parent_of self.old node ≡ Some up →
            ((to : Node T) → parent_for self.old spot ≡ Some to → IsOther to up) →
            children_of self.new up ≡ without node (children_of self.old up)) }
        ensures parents { (n : Node T) → IsOther node n →
            parent_of self.new n ≡ parent_of self.old n }
        ensures others { (n : Node T) →
            ((to : Node T) → parent_for self.old spot ≡ Some to → IsOther to n) →
            ((up : Node T) → parent_of self.old node ≡ Some up → IsOther up n) →
            children_of self.new n ≡ children_of self.old n }
        ensures fails { FailsAsMove self.old node spot result }
        ensures refused { OnErr result (self.new ≡ self.old) }
    {
        let parent = self.parent_moved(node, spot)?;
        detach(&mut self.links, node);
        attach(&mut self.links, parent, spot, node);
        Ok(())
    }

    /// Makes a node a root: it leaves its parent's children. Below it nothing changes, and no value
    /// does. A root is unchanged. Doesn't allocate, and is O(1).
    ///
    /// # Errors
    ///
    /// `Stale` if the node was removed, or is of a store with another number. The tree is unchanged
    /// then.
    ///
    /// ```rust
    /// tree.detach(child)?;
    /// ```
    pub fn detach(&mut self, node: Node<T>) -> Result<(), Stale>
        ensures state { self.new.state ≡ self.old.state }
        ensures sites { self.new.sites ≡ self.old.sites }
        ensures root { OnOk result (parent_of self.new node ≡ None) }
        ensures lost { OnOk result ((up : Node T) → parent_of self.old node ≡ Some up →
            children_of self.new up ≡ without node (children_of self.old up)) }
        ensures parents { (n : Node T) → IsOther node n →
            parent_of self.new n ≡ parent_of self.old n }
        ensures others { (n : Node T) →
            ((up : Node T) → parent_of self.old node ≡ Some up → IsOther up n) →
            children_of self.new n ≡ children_of self.old n }
        ensures stale { IsErr result ↔ value_of self.old node ≡ None }
        ensures told { IfErr result (λ stale. stale.created_at ≡ created_at self.old node) }
        ensures refused { OnErr result (self.new ≡ self.old) }
    {
        if !self.is_alive(node) {
            return Err(self.stale(node));
        }
        detach(&mut self.links, node);
        Ok(())
    }

    // The parent that a node gets by a move to a spot, or why it can't be moved there.
    fn parent_moved(&self, node: Node<T>, spot: Spot<T>) -> Result<Node<T>, TreeError>
        ensures parent { IfOk result (λ up. parent_for self.now spot ≡ Some up) }
        ensures may { IfOk result (λ up. CanMove self.now node up) }
        ensures apart { OnOk result (IsBelow self.now node (named spot) → ⊥) }
        ensures fails { FailsAsMove self.now node spot result }
    {
        self.test_move(node, spot.node())?;
        self.parent_for(spot)
    }

    // Whether a node may become a child of another, or why not.
    fn test_move(&self, node: Node<T>, parent: Node<T>) -> Result<(), TreeError>
        ensures may { OnOk result (CanMove self.now node parent) }
        ensures fails { FailsAsMove self.now node (spots.LastOf parent) result }
    {
        if !self.is_alive(node) {
            return Err(TreeError::Stale(self.stale(node)));
        }
        if !self.is_alive(parent) {
            return Err(TreeError::Stale(self.stale(parent)));
        }
        if is_under(&self.links, slot_of(parent), slot_of(node)) {
            return Err(TreeError::Cycle);
        }
        Ok(())
    }

    /// Removes a node and all below it, and returns their handles in the order of `subtree`. These are
    /// stale from then on, and never refer to a later node. The node leaves its parent's children, and
    /// every other node is unchanged. Allocates the list. O(k) for k nodes, except for dropping their
    /// values.
    ///
    /// # Errors
    ///
    /// - `Stale` if the node was removed, or is of a store with another number.
    /// - `Store` of `OutOfMemory`.
    ///
    /// The tree is unchanged then.
    ///
    /// ```rust
    /// let gone = tree.remove_subtree(root)?;
    /// println!(rt; "{} gone, {} left", gone.len(), tree.len())?;
    /// ```
    pub fn remove_subtree(&mut self, node: Node<T>) -> Result<Vec<Node<T>>, TreeError>
        ensures subtree { IfOk result (λ list. IsSubtree self.old node list.items) }
        ensures gone { IfOk result (λ list. (n : Node T) → 0 < times n list.items →
            value_of self.new n ≡ None) }
        ensures count { IfOk result (λ list.
            live_count self.new + length list.items ≡ live_count self.old) }
        ensures lost { OnOk result ((up : Node T) → parent_of self.old node ≡ Some up →
            (value_of self.new up ≡ value_of self.old up) × (family_of self.new up ≡ record {
              parent = parent_of self.old up;
              children = without node (children_of self.old up);
            })) }
        ensures others { IfOk result (λ list. (n : Node T) → times n list.items ≡ 0 →
            ((up : Node T) → parent_of self.old node ≡ Some up → IsOther up n) →
            NodeIsUnchanged self.old n self.new) }
        ensures kept { (f : Node T) → WasMade self.old f → WasMade self.new f }
        ensures tells { (f : Node T) → created_at self.new f ≡ created_at self.old f }
        ensures stale { value_of self.old node ≡ None →
            result ≡ Err (error.Stale (stale_of self.old node)) }
        ensures short { IfErr result (λ e. (value_of self.old node ≡ None)
            ⊎ (e ≡ error.Store OutOfMemory)) }
        ensures refused { OnErr result (self.new ≡ self.old) }
    {
        if !self.is_alive(node) {
            return Err(TreeError::Stale(self.stale(node)));
        }
        let list = match cut(self.alloc, &mut self.links, node) {
            Ok(list) => list,
            Err(_) => return Err(TreeError::Store(StoreError::OutOfMemory)),
        };
        end_all(&mut self.store, &list);
        Ok(list)
    }

    /// Removes a node and all below it like `remove_subtree`, and returns the node's value. The values
    /// below it are dropped: move a node away by `detach` or `move_to` first to keep it. Allocates a
    /// list of the removed nodes. O(k) for k nodes, except for dropping their values.
    ///
    /// # Errors
    ///
    /// - `Stale` if the node was removed, or is of a store with another number.
    /// - `Store` of `OutOfMemory`.
    ///
    /// The tree is unchanged then.
    ///
    /// ```rust
    /// let value = tree.take(node).ok()?;
    /// ```
    pub fn take(&mut self, node: Node<T>) -> Result<T, TreeError>
        ensures taken { IfOk result (λ value. value_of self.old node ≡ Some value) }
        ensures gone { OnOk result ((n : Node T) → IsBelow self.old node n →
            value_of self.new n ≡ None) }
        ensures count { OnOk result ((list : List (Node T)) × IsSubtree self.old node list
            × (live_count self.new + length list ≡ live_count self.old)) }
        ensures lost { OnOk result ((up : Node T) → parent_of self.old node ≡ Some up →
            (value_of self.new up ≡ value_of self.old up) × (family_of self.new up ≡ record {
              parent = parent_of self.old up;
              children = without node (children_of self.old up);
            })) }
        ensures others { OnOk result ((n : Node T) → (IsBelow self.old node n → ⊥) →
            ((up : Node T) → parent_of self.old node ≡ Some up → IsOther up n) →
            NodeIsUnchanged self.old n self.new) }
        ensures kept { (f : Node T) → WasMade self.old f → WasMade self.new f }
        ensures tells { (f : Node T) → created_at self.new f ≡ created_at self.old f }
        ensures stale { value_of self.old node ≡ None →
            result ≡ Err (error.Stale (stale_of self.old node)) }
        ensures short { IfErr result (λ e. (value_of self.old node ≡ None)
            ⊎ (e ≡ error.Store OutOfMemory)) }
        ensures refused { OnErr result (self.new ≡ self.old) }
    {
        if !self.is_alive(node) {
            return Err(TreeError::Stale(self.stale(node)));
        }
        let list = match cut(self.alloc, &mut self.links, node) {
            Ok(list) => list,
            Err(_) => return Err(TreeError::Store(StoreError::OutOfMemory)),
        };
        Ok(take_first(&mut self.store, &list))
    }
}

// Makes a node's cell, and opens its slot. The tree has the node's location from then on.
#[inline(always)]
fn make<T, S: Storage<T>>(
    store: &mut S,
    links: &mut Links<T>,
    sites: &mut Sites,
    value: T,
    here: Location,
) -> Result<Node<T>, Refusal<T>>
    requires kept { IsTreeKept (S.state store.old) (families links.old.items) }
    requires linked { AreChildrenLinked links.old.items }
    requires number { links.old.number ≡ (S.state store.old).number }
    ensures made { IfOk result (λ n. HasMade (S.state store.old) value here n (S.state store.new)) }
    ensures number { links.new.number ≡ links.old.number }
    ensures linked { AreChildrenLinked links.new.items }
    ensures opened { IfOk result (λ n.
        IsOpened (families links.old.items) (slot_in n) (families links.new.items)) }
    ensures longer { length links.old.items ≤ length links.new.items }
    ensures noted { IfOk result (λ n. noted links.new.items (slot_in n) ≡ Some n) }
    ensures others { IfOk result (λ n. (s : ℕ) → s ≢ slot_in n →
        noted links.new.items s ≡ noted links.old.items s) }
    ensures here { IfOk result (λ n. TellsLocation (told_at links.old.number (told_in sites.new) n) here) }
    ensures tells { (n : Node T) (l : Location) →
        told_at links.old.number (told_in sites.old) n ≡ Some l →
        told_at links.old.number (told_in sites.new) n ≡ Some l }
    ensures store { OnErr result (S.state store.new ≡ S.state store.old) }
    ensures links { OnErr result (links.new.items ≡ links.old.items) }
    ensures sites { OnErr result (told_in sites.new ≡ told_in sites.old) }
    ensures back { IfErr result (λ refusal. refusal.value ≡ value) }
    ensures cause { IfErr result (λ refusal. refusal.cause ≡ OutOfMemory) }
{
    let cause = StoreError::OutOfMemory;
    if !links.reserve() {
        return Err(Refusal { value, cause });
    }
    let Ok(site) = sites.find_or_add(here) else {
        return Err(Refusal { value, cause });
    };
    let raw = store.new(value, here, None)?;
    let node = handle_at(raw.id, site);
    sites.tell(site);
    open_slot(links, node);
    Ok(node)
}

// Drops the values of nodes except for the first one's, which it returns.
fn take_first<T, S: Storage<T>>(store: &mut S, nodes: &Vec<Node<T>>) -> T
    requires some { 0 < length nodes.now.items }
    requires simple { IsSimple (S.state store.old) }
    requires live { (i : ℕ) (n : Node T) → slice_get nodes.now.items i ≡ Some n →
        IsLiveIn (S.state store.old) n }
    requires once { (n : Node T) → times n nodes.now.items ≤ 1 }
    ensures value { (n : Node T) → slice_get nodes.now.items 0 ≡ Some n →
        value_in (S.state store.old) (pointer_in n) ≡ Some result }
    ensures lost { HasLostNodes (S.state store.old) nodes.now.items (S.state store.new) }
{
    let value = take_value(store, nodes[0]);
    let mut next = 1;
    'rest: while next < nodes.len() {
        end(store, nodes[next]);
        next += 1;
    }
    value
}

// Removes a node's cell, and returns its value.
fn take_value<T, S: Storage<T>>(store: &mut S, node: Node<T>) -> T
    requires simple { IsSimple (S.state store.old) }
    requires live { IsLiveIn (S.state store.old) node }
    ensures value { value_in (S.state store.old) (pointer_in node) ≡ Some result }
    ensures lost { HasLostNodes (S.state store.old) (node ∷ []) (S.state store.new) }
{
    match store.take_value(pointer_to(node)) {
        Some(value) => value,
        None => unreachable!(),
    }
}

// Drops the values of nodes.
fn end_all<T, S: Storage<T>>(store: &mut S, nodes: &Vec<Node<T>>)
    requires simple { IsSimple (S.state store.old) }
    requires live { (i : ℕ) (n : Node T) → slice_get nodes.now.items i ≡ Some n →
        IsLiveIn (S.state store.old) n }
    requires once { (n : Node T) → times n nodes.now.items ≤ 1 }
    ensures { HasLostNodes (S.state store.old) nodes.now.items (S.state store.new) }
{
    for node in nodes {
        end(store, *node);
    }
}

// Drops the value of a node.
fn end<T, S: Storage<T>>(store: &mut S, node: Node<T>)
    requires simple { IsSimple (S.state store.old) }
    requires live { IsLiveIn (S.state store.old) node }
    ensures { HasLostNodes (S.state store.old) (node ∷ []) (S.state store.new) }
{
    match store.recycle(pointer_to(node)) {
        Ok(()) => {}
        Err(_) => unreachable!(),
    }
}
