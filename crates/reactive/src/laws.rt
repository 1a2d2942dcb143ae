//! What nodes mean, for callers. It is the contract of a function that does nothing.

ghost use Rattle.std.specs.List.{Contains};
ghost use Rattle.std.specs.Prelude.{◌≡◌, ◌≢◌, ℕ, Bool, List, [], ◌∷◌, length, Option, None, Some, IfOk, Ok, Result};
ghost use Rattle.reactive.specs.declared.effects.Effect.{Effect};
ghost use Rattle.reactive.specs.declared.effects.Told.{Told};
ghost use Rattle.reactive.specs.declared.fault.Fault.{Fault};
ghost use Rattle.reactive.specs.declared.key.Key.{Key};
ghost use Rattle.reactive.specs.Meaning.{Graph, Means, plan_value};
ghost use Rattle.reactive.specs.Graphs.{GraphState, HasPlan, kind_in, plans_in, shown_in};
ghost use Rattle.reactive.specs.Graphs.{Kind};
ghost use Rattle.reactive.specs.Graphs.Kind.{NoNode, Source};
ghost use Rattle.reactive.specs.Refreshing.{Answers};
ghost use Rattle.reactive.specs.Hearing.{AllHear, IsRight, Says, telling};
ghost use Rattle.reactive.specs.Watching.{effect_at};
ghost use Rattle.reactive.specs.Plans.{Ask, Follows, Give, Plan};

use crate::rule::Rule;

/// A node means at most one value: so two reads of it, and two memos of one rule, never yield different
/// ones. A source means its value, and a memo that reads one node means what its rule computes from that
/// node's value. A `get` of a memo that reads only sources, however many, returns what its rule computes
/// from their values.
pub fn nodes_mean_one_value<T>()
    ensures one { (G : Graph T) (k : Key) (v w : T) → Means G k v → Means G k w → v ≡ w }
    ensures alike { (G H : Graph T) (j k : Key) (v w : T) → H ≡ G → G j ≡ G k → Means G j v → Means H k w → v ≡ w }
    ensures source { (G : Graph T) (k : Key) (v : T) → G k ≡ Give v → Means G k v }
    ensures memo { (G : Graph T) (k j : Key) (next : T → Plan T) (a v : T) → G k ≡ Ask j next →
        Means G j a → next a ≡ Give v → Means G k v }
    ensures sources { (G : Graph T) (kind : Key → Kind) (k : Key) (v : T) (r : Result T Fault) →
        plan_value G (G k) ≡ Some v → Answers G kind k r → IfOk r (λ w. w ≡ v) }
{}

/// A source with a value is known, so a `get` of it doesn't fail if copies don't allocate.
pub fn sources_are_known<T, R: Rule<T>>()
    ensures { (g : GraphState T R) (k : Key) (v : T) → kind_in g k ≡ Source → plans_in R.plan g k ≡ Give v →
        shown_in g k ≡ Some v }
{}

/// What a memo means after sets of the sources that it reads: what its rule computes from the new values.
/// It reads one source, or two. What nodes mean doesn't depend on the order of two sets.
pub fn sets_show_in_memos<T, R: Rule<T>>()
    ensures one { (old new : GraphState T R) (source memo : Key) (next : T → Plan T) (a v w : T) →
        HasPlan R.plan old source (Give a) new → plans_in R.plan old memo ≡ Ask source next →
        memo ≢ source → next a ≡ Give v → Means (plans_in R.plan new) memo w → w ≡ v }
    ensures two { (old mid new : GraphState T R) (a b memo : Key) (p : Plan T) (x y v w : T) →
        HasPlan R.plan old a (Give x) mid → HasPlan R.plan mid b (Give y) new → plans_in R.plan old memo ≡ p →
        a ≢ b → memo ≢ a → memo ≢ b → Follows p (record { key = a; value = x } ∷ record { key = b; value = y } ∷ []) (Give v) →
        Means (plans_in R.plan new) memo w → w ≡ v }
    ensures orders { (l0 l1 l2 r0 r1 r2 : GraphState T R) (a b : Key) (p q : Plan T) →
        plans_in R.plan l0 ≡ plans_in R.plan r0 → a ≢ b → HasPlan R.plan l0 a p l1 → HasPlan R.plan l1 b q l2 →
        HasPlan R.plan r0 b q r1 → HasPlan R.plan r1 a p r2 → (k : Key) (v w : T) →
        Means (plans_in R.plan l2) k v → Means (plans_in R.plan r2) k w → v ≡ w }
{}

/// What a successful flush reports. For an effect that nothing was reported of before, it is what its
/// node means; the last report of each effect, by this flush or an earlier one, is right; nothing is
/// reported except of effects, and a value that is reported is what its node means.
pub fn flushes_tell_what_is_meant<T>()
    ensures first { (same : T → T → Bool) (G : Graph T) (kind : Key → Kind) (n s : ℕ) (e : Effect T)
        (old new : List (Option (Effect T))) (news : List (Told T)) → n ≡ length old →
        AllHear same G kind n old new news → effect_at old s ≡ Some e → e.told ≡ None → kind e.key ≢ NoNode →
        (a : Result T Fault) × Says G kind e.key a × Contains news (telling e a) }
    ensures all { (same : T → T → Bool) (G : Graph T) (kind : Key → Kind) (n s : ℕ) (f : Effect T)
        (old new : List (Option (Effect T))) (news : List (Told T)) → n ≡ length old →
        AllHear same G kind n old new news → effect_at new s ≡ Some f → IsRight G f.key f.told }
    ensures only { (same : T → T → Bool) (G : Graph T) (kind : Key → Kind) (n : ℕ) (t : Told T)
        (old new : List (Option (Effect T))) (news : List (Told T)) → AllHear same G kind n old new news →
        Contains news t → (s : ℕ) × (e : Effect T) × (effect_at old s ≡ Some e) × (t ≡ telling e t.answer) }
    ensures values { (same : T → T → Bool) (G : Graph T) (kind : Key → Kind) (n : ℕ) (t : Told T) (v : T)
        (old new : List (Option (Effect T))) (news : List (Told T)) → AllHear same G kind n old new news →
        Contains news t → t.answer ≡ Ok v → Means G t.key v }
{}
