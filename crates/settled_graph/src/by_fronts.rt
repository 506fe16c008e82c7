//! Settling front by front, in time in proportion to the steps: laws without code.

ghost use Rattle.std.specs.Prelude.{◌≡◌, ℕ, suc, ◌<◌, true, false, Option, Some, None};
ghost use Rattle.std.specs.Option.{option_and_then};
ghost use Rattle.routing_law.specs.Graph.{MeetsRules, WellFormed};
ghost use Rattle.routing_law.specs.Network.{NamesDiffer, chooses};
ghost use Rattle.routing_law.specs.Outcome.{FullyStable, Setup};
ghost use Rattle.routing_law.specs.Settling.{Tops, rounds};
ghost use Rattle.settled_graph.specs.ByFronts.{IsFirstOf, gives, is_fresh, stepped};

/// A router that is left takes in the next round what the first of the front gives it, by identifier, of those that give it
/// its best number; where the front is empty, the outcome is settled.
pub fn routers_are_settled_by_fronts()
    ensures next { (w : Setup) (t : Tops w) (k v n : ℕ) (o : Option ℕ) → WellFormed w.net w.graph → NamesDiffer w.net → chooses w.net w.alive v ≡ true → rounds w t.top k v ≡ None → t.top v ≡ Some n
        → IsFirstOf w (gives w t.top k v (w.graph.number n)) o → rounds w t.top (suc k) v ≡ option_and_then (stepped w (rounds w t.top k) v) o }
    ensures end { (w : Setup) (t : Tops w) (k : ℕ) → WellFormed w.net w.graph → MeetsRules w.net w.graph
        → ((u : ℕ) → u < w.net.size → is_fresh w t.top k u ≡ false) → FullyStable w (rounds w t.top k) }
{}
