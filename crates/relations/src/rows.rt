//! A set of events is a mask of 36 bits, and a relation between them one such mask for each.
ghost use Rattle.std.specs.Prelude.{◌≡◌, ℕ, Bool, ◌<◌, length};
ghost use Rattle.relations.specs.Rows.{has, related, union, common, without, from, to, identity, gathered, composed, inverse, chosen, tested, rows_by};
ghost use Rattle.relations.specs.Closures.{TakesEach, GivesEach, GivesEachTwo};

use events::event::EVENTS;
use std::array;

/// A relation between the events.
#[derive(Clone, Copy)]
pub struct Relation {
    pub(crate) rows: [u64; EVENTS],
    ghost full: { length rows ≡ 36 },
}

/// If an event is in a set; a set has none above 35.
pub(crate) fn has(set: u64, e: usize) -> bool
    requires { e < 64 }
    ensures { result ≡ has set e }
{
    (set >> e) & 1 == 1
}

/// The set of the events that pass a test.
pub fn set_of<F: Fn(usize) -> bool>(test: F) -> u64
    requires { F.IsAlwaysCallable test }
    ensures { (p : ℕ → Bool) → GivesEach (F.post test) p → result ≡ chosen 36 p }
{
    (0..EVENTS).fold(0, |set, e| if test(e) { set | 1 << e } else { set })
}

impl Relation {
    /// A relation by its rows.
    pub fn new(rows: [u64; EVENTS]) -> Relation
        ensures { result.rows ≡ rows }
    {
        Relation { rows }
    }

    /// A relation by the row of each event.
    pub fn by_rows<F: Fn(usize) -> u64>(row_of: F) -> Relation
        requires { TakesEach (F.pre row_of) }
        ensures { (f : ℕ → ℕ) → GivesEach (F.post row_of) f → result.rows ≡ rows_by f }
    {
        // Without its clauses, the closure would ask for calls at numbers of no event too.
        let rows = array::from_fn(
            |a|
                requires { F.pre row_of a }
                ensures { F.post row_of a result }
            { row_of(a) },
        );
        Relation::new(rows)
    }

    /// The relation of the pairs that pass a test.
    #[tactic(auto, unfolding(crate::specs::Rows::tested))]
    pub fn of<F: Fn(usize, usize) -> bool>(test: F) -> Relation
        requires { F.IsAlwaysCallable test }
        ensures { (p : ℕ → ℕ → Bool) → GivesEachTwo (F.post test) p → result.rows ≡ tested p }
    {
        Relation::by_rows(|a| set_of(|b| test(a, b)))
    }

    /// From each event of a set to itself.
    #[tactic(auto, unfolding(crate::specs::Rows::identity))]
    pub fn identity(set: u64) -> Relation
        ensures { result.rows ≡ identity set }
    {
        Relation::by_rows(|a| set & (1 << a))
    }

    /// Either of the two.
    #[tactic(auto, unfolding(crate::specs::Rows::union))]
    pub fn union(&self, other: &Relation) -> Relation
        ensures { result.rows ≡ union self.now.rows other.now.rows }
    {
        Relation::by_rows(|a| self.rows[a] | other.rows[a])
    }

    /// Both.
    #[tactic(auto, unfolding(crate::specs::Rows::common))]
    pub fn common(&self, other: &Relation) -> Relation
        ensures { result.rows ≡ common self.now.rows other.now.rows }
    {
        Relation::by_rows(|a| self.rows[a] & other.rows[a])
    }

    /// This and not the other.
    #[tactic(auto, unfolding(crate::specs::Rows::without))]
    pub fn without(&self, other: &Relation) -> Relation
        ensures { result.rows ≡ without self.now.rows other.now.rows }
    {
        Relation::by_rows(|a| self.rows[a] & !other.rows[a])
    }

    /// What of it starts in a set.
    #[tactic(auto, unfolding(crate::specs::Rows::from))]
    pub fn from(&self, set: u64) -> Relation
        ensures { result.rows ≡ from set self.now.rows }
    {
        Relation::by_rows(|a| if has(set, a) { self.rows[a] } else { 0 })
    }

    /// What of it ends in a set.
    #[tactic(auto, unfolding(crate::specs::Rows::to))]
    pub fn to(&self, set: u64) -> Relation
        ensures { result.rows ≡ to self.now.rows set }
    {
        Relation::by_rows(|a| self.rows[a] & set)
    }

    /// All that the events of a set are related to.
    fn image(&self, set: u64) -> u64
        ensures { result ≡ gathered 36 set self.now.rows }
    {
        (0..EVENTS).fold(
            0,
            |all, e| if has(set, e) { all | self.rows[e] } else { all },
        )
    }

    /// A step of this, then a step of the other.
    #[tactic(auto, unfolding(crate::specs::Rows::composed))]
    pub fn then(&self, other: &Relation) -> Relation
        ensures { result.rows ≡ composed self.now.rows other.now.rows }
    {
        Relation::by_rows(|a| other.image(self.rows[a]))
    }

    /// The same pairs, turned round.
    #[tactic(auto, unfolding(crate::specs::Rows::inverse))]
    pub fn inverse(&self) -> Relation
        ensures { result.rows ≡ inverse self.now.rows }
    {
        Relation::of(|a, b| self.holds(b, a))
    }
}
