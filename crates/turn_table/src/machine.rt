//! What a table's values are, and which of them fit a list of events.
ghost use Rattle.std.specs.Prelude.{◌≡◌, ℕ, List, [], ◌∷◌, ◌++◌, Option, Some};
ghost use Rattle.turn_table.specs.Legal.{IsLegal};

/// What threads take turns at: a hub, numbered parts beside it, and the events that change them.
///
/// Nothing of a machine runs. It says in contracts what each value means.
pub trait Machine {
    /// The value that every event goes through.
    type Hub;

    /// A value that some of the events change.
    type Part;

    /// What happened in one turn, with its answer. It is entered when the hub is given back.
    type Event: Drop;

    /// What the table began with. Contracts alone see it.
    type Opening;

    // The hub fits what the table opened with and the events since.
    ghost hub_fits: { Self.Opening → List Self.Event → Self.Hub → Type 0 };

    // The part of this number fits them.
    ghost part_fits: { Self.Opening → List Self.Event → ℕ → Self.Part → Type 0 };

    // The event may come after these.
    ghost may_follow: { Self.Opening → List Self.Event → Self.Event → Type 0 };

    // The part that an event names, if it names one.
    ghost part_named: { Self.Event → Option ℕ };

    // A part fits on, over an event that may follow and does not name it.
    ghost fits_on: { (o : Self.Opening) (events : List Self.Event) (e : Self.Event) (k : ℕ) (p : Self.Part) → IsLegal may_follow o events → part_fits o events k p → may_follow o events e → ¬ (part_named e ≡ Some k) → part_fits o (events ++ e ∷ []) k p };
}
