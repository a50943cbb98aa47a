//! What it is to have a rank among entries of one kind.

ghost use Rattle.std.specs.Prelude.{◌≡◌, ℕ, Bool, true, false, not, ◌≢◌};

/// An entry that has a rank among its kind, and a number.
pub trait Ranked: Copy {
    // Whether the first entry stands before the second in rank.
    ghost ahead: { Self → Self → Bool };

    // The number of an entry.
    ghost serial: { Self → ℕ };

    /// Whether this entry is ahead of the other. No `Ord`: of entries with one number nothing is asked.
    fn is_ahead(&self, other: &Self) -> bool
        ensures { result ≡ ahead self.now other.now };

    /// The entry's number.
    fn number(&self) -> u32
        ensures { result ≡ serial self.now };

    // Of two entries with different numbers exactly one is ahead.
    ghost connected: { (x y : Self) → (serial x ≢ serial y) → ahead x y ≡ not (ahead y x) };

    // No entry is ahead of itself.
    ghost irreflexive: { (x : Self) → ahead x x ≡ false };

    // An entry is ahead of whatever those are ahead of that it is ahead of.
    ghost transitive: { (x y z : Self) → ahead x y ≡ true → ahead y z ≡ true → ahead x z ≡ true };
}
