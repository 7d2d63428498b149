//! What a locked value stands for.
//!
//! A tag is the identity of one run, and data of the contracts alone: no value of the type `Tag` is made or passed.
//! The start count of a lock is the count of faults that its value had when the lock was made.
ghost use Rattle.std.specs.Prelude.{◌≡◌, ℕ};

/// A value that may lie under a `TagLock`.
pub trait Tagged {
    /// The identity of a run.
    type Tag;

    /// The count of faults of the value's own device, or 0 where it has none.
    ghost faults: { Self → ℕ };

    /// Whether the value stands for this tag and this start count.
    ghost stands: { Self.Tag → ℕ → Self → Type 0 };

    /// The rank of the value: how far it has come.
    ghost height: { Self → ℕ };

    /// The rank of the value.
    fn rank(&self) -> u64
        ensures rank { result ≡ height self.now };
}

/// A value that names the tag which it stands for.
pub trait Names: Tagged {
    /// The tag, as a function of what the value holds and of what its device tells.
    ghost names: { Self → Self.Tag };
}
