//! What is left on a tray, and what it is answered with.

/// What may be left on a tray, and what may be put there in answer to it.
pub trait Deal {
    /// What a tray is told once, when it is opened.
    type About;
    /// What is left.
    type Left;
    /// What comes back for it.
    type Back;

    // Whether this may be left on a tray that was told so.
    ghost fits: { Self.About → Self.Left → Type 0 };

    // Whether this is an answer to what was left.
    ghost answers: { Self.Left → Self.Back → Type 0 };
}
