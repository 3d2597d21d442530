//! Which frames are drawn, and where.

ghost use Rattle.std.specs.Prelude.{◌≡◌, ◌+◌, ◌<◌, ◌≤◌, IfSome};
ghost use Rattle.frame_picture.specs.Frames.{place_in};

/// Which of a history's frames are drawn: so many from one on, or as many as there are.
#[derive(Clone, Copy)]
pub struct Span {
    /// The number of the first frame that is drawn, counted from 0.
    pub from: u64,
    /// How many are drawn at most.
    pub count: u64,
}

/// Where a frame is drawn.
#[derive(Clone, Copy)]
pub struct Place {
    /// The number of the frame, counted from 0.
    pub number: u64,
    /// The number of its row in the picture, counted from 0.
    pub row: u64,
}

// Where the frame with a number is drawn, if it is.
#[tactic(auto, unfolding(crate::specs::Frames::place_in))]
pub(crate) fn place_in(span: Span, number: u64) -> Option<Place>
    ensures value { result ≡ place_in span number }
    ensures near { IfSome result (λ p. p.row + span.from ≡ number) }
{
    if span.from <= number && number - span.from < span.count {
        Some(Place {
            number,
            row: number - span.from,
        })
    } else {
        None
    }
}
