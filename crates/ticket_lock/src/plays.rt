//! What each step on the table tells the seat that takes it.
use crate::board::View;
use crate::journal::Journal;
use atomic_table::{Join, Play, Split};

/// A fetch-and-add on `next`: an idle seat draws the next ticket.
pub struct Draw;

impl<T: Journal> Play<Option<T>, View<T::Head, T::Entry>> for Draw {
    ghost use Rattle.ticket_lock.specs.Plays.{Drawn};

    ghost then = { Drawn T.stamp };
}

/// A load of the word of a waiting seat's ticket: the seat enters, or has looked.
pub struct Look;

impl<T: Journal> Play<Option<T>, View<T::Head, T::Entry>> for Look {
    ghost use Rattle.ticket_lock.specs.Plays.{Looked};

    ghost then = { Looked T.stamp T.head T.entries };
}

/// A store of the next ticket into that ticket's word: the holder gives the slot back.
pub struct Leave;

impl<T: Journal> Play<Option<T>, View<T::Head, T::Entry>> for Leave {
    ghost use Rattle.ticket_lock.specs.Plays.{Left};

    ghost then = { Left T.stamp T.head T.entries };
}

/// At the opening, a new seat has one number.
pub struct OneNumber;

impl<H, E> Split<View<H, E>> for OneNumber {
    ghost use Rattle.ticket_lock.specs.Plays.{rest_view, first_part_view};

    ghost left = { rest_view };

    ghost right = { first_part_view };
}

/// At the close, a seat has the numbers of another too.
pub struct AllNumbers;

impl<H, E> Join<View<H, E>> for AllNumbers {
    ghost use Rattle.ticket_lock.specs.Plays.{joined_view, spent_view};

    ghost both = { joined_view };

    ghost spent = { spent_view };
}
