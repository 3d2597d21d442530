//! How a lock is opened.
ghost use Rattle.std.specs.Prelude.{◌≡◌, ◌⊎◌, ◌<◌, ◌≤◌, [], Some, Err, map, IfOk, IfErr};
ghost use Rattle.std.specs.List.{range_with_len};
ghost use Rattle.std.specs.Vec.{vec_capacity};
ghost use Rattle.ticket_core.specs.declared.TheConstants.{MAX_SEATS};
ghost use Rattle.ticket_lock.specs.declared.fault.LockFault.TheVariants.{SeatCount, Memory};
ghost use Rattle.ticket_lock.specs.Rule.{about_of, first_view};
ghost use Rattle.ticket_lock.specs.Calls.{Opens, new_standing};

use crate::board::{Board, Key, Place, Steps, opening_words};
use crate::fault::LockFault;
use crate::journal::Journal;
use crate::lock::TicketLock;
use crate::plays::OneNumber;
use crate::seat::Seat;
use crate::sleep::Sleepers;
use atomic_table::{Refused, Table};
use std::alloc::Global;
use std::snapshot::Snapshot;
use ticket_core::MAX_SEATS;

// Makes the table with the value in its slot. The value comes back where there is no memory.
fn lay<T: Journal>(
    alloc: Global,
    value: T,
    seats: usize,
    first: u64,
) -> Result<(Board<T>, Place<T>), T>
    requires few { seats ≤ MAX_SEATS }
    ensures table { IfOk result (λ r. (r.0.shared.table_id.words ≡ 520)
        × (r.0.shared.table_id.slots ≡ 1) × (r.1.table_id ≡ r.0.shared.table_id)) }
    ensures view { IfOk result
        (λ r. r.1.me ≡ (first_view (about_of T.head T.entries r.0.shared.key), [])) }
    ensures key { IfOk result (λ r. (r.0.shared.key.value.value ≡ value)
        × (r.0.shared.key.seats ≡ seats) × (r.0.shared.key.first ≡ first)) }
    ensures back { IfErr result (λ x. x ≡ value) }
{
    let key = Key {
        value: Snapshot::of(&value),
        seats,
        first,
    };
    let Ok(mut slots) = Vec::with_capacity(alloc, 1) else {
        return Err(value);
    };
    slots.push_reserved(Some(value));
    let words = opening_words(first);
    match Table::new(alloc, &words, slots, &key) {
        Ok(made) => Ok(made),
        Err(Refused { mut slots }) => {
            let Some(Some(value)) = slots.pop() else {
                unreachable!()
            };
            slots.destroy_empty();
            Err(value)
        }
    }
}

// Cuts the seat of the opening into one for each number.
fn deal<T: Journal>(
    steps: &Steps<T>,
    place: Place<T>,
    seats: usize,
    row: Vec<Seat<T>>,
) -> Vec<Seat<T>>
    requires table { (place.table_id ≡ steps.now.table_id) × (0 < steps.now.table_id.words) }
    requires view { place.me ≡ (first_view (about_of T.head T.entries steps.now.key), []) }
    requires count { (seats ≡ steps.now.key.seats) × (seats ≤ MAX_SEATS) }
    requires row { (row.items ≡ []) × (seats ≤ vec_capacity row) }
    ensures seats { result.items ≡ map (new_standing (record {
      table = steps.now.table_id;
      about = Some (about_of T.head T.entries steps.now.key);
    })) (range_with_len 0 seats) }
{
    let (mut place, mut row) = (place, row);
    for number in 0..seats {
        let part = steps.split_seat::<OneNumber>(&mut place);
        row.push_reserved(Seat {
            number: number as u32,
            place: part,
        });
    }
    row
}

impl<T: Journal> TicketLock<T> {
    /// Opens a lock round the value with this many seats, 1 to 64, and this first ticket. The seats are
    /// numbered by their places in the vector. After a fault the value comes back.
    pub fn open(
        alloc: Global,
        value: T,
        seats: usize,
        first: u64,
    ) -> Result<(TicketLock<T>, Vec<Seat<T>>), (LockFault, T)>
        ensures opened { IfOk result (λ r. Opens T.head T.entries value seats first r.0 r.1.items) }
        ensures count { ((seats ≡ 0) ⊎ (MAX_SEATS < seats)) → result ≡ Err (SeatCount, value) }
        ensures memory { 1 ≤ seats → seats ≤ MAX_SEATS → IfErr result (λ e. e ≡ (Memory, value)) }
    {
        if seats == 0 || seats > MAX_SEATS {
            return Err((LockFault::SeatCount, value));
        }
        let Ok(row) = Vec::with_capacity(alloc, seats) else {
            return Err((LockFault::Memory, value));
        };
        match lay(alloc, value, seats, first) {
            Ok((table, place)) => {
                let row = deal(&table.shared, place, seats, row);
                let asleep = Sleepers::none();
                Ok((TicketLock { table, asleep }, row))
            }
            Err(value) => {
                row.destroy_empty();
                Err((LockFault::Memory, value))
            }
        }
    }
}
