//! Calls that each run refuses by the configuration, whatever came before them.

use super::notes::Notes;
use super::place::Place;
use super::tell::is_met;
use super::written::{Part, find, whole};
use json_fields::forms::{Holds, Missing};
use minislots::{Checked, MAX_ASK};
use std::alloc::AllocError;
use std::fmt::Write;

const MOST_U8: u64 = u8::MAX as u64;

const MOST_U32: u64 = u32::MAX as u64;

impl Notes {
    // That each run refuses a call with the number under a key, where one is there that is not lawful.
    fn tell_unlawful(
        &mut self,
        place: Place,
        key: &'static str,
        holds: Holds,
        parts: &[Part],
    ) -> Result<(), AllocError> {
        match find(self.alloc, parts, key)?.0 {
            Some(written) if is_met(self.alloc, holds, written)? => {
                self.tell_refused(place, (key, holds, Missing::Nothing), written)
            }
            _ => Ok(()),
        }
    }

    // That each run refuses a call whose receiver the channel does not have.
    fn tell_receiver(
        &mut self,
        place: Place,
        channel: &Checked,
        parts: &[Part],
    ) -> Result<(), AllocError> {
        let last = u64::from(channel.receivers()).saturating_sub(1);
        let holds = Holds::Lawful(MOST_U8, 0, last);
        self.tell_unlawful(place, "receiver", holds, parts)
    }

    // That each run refuses a Reserve of no minislots, or of more than a frame has behind the request region.
    fn tell_length(
        &mut self,
        place: Place,
        channel: &Checked,
        parts: &[Part],
    ) -> Result<(), AllocError> {
        let room = channel.frame().saturating_sub(channel.req_slots());
        let holds = Holds::Lawful(MOST_U32, 1, u64::from(room));
        self.tell_unlawful(place, "slots", holds, parts)
    }

    // That each run refuses a request for minislots that carry fewer bytes than the least or too many.
    fn tell_carried(
        &mut self,
        place: Place,
        channel: &Checked,
        least: u64,
        parts: &[Part],
    ) -> Result<(), AllocError> {
        let asked = find(self.alloc, parts, "slots")?.0.and_then(whole);
        let Some(slots) = asked.and_then(|slots| u32::try_from(slots).ok()) else {
            return Ok(());
        };
        let (bytes, most) = (channel.bytes_in(slots), u64::from(MAX_ASK));
        let is_lawful = least <= bytes && bytes <= most;
        if is_lawful || !place.is_in_script() || !self.refused.takes_one() {
            return Ok(());
        }
        writeln!(
            self.refused.words,
            "{place}: \"slots\" is {slots}, whose {bytes} bytes are not from {least} to {most}: each run refuses this"
        )
    }

    // That each run refuses a call that tells of a minislot under a key before the first MAP.
    fn tell_too_old(
        &mut self,
        place: Place,
        channel: &Checked,
        key: &str,
        parts: &[Part],
    ) -> Result<(), AllocError> {
        let start = channel.start();
        let Some(slot) = find(self.alloc, parts, key)?.0.and_then(whole) else {
            return Ok(());
        };
        if slot >= start || !place.is_in_script() || !self.refused.takes_one() {
            return Ok(());
        }
        writeln!(
            self.refused.words,
            "{place}: \"{key}\" is {slot}, before \"start\" {start} of the configuration: each run refuses this"
        )
    }

    // That each run refuses a request for its receiver, its minislots or its time.
    fn tell_request(
        &mut self,
        place: Place,
        channel: &Checked,
        least: u64,
        parts: &[Part],
    ) -> Result<(), AllocError> {
        self.tell_receiver(place, channel, parts)?;
        self.tell_carried(place, channel, least, parts)?;
        self.tell_too_old(place, channel, "heard", parts)
    }

    /// That each run refuses a call of this name by the configuration, where that is known.
    pub fn tell_refused_by(
        &mut self,
        place: Place,
        name: &str,
        parts: &[Part],
    ) -> Result<(), AllocError> {
        let Some(channel) = self.channel else {
            return Ok(());
        };
        match name {
            "ask" => self.tell_request(place, &channel, 1, parts),
            "replace" => self.tell_request(place, &channel, 0, parts),
            "heard" => {
                self.tell_receiver(place, &channel, parts)?;
                self.tell_too_old(place, &channel, "upto", parts)
            }
            "reserve" => self.tell_length(place, &channel, parts),
            _ => Ok(()),
        }
    }
}
