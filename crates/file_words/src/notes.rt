//! What is said of the members and the keys of objects.

use super::counts::Counts;
use super::lines::Lines;
use super::nearest::nearest;
use super::place::Place;
use super::tell::{is_met, tell_near, tell_value};
use super::written::{Part, begins, find, is_key, parts, shown, text_of, whole};
use json_fields::forms::{Holds, Member, Missing, Sort};
use minislots::Checked;
use std::alloc::{AllocError, Global};
use std::fmt::Write;

/// What is said of a file.
#[derive(Drop)]
pub struct Notes {
    /// What memory is taken from.
    pub alloc: Global,
    /// The channel by which each run refuses calls, where it is known.
    pub channel: Option<Checked>,
    /// What is wrong with the call or the entry that is looked at, or with the document.
    pub here: String,
    /// The calls and the entries with a fault.
    pub faulty: Lines,
    /// Values for which each run refuses the call.
    pub refused: Lines,
    /// Keys that stand more than once in an object.
    pub repeated: Lines,
    /// Keys that nobody reads.
    pub unread: Lines,
    /// How many calls there are of each name.
    pub calls: Counts,
    /// Whether the call that was counted last is an admission.
    pub admits: bool,
    /// How many admissions there are of each kind of flow.
    pub flows: Counts,
    /// How many replies there are of each kind.
    pub replies: Counts,
}

impl Notes {
    /// Nothing so far.
    pub fn new(alloc: Global) -> Notes {
        Notes {
            alloc,
            channel: None,
            here: String::new(alloc),
            faulty: Lines::new(alloc),
            refused: Lines::new(alloc),
            repeated: Lines::new(alloc),
            unread: Lines::new(alloc),
            calls: Counts::new(Sort::Call),
            admits: false,
            flows: Counts::new(Sort::Flow),
            replies: Counts::new(Sort::Reply),
        }
    }

    /// The parts of an object. What is none is told.
    pub fn object<'t>(
        &mut self,
        place: Place,
        written: &'t [u8],
    ) -> Result<Option<Vec<Part<'t>>>, AllocError> {
        if begins(written, b'{') {
            return Ok(Some(parts(self.alloc, written)?));
        }
        let found = shown(written);
        writeln!(self.here, "{place}: this is {found}, and not an object")?;
        Ok(None)
    }

    /// The parts of the object under a key, where there is one.
    pub fn inner<'t>(
        &self,
        outer: &[Part<'t>],
        key: &str,
    ) -> Result<Option<Vec<Part<'t>>>, AllocError> {
        match find(self.alloc, outer, key)?.0 {
            Some(written) if begins(written, b'{') => Ok(Some(parts(self.alloc, written)?)),
            _ => Ok(None),
        }
    }

    // That a key stands more than once.
    fn tell_repeated(&mut self, place: Place, key: &str, count: u64) -> Result<(), AllocError> {
        if count < 2 || !self.repeated.takes_one() {
            return Ok(());
        }
        writeln!(
            self.repeated.words,
            "{place}: \"{key}\" stands {count} times, and the last one is read"
        )
    }

    /// That each run refuses a call with this value.
    pub fn tell_refused(
        &mut self,
        place: Place,
        member: Member,
        written: &[u8],
    ) -> Result<(), AllocError> {
        let ((key, Holds::Lawful(_, low, high), _), Some(number)) = (member, whole(written)) else {
            return Ok(());
        };
        if (low <= number && number <= high) || !place.is_in_script() || !self.refused.takes_one() {
            return Ok(());
        }
        writeln!(
            self.refused.words,
            "{place}: \"{key}\" is {number}, and not from {low} to {high}: each run refuses this"
        )
    }

    // What is wrong with a member of an object.
    fn tell_member(
        &mut self,
        place: Place,
        member: Member,
        parts: &[Part],
    ) -> Result<(), AllocError> {
        let (key, holds, missing) = member;
        let (found, count) = find(self.alloc, parts, key)?;
        self.tell_repeated(place, key, count)?;
        match (found, missing) {
            (Some(written), _) if is_met(self.alloc, holds, written)? => {
                self.tell_refused(place, member, written)
            }
            (Some(written), _) => tell_value(&mut self.here, place, key, holds, written),
            (None, Missing::Fault | Missing::UnlessBursts) => {
                writeln!(self.here, "{place}: \"{key}\" is missing")
            }
            (None, Missing::UnlessSlots) if find(self.alloc, parts, "slots")?.0.is_none() => {
                writeln!(
                    self.here,
                    "{place}: one of \"{key}\" and \"slots\" is missing"
                )
            }
            (None, _) => Ok(()),
        }
    }

    // The known key that a key may be meant for, where it is none of them.
    fn meant(
        &self,
        members: &[Member],
        written: &[u8],
    ) -> Result<Option<&'static str>, AllocError> {
        let mut keys = Vec::new(self.alloc);
        for member in members {
            keys.push(member.0)?;
        }
        match text_of(self.alloc, written)? {
            Some(key) => nearest(self.alloc, &key, &keys),
            None => Ok(None),
        }
    }

    // Whether a key is one of these members'.
    fn is_read(&self, members: &[Member], written: &[u8]) -> Result<bool, AllocError> {
        for member in members {
            if is_key(self.alloc, written, member.0)? {
                return Ok(true);
            }
        }
        Ok(false)
    }

    // That nobody reads a key: in an object without a form, only where it may be meant for one that is read.
    fn tell_unread(
        &mut self,
        place: Place,
        members: &[Member],
        written: &[u8],
        has_form: bool,
    ) -> Result<(), AllocError> {
        if !has_form && self.meant(members, written)?.is_none() {
            return Ok(());
        }
        if !self.unread.takes_one() {
            return Ok(());
        }
        let found = shown(written);
        write!(self.unread.words, "{place}: nobody reads {found}")?;
        let near = self.meant(members, written)?;
        tell_near(&mut self.unread.words, near, &[])
    }

    /// The keys of an object that nobody reads.
    pub fn tell_keys(
        &mut self,
        place: Place,
        members: &[Member],
        parts: &[Part],
        has_form: bool,
    ) -> Result<(), AllocError> {
        for part in parts {
            if !self.is_read(members, part.key)? {
                self.tell_unread(place, members, part.key, has_form)?;
            }
        }
        Ok(())
    }

    /// What is wrong with the members of an object.
    pub fn tell_members(
        &mut self,
        place: Place,
        members: &[Member],
        parts: &[Part],
    ) -> Result<(), AllocError> {
        for member in members {
            self.tell_member(place, *member, parts)?;
        }
        Ok(())
    }
}
