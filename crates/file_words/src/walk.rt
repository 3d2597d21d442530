//! A file is looked through, from its document to the calls or the entries.

use super::notes::Notes;
use super::place::Place;
use super::sort::{USAGES, is_of_requests, list_of};
use super::written::{Part, begins, find, parts, shown, text_of, whole};
use json_fields::forms::{Holds, Kind, Member, Sort};
use std::alloc::AllocError;
use std::fmt::Write;

/// How deep objects stand in an object: a burst descriptor among those in the configuration of a document.
const DEPTH: usize = 3;

// Whether a refusal has this number, with this value or none.
fn is_refusal(number: u64, value: Option<u64>) -> bool {
    match (number, value) {
        (3, Some(reason)) => 1 <= reason && reason <= 8,
        (11 | 12 | 13 | 15 | 16 | 17, value) => value.is_some(),
        (1..=23, None) => number != 3,
        _ => false,
    }
}

impl Notes {
    // What is wrong with the value of a refusal.
    fn tell_refusal(&mut self, place: Place, parts: &[Part]) -> Result<(), AllocError> {
        let (number, value) = (
            find(self.alloc, parts, "number")?.0.and_then(whole),
            find(self.alloc, parts, "value")?.0,
        );
        match (number, value, value.and_then(whole)) {
            (None, _, _) | (_, Some(_), None) => Ok(()),
            (Some(number), _, value) if is_refusal(number, value) => Ok(()),
            _ => writeln!(
                self.here,
                "{place}: no refusal has this number, with this value or none"
            ),
        }
    }

    // What is wrong with a reference without starts, or with starts without a reference.
    fn tell_placement(&mut self, place: Place, parts: &[Part]) -> Result<(), AllocError> {
        let has_reference = find(self.alloc, parts, "reference")?.0.is_some();
        let has_starts = find(self.alloc, parts, "starts")?.0.is_some();
        if has_reference == has_starts {
            return Ok(());
        }
        writeln!(
            self.here,
            "{place}: \"reference\" and \"starts\" stand together or not at all"
        )
    }

    // That each run refuses a Reserve of requests with this SID. The form says what the least and the most are.
    fn tell_sid_of_requests(&mut self, place: Place, written: &[u8]) -> Result<(), AllocError> {
        let sid = whole(written).unwrap_or(0);
        if sid == 0 || sid > 16383 || is_of_requests(sid) {
            return Ok(());
        }
        if !place.is_in_script() || !self.refused.takes_one() {
            return Ok(());
        }
        writeln!(
            self.refused.words,
            "{place}: \"sid\" is {sid}, and not from 1 to 8191, from 15873 to 16127 or 16383: each run refuses this"
        )
    }

    // What is wrong with the usage of a Reserve, and with the SID beside it or none.
    fn tell_usage(&mut self, place: Place, parts: &[Part]) -> Result<(), AllocError> {
        let written = find(self.alloc, parts, "usage")?.0.unwrap_or(b"");
        let Some(usage) = text_of(self.alloc, written)? else {
            return Ok(());
        };
        let sid = find(self.alloc, parts, "sid")?.0;
        let name = usage.as_str();
        match (name, sid) {
            ("initial" | "quiet", _) | ("initial_to" | "station" | "data", Some(_)) => Ok(()),
            ("request", Some(sid)) => self.tell_sid_of_requests(place, sid),
            ("initial_to" | "station" | "request" | "data", None) => {
                writeln!(self.here, "{place}: \"sid\" is missing, beside \"{name}\"")
            }
            _ => self.tell_name(place, "usage", &USAGES, name, written),
        }
    }

    // What is wrong with a request that has both its bytes and minislots in their place.
    fn tell_amount(&mut self, place: Place, parts: &[Part]) -> Result<(), AllocError> {
        let has_bytes = find(self.alloc, parts, "bytes")?.0.is_some();
        let has_slots = find(self.alloc, parts, "slots")?.0.is_some();
        if !has_bytes || !has_slots {
            return Ok(());
        }
        writeln!(
            self.here,
            "{place}: \"bytes\" and \"slots\" do not stand together"
        )
    }

    /// What is wrong with members of an object of this form that do not fit each other.
    pub fn tell_pair(
        &mut self,
        place: Place,
        sort: Sort,
        name: &str,
        parts: &[Part],
    ) -> Result<(), AllocError> {
        match (sort, name) {
            (Sort::Reply, "refused") => self.tell_refusal(place, parts),
            (Sort::Reply, "admitted" | "changed") => self.tell_placement(place, parts),
            (Sort::Call, "ask" | "replace") => self.tell_amount(place, parts),
            (Sort::Call, "reserve") => self.tell_usage(place, parts),
            _ => Ok(()),
        }?;
        match sort {
            Sort::Call => self.tell_refused_by(place, name, parts),
            _ => Ok(()),
        }
    }

    // What is wrong with the call or the entry of a number.
    fn tell_item(&mut self, kind: Kind, number: u64, written: &[u8]) -> Result<(), AllocError> {
        let (what, sort) = match kind {
            Kind::Script | Kind::Storm => ("call", Sort::Call),
            Kind::History => ("entry", Sort::Entry),
        };
        let place = Place::item(what, number);
        if let Some(parts) = self.object(place, written)? {
            self.tell_object(place, sort, &parts, DEPTH)?;
        }
        if !self.here.is_empty() && self.faulty.takes_one() {
            self.faulty.words.push_str(&self.here)?;
        }
        self.here.clear();
        Ok(())
    }

    // What is wrong with the calls or the entries of an array, of which so many stand before; how many there are then.
    fn tell_items(&mut self, kind: Kind, before: u64, array: &[u8]) -> Result<u64, AllocError> {
        let mut number = before;
        for part in &parts(self.alloc, array)? {
            number = number.saturating_add(1);
            self.tell_item(kind, number, part.value)?;
        }
        Ok(number)
    }

    // What is wrong with the calls of all scripts.
    fn tell_scripts(&mut self, scripts: &[Part]) -> Result<(), AllocError> {
        let mut before = 0;
        for script in scripts {
            if begins(script.value, b'[') {
                before = self.tell_items(Kind::Storm, before, script.value)?;
            }
        }
        Ok(())
    }

    // What is wrong with the scripts of a storm as arrays.
    fn tell_arrays(&mut self, scripts: &[Part], most: usize) -> Result<(), AllocError> {
        let count = scripts.len();
        if count == 0 || count > most {
            return writeln!(
                self.faulty.words,
                "document: \"scripts\" has {count} arrays, and not 1 to {most}"
            );
        }
        for (index, script) in scripts.iter().enumerate() {
            if !begins(script.value, b'[') {
                let found = shown(script.value);
                let number = index.saturating_add(1);
                writeln!(
                    self.faulty.words,
                    "document: script {number} is {found}, and not an array"
                )?;
            }
        }
        Ok(())
    }

    // What is wrong with the members of a document and with its configuration.
    fn tell_head(&mut self, kind: Kind, document: &[Part]) -> Result<(), AllocError> {
        if find(self.alloc, document, list_of(kind).0)?.0.is_none() {
            self.here.push_str(
                "document: a script has \"calls\", that of a storm \"scripts\", a history \"entries\"\n",
            )?;
        }
        self.tell_object(Place::document(), Sort::Document(kind), document, DEPTH)?;
        self.faulty.words.push_str(&self.here)?;
        self.here.clear();
        Ok(())
    }

    // What is wrong with the scripts of a storm, of which there may be so many, and how many there are.
    fn tell_storm(&mut self, list: &[u8], most: usize) -> Result<usize, AllocError> {
        let scripts = parts(self.alloc, list)?;
        self.tell_arrays(&scripts, most)?;
        self.tell_scripts(&scripts)?;
        Ok(scripts.len())
    }

    /// What is wrong with the document of a file of this kind, and how many scripts a storm has.
    pub fn tell_document(&mut self, kind: Kind, written: &[u8]) -> Result<usize, AllocError> {
        let Some(document) = self.object(Place::document(), written)? else {
            self.faulty.words.push_str(&self.here)?;
            return Ok(0);
        };
        self.tell_head(kind, &document)?;
        let (key, holds, _) = list_of(kind);
        match (find(self.alloc, &document, key)?.0, holds) {
            (Some(list), Holds::Lists(most)) if begins(list, b'[') => self.tell_storm(list, most),
            (Some(list), _) if begins(list, b'[') => {
                self.tell_items(kind, 0, list)?;
                Ok(0)
            }
            _ => Ok(0),
        }
    }
}
