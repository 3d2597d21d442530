//! What is said of an object by the form of its sort.

use super::nearest::nearest;
use super::notes::Notes;
use super::place::Place;
use super::sort::{REQUEST, forms_of, members_beside, name_key, named};
use super::tell::tell_near;
use super::written::{Part, find, shown, text_of};
use json_fields::forms::{Form, Holds, Member, Missing, Sort};
use std::alloc::AllocError;
use std::fmt::Write;

impl Notes {
    // One more call.
    fn count_call(&mut self, name: &str) {
        self.admits = name == "admit";
        self.calls.add(name);
    }

    // One more object of a form. The parameters of a change are no flow more.
    fn count(&mut self, sort: Sort, name: &str) {
        match sort {
            Sort::Call => self.count_call(name),
            Sort::Flow if self.admits => self.flows.add(name),
            Sort::Reply => self.replies.add(name),
            _ => {}
        }
    }

    /// That a name, which is written so, is none of these.
    pub fn tell_name(
        &mut self,
        place: Place,
        key: &str,
        names: &[&'static str],
        name: &str,
        written: &[u8],
    ) -> Result<(), AllocError> {
        let near = nearest(self.alloc, name, names)?;
        let found = shown(written);
        write!(self.here, "{place}: \"{key}\" is {found}")?;
        tell_near(&mut self.here, near, names)
    }

    // That no form of these has a name, which is written so.
    fn tell_no_form(
        &mut self,
        place: Place,
        key: &str,
        forms: &[Form],
        name: &str,
        written: &[u8],
    ) -> Result<(), AllocError> {
        let mut names = Vec::new(self.alloc);
        for form in forms {
            names.push(form.0)?;
        }
        self.tell_name(place, key, &names, name, written)
    }

    // The form of an object, by its name where there is more than one. What is wrong with the name is told.
    fn form_of(
        &mut self,
        place: Place,
        sort: Sort,
        parts: &[Part],
    ) -> Result<Option<&'static Form>, AllocError> {
        let forms = forms_of(sort);
        let Some(key) = name_key(sort) else {
            return Ok(forms.first());
        };
        let written = find(self.alloc, parts, key)?.0.unwrap_or(b"");
        let Some(name) = text_of(self.alloc, written)? else {
            let members = [(key, Holds::Name, Missing::Fault)];
            self.tell_members(place, &members, parts)?;
            self.tell_keys(place, &members, parts, false)?;
            return Ok(None);
        };
        let form = named(forms, &name);
        match form {
            Some(_) => self.count(sort, &name),
            None => self.tell_no_form(place, key, forms, &name, written)?,
        }
        Ok(form)
    }

    // The members that are read of an object of a form: what a Reserve has goes by its usage.
    fn members_of(
        &self,
        sort: Sort,
        form: &'static Form,
        parts: &[Part],
    ) -> Result<&'static [Member], AllocError> {
        let (Sort::Call, "reserve") = (sort, form.0) else {
            return Ok(form.1);
        };
        let usage = find(self.alloc, parts, "usage")?.0.unwrap_or(b"");
        match text_of(self.alloc, usage)? {
            Some(usage) => Ok(members_beside(&usage).unwrap_or(form.1)),
            None => Ok(form.1),
        }
    }

    // What is wrong with the members of an object, and the keys in it that nobody reads.
    fn tell_form(
        &mut self,
        place: Place,
        members: &[Member],
        parts: &[Part],
    ) -> Result<(), AllocError> {
        self.tell_members(place, members, parts)?;
        self.tell_keys(place, members, parts, true)
    }

    // The members that are read of a configuration or of burst descriptors: where those stand, nobody reads the members
    // in whose place they stand, and a profile of requests stands among them.
    fn chosen(
        &self,
        sort: Sort,
        form: &'static Form,
        parts: &[Part],
    ) -> Result<Vec<Member>, AllocError> {
        let is_described = find(self.alloc, parts, "bursts")?.0.is_some();
        let mut members = Vec::new(self.alloc);
        for member in form.1 {
            if !is_described || !matches!(member.2, Missing::UnlessBursts) {
                members.push(*member)?;
            }
        }
        if matches!(sort, Sort::Bursts) {
            members.push(REQUEST)?;
        }
        Ok(members)
    }

    // The same of an object of a sort.
    fn tell_own(
        &mut self,
        place: Place,
        sort: Sort,
        form: &'static Form,
        parts: &[Part],
    ) -> Result<(), AllocError> {
        if matches!(sort, Sort::Config | Sort::Bursts) {
            let members = self.chosen(sort, form, parts)?;
            return self.tell_form(place, &members, parts);
        }
        let members = self.members_of(sort, form, parts)?;
        self.tell_form(place, members, parts)
    }

    // The keys of the objects that are members of an object of a sort, and their sorts.
    fn objects_in(
        &self,
        sort: Sort,
        form: &'static Form,
    ) -> Result<Vec<(&'static str, Sort)>, AllocError> {
        let mut objects = Vec::new(self.alloc);
        for member in form.1 {
            if let (key, Holds::Object(inner), _) = *member {
                objects.push((key, inner))?;
            }
        }
        if matches!(sort, Sort::Bursts) {
            objects.push((REQUEST.0, Sort::Profile))?;
        }
        Ok(objects)
    }

    /// What is wrong with an object of a sort and with the objects in it, so many deep.
    pub fn tell_object(
        &mut self,
        place: Place,
        sort: Sort,
        parts: &[Part],
        depth: usize,
    ) -> Result<(), AllocError> {
        let Some(form) = self.form_of(place, sort, parts)? else {
            return Ok(());
        };
        self.tell_own(place, sort, form, parts)?;
        for object in &self.objects_in(sort, form)? {
            let (key, inner) = *object;
            if let Some(parts) = self.inner(parts, key)?
                && depth > 0
            {
                self.tell_object(place.under(key), inner, &parts, depth - 1)?;
            }
        }
        self.tell_pair(place, sort, form.0, parts)
    }
}
