//! The command over what the program has: standard input, standard output and standard error, which are written with no
//! buffer, so that nothing is left to flush, and the environment.

use crate::form::{Form, JsonForm};
use crate::frame::{decode_frame, is_hex_of_frame};
use crate::json_lines::{decode_json, decode_json_lines};
use crate::line::FRAME_FOUND;
use crate::lines::decode_lines;
use crate::table::decode_text;
use std::io;
use std::io::ErrorKind;
use std::rt::Env;
use text_stream::{RunFault, Sink, Watched};

/// The word for standard input in the place of a text.
pub const STANDARD_INPUT: &str = "-";

// Standard error, to which text is written.
#[derive(Drop)]
struct Errors<'a, R> {
    to: &'a R,
}

impl<R: Eprint> Sink for Errors<'_, R> {
    fn write_some(&mut self, bytes: &[u8]) -> io::Result<usize> {
        let Ok(text) = str::from_utf8(bytes) else {
            return Err(ErrorKind::InvalidData.into());
        };
        self.to.eprint(text)?;
        Ok(bytes.len())
    }
}

// The columns of the terminal, as far as the environment tells them.
fn columns_told(rt: &impl Env) -> Option<u16> {
    let mut digits = [0; 8];
    let len = rt.var("COLUMNS", &mut digits).ok()?;
    str::from_utf8(digits.get(..len)?).ok()?.parse().ok()
}

// The columns of a drawing, where one is asked for: so many, or those of the terminal, or 80.
fn columns_of(rt: &impl Env, is_drawn: bool, columns: Option<u16>) -> Option<u16> {
    if !is_drawn {
        return None;
    }
    columns.or_else(|| columns_told(rt)).or(Some(80))
}

// Decodes a text. Of one that is no payload, but a whole frame, standard error says so.
fn show_text(
    rt: &(impl Print + Eprint + AllocGlobal),
    text: &str,
    form: Form,
    columns: Option<u16>,
) -> Result<bool, RunFault> {
    let mut writer = Watched::new(io::writer(rt));
    let is_payload = match form {
        Form::Payload => decode_text(rt.alloc(), text, columns, false, &mut writer)?,
        Form::Explained => decode_text(rt.alloc(), text, columns, true, &mut writer)?,
        Form::Frame => return decode_frame(rt.alloc(), text, columns, &mut writer),
    };
    if !is_payload && let Ok(true) = is_hex_of_frame(rt.alloc(), text.as_bytes()) {
        let _ = rt.eprint(FRAME_FOUND);
    }
    Ok(is_payload)
}

// Decodes the lines of standard input.
fn show_lines(
    rt: &(impl Input + Print + Eprint + AllocGlobal),
    form: Form,
    columns: Option<u16>,
) -> Result<bool, RunFault> {
    let mut reader = Watched::new(rt.reader());
    let mut writer = Watched::new(io::writer(rt));
    let mut errors = Errors { to: rt };
    decode_lines(
        rt.alloc(),
        form,
        columns,
        &mut reader,
        &mut writer,
        &mut errors,
    )
}

/// The command `decode`: whether the text, or each line of standard input, is a payload, or a frame. A drawing has so
/// many columns, or those of the terminal, or 80.
pub fn show(
    rt: &(impl Input + Print + Eprint + Env + AllocGlobal),
    text: &str,
    form: Form,
    is_drawn: bool,
    columns: Option<u16>,
) -> Result<bool, RunFault> {
    let columns = columns_of(rt, is_drawn, columns);
    if text == STANDARD_INPUT {
        return show_lines(rt, form, columns);
    }
    show_text(rt, text, form, columns)
}

/// The command `decode --json`: whether the text, or each line of standard input, is a payload, or a frame.
pub fn show_json(
    rt: &(impl Input + Print + AllocGlobal),
    text: &str,
    form: JsonForm,
) -> Result<bool, RunFault> {
    let mut writer = Watched::new(io::writer(rt));
    if text != STANDARD_INPUT {
        return decode_json(rt.alloc(), text, form, &mut writer);
    }
    let mut reader = Watched::new(rt.reader());
    decode_json_lines(rt.alloc(), form, &mut reader, &mut writer)
}
