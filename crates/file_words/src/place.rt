//! Places in a file.

use std::fmt;

/// The document of a file.
const DOCUMENT: &str = "document";

/// An object in a file: what it is, with its number, counted from 1, where it is a call or an entry (calls through all
/// scripts), and the keys under which it stands in that.
#[derive(Clone, Copy)]
pub struct Place {
    what: &'static str,
    number: u64,
    keys: [&'static str; 3],
}

impl fmt::Display for Place {
    fn fmt<W: fmt::Write>(&self, f: &mut fmt::Formatter<W>) -> fmt::Result {
        f.write_str(self.what)?;
        if self.number != 0 {
            write!(f, " {}", self.number)?;
        }
        for key in &self.keys {
            if !key.is_empty() {
                write!(f, ", {key}")?;
            }
        }
        Ok(())
    }
}

impl Place {
    /// The document.
    pub fn document() -> Place {
        Place::item(DOCUMENT, 0)
    }

    /// A call or an entry of this number.
    pub fn item(what: &'static str, number: u64) -> Place {
        Place {
            what,
            number,
            keys: ["", "", ""],
        }
    }

    /// The object under a key. One in the document is what it is by its key alone.
    pub fn under(self, key: &'static str) -> Place {
        if self.what == DOCUMENT {
            return Place::item(key, 0);
        }
        let [first, second, _] = self.keys;
        let keys = match (first, second) {
            ("", _) => [key, "", ""],
            (_, "") => [first, key, ""],
            _ => [first, second, key],
        };
        Place { keys, ..self }
    }

    /// Whether it is a call of a script, or stands in one.
    pub fn is_in_script(self) -> bool {
        self.what == "call"
    }
}
