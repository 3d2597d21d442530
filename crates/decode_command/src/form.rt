//! As what texts are decoded.

/// As what texts are decoded.
#[derive(Clone, Copy, Debug, PartialEq, Eq)]
pub enum Form {
    /// As payloads.
    Payload,
    /// As payloads, and a fault is said in words too.
    Explained,
    /// As whole frames.
    Frame,
}

/// As what texts are decoded into JSON.
#[derive(Clone, Copy, Debug, PartialEq, Eq)]
pub enum JsonForm {
    /// As payloads.
    Payload,
    /// As whole frames.
    Frame,
}
