//! The information elements of a MAP.

ghost use Rattle.std.specs.Prelude.{◌≡◌, ◌↔◌, List, [], length, IsTrue};
ghost use Rattle.map_codec.specs.declared.element.Element.{Element};

use std::marker::Model;

/// The interval usage codes of the information elements. The numbers are the standard's, the names
/// this project's.
pub mod iuc {
    /// Request: a region where modems may ask for minislots.
    pub const REQUEST: u8 = 1;
    /// Request/Data.
    pub const REQUEST_DATA: u8 = 2;
    /// Initial Maintenance.
    pub const INITIAL_MAINTENANCE: u8 = 3;
    /// Station Maintenance.
    pub const STATION_MAINTENANCE: u8 = 4;
    /// Short Data Grant.
    pub const SHORT_DATA_GRANT: u8 = 5;
    /// Long Data Grant.
    pub const LONG_DATA_GRANT: u8 = 6;
    /// Null: the end of the allocations.
    pub const NULL: u8 = 7;
    /// Data Acknowledge.
    pub const DATA_ACKNOWLEDGE: u8 = 8;
    /// Advanced PHY Short Data Grant.
    pub const ADVANCED_SHORT_DATA_GRANT: u8 = 9;
    /// Advanced PHY Long Data Grant.
    pub const ADVANCED_LONG_DATA_GRANT: u8 = 10;
    /// Advanced PHY Unsolicited Grant.
    pub const ADVANCED_UNSOLICITED_GRANT: u8 = 11;
    /// Expansion: not in the profile.
    pub const EXPANSION: u8 = 15;
}

/// An information element: whom it addresses, its interval usage code, and the minislot at which it
/// begins, counted from the MAP's alloc start.
#[derive(Clone, Copy, Debug, PartialEq, Eq)]
pub struct Element {
    /// The service identifier, 14 bits: 0x3FFF addresses all modems, 0 none.
    pub sid: u16,
    /// The interval usage code, 4 bits.
    pub iuc: u8,
    /// The offset in minislots, 14 bits.
    pub offset: u16,
}

/// The elements of a MAP, in order.
#[derive(Debug, Drop)]
pub struct Elements {
    items: Vec<Element>,
}

impl Model for Elements {
    ghost Value = { List Element };

    ghost view = { λ e. e.items.items };
}

impl Elements {
    /// The elements of a vector. Takes no memory.
    pub fn from_vec(items: Vec<Element>) -> Elements
        ensures { result ≡ items.items }
    {
        Elements { items }
    }

    /// The vector of the elements. Takes no memory.
    pub fn into_vec(self) -> Vec<Element>
        ensures { result.items ≡ self }
    {
        let Elements { items } = self;
        items
    }

    /// The elements as a slice.
    pub fn as_slice(&self) -> &[Element]
        ensures { result.now ≡ self.now }
    {
        self.items.as_slice()
    }

    /// How many elements there are.
    pub fn len(&self) -> usize
        ensures { result ≡ length self.now }
    {
        self.items.len()
    }

    /// Whether there is no element.
    pub fn is_empty(&self) -> bool
        ensures { IsTrue result ↔ (self.now ≡ []) }
    {
        self.items.is_empty()
    }
}
