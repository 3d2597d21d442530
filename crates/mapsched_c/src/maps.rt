//! The payload of a MAP in plain numbers, and the export that reads one.

ghost use Rattle.std.specs.Prelude.{◌≡◌, ◌≤◌, ◌++◌, length, map, drop};
ghost use Rattle.map_codec.specs.declared.wire_map.TheConstants.{MAX_ELEMENTS};
ghost use Rattle.mapsched_c.specs.Map.{plain_element, plain_map, fault_element, fault_status, Decodes};

use crate::status;
use map_codec::{DecodeFault, Element, WireMap, decode};
use std::alloc::Global;

/// The most elements of a MAP.
pub const MAX_PLAIN: usize = 240;

/// An information element of a MAP.
#[repr(C)]
#[derive(Clone, Copy)]
pub struct PlainElement {
    /// The service identifier that it addresses.
    pub sid: u16,
    /// The minislot at which it begins, counted from the MAP's alloc start.
    pub offset: u16,
    /// The interval usage code.
    pub iuc: u8,
}

/// The fields of a MAP's payload, and its elements, so many as are counted.
#[repr(C)]
#[derive(Drop)]
pub struct PlainMap {
    /// The minislot at which the MAP's allocations begin, low 32 bits.
    pub alloc_start: u32,
    /// The acknowledge time: the minislot before which all that was heard was handed in, low 32 bits.
    pub ack: u32,
    /// How many elements it has.
    pub count: u32,
    /// The upstream channel.
    pub channel: u8,
    /// The configuration change count of the UCD that the MAP goes by.
    pub ucd_count: u8,
    /// The reserved byte.
    pub reserved: u8,
    /// The start of the backoff window for ranging, an exponent.
    pub ranging_start: u8,
    /// The end of the backoff window for ranging, an exponent.
    pub ranging_end: u8,
    /// The start of the backoff window for requests and data, an exponent.
    pub data_start: u8,
    /// The end of the backoff window for requests and data, an exponent.
    pub data_end: u8,
    /// What stands behind the last element stays as it was.
    pub elements: [PlainElement; MAX_PLAIN],
}

// The numbers of an element.
fn plain_element(element: Element) -> PlainElement
    ensures { result ≡ plain_element element }
{
    PlainElement {
        sid: element.sid,
        offset: element.offset,
        iuc: element.iuc,
    }
}

// Writes elements at the front.
fn put_elements(elements: &[Element], out: &mut [PlainElement])
    requires { length elements.now ≤ length out.old }
    ensures { out.new ≡ map plain_element elements.now ++ drop (length elements.now) out.old }
{
    for (i, element) in elements.iter().enumerate() {
        out[i] = plain_element(*element);
    }
}

impl PlainMap {
    // Writes a MAP over what stands here.
    fn put(&mut self, read: &WireMap)
        requires { length read.now.elements ≤ MAX_ELEMENTS }
        ensures { self.new ≡ plain_map self.old read.now }
    {
        self.alloc_start = read.alloc_start;
        self.ack = read.ack;
        self.count = read.elements.len() as u32;
        self.channel = read.channel;
        self.ucd_count = read.ucd_count;
        self.reserved = read.reserved;
        self.ranging_start = read.ranging_start;
        self.ranging_end = read.ranging_end;
        self.data_start = read.data_start;
        self.data_end = read.data_end;
        put_elements(read.elements.as_slice(), &mut self.elements);
    }
}

// Tells the element that a fault names, where it names one, and answers its status.
fn tell(fault: DecodeFault, element: &mut usize) -> u32
    ensures status { result ≡ fault_status fault }
    ensures element { element.new ≡ fault_element element.old fault }
{
    match fault {
        DecodeFault::Short => status::BAD_PAYLOAD + 1,
        DecodeFault::TooMany => status::BAD_PAYLOAD + 2,
        DecodeFault::WrongLength => status::BAD_PAYLOAD + 3,
        DecodeFault::Expansion(at) => {
            *element = at;
            status::BAD_PAYLOAD + 4
        }
        DecodeFault::Descending(at) => {
            *element = at;
            status::BAD_PAYLOAD + 5
        }
        DecodeFault::NoNull => status::BAD_PAYLOAD + 6,
        DecodeFault::SecondNull(at) => {
            *element = at;
            status::BAD_PAYLOAD + 7
        }
        DecodeFault::Memory => status::OUT_OF_MEMORY,
    }
}

/// Reads the payload of a MAP. A fault's status is `BAD_PAYLOAD` and its number in README's list, and the element that
/// it names, from 0, is told.
#[unsafe(no_mangle)]
pub extern "C" fn mapsched_decode(
    alloc: Global,
    payload: &[u8],
    read: &mut PlainMap,
    element: &mut usize,
) -> u32
    ensures { Decodes payload.now result read.old read.new element.old element.new }
{
    match decode(alloc, payload) {
        Ok(wire) => {
            read.put(&wire);
            status::OK
        }
        Err(fault) => tell(fault, element),
    }
}
