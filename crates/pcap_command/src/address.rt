//! The address of a sender, as the command line has it.

ghost use Rattle.std.specs.Prelude.{◌≡◌, IfSome, IfNone};
ghost use Rattle.pcap_command.specs.Address.{address_in};

/// The address of a sender where none is given.
pub const ADDRESS: [u8; 6] = [0x02, 0x00, 0x00, 0x00, 0x00, 0x01];

// The address that a text spells, and none where it spells none.
fn address_of(text: &str) -> Option<[u8; 6]>
    ensures { result ≡ address_in text.now }
{
    let t = text.as_bytes();
    if t.len() != 17 || [t[2], t[5], t[8], t[11], t[14]] != [b':'; 5] {
        return None;
    }
    let digits = [
        t[0], t[1], t[3], t[4], t[6], t[7], t[9], t[10], t[12], t[13], t[15], t[16],
    ];
    let mut address = [0u8; 6];
    match hex::decode_to_slice(digits, &mut address) {
        Ok(()) => Some(address),
        Err(_) => None,
    }
}

/// The address of a sender: the one that a text spells, and none where it spells none, six bytes in hexadecimal, digits
/// of both cases, with a colon between two, as `02:00:00:00:00:01`; or [`ADDRESS`] where there is no text.
pub fn address_asked(text: Option<&str>) -> Option<[u8; 6]>
    ensures given { IfSome text.entry (λ t. result ≡ address_in t.now) }
    ensures usual { IfNone text.entry (result ≡ Some ADDRESS) }
{
    match text {
        Some(text) => address_of(text),
        None => Some(ADDRESS),
    }
}
