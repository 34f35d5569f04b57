//! ASDUs of types that aren't known in control direction.

/// An ASDU of a type that isn't known in control direction.
#[derive(Clone, Copy)]
pub struct UnknownAsdu {
    /// Its type identification.
    pub identification: u8,
    /// Its common address.
    pub common_address: u16,
    /// The address of its first object, where its octets have one.
    pub address: Option<u32>,
}
