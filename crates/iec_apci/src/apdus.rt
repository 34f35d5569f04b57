//! APDUs, one after another.
ghost use Rattle.std.specs.Prelude.{length};
ghost use Rattle.std.specs.Iterator.{at_most};

/// The octets of each APDU where one follows another. The second octet of an APDU tells how many come
/// behind it.
#[derive(Drop)]
pub struct Apdus<'a>(pub &'a [u8]);

impl<'a> Iterator for Apdus<'a> {
    type Item = &'a [u8];

    ghost remaining = { λ s. at_most (length s.0.now) };

    fn next(&mut self) -> Option<&'a [u8]> {
        let octets = self.0;
        let length = usize::from(*octets.get(1)?) + 2;
        if length > octets.len() {
            return None;
        }
        let (apdu, behind) = octets.split_at(length);
        self.0 = behind;
        Some(apdu)
    }
}
