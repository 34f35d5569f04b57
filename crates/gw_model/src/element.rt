//! Information elements of IEC 60870-5-101.
ghost use Rattle.std.specs.Prelude.{◌≡◌, ℕ, List, length, Option, Some};

/// An information element (IEC 60870-5-101, 7.2.6): a value of a fixed number of octets.
pub trait Element {
    /// How many octets the element has.
    const LENGTH: usize;

    ghost LENGTH: { ℕ };

    /// The octets of a value.
    ghost spelling: { Self → List ℕ };
    /// What octets mean, if anything.
    ghost meaning: { List ℕ → Option Self };
    /// Which values the element can show.
    ghost Fits: { Self → Type 0 };

    /// Writes the element's octets.
    fn write(&self, out: &mut [u8])
        requires { length out.old ≡ LENGTH }
        ensures { out.new ≡ spelling self.now };

    /// Reads the element's octets, or tells that they mean nothing.
    fn read(octets: &[u8]) -> Option<Self>
        requires { length octets.now ≡ LENGTH }
        ensures { result ≡ meaning octets.now };

    /// Each value fills the element.
    ghost fills: { (x : Self) → length (spelling x) ≡ LENGTH };
    /// What is written is read again.
    ghost read_again: { (x : Self) → Fits x → meaning (spelling x) ≡ Some x };
}
