//! Confirming a fragment.
ghost use Rattle.std.specs.Prelude.{◌≡◌, ◌<◌, slice_index, true, false};
ghost use Rattle.dnp_app.specs.Control.{control_of, confirmation_of};

/// The confirmation of a fragment with this sequence number; `uns` for an unsolicited one
/// (IEEE Std 1815, 4.2.2.4 and function 0).
pub fn confirm(sequence: u8, uns: bool) -> [u8; 2]
    requires { sequence < 16 }
    ensures octets { result ≡ confirmation_of sequence uns }
    // As an application control octet: a fragment of its own, which asks for no confirmation.
    ensures control { control_of (slice_index result 0)
        ≡ record { fir = true; fin = true; con = false; uns = uns; sequence = sequence } }
{
    let unsolicited = if uns { 0x10 } else { 0 };
    [0xC0 + sequence + unsolicited, 0]
}
