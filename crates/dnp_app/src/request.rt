//! The requests of the master (IEEE Std 1815, 4.4), by their octets.
ghost use Rattle.std.specs.Prelude.{◌≡◌, ◌+◌, ◌≤◌, ◌<◌, ◌%◌, [], ◌∷◌};
ghost use Rattle.std.specs.Prelude.{length, take, true, false, if◌then◌else◌};
ghost use Rattle.dnp_app.specs.Requests.{
  clear_restart_octets,
  disable_octets,
  enable_octets,
  octets_of,
  read_octets,
  record_time_octets,
  write_time_octets,
};
ghost use Rattle.dnp_app.specs.Requests.{request as request_of};
ghost use Rattle.dnp_app.specs.Asking.{
  asking_of,
  asks_for,
  DisableUnsolicited,
  EnableUnsolicited,
  Read,
  RecordTime,
  WriteIndication,
  WriteTime,
};

/// READ.
const READ: u8 = 1;
/// WRITE.
const WRITE: u8 = 2;
/// ENABLE_UNSOLICITED.
const ENABLE_UNSOLICITED: u8 = 20;
/// DISABLE_UNSOLICITED.
const DISABLE_UNSOLICITED: u8 = 21;
/// RECORD_CURRENT_TIME.
const RECORD_CURRENT_TIME: u8 = 24;

/// A request: one fragment of at most 32 octets.
#[derive(Clone, Copy)]
pub struct Request {
    /// The fragment, in the first `len` octets, zeros behind it.
    pub octets: [u8; 32],
    /// How many octets it has.
    pub len: u8,
    /// The number of the control that it carries; none in other requests.
    pub bond: Option<u64>,
}

impl Request {
    /// The octets, without the zeros behind them.
    pub fn as_slice(&self) -> &[u8]
        ensures { result.now ≡ octets_of self.now }
    {
        &self.octets[..usize::from(self.len).min(32)]
    }
}

/// A request of these octets.
pub fn request_from(octets: &[u8]) -> Request
    requires { length octets.now ≤ 32 }
    ensures { result ≡ request_of octets.now }
{
    let mut buffer = [0; 32];
    buffer[..octets.len()].copy_from_slice(octets);
    Request {
        octets: buffer,
        len: octets.len() as u8,
        bond: None,
    }
}

/// Application control of a request: FIR and FIN, and a sequence number.
pub fn control(sequence: u8) -> u8
    requires { sequence < 16 }
    ensures { result ≡ 192 + sequence }
{
    0xC0 + sequence
}

/// A poll: for events of classes 1, 2 and 3, and for an integrity poll then for the static values, class 0.
pub fn read_poll(sequence: u8, integrity: bool) -> Request
    requires { sequence < 16 }
    ensures octets { result ≡ request_of (read_octets integrity sequence) }
    ensures asks { asking_of (octets_of result) ≡ asks_for sequence
        (Read (if integrity then 1 ∷ 2 ∷ 3 ∷ 0 ∷ [] else 1 ∷ 2 ∷ 3 ∷ [])) }
{
    let control = control(sequence);
    if integrity {
        request_from(&[control, READ, 60, 2, 6, 60, 3, 6, 60, 4, 6, 60, 1, 6])
    } else {
        request_from(&[control, READ, 60, 2, 6, 60, 3, 6, 60, 4, 6])
    }
}

/// Lets the outstation send events of classes 1, 2 and 3 by itself.
pub fn enable(sequence: u8) -> Request
    requires { sequence < 16 }
    ensures octets { result ≡ request_of (enable_octets sequence) }
    ensures asks { asking_of (octets_of result) ≡ asks_for sequence (EnableUnsolicited (1 ∷ 2 ∷ 3 ∷ [])) }
{
    let control = control(sequence);
    request_from(&[control, ENABLE_UNSOLICITED, 60, 2, 6, 60, 3, 6, 60, 4, 6])
}

/// Keeps the outstation from sending events by itself.
pub fn disable(sequence: u8) -> Request
    requires { sequence < 16 }
    ensures octets { result ≡ request_of (disable_octets sequence) }
    ensures asks { asking_of (octets_of result) ≡ asks_for sequence (DisableUnsolicited (1 ∷ 2 ∷ 3 ∷ [])) }
{
    let control = control(sequence);
    request_from(&[control, DISABLE_UNSOLICITED, 60, 2, 6, 60, 3, 6, 60, 4, 6])
}

/// Clears the outstation's internal indication of a restart, IIN1.7.
pub fn clear_restart(sequence: u8) -> Request
    requires { sequence < 16 }
    ensures octets { result ≡ request_of (clear_restart_octets sequence) }
    ensures asks { asking_of (octets_of result) ≡ asks_for sequence (WriteIndication 7 false) }
{
    request_from(&[control(sequence), WRITE, 80, 1, 0, 7, 7, 0])
}

/// Lets the outstation keep the moment at which it gets this.
pub fn record_time(sequence: u8) -> Request
    requires { sequence < 16 }
    ensures octets { result ≡ request_of (record_time_octets sequence) }
    ensures asks { asking_of (octets_of result) ≡ asks_for sequence RecordTime }
{
    request_from(&[control(sequence), RECORD_CURRENT_TIME])
}

/// Tells the outstation the time at which `record_time` was sent, in milliseconds since 1970 in UTC: its low 48 bits.
pub fn write_time(sequence: u8, time: u64) -> Request
    requires { sequence < 16 }
    ensures octets { result ≡ request_of (write_time_octets time sequence) }
    ensures asks { asking_of (octets_of result) ≡ asks_for sequence (WriteTime (time % 281474976710656)) }
{
    let [a, b, c, d, e, f, _, _] = time.to_le_bytes();
    request_from(&[control(sequence), WRITE, 50, 3, 7, 1, a, b, c, d, e, f])
}
