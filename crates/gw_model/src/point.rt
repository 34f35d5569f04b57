//! Points of an outstation, what a fragment reports of them, and the objects as which clients see them.
ghost use Rattle.std.specs.Prelude.{◌+◌, ◌*◌, IsTrue};
ghost use Rattle.std.specs.Hash as fed;
ghost use Rattle.std.specs.Cmp.Rules.{hashing};
ghost use Rattle.std.proofs.Common.{rules};
ghost use Rattle.gw_model.specs.Point.{is_of_kind, is_stamped};

use std::hash::{Hash, Hasher};

/// The kinds of point that an outstation has (IEEE Std 1815, object library).
#[derive(Clone, Copy, PartialEq, Eq, Hash)]
pub enum Kind {
    /// Binary input: groups 1 and 2.
    Binary,
    /// Binary output status: groups 10 and 11.
    Output,
    /// Double-bit binary input: groups 3 and 4.
    Double,
    /// Counter: groups 20 and 22.
    Counter,
    /// Analog input: groups 30 and 32.
    Analog,
}

/// Which point: the outstation's position in the settings, the kind, and the point's index.
#[derive(Clone, Copy, PartialEq, Eq, Hash)]
pub struct PointKey {
    pub outstation: u8,
    pub kind: Kind,
    pub index: u16,
}

/// Which information object: the common address of its station, and its information object address
/// (IEC 60870-5-101, 7.2.4 and 7.2.5).
#[derive(Clone, Copy, PartialEq, Eq)]
pub struct ObjectKey {
    pub common_address: u16,
    pub address: u32,
}

/// One word, so that a look-up by both addresses hashes as little as one by a single address.
impl Hash for ObjectKey {
    ghost hash_input = { λ key. fed.u64 (4294967296 * key.common_address + key.address) };

    ghost respects_eq = { Prim.search (hashing, rules) };

    fn hash<H: Hasher>(&self, state: &mut H) {
        state.write_u64((u64::from(self.common_address) << 32) + u64::from(self.address));
    }
}

/// A point's value as the outstation sends it.
#[derive(Clone, Copy)]
pub enum Raw {
    /// The state of a binary input or output.
    Bit(bool),
    /// The state of a double-bit input: 0 intermediate, 1 off, 2 on, 3 indeterminate.
    Two(u8),
    /// A counter's count.
    Count(u32),
    /// An analog input's value.
    Number(i32),
}

/// When something happened, in milliseconds since 1970-01-01 UTC.
#[derive(Clone, Copy, PartialEq)]
pub enum Stamp {
    /// No time is known.
    Untimed,
    /// At this instant.
    At(u64),
    /// At this instant by a clock that was not synchronized.
    Doubtful(u64),
}

/// What one object of a fragment says of one point.
#[derive(Clone, Copy)]
pub struct Report {
    pub key: PointKey,
    pub raw: Raw,
    /// The flags octet as it was sent, or 01 (online) for an object without flags.
    pub flags: u8,
    pub stamp: Stamp,
    /// An event, or the static value.
    pub event: bool,
    pub ghost of_kind: { IsTrue (is_of_kind key.kind raw) },
    pub ghost stamped: { IsTrue (is_stamped event stamp) },
}
