//! Causes of transmission (IEC 60870-5-101, 7.2.3) of commands and of the answers to them.

/// Request, or requested.
pub const REQUEST: u8 = 5;

/// Activation.
pub const ACTIVATION: u8 = 6;

/// Activation confirmation.
pub const ACTIVATION_CONFIRMATION: u8 = 7;

/// Deactivation.
pub const DEACTIVATION: u8 = 8;

/// Deactivation confirmation.
pub const DEACTIVATION_CONFIRMATION: u8 = 9;

/// Activation termination.
pub const ACTIVATION_TERMINATION: u8 = 10;

/// Interrogated by station interrogation.
pub const STATION_INTERROGATION: u8 = 20;

/// Requested by general counter request.
pub const COUNTER_INTERROGATION: u8 = 37;

/// Unknown type identification.
pub const UNKNOWN_TYPE: u8 = 44;

/// Unknown cause of transmission.
pub const UNKNOWN_CAUSE: u8 = 45;

/// Unknown common address of ASDU.
pub const UNKNOWN_COMMON_ADDRESS: u8 = 46;

/// Unknown information object address.
pub const UNKNOWN_OBJECT_ADDRESS: u8 = 47;
