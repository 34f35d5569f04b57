//! The settings that are used where none are given.

/// Station 1; outstation 0 with address 1; its binary input 5 as single-point 4101, analog input 0 as scaled value
/// 4201, counter 0 as integrated total 4301; and two controls, a single command at 5001 and a set-point command at
/// 5002.
pub const DEFAULT_SETTINGS: &str = "[station]
common_address = 1

[[outstation]]
address = 1

[[point]]
outstation = 0
kind = \"binary\"
index = 5
address = 4101

[[point]]
outstation = 0
kind = \"analog\"
index = 0
address = 4201

[[point]]
outstation = 0
kind = \"counter\"
index = 0
address = 4301

[[control]]
outstation = 0
show = \"single\"
index = 3
address = 5001
select = true

[[control]]
outstation = 0
show = \"setpoint\"
index = 4
address = 5002
mode = \"sbo\"
";
