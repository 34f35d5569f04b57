//! What the objects of a DNP3 response report of points (IEEE Std 1815, object library of Annex A).
#![tactic(auto)]

mod analog;
mod binary;
mod counter;
mod examples;
mod group;
mod law;
mod object;
mod objects;
mod packed;
mod report;
mod time;
mod value;

pub use analog::{
    Analog16WithFlag, Analog16WithoutFlag, Analog32WithFlag, Analog32WithoutFlag, AnalogEvent16,
    AnalogEvent16WithTime, AnalogEvent32, AnalogEvent32WithTime,
};
pub use binary::{
    BinaryEvent, BinaryEventWithRelativeTime, BinaryEventWithTime, BinaryWithFlags, DoubleEvent,
    DoubleEventWithRelativeTime, DoubleEventWithTime, DoubleWithFlags, OutputEvent,
    OutputEventWithTime, OutputWithFlags,
};
pub use counter::{
    Counter16WithFlag, Counter16WithoutFlag, Counter32WithFlag, Counter32WithoutFlag,
    CounterEvent16, CounterEvent16WithTime, CounterEvent32, CounterEvent32WithTime,
};
pub use examples::{
    numbers_by_example, object_parts_by_example, states_by_example, times_by_example,
};
pub use law::one_meaning;
pub use object::Object;
pub use packed::{PackedBinary, PackedDouble, PackedObject, PackedOutput};
pub use report::reports;
