//! Which objects are known, how long they are, and which qualifiers they may stand under.
ghost use Rattle.std.specs.Prelude.{◌≡◌};
ghost use Rattle.std.specs.Option.{option_map};
ghost use Rattle.dnp_objects.specs.Library.{object_of, size_of, form_of};

/// How much room an object takes.
#[derive(Clone, Copy)]
pub enum Size {
    /// So many octets.
    Octets(u8),
    /// So many bits: the objects of a header stand one after the other from the lowest bit on, and
    /// the last octet is filled up.
    Bits(u8),
}

/// Under which qualifiers objects may stand (IEEE Std 1815, 4.2.2.7.3).
#[derive(Clone, Copy)]
pub enum Access {
    /// A first and a last index: 00 and 01.
    Ranges,
    /// A count alone: 07 and 08.
    Counts,
    /// A count, and an index before each object: 17, 18, 27 and 28.
    Indexes,
    /// A first and a last index, or an index before each object.
    RangesAndIndexes,
}

/// How the objects of a variation stand in a part.
#[derive(Clone, Copy)]
pub struct Form {
    pub size: Size,
    pub access: Access,
}

impl Form {
    fn octets(octets: u8) -> Form
        ensures { result ≡ record { size = Size.Octets octets; access = Access.RangesAndIndexes } }
    {
        Form {
            size: Size::Octets(octets),
            access: Access::RangesAndIndexes,
        }
    }

    fn bits(bits: u8) -> Form
        ensures { result ≡ record { size = Size.Bits bits; access = Access.Ranges } }
    {
        Form {
            size: Size::Bits(bits),
            access: Access::Ranges,
        }
    }

    fn command(octets: u8) -> Form
        ensures { result ≡ record { size = Size.Octets octets; access = Access.Indexes } }
    {
        Form {
            size: Size::Octets(octets),
            access: Access::Indexes,
        }
    }

    fn time(octets: u8) -> Form
        ensures { result ≡ record { size = Size.Octets octets; access = Access.Counts } }
    {
        Form {
            size: Size::Octets(octets),
            access: Access::Counts,
        }
    }
}

/// Binary inputs and binary output status.
#[tactic(auto, unfolding(crate::specs::Library::object_of))]
fn bit_of(variation: u8) -> Option<Form>
    ensures inputs { result ≡ form_of 1 variation }
    ensures outputs { result ≡ form_of 10 variation }
{
    match variation {
        1 => Some(Form::bits(1)),
        2 => Some(Form::octets(1)),
        _ => None,
    }
}

/// Double-bit binary inputs.
#[tactic(auto, unfolding(crate::specs::Library::object_of))]
fn double_of(variation: u8) -> Option<Form>
    ensures { result ≡ form_of 3 variation }
{
    match variation {
        1 => Some(Form::bits(2)),
        2 => Some(Form::octets(1)),
        _ => None,
    }
}

/// Events of binary and double-bit binary inputs.
#[tactic(auto, unfolding(crate::specs::Library::object_of))]
fn input_event_of(variation: u8) -> Option<Form>
    ensures inputs { result ≡ form_of 2 variation }
    ensures doubles { result ≡ form_of 4 variation }
{
    match variation {
        1 => Some(Form::octets(1)),
        2 => Some(Form::octets(7)),
        3 => Some(Form::octets(3)),
        _ => None,
    }
}

/// Events of binary output status and of commands to binary outputs.
#[tactic(auto, unfolding(crate::specs::Library::object_of))]
fn output_event_of(variation: u8) -> Option<Form>
    ensures status { result ≡ form_of 11 variation }
    ensures commands { result ≡ form_of 13 variation }
{
    match variation {
        1 => Some(Form::octets(1)),
        2 => Some(Form::octets(7)),
        _ => None,
    }
}

/// Control relay output blocks.
#[tactic(auto, unfolding(crate::specs::Library::object_of))]
fn relay_of(variation: u8) -> Option<Form>
    ensures { result ≡ form_of 12 variation }
{
    match variation {
        1 => Some(Form::command(11)),
        _ => None,
    }
}

/// Counters.
#[tactic(auto, unfolding(crate::specs::Library::object_of))]
fn counter_of(variation: u8) -> Option<Form>
    ensures { result ≡ form_of 20 variation }
{
    match variation {
        1 => Some(Form::octets(5)),
        2 => Some(Form::octets(3)),
        5 => Some(Form::octets(4)),
        6 => Some(Form::octets(2)),
        _ => None,
    }
}

/// Frozen counters.
#[tactic(auto, unfolding(crate::specs::Library::object_of))]
fn frozen_counter_of(variation: u8) -> Option<Form>
    ensures { result ≡ form_of 21 variation }
{
    match variation {
        1 => Some(Form::octets(5)),
        2 => Some(Form::octets(3)),
        5 => Some(Form::octets(11)),
        6 => Some(Form::octets(9)),
        9 => Some(Form::octets(4)),
        10 => Some(Form::octets(2)),
        _ => None,
    }
}

/// Events of counters and of frozen counters.
#[tactic(auto, unfolding(crate::specs::Library::object_of))]
fn counter_event_of(variation: u8) -> Option<Form>
    ensures counters { result ≡ form_of 22 variation }
    ensures frozen { result ≡ form_of 23 variation }
{
    match variation {
        1 => Some(Form::octets(5)),
        2 => Some(Form::octets(3)),
        5 => Some(Form::octets(11)),
        6 => Some(Form::octets(9)),
        _ => None,
    }
}

/// Analog inputs.
#[tactic(auto, unfolding(crate::specs::Library::object_of))]
fn analog_of(variation: u8) -> Option<Form>
    ensures { result ≡ form_of 30 variation }
{
    match variation {
        1 => Some(Form::octets(5)),
        2 => Some(Form::octets(3)),
        3 => Some(Form::octets(4)),
        4 => Some(Form::octets(2)),
        5 => Some(Form::octets(5)),
        6 => Some(Form::octets(9)),
        _ => None,
    }
}

/// Events of analog inputs and of analog outputs.
#[tactic(auto, unfolding(crate::specs::Library::object_of))]
fn analog_event_of(variation: u8) -> Option<Form>
    ensures inputs { result ≡ form_of 32 variation }
    ensures outputs { result ≡ form_of 42 variation }
{
    match variation {
        1 => Some(Form::octets(5)),
        2 => Some(Form::octets(3)),
        3 => Some(Form::octets(11)),
        4 => Some(Form::octets(9)),
        5 => Some(Form::octets(5)),
        6 => Some(Form::octets(9)),
        7 => Some(Form::octets(11)),
        8 => Some(Form::octets(15)),
        _ => None,
    }
}

/// Analog output status.
#[tactic(auto, unfolding(crate::specs::Library::object_of))]
fn analog_output_of(variation: u8) -> Option<Form>
    ensures { result ≡ form_of 40 variation }
{
    match variation {
        1 => Some(Form::octets(5)),
        2 => Some(Form::octets(3)),
        3 => Some(Form::octets(5)),
        4 => Some(Form::octets(9)),
        _ => None,
    }
}

/// Analog outputs.
#[tactic(auto, unfolding(crate::specs::Library::object_of))]
fn setpoint_of(variation: u8) -> Option<Form>
    ensures { result ≡ form_of 41 variation }
{
    match variation {
        2 => Some(Form::command(3)),
        _ => None,
    }
}

/// Common time of occurrence.
#[tactic(auto, unfolding(crate::specs::Library::object_of))]
fn common_time_of(variation: u8) -> Option<Form>
    ensures { result ≡ form_of 51 variation }
{
    match variation {
        1 => Some(Form::time(6)),
        2 => Some(Form::time(6)),
        _ => None,
    }
}

/// Octet strings and their events.
#[tactic(auto, unfolding(crate::specs::Library::object_of))]
fn octet_string_of(variation: u8) -> Option<Form>
    ensures strings { result ≡ form_of 110 variation }
    ensures events { result ≡ form_of 111 variation }
{
    match variation {
        0 => None,
        octets => Some(Form::octets(octets)),
    }
}

/// How the objects of a variation stand in a part, where it is known.
#[tactic(auto, using(crate::proofs::LibraryLaws::unknown))]
pub fn form_of(group: u8, variation: u8) -> Option<Form>
    ensures { result ≡ form_of group variation }
{
    match group {
        1 | 10 => bit_of(variation),
        2 | 4 => input_event_of(variation),
        3 => double_of(variation),
        11 | 13 => output_event_of(variation),
        12 => relay_of(variation),
        20 => counter_of(variation),
        21 => frozen_counter_of(variation),
        22 | 23 => counter_event_of(variation),
        30 => analog_of(variation),
        32 | 42 => analog_event_of(variation),
        40 => analog_output_of(variation),
        41 => setpoint_of(variation),
        51 => common_time_of(variation),
        110 | 111 => octet_string_of(variation),
        _ => None,
    }
}

/// How much room an object of a variation takes, where it is known.
pub fn length_of(group: u8, variation: u8) -> Option<Size>
    ensures { result ≡ option_map size_of (object_of group variation) }
{
    form_of(group, variation).map(|form| form.size)
}
