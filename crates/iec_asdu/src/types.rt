//! The types of process information in monitor direction that the gateway has (IEC 60870-5-101, 7.2.1 and
//! 7.3.1), without time and with the time tag CP56Time2a.
ghost use Rattle.std.specs.Prelude.{◌≡◌, ◌≤◌, true, false, length, option_map, ok_or};
ghost use Rattle.gw_model.specs.Clocks.{Clocks};
ghost use Rattle.gw_time.specs.Rule.{clocks_of};

use crate::elements::{BitString, CounterReading, DoublePoint, ScaledValue, SinglePoint};
use crate::fault::AsduFault;
use crate::sizes::TAG_OCTETS;
use gw_model::{Element, Quality, Stamp, Value};
use gw_time::{Zone, from_tag};

/// Single-point information.
const M_SP_NA_1: u8 = 1;

/// Double-point information.
const M_DP_NA_1: u8 = 3;

/// Bit string of 32 bits.
const M_BO_NA_1: u8 = 7;

/// Measured value, scaled.
const M_ME_NB_1: u8 = 11;

/// Integrated totals.
const M_IT_NA_1: u8 = 15;

/// Single-point information with time tag.
const M_SP_TB_1: u8 = 30;

/// Double-point information with time tag.
const M_DP_TB_1: u8 = 31;

/// Bit string of 32 bits with time tag.
const M_BO_TB_1: u8 = 33;

/// Measured value, scaled, with time tag.
const M_ME_TE_1: u8 = 35;

/// Integrated totals with time tag.
const M_IT_TB_1: u8 = 37;

/// The information elements of process information.
#[derive(Clone, Copy, PartialEq)]
pub enum ElementKind {
    SinglePoint,
    DoublePoint,
    BitString,
    ScaledValue,
    CounterReading,
}

impl ElementKind {
    ghost use Rattle.iec_asdu.specs.Spelling.{element_kind};
    ghost use Rattle.iec_asdu.specs.Types.{element_length, element_value};

    /// The element that carries a value.
    pub fn of(value: Value) -> ElementKind
        ensures { result ≡ element_kind value }
    {
        match value {
            Value::Single(_) => ElementKind::SinglePoint,
            Value::Double(_) => ElementKind::DoublePoint,
            Value::Word(_) => ElementKind::BitString,
            Value::Scaled(_) => ElementKind::ScaledValue,
            Value::Total(_) => ElementKind::CounterReading,
        }
    }

    /// How many octets the element has.
    pub fn octets(self) -> usize
        ensures { result ≡ element_length self }
    {
        match self {
            ElementKind::SinglePoint => SinglePoint::LENGTH,
            ElementKind::DoublePoint => DoublePoint::LENGTH,
            ElementKind::BitString => BitString::LENGTH,
            ElementKind::ScaledValue => ScaledValue::LENGTH,
            ElementKind::CounterReading => CounterReading::LENGTH,
        }
    }

    /// The value and the quality that octets mean, or nothing where a reserved bit is set.
    pub fn read(self, octets: &[u8]) -> Option<(Value, Quality)>
        requires { length octets.now ≡ element_length self }
        ensures { result ≡ element_value self octets.now }
    {
        match self {
            ElementKind::SinglePoint => {
                let SinglePoint { on, quality } = SinglePoint::read(octets)?;
                Some((Value::Single(on), quality))
            }
            ElementKind::DoublePoint => {
                let DoublePoint { state, quality } = DoublePoint::read(octets)?;
                Some((Value::Double(state), quality))
            }
            ElementKind::BitString => {
                let BitString { word, quality } = BitString::read(octets)?;
                Some((Value::Word(word), quality))
            }
            ElementKind::ScaledValue => {
                let ScaledValue { value, quality } = ScaledValue::read(octets)?;
                Some((Value::Scaled(value), quality))
            }
            ElementKind::CounterReading => {
                let CounterReading { count, quality } = CounterReading::read(octets)?;
                Some((Value::Total(count), quality))
            }
        }
    }
}

/// A type by what its objects carry: an information element, and behind it a time tag or none.
#[derive(Clone, Copy)]
pub struct MonitorType {
    pub element: ElementKind,
    pub timed: bool,
}

impl MonitorType {
    ghost use Rattle.iec_asdu.specs.Asdu.{layout_of, monitor_types};
    ghost use Rattle.iec_asdu.specs.Types.{identification_by, layout_at, tag_length, type_length, tag_stamp};

    fn plain(element: ElementKind) -> MonitorType
        ensures { result ≡ record { element = element; timed = false } }
    {
        MonitorType {
            element,
            timed: false,
        }
    }

    fn with_tag(element: ElementKind) -> MonitorType
        ensures { result ≡ record { element = element; timed = true } }
    {
        MonitorType {
            element,
            timed: true,
        }
    }

    /// The type with an identification.
    pub fn of(identification: u8) -> Option<MonitorType>
        ensures { (clocks : Clocks) →
            option_map (layout_at clocks) result ≡ layout_of identification (monitor_types clocks) }
    {
        Some(match identification {
            M_SP_NA_1 => MonitorType::plain(ElementKind::SinglePoint),
            M_DP_NA_1 => MonitorType::plain(ElementKind::DoublePoint),
            M_BO_NA_1 => MonitorType::plain(ElementKind::BitString),
            M_ME_NB_1 => MonitorType::plain(ElementKind::ScaledValue),
            M_IT_NA_1 => MonitorType::plain(ElementKind::CounterReading),
            M_SP_TB_1 => MonitorType::with_tag(ElementKind::SinglePoint),
            M_DP_TB_1 => MonitorType::with_tag(ElementKind::DoublePoint),
            M_BO_TB_1 => MonitorType::with_tag(ElementKind::BitString),
            M_ME_TE_1 => MonitorType::with_tag(ElementKind::ScaledValue),
            M_IT_TB_1 => MonitorType::with_tag(ElementKind::CounterReading),
            _ => return None,
        })
    }

    /// Its identification.
    pub fn identification(self) -> u8
        ensures { result ≡ identification_by self.element self.timed }
    {
        match (self.element, self.timed) {
            (ElementKind::SinglePoint, false) => M_SP_NA_1,
            (ElementKind::SinglePoint, true) => M_SP_TB_1,
            (ElementKind::DoublePoint, false) => M_DP_NA_1,
            (ElementKind::DoublePoint, true) => M_DP_TB_1,
            (ElementKind::BitString, false) => M_BO_NA_1,
            (ElementKind::BitString, true) => M_BO_TB_1,
            (ElementKind::ScaledValue, false) => M_ME_NB_1,
            (ElementKind::ScaledValue, true) => M_ME_TE_1,
            (ElementKind::CounterReading, false) => M_IT_NA_1,
            (ElementKind::CounterReading, true) => M_IT_TB_1,
        }
    }

    /// How many octets element and time tag have.
    pub fn octets(self) -> usize
        ensures octets { result ≡ type_length self }
        ensures small { result ≤ 12 }
    {
        self.element.octets() + if self.timed { TAG_OCTETS } else { 0 }
    }

    /// The stamp that a time tag means, if the type has one.
    pub fn stamp(self, tag: &[u8], zone: &Zone) -> Result<Stamp, AsduFault>
        requires { length tag.now ≡ tag_length self.timed }
        ensures { result ≡ ok_or (tag_stamp (clocks_of zone.now) self.timed tag.now) AsduFault.Tag }
    {
        if !self.timed {
            return Ok(Stamp::Untimed);
        }
        let tag: &[u8; TAG_OCTETS] = tag.first_chunk().unwrap();
        match from_tag(tag, zone) {
            Ok(stamp) => Ok(stamp),
            Err(_) => Err(AsduFault::Tag),
        }
    }
}
