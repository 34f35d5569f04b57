//! One table of a settings file, and what stands at its keys.
ghost use Rattle.std.specs.Prelude.{◌≡◌, IfSome, min, map, option_map, option_copied, unwrap_or, is_some, bytes_eq, zip};
ghost use Rattle.std.specs.List.{position_from};
ghost use Rattle.toml.specs.Data.{get_member};
ghost use Rattle.toml.specs.View.{view, table_view};
ghost use Rattle.gw_model.specs.Rule.{IsClockRule};
ghost use Rattle.gw_entries.specs.Answers.{Passes, first, wrong_of};
ghost use Rattle.gw_entries.specs.Complaints.{complaint, placed, present, has_type, is_allowed};
ghost use Rattle.gw_entries.specs.Complaints.{fault_left_out, wrong_by, key_wrongs, rules_wrongs};
ghost use Rattle.gw_entries.specs.Faults.{refusal_of, refused};
ghost use Rattle.gw_entries.specs.Keys.{absence_seen, content_seen, datum_seen, rule_seen, words_by};
ghost use Rattle.gw_entries.specs.Tables.{rules_of, known_keys};
ghost use Rattle.gw_entries.specs.Texts.{among};
ghost use Rattle.gw_entries.specs.Values.{value_or, value_at as value_in, integer_in, text_in, flag_in};
ghost use Rattle.gw_entries.specs.Values.{as_number, as_signed, as_text, as_flag, as_rule, rule_named};
ghost use Rattle.gw_entries.specs.declared.fault.Fault.TheVariants.{KindMismatch};

use crate::fault::{Fault, KeyFault, Section, SettingsFault};
use crate::key::{Absence, Key, KeyContent};
use crate::keys::{check_keys, key_named, keys_of};
use crate::rule::rule_read;
use gw_model::ClockRule;
use std::alloc::Global;
use toml::{Table, Value};

/// The value at a key.
pub fn value_at<'a>(table: &'a Table, key: &str) -> Option<&'a Value>
    ensures { option_map (λ v. view v.now) result ≡ get_member key.now (table_view table.now) }
{
    table.get(key)
}

/// What stands at a key, or is meant where it's left out.
#[derive(Clone, Copy)]
pub(crate) enum Datum<'a> {
    There(&'a Value),
    Number(i64),
    Text(&'static str),
    No,
    Nothing,
}

impl<'a> Datum<'a> {
    /// The whole number that it is.
    fn integer(self) -> Option<i64>
        ensures { result ≡ integer_in (datum_seen self.entry) }
    {
        match self {
            Datum::There(value) => value.as_integer(),
            Datum::Number(number) => Some(number),
            Datum::Text(_) | Datum::No | Datum::Nothing => None,
        }
    }

    /// The text that it is.
    fn text(self) -> Option<&'a str>
        ensures { option_copied result ≡ text_in (datum_seen self.entry) }
    {
        match self {
            Datum::There(value) => value.as_str(),
            Datum::Text(text) => Some(text),
            Datum::Number(_) | Datum::No | Datum::Nothing => None,
        }
    }

    /// The answer that it is.
    fn flag(self) -> Option<bool>
        ensures { result ≡ flag_in (datum_seen self.entry) }
    {
        match self {
            Datum::There(value) => value.as_bool(),
            Datum::No => Some(false),
            Datum::Number(_) | Datum::Text(_) | Datum::Nothing => None,
        }
    }
}

/// What stands at a key of a table, or is meant there.
#[tactic(auto, unfolding(crate::specs::Values::value_or))]
fn value_meant<'a>(table: &'a Table, key: &Key) -> Datum<'a>
    ensures { datum_seen result ≡ value_or (absence_seen key.now.absence) key.now.name.now (table_view table.now) }
{
    if let Some(value) = value_at(table, key.name) {
        return Datum::There(value);
    }
    match key.absence {
        Absence::Required | Absence::UsualType | Absence::OfStation | Absence::NoRule =>
            Datum::Nothing,
        Absence::Number(number) => Datum::Number(number),
        Absence::Text(text) => Datum::Text(text),
        Absence::No => Datum::No,
    }
}

/// Whether a value is of the type that may stand there.
fn has_type(content: KeyContent, datum: Datum) -> bool
    ensures { result ≡ has_type (content_seen content) (datum_seen datum.entry) }
{
    match content {
        KeyContent::Word(_) | KeyContent::Text | KeyContent::PosixRule => datum.text().is_some(),
        KeyContent::Flag => datum.flag().is_some(),
        _ => datum.integer().is_some(),
    }
}

/// The place of a text among some words.
fn place_of(words: &[&'static str], text: &str) -> Option<usize>
    ensures { result ≡ position_from (λ word. bytes_eq text.now word.now) 0 words.now }
{
    for (place, &word) in words.iter().enumerate() {
        if text == word {
            return Some(place);
        }
    }
    None
}

/// A table of a section.
#[derive(Clone, Copy)]
pub(crate) struct Entry<'a> {
    pub table: &'a Table,
    pub section: Section,
}

impl<'a> Entry<'a> {
    /// What stands at a key, or is meant there.
    fn value(self, name: &str) -> Datum<'a>
        ensures { datum_seen result
            ≡ value_in (rules_of self.entry.section) name.now (table_view self.entry.table.now) }
    {
        match key_named(self.section, name) {
            Some(key) => value_meant(self.table, key),
            None => Datum::Nothing,
        }
    }

    /// A whole number.
    pub(crate) fn integer(self, name: &str) -> i64
        ensures { result
            ≡ as_signed (value_in (rules_of self.entry.section) name.now (table_view self.entry.table.now)) }
    {
        self.value(name).integer().unwrap_or(0)
    }

    /// A whole number that isn't negative.
    pub(crate) fn number(self, name: &str) -> u64
        ensures { result
            ≡ as_number (value_in (rules_of self.entry.section) name.now (table_view self.entry.table.now)) }
    {
        self.integer(name).unsigned_abs()
    }

    /// A whole number that isn't negative; the largest of 16 bits, where it has more.
    pub(crate) fn number_u16(self, name: &str) -> u16
        ensures { result ≡ min
            (as_number (value_in (rules_of self.entry.section) name.now (table_view self.entry.table.now))) 65535 }
    {
        self.number(name).min(65_535) as u16
    }

    /// A whole number that isn't negative; the largest of 32 bits, where it has more.
    pub(crate) fn number_u32(self, name: &str) -> u32
        ensures { result ≡ min
            (as_number (value_in (rules_of self.entry.section) name.now (table_view self.entry.table.now))) 4294967295 }
    {
        self.number(name).min(4_294_967_295) as u32
    }

    /// A text.
    pub(crate) fn text(self, name: &str) -> &'a str
        ensures { result.now
            ≡ as_text (value_in (rules_of self.entry.section) name.now (table_view self.entry.table.now)) }
    {
        self.value(name).text().unwrap_or("")
    }

    /// Yes or no.
    pub(crate) fn flag(self, name: &str) -> bool
        ensures { result ≡ as_flag (value_in (rules_of self.entry.section) name.now (table_view self.entry.table.now)) }
    {
        self.value(name).flag().unwrap_or(false)
    }

    /// A rule of POSIX's TZ variable, if one stands there.
    pub(crate) fn rule(self, name: &str) -> Option<ClockRule>
        ensures value { result
            ≡ as_rule (value_in (rules_of self.entry.section) name.now (table_view self.entry.table.now)) }
        ensures within { IfSome result IsClockRule }
    {
        rule_read(self.value(name).text()?)
    }

    /// What a word stands for: the meaning at its place among the words of its key, or else another one.
    pub(crate) fn word<T: Copy>(self, name: &str, meanings: &[T], other: T) -> T
        ensures { result
            ≡ unwrap_or (among (zip (words_by (rule_named (rules_of self.entry.section) name.now)) meanings.now)
            (as_text (value_in (rules_of self.entry.section) name.now (table_view self.entry.table.now)))) other }
    {
        let Some(key) = key_named(self.section, name) else {
            return other;
        };
        match place_of(key.content.words(), self.text(name)) {
            Some(place) => meanings.get(place).copied().unwrap_or(other),
            None => other,
        }
    }

    /// The first of some keys that stands there.
    pub(crate) fn first_of(self, names: &[&'static str]) -> Option<&'static str>
        ensures { option_map (λ name. name.now) result
            ≡ first (present (table_view self.entry.table.now) (map (λ name. name.now) names.now)) }
    {
        for &name in names {
            if value_at(self.table, name).is_some() {
                return Some(name);
            }
        }
        None
    }

    /// Whether a value of the right type may stand there, where there are so many outstations.
    fn allows(self, content: KeyContent, datum: Datum, outstations: u8) -> bool
        ensures { result ≡ is_allowed outstations (rules_of self.entry.section) (table_view self.entry.table.now)
            (content_seen content) (datum_seen datum.entry) }
    {
        let number = datum.integer().unwrap_or(0);
        match content {
            KeyContent::Number(first, last) => first <= number && number <= last,
            KeyContent::NumberTo(first, key) => first <= number && number <= self.integer(key),
            KeyContent::NumberBelow(first, key) => first <= number && number < self.integer(key),
            KeyContent::Outstation => 0 <= number && number < i64::from(outstations),
            KeyContent::Word(words) => words.contains(&datum.text().unwrap_or("")),
            KeyContent::PosixRule => rule_read(datum.text().unwrap_or("")).is_some(),
            KeyContent::Text | KeyContent::Flag => true,
        }
    }

    /// What is wrong at a key, where there are so many outstations.
    #[tactic(auto, unfolding(crate::specs::Complaints::wrong_by))]
    fn fault_at(self, key: &Key, outstations: u8) -> Option<KeyFault>
        ensures { option_map wrong_of result
            ≡ wrong_by outstations (rules_of self.entry.section) (table_view self.entry.table.now) (rule_seen key.now) }
    {
        let datum = value_meant(self.table, key);
        let fault = match datum {
            Datum::Nothing => missing(key.absence)?,
            _ if !has_type(key.content, datum) => Fault::WrongType,
            _ if !self.allows(key.content, datum, outstations) => Fault::OutOfRange,
            _ => return None,
        };
        Some(KeyFault {
            fault,
            key: key.name,
        })
    }

    /// The first that is wrong at its keys, where there are so many outstations.
    fn first_fault(self, outstations: u8) -> Option<KeyFault>
        ensures { option_map wrong_of result
            ≡ first (rules_wrongs outstations (rules_of self.entry.section) (table_view self.entry.table.now)) }
    {
        for key in keys_of(self.section) {
            if let Some(fault) = self.fault_at(key, outstations) {
                return Some(fault);
            }
        }
        None
    }

    /// Refuses the first that is wrong at the keys of the entry at a position, where there are so many outstations.
    pub(crate) fn check(
        self,
        alloc: Global,
        position: usize,
        outstations: u8,
    ) -> Result<(), SettingsFault>
        ensures { Passes result (placed self.entry.section position
            (key_wrongs outstations (known_keys self.entry.section) (rules_of self.entry.section)
            (table_view self.entry.table.now))) }
    {
        check_keys(alloc, self.table, self.section, position)?;
        match self.first_fault(outstations) {
            Some(fault) => Err(fault.at(self.section, position)),
            None => Ok(()),
        }
    }

    /// The entry at a position has a key that doesn't fit its others.
    pub(crate) fn mismatch_fault(self, key: &'static str, position: usize) -> SettingsFault
        ensures { refusal_of result ≡ refused (complaint self.entry.section position (KindMismatch, key.now)) }
    {
        let fault = KeyFault {
            fault: Fault::KindMismatch,
            key,
        };
        fault.at(self.section, position)
    }
}

/// What is wrong where a key is left out that has no default.
fn missing(absence: Absence) -> Option<Fault>
    ensures { result ≡ fault_left_out (absence_seen absence) }
{
    match absence {
        Absence::Required => Some(Fault::Missing),
        _ => None,
    }
}
