//! The keys that the tables may have, in the order in which they are judged.
ghost use Rattle.std.specs.Prelude.{◌≡◌, not, find, map, option_map, bytes_eq, string_bytes, option_copied};
ghost use Rattle.std.specs.BTreeMap.{keys};
ghost use Rattle.std.specs.List.{list_any};
ghost use Rattle.toml.specs.View.{table_view};
ghost use Rattle.gw_entries.specs.Answers.{Passes};
ghost use Rattle.gw_entries.specs.Complaints.{placed, wrong_at, unknown_keys};
ghost use Rattle.gw_entries.specs.Keys.{rule_seen};
ghost use Rattle.gw_entries.specs.Tables.{top_keys, known_keys, rules_of};
ghost use Rattle.gw_entries.specs.Values.{rule_named};
ghost use Rattle.gw_entries.specs.declared.fault.Fault.TheVariants.{UnknownKey};

use crate::fault::{Fault, KeyName, KeyPlace, Section, SettingsFault};
use crate::key::{Absence, Key, KeyContent};
use std::alloc::Global;
use toml::Table;

/// A table of keys: at each row a name, what may stand there, and what is meant where it's left out.
macro_rules! keys {
    ($($name:literal: $content:ident $(($($given:expr),*))?, $absence:ident $(($default:expr))?;)*) => {
        [$(Key {
            name: $name,
            content: KeyContent::$content $(($($given),*))?,
            absence: Absence::$absence $(($default))?,
        }),*]
    };
}

const TOP_KEYS: [&str; 4] = ["station", "outstation", "point", "control"];

static NO_KEYS: [Key; 0] = [];

static STATION_KEYS: [Key; 13] = keys! {
    "common_address": Number(1, 65_534), Required;
    "master_address": Number(0, 65_519), Number(1024);
    "offset_minutes": Number(-840, 840), Number(0);
    "rule": PosixRule, NoRule;
    "k": Number(1, 32_767), Number(12);
    "w": NumberTo(1, "k"), Number(8);
    "t1_ms": Number(1, 255_000), Number(15_000);
    "t2_ms": NumberBelow(1, "t1_ms"), Number(10_000);
    "t3_ms": Number(1, 255_000), Number(20_000);
    "queue": Number(1, 65_536), Number(1000);
    "select_ms": Number(1, 600_000), Number(10_000);
    "recorder": Number(1, 65_536), Number(1024);
    "listen": Text, Text("127.0.0.1:2404");
};

static OUTSTATION_KEYS: [Key; 8] = keys! {
    "address": Number(0, 65_519), Required;
    "connect": Text, Text("127.0.0.1:20000");
    "poll_ms": Number(1, 86_400_000), Number(2000);
    "integrity_ms": Number(0, 86_400_000), Number(3_600_000);
    "response_ms": Number(1, 600_000), Number(5000);
    "unsolicited": Flag, No;
    "lan_time": Flag, No;
    "common_address": Number(1, 65_534), OfStation;
};

static POINT_KEYS: [Key; 7] = keys! {
    "outstation": Outstation, Required;
    "kind": Word(&["binary", "output", "double", "counter", "analog"]), Required;
    "index": Number(0, 65_535), Required;
    "address": Number(1, 16_777_215), Required;
    "show": Word(&["single", "double", "scaled", "word", "total"]), UsualType;
    "num": Number(1, 32_767), Number(1);
    "den": Number(1, 32_767), Number(1);
};

static CONTROL_KEYS: [Key; 11] = keys! {
    "outstation": Outstation, Required;
    "show": Word(&["single", "double", "setpoint"]), Required;
    "index": Number(0, 65_535), Required;
    "address": Number(1, 16_777_215), Required;
    "select": Flag, No;
    "mode": Word(&["direct", "sbo"]), Text("direct");
    "rest": Word(&["latch", "short"]), Text("latch");
    "short_ms": Number(1, 3_600_000), Number(500);
    "long_ms": Number(1, 3_600_000), Number(2000);
    "num": Number(1, 32_767), Number(1);
    "den": Number(1, 32_767), Number(1);
};

/// The keys that a file may have at the top.
fn top_keys() -> &'static [&'static str]
    ensures { map (λ key. key.now) result.now ≡ top_keys }
{
    &TOP_KEYS
}

/// The keys that an entry of a section may have; none for the top, which has no entries.
pub fn keys_of(section: Section) -> &'static [Key]
    ensures { map rule_seen result.now ≡ rules_of section }
{
    match section {
        Section::Top => &NO_KEYS,
        Section::Station => &STATION_KEYS,
        Section::Outstation => &OUTSTATION_KEYS,
        Section::Point => &POINT_KEYS,
        Section::Control => &CONTROL_KEYS,
    }
}

/// The row of a key of a section.
pub(crate) fn key_named(section: Section, name: &str) -> Option<&'static Key>
    ensures { option_map (λ key. rule_seen key.now) result ≡ rule_named (rules_of section) name.now }
{
    for key in keys_of(section) {
        if key.name == name {
            return Some(key);
        }
    }
    None
}

/// Whether the table of a section may have a key.
fn is_known(section: Section, name: &str) -> bool
    ensures { result ≡ list_any (bytes_eq name.now) (known_keys section) }
{
    match section {
        Section::Top => top_keys().contains(&name),
        _ => key_named(section, name).is_some(),
    }
}

/// The first key of a table that its section doesn't know.
fn unknown_key(table: &Table, section: Section) -> Option<&String>
    ensures { option_copied result
        ≡ find (λ key. not (list_any (bytes_eq (string_bytes key)) (known_keys section))) (keys table.now) }
{
    table.keys().find(|key| !is_known(section, key.as_str()))
}

/// Refuses the first key of a table that its section doesn't know.
pub fn check_keys(
    alloc: Global,
    table: &Table,
    section: Section,
    position: usize,
) -> Result<(), SettingsFault>
    ensures { Passes result
        (placed section position (wrong_at UnknownKey (unknown_keys (known_keys section) (table_view table.now)))) }
{
    match unknown_key(table, section) {
        None => Ok(()),
        Some(key) => {
            let key = KeyName::Unknown(String::from_str(alloc, key.as_str())?);
            Err(SettingsFault::Refused(
                Fault::UnknownKey,
                KeyPlace {
                    section,
                    position,
                    key,
                },
            ))
        }
    }
}
