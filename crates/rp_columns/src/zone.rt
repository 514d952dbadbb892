//! Time zones, and how far their clocks are ahead of UTC.
ghost use Rattle.std.specs.Prelude.{◌≡◌, ◌<◌, ◌+ℤ◌, ◌*ℤ◌, pos, IfOk, IfErr, option_map};
ghost use Rattle.jiff_core.specs.Calendar.{IsEpochDay};
ghost use Rattle.jiff_core.specs.DateTime.{civil_nanos, civil_seconds};
ghost use Rattle.jiff_core.specs.Timestamp.{nanos_of_seconds};
ghost use Rattle.rp_columns.specs.Zones as spec;
ghost use Rattle.rp_columns.specs.declared.zone.ZoneFault.TheVariants.{OutOfMemory};

use crate::fault::ReadingFault;
use jiff_core::civil::{Date, DateTime, Time};
use jiff_tz::{AmbiguousOffset, Tzif};
use rp_value::Text;
use std::alloc::{AllocError, Global};
use std::marker::Model;
use std::rc::Rc;
use thiserror::Error;

/// Where the clocks stand that show the times of a column.
pub enum Zone {
    /// They are so many seconds ahead of UTC, always.
    Fixed(i32),
    /// They go by the rules of a region.
    Region(Region),
}

/// It is let go of by a call, wherever it is held.
impl Drop for Zone {
    fn drop(self) {
        match self {
            Zone::Fixed(_) => {}
            Zone::Region(_) => {}
        }
    }
}

/// A time zone of the IANA Time Zone Database, as `Europe/Berlin`.
pub struct Region {
    /// Its identifier in the database.
    pub name: Text,
    /// Its rules, once they are loaded.
    pub rules: Option<Rules>,
}

/// It is let go of by a call, wherever it is held.
impl Drop for Region {
    fn drop(self) {
        let Region { name: _, rules: _ } = self;
    }
}

/// The rules of a region, which its columns share. Contracts see them as their table.
pub struct Rules {
    table: Rc<Tzif>,
}

/// It is let go of by a call, wherever it is held.
impl Drop for Rules {
    fn drop(self) {
        let Rules { table: _ } = self;
    }
}

impl Model for Rules {
    ghost use Rattle.jiff_tz.specs.declared.tzif.Tzif.{Tzif as Table};

    ghost Value = { Table };

    ghost view = { λ r. r.table.value };
}

/// Why a region has no rules.
#[derive(Clone, Copy, Debug, PartialEq, Eq, Error)]
pub enum ZoneFault {
    /// The bytes are no TZif file (RFC 9636), or its rule disagrees with its table.
    #[error("Tzif")]
    Tzif,
    /// No memory was left. It says nothing of the bytes.
    #[error("out of memory")]
    OutOfMemory,
}

impl From<AllocError> for ZoneFault {
    ghost from_gives = { λ _ fault. fault ≡ OutOfMemory };

    fn from(_error: AllocError) -> ZoneFault {
        ZoneFault::OutOfMemory
    }
}

impl Rules {
    ghost use Rattle.std.specs.Prelude.{◌≡◌, IfOk, IfErr};
    ghost use Rattle.jiff_tz.specs.Tzif.{tzif_view};
    ghost use Rattle.jiff_tz.specs.TzifReader.{read_tzif};
    ghost use Rattle.rp_columns.specs.Zones.{AreNoRules, AreRulesOf};

    /// The rules that a TZif file has.
    pub(crate) fn read(alloc: Global, bytes: &[u8]) -> Result<Rules, ZoneFault>
        ensures ok { IfOk result (λ rules. AreRulesOf bytes.now rules) }
        ensures err { IfErr result (λ fault. fault ≡ ZoneFault.Tzif → AreNoRules bytes.now) }
    {
        match Tzif::parse(alloc, None, bytes) {
            Ok(table) => shared(alloc, table),
            Err(jiff_core::Error::OutOfMemory) => Err(ZoneFault::OutOfMemory),
            Err(_) => Err(ZoneFault::Tzif),
        }
    }

    /// Further owners of the rules.
    fn share(&self) -> Result<Rules, AllocError>
        ensures { IfOk result (λ rules. rules ≡ self.now) }
    {
        let table = self.table.clone()?;
        Ok(Rules { table })
    }

    /// The seconds by which clocks of the region are ahead of UTC at a second of a day that they show.
    fn ahead(&self, day: i32, second: u32) -> Result<i32, ReadingFault>
        requires day { IsEpochDay day }
        requires second { second < 86400 }
        ensures { result ≡ spec.ahead_by self.now (day *ℤ pos 86400 +ℤ pos second) }
    {
        only(self.table.to_ambiguous_offset(local_time(day, second)))
    }
}

/// The offset of a time that clocks show once.
fn only(offsets: AmbiguousOffset) -> Result<i32, ReadingFault>
    ensures { result ≡ spec.only offsets }
{
    match offsets {
        AmbiguousOffset::Unambiguous { offset } => Ok(offset.seconds),
        AmbiguousOffset::Gap { .. } => Err(ReadingFault::Gap),
        AmbiguousOffset::Fold { .. } => Err(ReadingFault::Fold),
    }
}

/// The rules of a table, for several owners.
fn shared(alloc: Global, table: Tzif) -> Result<Rules, ZoneFault>
    ensures ok { IfOk result (λ rules. rules ≡ table) }
    ensures err { IfErr result (λ fault. fault ≡ ZoneFault.OutOfMemory) }
{
    match Rc::new(alloc, table) {
        Ok(table) => Ok(Rules { table }),
        Err(failed) => {
            drop(failed);
            Err(ZoneFault::OutOfMemory)
        }
    }
}

/// What clocks show at a second of a day.
fn local_time(day: i32, second: u32) -> DateTime
    requires day { IsEpochDay day }
    requires second { second < 86400 }
    ensures seconds { civil_seconds result ≡ day *ℤ pos 86400 +ℤ pos second }
    ensures nanoseconds { civil_nanos result ≡ nanos_of_seconds (civil_seconds result) }
{
    match Date::from_unix_epoch_day(day as i64) {
        Ok(date) => DateTime {
            date,
            time: Time::from_second(second, 0),
        },
        Err(_) => unreachable!(),
    }
}

impl Region {
    ghost use Rattle.std.specs.Prelude.{◌≡◌, IfOk};

    /// An equal region, which shares its rules.
    fn share(&self) -> Result<Region, AllocError>
        ensures { IfOk result (λ region. region ≡ self.now) }
    {
        let rules = share_if_any(&self.rules)?;
        let name = self.name.share()?;
        Ok(Region { name, rules })
    }

    /// The region with these rules, where it is the one of this name.
    fn with_rules(&self, name: &str, rules: &Rules) -> Result<Region, AllocError>
        ensures { IfOk result (λ region. region ≡ spec.region_with name.now rules.now self.now) }
    {
        if self.name.as_str() == name {
            return Ok(Region {
                name: self.name.share()?,
                rules: Some(rules.share()?),
            });
        }
        self.share()
    }
}

/// Further owners of rules, where there are any.
fn share_if_any(rules: &Option<Rules>) -> Result<Option<Rules>, AllocError>
    ensures { IfOk result (λ shared. shared ≡ rules.now) }
{
    match rules {
        Some(rules) => Ok(Some(rules.share()?)),
        None => Ok(None),
    }
}

impl Zone {
    ghost use Rattle.std.specs.Prelude.{◌≡◌, ◌<◌, ◌+ℤ◌, ◌*ℤ◌, pos};
    ghost use Rattle.jiff_core.specs.Calendar.{IsEpochDay};

    /// The seconds by which clocks of the zone are ahead of UTC at a second of a day that they show.
    fn ahead(&self, day: i32, second: u32) -> Result<i32, ReadingFault>
        requires day { IsEpochDay day }
        requires second { second < 86400 }
        ensures { result ≡ spec.ahead_of self.now (day *ℤ pos 86400 +ℤ pos second) }
    {
        match self {
            Zone::Fixed(seconds) => Ok(*seconds),
            Zone::Region(region) => match &region.rules {
                Some(rules) => rules.ahead(day, second),
                None => Err(ReadingFault::NoOffset),
            },
        }
    }
}

/// An equal zone, where there is one. It shares its rules.
pub(crate) fn zone_shared(zone: &Option<Zone>) -> Result<Option<Zone>, AllocError>
    ensures { IfOk result (λ shared. shared ≡ zone.now) }
{
    match zone {
        Some(Zone::Region(region)) => Ok(Some(Zone::Region(region.share()?))),
        Some(Zone::Fixed(seconds)) => Ok(Some(Zone::Fixed(*seconds))),
        None => Ok(None),
    }
}

/// A zone with these rules, where it is the region of this name; none where there is none.
pub(crate) fn zone_with(
    zone: &Option<Zone>,
    name: &str,
    rules: &Rules,
) -> Result<Option<Zone>, AllocError>
    ensures { IfOk result (λ with. with ≡ option_map (spec.zone_with name.now rules.now) zone.now) }
{
    match zone {
        Some(Zone::Region(region)) => Ok(Some(Zone::Region(region.with_rules(name, rules)?))),
        Some(Zone::Fixed(seconds)) => Ok(Some(Zone::Fixed(*seconds))),
        None => Ok(None),
    }
}

/// The seconds by which a local time is ahead of UTC: what is written, or what the zone says where nothing is.
pub(crate) fn ahead_in(
    written: Option<i32>,
    zone: &Option<Zone>,
    day: i32,
    second: u32,
) -> Result<i32, ReadingFault>
    requires day { IsEpochDay day }
    requires second { second < 86400 }
    ensures { result ≡ spec.ahead_in written zone.now day second }
{
    match (written, zone) {
        (Some(written), _) => Ok(written),
        (None, Some(zone)) => zone.ahead(day, second),
        (None, None) => Err(ReadingFault::NoOffset),
    }
}
