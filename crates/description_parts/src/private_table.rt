//! A private table of the description.

ghost use Rattle.std.specs.Prelude.{◌≡◌, option_map};
ghost use Rattle.description_parts.specs.Tables.{entry_in};

use crate::map_entry::MapEntry;
use description_values::PrivateSection;
use std::marker::Model;

/// Ready-made sections on a PID of their own, which the PMT of a program may name.
#[derive(Drop)]
pub struct PrivateTable {
    pub(crate) pid: u16,
    pub(crate) limit: u16,
    pub(crate) sections: Vec<PrivateSection>,
    pub(crate) entry: Option<MapEntry>,
}

impl Model for PrivateTable {
    ghost use Rattle.description_parts.specs.Described.{DescribedTable};

    ghost Value = { DescribedTable };

    ghost view = { λ t. record {
      pid = t.pid;
      limit = t.limit;
      sections = t.sections.items;
      entry = t.entry;
    } };
}

impl PrivateTable {
    /// Returns the PID of its sections.
    pub fn pid(&self) -> u16
        ensures { result ≡ self.now.pid }
    {
        self.pid
    }

    /// Returns the greatest time between two starts of a section, in ms.
    pub fn limit(&self) -> u16
        ensures { result ≡ self.now.limit }
    {
        self.limit
    }

    /// Returns the sections in their order.
    pub fn sections(&self) -> &[PrivateSection]
        ensures { result.now ≡ self.now.sections }
    {
        self.sections.as_slice()
    }

    /// Returns what names it in a PMT, if one does.
    pub fn entry(&self) -> Option<&MapEntry>
        ensures { option_map (λ e. e.now) result ≡ self.now.entry }
    {
        self.entry.as_ref()
    }

    /// Returns what names it in the PMT of the program of a number.
    pub fn entry_in(&self, number: u16) -> Option<&MapEntry>
        ensures { option_map (λ e. e.now) result ≡ entry_in number self.now }
    {
        match &self.entry {
            Some(entry) if entry.program == number => Some(entry),
            _ => None,
        }
    }
}
