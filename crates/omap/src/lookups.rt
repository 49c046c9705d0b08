// The records of a table, and the translation of a single address.
ghost use Rattle.std.specs.Prelude.{◌≡◌, ◌/◌, ◌<◌, length, is_some};
ghost use Rattle.lent.specs.Paper.{number, sum_number, told, fitted};
ghost use Rattle.lent.specs.Search.{binary_search};
ghost use Rattle.lent.specs.Table.{bytes_of};
ghost use Rattle.omap.specs.Records.{entry_at, moved};
ghost use Rattle.omap.specs.Lookup.{record_spec, lookup_spec};
ghost use Rattle.omap.specs.Quick.{record_before, told_quick, quick_spec};

use lent::{OMAP, Refusal, SumRefusal, binary_search, u32_at};

// A record: an address, and where it and those after it go. A target of 0 is nowhere.
#[derive(Clone, Copy)]
pub struct Entry {
    pub source: u32,
    pub target: u32,
}

// A translation by the search alone, or none, and the number of records that were probed for it.
#[derive(Clone, Copy)]
pub struct Quick {
    pub translation: Option<u32>,
    pub probes: u32,
}

// The record at a place that the table has.
pub(crate) fn entry_at(table: &[u8], place: usize) -> Entry
    requires { place < length table.now / 8 }
    ensures { result ≡ entry_at table.now place }
{
    let at = OMAP.width * place;
    Entry {
        source: u32_at(table, at),
        target: u32_at(table, at + 4),
    }
}

// The record at a place: none where the place is past the last.
#[tactic(auto, unfolding(crate::specs::Lookup::record_spec))]
pub fn record_at(table: &[u8], place: usize) -> Result<Option<Entry>, Refusal>
    ensures { told number result ≡ record_spec table.now place }
{
    if OMAP.has(table, place)? {
        Ok(Some(entry_at(table, place)))
    } else {
        Ok(None)
    }
}

// The translation of an address by the last record whose source is at most the address: none where the table maps it
// to nowhere. With no table, the address itself.
#[tactic(auto, unfolding(crate::specs::Lookup::lookup_spec))]
pub fn lookup(table: Option<&[u8]>, address: u32) -> Result<Option<u32>, SumRefusal>
    ensures { told sum_number result ≡ lookup_spec (is_some table.entry) (bytes_of table.entry) address }
{
    let Some(records) = table else {
        return Ok(Some(address));
    };
    OMAP.check(records)?;
    let found = binary_search(records, OMAP.width, address);
    translate_before(records, found.place, address)
}

// What the record just before the place that a search ends at makes of the address.
fn translate_before(table: &[u8], place: usize, address: u32) -> Result<Option<u32>, SumRefusal>
    requires { place ≡ (binary_search 8 table.now address).place }
    ensures { told sum_number result ≡ fitted (moved address (record_before table.now place)) }
{
    let Some(at) = place.checked_sub(1) else {
        return Ok(None);
    };
    let Entry { source, target } = entry_at(table, at);
    if target == 0 {
        return Ok(None);
    }
    let into = address - source;
    match into.checked_add(target) {
        Some(translation) => Ok(Some(translation)),
        None => Err(SumRefusal::TooLarge),
    }
}

// The translation by the search alone, on any table, and how many records it probed. A table that is not in order is
// not refused: the search's steps decide. A refusal has no number of probes.
#[tactic(auto, unfolding(crate::specs::Quick::quick_spec))]
pub fn quick_lookup(table: Option<&[u8]>, address: u32) -> Result<Quick, SumRefusal>
    ensures { told_quick result ≡ quick_spec (is_some table.entry) (bytes_of table.entry) address }
{
    let Some(records) = table else {
        return Ok(Quick {
            translation: Some(address),
            probes: 0,
        });
    };
    OMAP.shape(records)?;
    let found = binary_search(records, OMAP.width, address);
    let translation = translate_before(records, found.place, address)?;
    let probes = found.probes as u32;
    Ok(Quick {
        translation,
        probes,
    })
}
