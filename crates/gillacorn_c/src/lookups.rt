// OMAP tables: records and single translations. C has no Option: a table that may be missing is a mark and bytes.
ghost use Rattle.std.specs.Prelude.{◌≡◌};
ghost use Rattle.omap.specs.Lookup.{record_spec, lookup_spec};
ghost use Rattle.omap.specs.Quick.{quick_spec};
ghost use Rattle.gillacorn.specs.Code.{value_answer};
ghost use Rattle.gillacorn.specs.Lookups.{record_answer, quick_answer};

use gillacorn::code::ValueAnswer;
use gillacorn::lookups::{QuickAnswer, RecordAnswer};

#[unsafe(no_mangle)]
pub extern "C" fn gillacorn_record_at(table: &[u8], place: usize) -> RecordAnswer
    ensures { result ≡ record_answer (record_spec table.now place) }
{
    gillacorn::lookups::gillacorn_record_at(table, place)
}

#[unsafe(no_mangle)]
pub extern "C" fn gillacorn_lookup(present: bool, table: &[u8], address: u32) -> ValueAnswer
    ensures { result ≡ value_answer (lookup_spec present table.now address) }
{
    gillacorn::lookups::gillacorn_lookup(present, table, address)
}

#[unsafe(no_mangle)]
pub extern "C" fn gillacorn_quick_lookup(present: bool, table: &[u8], address: u32) -> QuickAnswer
    ensures { result ≡ quick_answer (quick_spec present table.now address) }
{
    gillacorn::lookups::gillacorn_quick_lookup(present, table, address)
}
