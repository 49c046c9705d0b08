// OMAP tables: records and single translations. A table that may be missing has its mark beside it: C has no Option.
ghost use Rattle.std.specs.Prelude.{◌≡◌};
ghost use Rattle.lent.specs.Paper.{number, told};
ghost use Rattle.omap.specs.Lookup.{record_spec, lookup_spec};
ghost use Rattle.omap.specs.Quick.{told_quick, quick_spec};
ghost use Rattle.gillacorn.specs.Code.{value_answer};
ghost use Rattle.gillacorn.specs.Lookups.{record_answer, quick_answer};

use crate::code::{ValueAnswer, coded, value_answer};
use lent::{Refusal, SumRefusal, if_present};
use omap::{Entry, Quick};

#[repr(C)]
#[derive(Clone, Copy)]
pub struct RecordAnswer {
    pub code: u32,
    pub source: u32,
    pub target: u32,
}

// A translation beside its code, and the number of records probed for it.
#[repr(C)]
#[derive(Clone, Copy)]
pub struct QuickAnswer {
    pub code: u32,
    pub value: u32,
    pub probes: u32,
}

fn record_answer(answer: Result<Option<Entry>, Refusal>) -> RecordAnswer
    ensures { result ≡ record_answer (told number answer) }
{
    // One field at a time: both in one go pass through memory, and a question takes twice as long.
    let (code, source) = coded(answer.map(|found| found.map(|record| record.source)), 0);
    let (_, target) = coded(answer.map(|found| found.map(|record| record.target)), 0);
    RecordAnswer {
        code,
        source,
        target,
    }
}

pub fn gillacorn_record_at(table: &[u8], place: usize) -> RecordAnswer
    ensures { result ≡ record_answer (record_spec table.now place) }
{
    record_answer(omap::record_at(table, place))
}

#[tactic(auto, unfolding(omap::specs::Lookup::lookup_spec))]
pub fn gillacorn_lookup(present: bool, table: &[u8], address: u32) -> ValueAnswer
    ensures { result ≡ value_answer (lookup_spec present table.now address) }
{
    value_answer(omap::lookup(if_present(present, table), address))
}

// None has its probes too; a refusal has 0 there.
fn quick_answer(answer: Result<Quick, SumRefusal>) -> QuickAnswer
    ensures { result ≡ quick_answer (told_quick answer) }
{
    let (code, value) = coded(answer.map(|found| found.translation), 0);
    QuickAnswer {
        code,
        value,
        probes: answer.map_or(0, |found| found.probes),
    }
}

#[tactic(auto, unfolding(omap::specs::Quick::quick_spec))]
pub fn gillacorn_quick_lookup(present: bool, table: &[u8], address: u32) -> QuickAnswer
    ensures { result ≡ quick_answer (quick_spec present table.now address) }
{
    quick_answer(omap::quick_lookup(if_present(present, table), address))
}
