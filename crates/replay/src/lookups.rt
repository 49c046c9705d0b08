// OMAP tables, records and single translations.
use crate::case::{Broken, Case};
use gillacorn::lookups::{gillacorn_lookup, gillacorn_quick_lookup, gillacorn_record_at};

pub(crate) fn record_at(case: &mut Case<'_>) -> Result<(), Broken> {
    let table = case.present_table()?;
    let ours = gillacorn_record_at(table, case.number()?);
    case.compare_byte(ours.code)?;
    case.compare_all(&[ours.source, ours.target])
}

pub(crate) fn lookup(case: &mut Case<'_>) -> Result<(), Broken> {
    let (present, table) = case.table()?;
    let ours = gillacorn_lookup(present, table, case.number()?);
    case.compare_byte(ours.code)?;
    case.compare(ours.value)
}

pub(crate) fn quick_lookup(case: &mut Case<'_>) -> Result<(), Broken> {
    let (present, table) = case.table()?;
    let ours = gillacorn_quick_lookup(present, table, case.number()?);
    case.compare_byte(ours.code)?;
    case.compare_all(&[ours.value, ours.probes])
}
