// Section headers.
use crate::case::{Broken, Case, bits};
use gillacorn::headers::{
    gillacorn_alignment, gillacorn_characteristics, gillacorn_header, gillacorn_name_length,
};

pub(crate) fn header(case: &mut Case<'_>) -> Result<(), Broken> {
    let table = case.present_table()?;
    let ours = gillacorn_header(table, case.number()?);
    let header = ours.header;
    case.compare_byte(ours.code)?;
    case.compare_all(&header.name)?;
    case.compare_all(&[
        header.virtual_size,
        header.virtual_address,
        header.size_of_raw_data,
        header.pointer_to_raw_data,
        header.pointer_to_relocations,
        header.pointer_to_line_numbers,
    ])?;
    case.compare_all(&[header.number_of_relocations, header.number_of_line_numbers])?;
    case.compare(header.characteristics.0)
}

pub(crate) fn name(case: &mut Case<'_>) -> Result<(), Broken> {
    let table = case.present_table()?;
    let ours = gillacorn_name_length(table, case.number()?);
    case.compare_byte(ours)
}

pub(crate) fn flags(case: &mut Case<'_>) -> Result<(), Broken> {
    let ours = gillacorn_characteristics(case.number()?);
    let marks = [
        ours.executable,
        ours.initialized_data,
        ours.uninitialized_data,
        ours.other,
        ours.info,
        ours.remove,
        ours.comdat,
        ours.defer_speculative_exceptions,
        ours.global_pointer_relative,
        ours.purgeable,
        ours.locked,
        ours.preload,
        ours.lnk_nreloc_ovfl,
        ours.discardable,
        ours.not_cached,
        ours.not_paged,
        ours.shared,
        ours.execute,
        ours.read,
        ours.write,
    ];
    case.compare(bits(&marks))
}

pub(crate) fn alignment(case: &mut Case<'_>) -> Result<(), Broken> {
    let ours = gillacorn_alignment(case.number()?);
    case.compare_byte(ours.code)?;
    case.compare(ours.value)
}
