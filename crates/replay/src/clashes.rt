// The clash check and the way back.
use crate::case::{Broken, Case};
use gillacorn::clashes::{gillacorn_clash, gillacorn_way_back};

pub(crate) fn clash(case: &mut Case<'_>) -> Result<(), Broken> {
    let table = case.present_table()?;
    let ours = gillacorn_clash(table, case.number()?, case.number()?);
    case.compare_byte(ours.code)?;
    case.compare_all(&[ours.first, ours.second])
}

pub(crate) fn way_back(case: &mut Case<'_>) -> Result<(), Broken> {
    let table = case.present_table()?;
    let ours = gillacorn_way_back(table, case.number()?, case.number()?, case.number()?);
    case.compare_byte(ours.code)?;
    case.compare_all(&[ours.sources, ours.first, ours.second])
}
