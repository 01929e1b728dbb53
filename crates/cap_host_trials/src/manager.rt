// Rows that ask the manager alone.
use crate::fault::Fault;
use crate::row::{Words, number};
use crate::trial::Trial;
use cap_base::DataSet;
use cap_entries::{HostEntry, RowSet};
use cap_host_answers::plan_setup;
use cap_manager::answer_status;
use std::alloc::Global;
use std::string::String;

// The sets that were published.
fn sets(alloc: Global, entries: &[HostEntry]) -> Result<Vec<RowSet>, Fault> {
    let mut all = Vec::new(alloc);
    for entry in entries {
        if let HostEntry::Published { rows, .. } = entry {
            all.push(rows.clone()?)?;
        }
    }
    Ok(all)
}

fn data_of(word: &str) -> DataSet {
    match word {
        "AQPR" => DataSet::Aqpr,
        "MGTP" => DataSet::Mgtp,
        _ => DataSet::Strp,
    }
}

/// `manager STRP 0 0 0`: what the manager gives to a status report, also one for data that no terminal asks for.
pub(crate) fn manager(alloc: Global, trial: &Trial, words: Words<'_>) -> Result<String, Fault> {
    let [wanted, in_force, staged, parts, _, _, _] = words;
    let sets = sets(alloc, &trial.entries)?;
    let plan = plan_setup(trial.host.setup());
    let reply = answer_status(
        alloc,
        &sets,
        &plan,
        data_of(wanted),
        number(in_force),
        number(staged),
        number(parts),
    )?;
    Ok(format!(in alloc; "{reply:?}")?)
}
