//! Goes through the cases of a folder in order of their names, runs each, and says which are well
//! and where another one differs.
#![tactic(auto)]

mod case;
mod difference;
mod folder;
mod report;
mod run;

use case::Case;
use difference::first_to_differ;
use folder::names_of_cases;
use report::{report, unread};
use run::run;
use std::io::Write;
use std::process::ExitCode;
use std::{env, io};

/// Runs the case of a name, writes what is to be said of it, and answers whether it is well.
fn try_case(rt: &HostRuntime, folder: &str, name: &str) -> io::Result<bool> {
    let alloc = rt.alloc();
    let case = match Case::read(rt, folder, name) {
        Ok(case) => case,
        Err(error) => {
            drop(error);
            rt.stdout().write_all(unread(alloc, name)?.as_slice())?;
            return Ok(false);
        }
    };
    let left = run(alloc, &case)?;
    let found = first_to_differ(&case, &left);
    let text = report(alloc, name, &case, &left, found)?;
    drop(left);
    drop(case);
    rt.stdout().write_all(text.as_slice())?;
    Ok(found.is_none())
}

/// Goes through all cases of a folder, and answers whether each is well.
fn try_cases(rt: &HostRuntime, folder: &str) -> io::Result<bool> {
    let mut all_well = true;
    for name in &names_of_cases(rt, folder)? {
        let well = try_case(rt, folder, name.as_str())?;
        all_well = all_well && well;
    }
    Ok(all_well)
}

/// The folder that the first word names.
fn folder_of_words(rt: &HostRuntime) -> io::Result<Option<String>> {
    Ok(env::args(rt)?.nth(1))
}

/// The status is 0 where each case is well, and 2 where no word names a folder.
fn main(rt: HostRuntime) -> io::Result<ExitCode> {
    let Some(folder) = folder_of_words(&rt)? else {
        return Ok(ExitCode::from(2));
    };
    if try_cases(&rt, folder.as_str())? {
        Ok(ExitCode::SUCCESS)
    } else {
        Ok(ExitCode::FAILURE)
    }
}
