//! Names of columns.
use super::support::{at_last, column, holds, same};
use rp_value::{Kind, Table, TableFault, is_name_byte, upper_case_name};
use std::alloc::{AllocError, Global};
use std::process::Abort;
use std::test::Fail;

/// Whether the upper-case form of each text is the other one, or there is none where that is empty. A call that is refused is
/// made again.
fn have_upper_case(rt: &impl Abort, alloc: Global, forms: &[(&str, &str)]) -> Result<(), Fail> {
    for (text, form) in forms {
        let found = upper_case_name(alloc, text).or_else(|_| at_last(upper_case_name(
            alloc, text,
        )))?;
        let same = match found {
            Some(name) => name.as_str() == *form,
            None => form.is_empty(),
        };
        assert!(rt; same, "{text}");
    }
    Ok(())
}

#[test]
fn upper_case_names(rt: HostRuntime) -> Result<(), Fail> {
    let forms = [
        ("aB_1", "AB_1"),
        ("order", "ORDER"),
        ("_", "_"),
        ("", ""),
        ("1a", ""),
        ("a b", ""),
        ("a$", ""),
        ("aé", ""),
        ("\"a\"", ""),
    ];
    have_upper_case(&rt, rt.alloc(), &forms)
}

#[test]
fn bytes_of_names(rt: HostRuntime) {
    holds(&rt, b"azAZ09_".iter().all(|byte| is_name_byte(*byte)));
    holds(
        &rt,
        !b"@[`{/: $-.\xc3".iter().any(|byte| is_name_byte(*byte)),
    );
}

/// What a table of one column of this name is refused with, unless memory is out.
fn refusal(alloc: Global, name: &str) -> Result<Option<TableFault>, TableFault> {
    let fault = Table::new(alloc, heading(alloc, name)?).err();
    if fault == Some(TableFault::OutOfMemory) {
        return Err(TableFault::OutOfMemory);
    }
    Ok(fault)
}

/// One column of this name.
fn heading(alloc: Global, name: &str) -> Result<Vec<(String, Kind)>, AllocError> {
    let named = column(alloc, name, Kind::Int)?;
    Ok(vec![in alloc; named]?)
}

#[test]
fn names(rt: HostRuntime) -> Result<(), Fail> {
    let alloc = rt.alloc();
    let longest = "n".repeat(alloc, 128)?;
    let longer = "n".repeat(alloc, 129)?;
    same(&rt, refusal(alloc, longest.as_str())?, None);
    same(
        &rt,
        refusal(alloc, longer.as_str())?,
        Some(TableFault::BadName),
    );
    same(&rt, refusal(alloc, "")?, Some(TableFault::BadName));
    Ok(())
}
