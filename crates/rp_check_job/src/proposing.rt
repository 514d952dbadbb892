//! The columns that are proposed for inputs.
use crate::found::Found;
use crate::inputs::Input;
use rp_command::{CheckJob, InputFormat};
use rp_explain_inputs::{explain_no_header, explain_proposal};
use rp_job::{InputForm, ProgramFault, columns_of, no_columns, tell};
use rp_proposal::{Proposal, propose_columns};
use rp_question::InputShape;
use rp_wording::{Pieces, shown_line, shown_text};
use std::alloc::{AllocError, Global};

/// Takes the columns that are proposed, which are the same for each input.
pub(crate) fn propose(
    rt: &HostRuntime,
    job: &CheckJob,
    form: &InputForm,
    inputs: &[Input<'_>],
    found: &mut Found,
) -> Result<(), ProgramFault> {
    if job.input.from == InputFormat::JsonLines {
        return Err(no_columns());
    }
    if inputs.is_empty() {
        return Err(ProgramFault::NothingToCheck);
    }
    let proposals = proposals_for(rt.alloc(), inputs, form)?;
    if !have_columns(form, inputs, proposals.as_slice(), found)? {
        return Ok(());
    }
    look_for_others(rt, inputs, proposals.as_slice())?;
    take_columns(form, inputs, proposals.as_slice(), found)
}

/// What is proposed for each input.
fn proposals_for(
    alloc: Global,
    inputs: &[Input<'_>],
    form: &InputForm,
) -> Result<Vec<Proposal>, AllocError> {
    let (delimiter, nulls) = (form.layout.delimiter, form.nulls.as_slice());
    let mut proposals = Vec::new(alloc);
    for input in inputs {
        proposals.push(propose_columns(alloc, input.bytes.as_slice(), delimiter, nulls)?)?;
    }
    Ok(proposals)
}

/// Whether each input has columns; says why one has none.
fn have_columns(
    form: &InputForm,
    inputs: &[Input<'_>],
    proposals: &[Proposal],
    found: &mut Found,
) -> Result<bool, AllocError> {
    let mut all = true;
    for (input, proposal) in inputs.iter().zip(proposals) {
        if proposal.columns.is_empty() {
            all = false;
            found.look_in(input.name)?;
            let bytes = input.bytes.as_slice();
            let report = explain_no_header(found.alloc, bytes, form.layout.delimiter);
            found.blame("csv", report);
        }
    }
    Ok(all)
}

/// Reports two inputs one after another that have other columns.
fn look_for_others(
    rt: &HostRuntime,
    inputs: &[Input<'_>],
    proposals: &[Proposal],
) -> Result<(), ProgramFault> {
    let mut before: Option<(&Input<'_>, &Proposal)> = None;
    for (input, proposal) in inputs.iter().zip(proposals) {
        if let Some((other, first)) = before
            && first.columns.as_str() != proposal.columns.as_str()
        {
            tell_columns(rt, other, first)?;
            tell_columns(rt, input, proposal)?;
            return Err(ProgramFault::Usage(
                "the files have other columns, or other kinds of them: give --columns",
            ));
        }
        before = Some((input, proposal));
    }
    Ok(())
}

/// Reports the columns of an input, as a shell takes them, behind the name of its file.
fn tell_columns(
    rt: &HostRuntime,
    input: &Input<'_>,
    proposal: &Proposal,
) -> Result<(), AllocError> {
    let mut line = Pieces::of(rt.alloc(), input.name.unwrap_or(""));
    line.push(": --columns ");
    line.push_shell_word(proposal.columns.as_str());
    tell(rt, &shown_line(rt.alloc(), line.text()?)?);
    Ok(())
}

/// Takes the columns, which are those of each input, and writes what is to be known of them.
fn take_columns(
    form: &InputForm,
    inputs: &[Input<'_>],
    proposals: &[Proposal],
    found: &mut Found,
) -> Result<(), ProgramFault> {
    for (input, proposal) in inputs.iter().zip(proposals) {
        found.look_in(input.name)?;
        tell_proposal(found, proposal, input.bytes.as_slice(), form);
    }
    if let Some(proposal) = proposals.first() {
        let columns = columns_of(found.alloc, proposal.columns.as_str())?;
        found.shape = Some(InputShape::Columns(columns));
        found.proposed = Some(String::from_str(found.alloc, proposal.columns.as_str())?);
    }
    Ok(())
}

/// Writes the columns that are proposed for bytes of this form, and what is to be known of them.
fn tell_proposal(found: &mut Found, proposal: &Proposal, bytes: &[u8], form: &InputForm) {
    let kind = if proposal.is_table {
        "a table"
    } else {
        "columns"
    };
    let mut line = Pieces::filled(found.alloc, "{} for this file: ", &[kind]);
    line.push_made(shown_text(found.alloc, proposal.columns.as_str()));
    line.push("\n");
    found.tell(line.finish());
    let (delimiter, nulls) = (form.layout.delimiter, form.nulls.as_slice());
    found
        .text
        .push_made(explain_proposal(found.alloc, bytes, delimiter, nulls));
}
