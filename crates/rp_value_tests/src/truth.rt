//! The three truth values, and judgements that a row still to come may change.
use crate::support::same;
use rp_value::{Judged, Tri};
use std::process::Abort;
use std::test::Fail;

/// Two truth values with their AND and their OR.
fn are_joined_so(rt: &impl Abort, table: &[(Tri, Tri, Tri, Tri)]) {
    for (left, right, least, greatest) in table {
        same(rt, left.and(*right), *least);
        same(rt, right.and(*left), *least);
        same(rt, left.or(*right), *greatest);
        same(rt, right.or(*left), *greatest);
    }
}

#[test]
fn three_truth_values(rt: HostRuntime) -> Result<(), Fail> {
    let table = [
        (Tri::True, Tri::True, Tri::True, Tri::True),
        (Tri::True, Tri::Unknown, Tri::Unknown, Tri::True),
        (Tri::True, Tri::False, Tri::False, Tri::True),
        (Tri::Unknown, Tri::Unknown, Tri::Unknown, Tri::Unknown),
        (Tri::Unknown, Tri::False, Tri::False, Tri::Unknown),
        (Tri::False, Tri::False, Tri::False, Tri::False),
    ];
    are_joined_so(&rt, &table);
    same(&rt, Tri::True.not(), Tri::False);
    same(&rt, Tri::False.not(), Tri::True);
    same(&rt, Tri::Unknown.not(), Tri::Unknown);
    Ok(())
}

/// Two judgements with their AND and their OR.
fn are_judged_so(rt: &impl Abort, table: &[(Judged, Judged, Judged, Judged)]) {
    for (left, right, both, either) in table {
        same(rt, left.and(*right), *both);
        same(rt, right.and(*left), *both);
        same(rt, left.or(*right), *either);
        same(rt, right.or(*left), *either);
    }
}

#[test]
fn a_decided_side_decides(rt: HostRuntime) -> Result<(), Fail> {
    let yes = Judged::Told(Tri::True);
    let no = Judged::Told(Tri::False);
    let unknown = Judged::Told(Tri::Unknown);
    let open = Judged::Open;
    let table = [
        (yes, yes, yes, yes),
        (yes, unknown, unknown, yes),
        (yes, no, no, yes),
        (yes, open, open, yes),
        (unknown, unknown, unknown, unknown),
        (unknown, no, no, unknown),
        (unknown, open, open, open),
        (no, no, no, no),
        (no, open, no, open),
        (open, open, open, open),
    ];
    are_judged_so(&rt, &table);
    same(&rt, yes.not(), no);
    same(&rt, no.not(), yes);
    same(&rt, unknown.not(), unknown);
    same(&rt, open.not(), open);
    Ok(())
}
