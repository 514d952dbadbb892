//! What is found of a partition, as an object of JSON for programs.

use crate::extent::last_row;
use crate::lines::sign_of;
use crate::reached::Reached;
use crate::reasons::{Finding, Reasons};
use crate::seeking::Match;
use crate::sides::Failure;
use crate::way::{Demand, Way};
use rp_json_line::JsonLine;
use rp_query::Query;
use rp_value::Value;
use std::alloc::{AllocError, Global};

/// What is found of the partition of a key, as a line without its line end.
pub fn object_line(
    alloc: Global,
    query: &Query,
    key: &[Value],
    rows: u64,
    finding: &Finding,
) -> Result<Vec<u8>, AllocError> {
    let mut line = JsonLine::new(alloc);
    write_object(&mut line, query, key, rows, finding);
    line.finish()
}

/// Writes what is found of the partition of a key.
fn write_object(line: &mut JsonLine, query: &Query, key: &[Value], rows: u64, finding: &Finding) {
    line.begin_object();
    if let Finding::GivenUp = finding {
        line.flag("given_up");
    }
    line.name("key");
    write_values(line, key);
    write_finding(line, query, finding);
    line.count("rows", rows);
    if let Finding::Unmatched(reasons) = finding {
        line.count("untried", reasons.untried);
        write_ways(line, reasons.ways.as_slice());
    }
    line.end_object();
}

/// Writes a match, or how far the searches come.
fn write_finding(line: &mut JsonLine, query: &Query, finding: &Finding) {
    match finding {
        Finding::GivenUp => {}
        Finding::NoRow(_) => {
            line.name("match");
            line.null();
        }
        Finding::Matched(found) => {
            line.name("match");
            write_match(line, query, found);
        }
        Finding::Unmatched(reasons) => {
            line.name("match");
            line.null();
            write_reached(line, reasons);
        }
    }
}

/// Writes a match with the variables of its rows.
fn write_match(line: &mut JsonLine, query: &Query, found: &Match) {
    line.begin_object();
    line.count("first", found.first);
    line.count("last", last_row(found));
    line.name("variables");
    line.begin_array();
    for label in found.labels.as_slice() {
        match query.variables().get(label.var) {
            Some(name) => line.string(name.as_str()),
            None => line.null(),
        }
    }
    line.end_array();
    line.end_object();
}

/// Writes how far the searches come.
fn write_reached(line: &mut JsonLine, reasons: &Reasons) {
    line.name("reached");
    let Some(reached) = &reasons.reached else {
        return line.null();
    };
    line.begin_object();
    line.count("first", reached.found.first);
    line.count("last", last_row(&reached.found));
    write_parts(line, reached);
    line.end_object();
}

/// Writes which parts are found, and which isn't.
fn write_parts(line: &mut JsonLine, reached: &Reached) {
    line.text("next", reached.wanted.as_str());
    line.count("of", reached.of);
    line.count("parts", reached.parts);
}

/// Writes what is in the way.
fn write_ways(line: &mut JsonLine, ways: &[Way]) {
    line.name("ways");
    line.begin_array();
    for way in ways {
        write_way(line, way);
    }
    line.end_array();
}

/// Writes a demand without which there is a match.
fn write_way(line: &mut JsonLine, way: &Way) {
    line.begin_object();
    line.name("demand");
    write_demand(line, &way.demand);
    line.count("first", way.first);
    line.count("last", way.last);
    line.end_object();
}

/// Writes a demand.
fn write_demand(line: &mut JsonLine, demand: &Demand) {
    line.begin_object();
    match demand {
        Demand::Term(term) => {
            if let Some(failure) = &term.failure {
                write_failure(line, failure);
            }
            line.text("term", term.written.as_str());
            line.text("variables", term.variables.as_str());
        }
        Demand::LowerBound(bound) => {
            line.text("instead", bound.instead.as_str());
            line.text("part", bound.part.as_str());
            line.text("quantifier", bound.written.as_str());
        }
        Demand::Anchor(anchor) => line.text("anchor", anchor.as_str()),
        Demand::RowBetween(row) => line.count("row_between", *row),
    }
    line.end_object();
}

/// Writes where a term isn't true, and its sides there.
fn write_failure(line: &mut JsonLine, failure: &Failure) {
    line.count("failing_rows", failure.count);
    if let Some(sides) = &failure.sides {
        line.name("left");
        write_value(line, &sides.left);
        line.text("operator", sign_of(sides.comparison));
        line.name("right");
        write_value(line, &sides.right);
    }
    line.count("row", failure.row);
}

/// Writes values.
fn write_values(line: &mut JsonLine, values: &[Value]) {
    line.begin_array();
    for value in values {
        write_value(line, value);
    }
    line.end_array();
}

/// Writes a value.
fn write_value(line: &mut JsonLine, value: &Value) {
    match value {
        Value::Int(number) => line.integer(*number),
        Value::Text(text) => line.string(text.as_str()),
        Value::Null => line.null(),
    }
}
