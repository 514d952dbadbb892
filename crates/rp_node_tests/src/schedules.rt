//! Random schedules of three nodes of one clause: rows that come late, twice, in any order or not at all, closes, polls of
//! few turns and of many, saves, and restarts from any earlier save of the node or from nothing. Each item that a node gives,
//! in any of its lives, is the plain program's for the whole partition at that place. A node that is idle has given all that
//! the plain program knows of the rows up to its front; and one that took all rows and the close, the whole answer.
mod clauses;
mod partition;
mod simulated;

use crate::support::{V, query_of};
use clauses::CLAUSES;
use partition::Partition;
use rp_query::Query;
use rp_reference::Dice;
use simulated::{Simulated, Whole};
use std::alloc::Global;
use std::env;
use std::env::VarError;
use std::test::Fail;

/// How often each clause has another partition. `SCHEDULE_ROUNDS` and `SCHEDULE_SEED` are read in place of these.
const ROUNDS: u64 = 8;

const SEED: u64 = 1;

/// Schedules over one partition, and the events of one.
const SCHEDULES: u64 = 10;

const EVENTS: u64 = 40;

#[test]
fn random_schedules(rt: HostRuntime) -> Result<(), Fail> {
    let rounds = number_of(&rt, "SCHEDULE_ROUNDS", ROUNDS)?;
    let seed = number_of(&rt, "SCHEDULE_SEED", SEED)?;
    each_clause(rt.alloc(), rounds, seed, CLAUSES)
}

/// A number of the environment, or the usual one.
fn number_of(rt: &HostRuntime, name: &str, usual: u64) -> Result<u64, Fail> {
    match env::var(rt, name) {
        Ok(text) => Ok(text.as_str().parse::<u64>()?),
        Err(VarError::NotPresent) => Ok(usual),
        Err(fault) => Err(Fail::from(fault)),
    }
}

fn each_clause(alloc: Global, rounds: u64, seed: u64, clauses: &[&str]) -> Result<(), Fail> {
    for clause in clauses {
        let query = query_of(alloc, *clause)?;
        each_round(alloc, rounds, seed, &query)?;
    }
    Ok(())
}

fn each_round(alloc: Global, rounds: u64, seed: u64, query: &Query) -> Result<(), Fail> {
    for round in 0..rounds {
        each_schedule(alloc, seed.wrapping_add(round), query)?;
    }
    Ok(())
}

/// Schedules over one partition.
fn each_schedule(alloc: Global, seed: u64, query: &Query) -> Result<(), Fail> {
    let mut dice = Dice::new(seed);
    let partition = Partition::new(alloc, query, &mut dice)?;
    for schedule in 0..SCHEDULES {
        let whole = Whole {
            alloc,
            query,
            partition: &partition,
            seed,
            schedule,
        };
        run(whole, &mut dice)?;
    }
    Ok(())
}

/// One schedule of three nodes, which are polled by other budgets at its end.
fn run(whole: Whole<'_>, dice: &mut Dice) -> Result<(), Fail> {
    let mut nodes = Vec::new(whole.alloc);
    for budget in &[1, 100_000, 7] {
        nodes.push(Simulated::new(whole, *budget)?)?;
    }
    act(nodes.as_mut_slice(), dice)?;
    finish(nodes.as_mut_slice())
}

/// Events, each of any of the nodes.
fn act(nodes: &mut [Simulated<'_>], dice: &mut Dice) -> Result<(), Fail> {
    for _event in 0..EVENTS {
        if let Some(node) = nodes.get_mut(dice.below(3)) {
            node.act(dice)?;
        }
    }
    Ok(())
}

/// All nodes take all that is left.
fn finish(nodes: &mut [Simulated<'_>]) -> Result<(), Fail> {
    for node in nodes {
        node.finish()?;
    }
    Ok(())
}
