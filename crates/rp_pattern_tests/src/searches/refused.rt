//! Runs in which an allocation may be refused. The refused call is made again, and from there on each row is entered as
//! by a search that is made then: the outcome, the labels and the calls of `enter` are its.

use super::script::{Case, all_come_to};
use std::test::Fail;

const REFUSED: [Case; 4] = [
    // One run, or one after another with a budget of few turns each.
    Case {
        pattern: "A * B then",
        reach: 0,
        first: "",
        second: "",
        stages: "3$",
        outcomes: "AAB ",
        calls: &["A AA AAA AAB |", "!A AA AAA AAB |"],
    },
    // Each stage goes on from where the one before waited. A stage that was refused begins again at row 1.
    Case {
        pattern: "A * B then",
        reach: 0,
        first: "",
        second: "",
        stages: "1 2 2$",
        outcomes: "waits waits AB ",
        calls: &[
            "A |AA |AB |",
            "!A |AA |AB |",
            "A |!A AA |AB |",
            "A |AA |!A AA AB |",
        ],
    },
    // A's test is open while its row is the last known one.
    Case {
        pattern: "A B then",
        reach: 1,
        first: "",
        second: "",
        stages: "1 2",
        outcomes: "waits AB ",
        calls: &["A |AB |", "!A |AB |", "A |!A AB |"],
    },
    // The first order is refused at row 1.
    Case {
        pattern: "A {-} B {1,2}? &2",
        reach: 0,
        first: "-",
        second: "",
        stages: "2$",
        outcomes: "Ba ",
        calls: &["a B Ba |", "!a B Ba |"],
    },
];

#[test]
fn refused_runs_are_made_again(rt: HostRuntime) -> Result<(), Fail> {
    all_come_to(&rt, rt.alloc(), &REFUSED)
}
