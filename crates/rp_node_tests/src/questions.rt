//! Answers to questions over texts in memory: several inputs, a condition, each form of an answer, inputs that are no rows, texts that make
//! no question.
use crate::support::{V, fixed_hasher, holds, prices, refused_twice};
use rp_compile::CompileFault;
use rp_input::{CsvFault, CsvLayout};
use rp_io::MemoryOutput;
use rp_question::{AnswerFault, InputFault, InputShape, Question, QuestionFault, Reading, Texts};
use rp_whole::{EndedEarly, WholeFault};
use std::alloc::{AllocError, Global};
use std::test::Fail;

/// More bytes than any of the answers has.
const ROOM: usize = 1_000;

/// How answers are written.
#[derive(Clone, Copy)]
enum Form {
    Lines,
    Records,
    Objects,
}

/// Two inputs, of which the second one has the first row of the partition `x`, by its time.
const INPUTS: &[&str] = &[
    "sym,t,p\nx,2,8\ny,1,5\nx,1,10\n",
    "sym,t,p\nx,3,6\nx,4,7\nx,0,99\nx,6,9\nx,5,9\n",
];

/// That first row doesn't meet this condition.
const CONDITION: &str = "p < 50";

/// What comes of a question over these inputs, in a form: the answer, or the fault after which nothing was written.
#[derive(Clone, Copy)]
struct Case {
    inputs: &'static [&'static str],
    condition: Option<&'static str>,
    form: Form,
    comes: Result<&'static str, InputFault>,
}

const CASES: &[Case] = &[
    Case {
        inputs: INPUTS,
        condition: Some(CONDITION),
        form: Form::Lines,
        comes: Ok(
            "\
{\"cells\":[\"x\",1,10,6,9],\"key\":[\"x\"],\"number\":1,\"place\":\"1\"}
{\"end\":true,\"key\":[\"x\"],\"place\":\"2\"}
{\"end\":true,\"key\":[\"y\"],\"place\":\"1\"}
",
        ),
    },
    Case {
        inputs: INPUTS,
        condition: Some(CONDITION),
        form: Form::Records,
        comes: Ok("SYM,N,A,LO,HI\nx,1,10,6,9\n"),
    },
    Case {
        inputs: INPUTS,
        condition: None,
        form: Form::Objects,
        comes: Ok("{\"SYM\":\"x\",\"N\":1,\"A\":99,\"LO\":6,\"HI\":9}\n"),
    },
    Case {
        inputs: &["sym,t,p\nx,1,2\n", "sym,t,p\nx,2,3\nx,3,six\n"],
        condition: None,
        form: Form::Records,
        comes: Err(InputFault::Table(CsvFault::Field(2))),
    },
    Case {
        inputs: &[],
        condition: None,
        form: Form::Records,
        comes: Ok("SYM,N,A,LO,HI\n"),
    },
];

/// Each case, also where a call is refused memory and is made again.
#[test]
fn answers(rt: HostRuntime) -> Result<(), Fail> {
    for case in CASES {
        comes(rt.alloc(), case)?;
    }
    Ok(())
}

/// What comes in a case is what is wanted.
fn comes(alloc: Global, case: &Case) -> Result<(), Fail> {
    let shape = InputShape::Table(prices(alloc)?);
    let texts = texts_of(alloc, case.inputs)?;
    for _attempt in 0..2 {
        let mut sink = MemoryOutput::new(alloc, ROOM, ROOM, 0)?;
        let came = answered(alloc, case, &shape, texts.as_slice(), &mut sink);
        if !is_out_of_memory(&came) {
            return is_as_wanted(case, came, sink.bytes());
        }
    }
    Err(refused_twice())
}

fn texts_of(alloc: Global, inputs: &[&str]) -> Result<Vec<Vec<u8>>, AllocError> {
    let mut texts = Vec::new(alloc);
    for input in inputs {
        let mut text = Vec::new(alloc);
        text.extend_from_slice(input.as_bytes())?;
        texts.push(text)?;
    }
    Ok(texts)
}

/// Answers the question of a case.
fn answered(
    alloc: Global,
    case: &Case,
    shape: &InputShape,
    texts: &[Vec<u8>],
    sink: &mut MemoryOutput,
) -> Result<EndedEarly, AnswerFault> {
    let Ok(question) = Question::new(alloc, V, case.condition, by(shape)) else {
        return Err(AnswerFault::Input(InputFault::OutOfMemory));
    };
    let Ok(hasher) = fixed_hasher() else {
        return Err(AnswerFault::Input(InputFault::OutOfMemory));
    };
    let mut inputs = Texts::new(alloc, texts);
    match case.form {
        Form::Lines => question.answer_lines(alloc, &mut inputs, None, sink, hasher),
        Form::Records => question.answer_csv(alloc, &mut inputs, None, sink, hasher),
        Form::Objects => question.answer_objects(alloc, &mut inputs, None, sink, hasher),
    }
}

fn by(shape: &InputShape) -> Reading<'_> {
    Reading {
        shape,
        layout: CsvLayout::plain(),
        nulls: &[],
    }
}

fn is_out_of_memory(came: &Result<EndedEarly, AnswerFault>) -> bool {
    matches!(
        came,
        Err(
            AnswerFault::Input(InputFault::OutOfMemory | InputFault::Table(CsvFault::OutOfMemory))
                | AnswerFault::Output(WholeFault::OutOfMemory)
        )
    )
}

fn is_as_wanted(
    case: &Case,
    came: Result<EndedEarly, AnswerFault>,
    written: &[u8],
) -> Result<(), Fail> {
    match (came, case.comes) {
        (Ok(_early), Ok(answer)) => holds(written == answer.as_bytes(), "another answer"),
        (Err(AnswerFault::Input(InputFault::Table(came))), Err(InputFault::Table(wanted))) => {
            holds(came == wanted && written.is_empty(), "another fault")
        }
        _ => Err(Fail::from("another end")),
    }
}

/// The clause is looked at before the condition.
#[test]
fn no_questions(rt: HostRuntime) -> Result<(), Fail> {
    let shape = InputShape::Table(prices(rt.alloc())?);
    let no_clause = Question::new(rt.alloc(), "PATTERN (A", Some("p >"), by(&shape));
    holds(
        matches!(no_clause, Err(QuestionFault::Clause(_))),
        "a clause of no pattern",
    )?;
    match Question::new(rt.alloc(), V, Some("p >"), by(&shape)) {
        Err(QuestionFault::Condition(_)) => Ok(()),
        Err(QuestionFault::Clause(CompileFault::OutOfMemory)) => Err(Fail::from(AllocError)),
        _ => Err(Fail::from("a condition of half a comparison")),
    }
}
