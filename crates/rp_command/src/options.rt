//! What each command takes, in the order in which help lists it.
use crate::argument::{Argument, Form, Presence};

/// The arguments of `trace`.
pub(crate) const TRACE: &[Argument] = &[Argument {
    name: "PATTERN",
    value: "",
    help: "Variables A to Z, `( )`, `|` and `*`, as \"(A B | A)* C\"",
    form: Form::Place,
    presence: Presence::Required,
}];

/// The arguments of `whole`.
pub(crate) const WHOLE: &[Argument] = &[
    COLUMNS_AS_TABLE,
    COLUMNS,
    DELIMITER,
    NULL,
    NO_HEADER,
    FROM,
    CLAUSE,
    Argument {
        name: "format",
        value: "FORMAT",
        help: "How the answer is printed: lines (of JSON), csv or objects (of JSON)",
        form: Form::Text,
        presence: Presence::Usual("lines"),
    },
    Argument {
        name: "progress",
        value: "",
        help: "Reports every few seconds on standard error how far it is",
        form: Form::Flag,
        presence: Presence::Optional,
    },
    WHERE,
    Argument {
        name: "most-turns",
        value: "N",
        help: "Ends a partition's answer where a start row takes more turns",
        form: Form::Number,
        presence: Presence::Optional,
    },
    FILES,
];

/// The arguments of `node`.
pub(crate) const NODE: &[Argument] = &[
    Argument {
        name: "table",
        value: "TEXT",
        help: TABLE_HELP,
        form: Form::Text,
        presence: Presence::Required,
    },
    CLAUSE,
    Argument {
        name: "listen",
        value: "ADDR",
        help: "Where to listen, as 127.0.0.1:7000",
        form: Form::Text,
        presence: Presence::Required,
    },
    Argument {
        name: "state",
        value: "FILE",
        help: "The file in which the node keeps its state",
        form: Form::Text,
        presence: Presence::Required,
    },
    Argument {
        name: "connections",
        value: "N",
        help: "How many connections to serve; else the node never ends by itself",
        form: Form::Number,
        presence: Presence::Optional,
    },
    Argument {
        name: "idle",
        value: "SECONDS",
        help: "Ends a connection that is silent for so long, or takes so long over a line",
        form: Form::Number,
        presence: Presence::Optional,
    },
    Argument {
        name: "acknowledge",
        value: "",
        help: "Writes {\"saved\":N} once FILE has what N lines did",
        form: Form::Flag,
        presence: Presence::Optional,
    },
    Argument {
        name: "verbose",
        value: "",
        help: "Reports on standard error what goes on",
        form: Form::Flag,
        presence: Presence::Optional,
    },
];

/// The arguments of `source`.
pub(crate) const SOURCE: &[Argument] = &[
    COLUMNS_AS_TABLE,
    COLUMNS,
    DELIMITER,
    NULL,
    NO_HEADER,
    FROM,
    CLAUSE,
    Argument {
        name: "budget",
        value: "N",
        help: "The most turns of a poll",
        form: Form::Number,
        presence: Presence::Usual("100000"),
    },
    Argument {
        name: "idle",
        value: "SECONDS",
        help: "Ends where a node is silent for so long",
        form: Form::Number,
        presence: Presence::Optional,
    },
    Argument {
        name: "acknowledge",
        value: "",
        help: "Waits until each node says that it saved",
        form: Form::Flag,
        presence: Presence::Optional,
    },
    Argument {
        name: "verbose",
        value: "",
        help: "Reports on standard error what a node refused",
        form: Form::Flag,
        presence: Presence::Optional,
    },
    Argument {
        name: "ADDR",
        value: "",
        help: "Where the nodes listen, as 127.0.0.1:7000 127.0.0.1:7001",
        form: Form::Places,
        presence: Presence::Required,
    },
];

/// The arguments of `check`.
pub(crate) const CHECK: &[Argument] = &[
    COLUMNS_AS_TABLE,
    COLUMNS,
    DELIMITER,
    NULL,
    NO_HEADER,
    FROM,
    Argument {
        name: "clause",
        value: "TEXT",
        help: CLAUSE_HELP,
        form: Form::Text,
        presence: Presence::Optional,
    },
    REPORT_FORMAT,
    WHERE,
    FILES,
];

/// The arguments of `why`.
pub(crate) const WHY: &[Argument] = &[
    COLUMNS_AS_TABLE,
    COLUMNS,
    DELIMITER,
    NULL,
    NO_HEADER,
    FROM,
    CLAUSE,
    REPORT_FORMAT,
    Argument {
        name: "key",
        value: "JSON",
        help: "The partition that is asked about: its key, as [\"eve\",1]",
        form: Form::Text,
        presence: Presence::Optional,
    },
    Argument {
        name: "row",
        value: "N",
        help: "The row that a match should begin with, from 1",
        form: Form::Number,
        presence: Presence::Optional,
    },
    WHERE,
    Argument {
        name: "most-turns",
        value: "N",
        help: "The most turns of the searches for a match [default: 10000000]",
        form: Form::Number,
        presence: Presence::Optional,
    },
    FILES,
];

/// What help tells of an option that names a table.
const TABLE_HELP: &str = "The columns with their kinds, as \"sym text, t int, p int\"";

/// What help tells of an option that names a clause.
const CLAUSE_HELP: &str = "The clause, as \"PATTERN (A B+) DEFINE B AS p < PREV(p)\"";

/// The columns of an input, as a table.
const COLUMNS_AS_TABLE: Argument = Argument {
    name: "table",
    value: "TEXT",
    help: TABLE_HELP,
    form: Form::Text,
    presence: Presence::Optional,
};

/// The columns of an input, with what they are read from.
const COLUMNS: Argument = Argument {
    name: "columns",
    value: "TEXT",
    help: "The columns and how they are read, as \"sym text, t = seconds(Time)\"",
    form: Form::Text,
    presence: Presence::Optional,
};

/// What is between the fields of an input.
const DELIMITER: Argument = Argument {
    name: "delimiter",
    value: "CHARACTER",
    help: "What is between the fields of a record, as ; or \\t",
    form: Form::Text,
    presence: Presence::Optional,
};

/// The fields of an input that are null.
const NULL: Argument = Argument {
    name: "null",
    value: "WORD",
    help: "A field that is null; it may be given again and again",
    form: Form::Texts,
    presence: Presence::Optional,
};

/// Whether an input has no header.
const NO_HEADER: Argument = Argument {
    name: "no-header",
    value: "",
    help: "The first record is a row: the columns are the fields in order",
    form: Form::Flag,
    presence: Presence::Optional,
};

/// What an input is.
const FROM: Argument = Argument {
    name: "from",
    value: "FORMAT",
    help: "What the input is: csv, or jsonl (an object of JSON in each line)",
    form: Form::Text,
    presence: Presence::Usual("csv"),
};

/// A clause that must be given.
const CLAUSE: Argument = Argument {
    name: "clause",
    value: "TEXT",
    help: CLAUSE_HELP,
    form: Form::Text,
    presence: Presence::Required,
};

/// A condition of rows.
const WHERE: Argument = Argument {
    name: "where",
    value: "CONDITION",
    help: "Leaves out the rows that don't meet this condition, as \"p > 0\"",
    form: Form::Text,
    presence: Presence::Optional,
};

/// How what is found is printed.
const REPORT_FORMAT: Argument = Argument {
    name: "format",
    value: "FORMAT",
    help: "How what is found is printed: text or json",
    form: Form::Text,
    presence: Presence::Usual("text"),
};

/// The files of an input.
const FILES: Argument = Argument {
    name: "FILE",
    value: "",
    help: "The files of the input, one after another; else standard input is read",
    form: Form::Places,
    presence: Presence::Optional,
};
