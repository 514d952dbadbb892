//! What people write that no clause has, by words.

use rp_wording::{Entry, Hint, look_up};

/// What is said where SQL round the clause is met.
const ROUND: &str = "only what is in MATCH_RECOGNIZE ( .. ) is read";

/// What to write in place of it.
const COLUMNS: &str =
    "leave SELECT and FROM out: the columns are chosen by MEASURES, and what is printed can be filtered";

/// What is said of dates and times.
const NO_DATES: &str = "there are no dates and times";

/// What to write in place of them.
const DATES: &str =
    "in a column of text, dates as 2024-01-05 are ordered and compared: t >= '2024-01-05'\n\
            to subtract, let the column be whole numbers, as seconds: t - PREV(t) <= 3600";

/// What to write in place of a length of time.
const LENGTHS: &str =
    "write a whole number in the column's unit: t - FIRST(t) <= 3600 is an hour where t is in seconds";

/// What is said of CASE.
const NO_CASE: &str = "there is no CASE";

/// What to write in place of it.
const CASES: &str = "write a variable for each case, joined by |, and CLASSIFIER() as a measure";

/// What to write in place of a function.
const COLUMN: &str = "let one more column of the file have the value";

/// Words that can't stand where they are met.
const HERE: [Entry; 26] = [
    ("SELECT FROM CREATE INSERT UNION JOIN", ROUND, COLUMNS),
    (
        "WHERE HAVING FILTER QUALIFY",
        "there is no WHERE",
        "put the condition into DEFINE, or leave the rows out of the file",
    ),
    (
        "GROUP",
        "there is no GROUP BY",
        "PARTITION BY gives each value a list of rows of its own",
    ),
    (
        "LIMIT OFFSET FETCH TOP",
        "there is no LIMIT",
        "cut what is printed: | head -n 10",
    ),
    (
        "BETWEEN",
        "there is no BETWEEN",
        "write x >= 3 AND x <= 7, with what is compared in place of x",
    ),
    (
        "IN",
        "there is no IN",
        "write (x = 'a' OR x = 'b'), with what is compared in place of x",
    ),
    (
        "LIKE ILIKE RLIKE SIMILAR REGEXP GLOB ESCAPE",
        "there is no LIKE",
        "let one more column of the file say whether the text fits",
    ),
    (
        "WITHIN",
        "there is no WITHIN",
        "bound the time in each condition: t - FIRST(t) <= 3600 is an hour where t is in seconds",
    ),
    ("INTERVAL", "there are no intervals", LENGTHS),
    (
        "NULLS",
        "there is no NULLS FIRST and NULLS LAST",
        "null comes last ascending, first descending; else order by one more column of 0 and 1 before",
    ),
    ("WHEN THEN ELSE END", NO_CASE, CASES),
    (
        "SEEK",
        "there is no SEEK",
        "leave the word out: a match may begin at any row",
    ),
    (
        "INITIAL",
        "there is no INITIAL",
        "write ^ in its place, in front inside of the pattern's brackets, as in PATTERN (^ A B+): a match begins at the first row then",
    ),
    (
        "OVER WINDOW",
        "there is no OVER and no WINDOW",
        "PARTITION BY and ORDER BY come in front of the clause",
    ),
    (
        "DIV MOD",
        "there is no division",
        "multiply the other side: p * 100 < 95 * PREV(p)",
    ),
    (
        "ASCENDING DESCENDING",
        "the words are ASC and DESC",
        "write ORDER BY t DESC",
    ),
    ("ISNULL", "there is no ISNULL", "write p IS NULL"),
    ("NOTNULL", "there is no NOTNULL", "write p IS NOT NULL"),
    (
        "DISTINCT",
        "there is no DISTINCT",
        "MIN and MAX differ where there are two or more values",
    ),
    (
        "COLLATE",
        "there is no COLLATE",
        "texts are ordered and compared by their bytes",
    ),
    (
        "XOR",
        "there is no XOR",
        "write (a AND NOT b OR b AND NOT a)",
    ),
    (
        "HOUR HOURS MINUTE MINUTES SECOND SECONDS DAY DAYS MILLISECOND MILLISECONDS",
        "there are no units of time",
        LENGTHS,
    ),
    ("EXISTS ANY SOME", "there are no subqueries", COLUMN),
    (
        "RETURN EMIT",
        "there is no such part",
        "MEASURES says what is printed",
    ),
    (
        "EXCEPT EXCLUDING",
        "there is no such word",
        "rows that are not to be shown are written in {- .. -} in PATTERN",
    ),
    (
        "UNTIL",
        "there is no UNTIL",
        "a quantifier with ? stops as soon as it can: A*? B",
    ),
];

/// Words after which a clause can't go on as they are meant.
const BEHIND: [Entry; 7] = [
    (
        "SELECT",
        "there are no subqueries",
        "let one more column of the file have the value",
    ),
    ("CASE", NO_CASE, CASES),
    (
        "DISTINCT",
        "there is no DISTINCT",
        "MIN and MAX differ where there are two or more values",
    ),
    ("INTERVAL", "there are no intervals", LENGTHS),
    ("DATE TIME TIMESTAMP TIMESTAMPTZ DATETIME", NO_DATES, DATES),
    ("EXISTS ANY SOME", "there are no subqueries", COLUMN),
    ("ARRAY ROW_NUMBER", "there is no such value", COLUMN),
];

/// Functions that there aren't, and what to write in place of each.
const FUNCTIONS: [Entry; 16] = [
    (
        "AVG MEAN AVERAGE",
        "there is no such function",
        "give SUM(p) and COUNT(p) as two measures\n\
            in a condition multiply: for p > AVG(A.p) write p * COUNT(A.p) > SUM(A.p)",
    ),
    (
        "ABS",
        "there is no such function",
        "write both sides: p - q < 5 AND q - p < 5, or (p - q > 5 OR q - p > 5)",
    ),
    (
        "LAG PREVIOUS PRIOR",
        "there is no such function",
        "write PREV(p), or PREV(p, 2)",
    ),
    (
        "LEAD FOLLOWING",
        "there is no such function",
        "write NEXT(p), or NEXT(p, 2)",
    ),
    (
        "FIRST_VALUE EARLIEST",
        "there is no such function",
        "write FIRST(A.p)",
    ),
    (
        "LAST_VALUE LATEST NTH_VALUE",
        "there is no such function",
        "write LAST(A.p), or LAST(A.p, 1)",
    ),
    (
        "ROW_NUMBER RANK DENSE_RANK NTILE",
        "there is no such function",
        "COUNT(*) counts the rows of the match so far, MATCH_NUMBER() the matches",
    ),
    (
        "COALESCE NVL IFNULL ZEROIFNULL",
        "there is no such function",
        "COALESCE(p, 0) > 5 is p > 5, for 0 doesn't meet it; COALESCE(p, 0) < 5 is (p < 5 OR p IS NULL), for 0 does",
    ),
    (
        "NULLIF",
        "there is no such function",
        "NULLIF(p, 0) > 5 is (p > 5 AND p <> 0)",
    ),
    (
        "COUNT_IF COUNTIF SUM_IF SUMIF",
        "there is no such function",
        "give the rows a variable of their own, and count them: COUNT(A.*)",
    ),
    (
        "IF IIF DECODE GREATEST",
        "there is no such function",
        "write a variable for each case, joined by |",
    ),
    (
        "ROUND FLOOR CEIL CEILING TRUNC TRUNCATE SQRT POWER POW MOD DIV SIGN LEAST EXP LN LOG LOG10 RAND",
        "there is no such function",
        COLUMN,
    ),
    (
        "UPPER LOWER SUBSTR SUBSTRING LENGTH LEN TRIM LTRIM RTRIM CONCAT REPLACE LEFT RIGHT INSTR POSITION SPLIT_PART REGEXP_LIKE STARTS_WITH CONTAINS",
        "there is no such function",
        COLUMN,
    ),
    (
        "CAST CONVERT TRY_CAST TO_DATE TO_CHAR TO_NUMBER TO_TIMESTAMP",
        "there is no such function",
        "a column's kind, int or text, is in the table; else let one more column of the file have the value",
    ),
    (
        "DATE TIME TIMESTAMP EXTRACT DATEDIFF DATEADD DATE_DIFF DATE_TRUNC TIMESTAMPDIFF TIMESTAMPADD EPOCH UNIX_TIMESTAMP UNIXEPOCH STRFTIME NOW YEAR MONTH DAY HOUR MINUTE SECOND",
        "there is no such function",
        DATES,
    ),
    (
        "STDDEV STDDEV_POP STDDEV_SAMP VARIANCE VAR_POP VAR_SAMP MEDIAN PERCENTILE_CONT ARRAY_AGG STRING_AGG LISTAGG GROUP_CONCAT FIRST_ROWTIME MATCH_ROWTIME",
        "there is no such function",
        "the aggregates are COUNT, SUM, MIN and MAX; ALL ROWS PER MATCH prints every row",
    ),
];

/// Functions that there aren't and of which something else is told in MEASURES, where no condition comes.
const MEASURED: [Entry; 3] = [
    (
        "COALESCE NVL IFNULL ZEROIFNULL",
        "there is no such function",
        "null is kept: write the measure alone, as LAST(p) AS ended",
    ),
    (
        "NULLIF",
        "there is no such function",
        "the value is kept: write the measure alone, as LAST(p) AS ended",
    ),
    (
        "ABS",
        "there is no such function",
        "the sign is kept: write the measure alone, as LAST(p) - FIRST(p) AS change",
    ),
];

/// The functions that there are.
pub(crate) const KNOWN: &str = "COUNT SUM MIN MAX FIRST LAST PREV NEXT CLASSIFIER MATCH_NUMBER";

/// What is said of a word that can't stand where it is met. (Each function that names a table has all of it to prove.)
pub(crate) fn misplaced_word(word: &str) -> Option<Hint> {
    look_up(&HERE, word)
}

/// What is said of a word after which a clause can't go on as it is meant.
pub(crate) fn misplaced_behind(word: &str) -> Option<Hint> {
    look_up(&BEHIND, word)
}

/// What is said of the name of a function that there isn't.
pub(crate) fn missing_function(name: &str) -> Option<Hint> {
    look_up(&FUNCTIONS, name)
}

/// The same of a function that is called in MEASURES, where that is something else.
pub(crate) fn missing_measure(name: &str) -> Option<Hint> {
    look_up(&MEASURED, name)
}

/// Whether a word, in any case, is the name of a function that people know from elsewhere and that there isn't.
pub fn is_missing_function(word: &str) -> bool {
    missing_function(word).is_some()
}

/// What is said where SQL round the clause is met, and what to write in place of it.
pub fn sql_around() -> Hint {
    Hint {
        what: ROUND,
        help: COLUMNS,
    }
}
