//! What people write in a table and can't stand in one.

use rp_wording::Entry;

/// Constraints, signs in a name, and kinds of columns that there aren't.
pub(crate) const KINDS: [Entry; 12] = [
    (
        "NOT NULL",
        "a table has no constraints",
        "leave it out: every column may be null",
    ),
    (
        "-",
        "a name with a minus sign is written in quotes",
        "write \"net-price\" int, as the header has it",
    ),
    (
        ".",
        "a name with a point is written in quotes",
        "write \"a.b\" int, as the header has it",
    ),
    (
        "TIMESTAMP TIMESTAMPTZ DATETIME DATETIME2 DATE TIME TIMETZ INTERVAL YEAR",
        "there is no kind for dates and times",
        "write text for dates as 2024-01-05, which are then ordered and compared as they should be\n\
            to subtract them, write int, and let the file have seconds",
    ),
    (
        "DECIMAL NUMERIC FLOAT FLOAT4 FLOAT8 FLOAT64 DOUBLE REAL MONEY NUMBER DEC",
        "there are no fractions",
        "write int, and let the file have a smaller unit, as cents",
    ),
    (
        "STRING STR CHAR CHARACTER NCHAR NVARCHAR VARCHAR2 NVARCHAR2 CLOB UUID NAME SYMBOL ENUM JSON JSONB SYMBOLS",
        "the kind for texts is text",
        "write text",
    ),
    (
        "INT2 INT4 INT8 INT16 INT32 INT64 SMALLINT TINYINT MEDIUMINT HUGEINT LONG SHORT BYTE SERIAL BIGSERIAL UINT UINT8 UINT16 UINT32 UINT64 UBIGINT UINTEGER SIGNED UNSIGNED COUNTER I64 U64 I32 U32",
        "the kind for whole numbers is int",
        "write int, which has 64 bits with sign",
    ),
    (
        "BOOL BOOLEAN BIT",
        "there is no kind for true and false",
        "write text, or int where the file has 0 and 1",
    ),
    (
        "BLOB BYTEA BINARY VARBINARY BYTES RAW",
        "there is no kind for bytes",
        "write text, for what is UTF-8",
    ),
    (
        "PRIMARY KEY UNIQUE REFERENCES DEFAULT CHECK CONSTRAINT NULLABLE COLLATE GENERATED",
        "a table has no constraints",
        "write a name and a kind for each column, and no more; every column may be null",
    ),
    (
        "ARRAY LIST STRUCT MAP",
        "there are no values in values",
        "write text",
    ),
    (
        "TABLE",
        "only the columns are read",
        "write sym text, t int, p int",
    ),
];
