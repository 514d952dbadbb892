//! What follows of the definitions of lines, for the crates above. A call does nothing, and its caller may then use it.
ghost use Rattle.rp_protocol.specs.ObjectsRead.{ObjectsHaveCells, ObjectsReadBack};
ghost use Rattle.rp_protocol.specs.ReplyLaw.{RepliesReadBack, RepliesReadBackWithin};

/// What a reader of JSON reads of an output row's object: the object whose members are the cells, in the order of the columns
/// and each under its column's name; and where no two columns have one name, it finds each cell under the name of its column.
pub fn law_objects()
    ensures read { ObjectsReadBack }
    ensures found { ObjectsHaveCells }
{}

/// The law of replies: what `reply_line` writes, unless it is too long or names column 0, `reply_of` reads as the same.
pub fn law_replies()
    ensures { RepliesReadBack }
{}

/// The same of `reply_within`, whatever the greatest length of a line is.
pub fn law_replies_within()
    ensures { RepliesReadBackWithin }
{}
